//! Where two outcomes differ first.

ghost use Rattle.std.specs.Prelude.{◌≢◌, ◌<◌, length};
ghost use Rattle.accepted_outputs.specs.Judging.{DifferFirstAt};

use events::Transcript;

/// The first session that is not told the same in two outcomes.
pub(crate) fn first_session(told: &[Transcript], accepted: &[Transcript]) -> u8
    requires few { length told.now < 256 }
    requires accepted_few { length accepted.now < 256 }
    requires differ { told.now ≢ accepted.now }
    ensures { DifferFirstAt told.now accepted.now result }
{
    let shorter = told.len().min(accepted.len());
    for session in 0..shorter {
        if !told[session].is_same(&accepted[session]) {
            return session as u8;
        }
    }
    shorter as u8
}
