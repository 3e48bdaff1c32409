//! Whether outcomes are the same, session by session. No texts are made and no order is told.

ghost use Rattle.std.specs.Prelude.{◌≡◌, ◌↔◌, IsTrue};

use events::Transcript;

/// Whether two lists of sessions are told the same, each in its place.
pub(crate) fn are_same_sessions(a: &[Transcript], b: &[Transcript]) -> bool
    ensures { IsTrue result ↔ (a.now ≡ b.now) }
{
    if a.len() != b.len() {
        return false;
    }
    for place in 0..a.len() {
        if !a[place].is_same(&b[place]) {
            return false;
        }
    }
    true
}
