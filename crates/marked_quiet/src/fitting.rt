//! Whether what a step asks for fits beside what other sessions hold.

ghost use Rattle.std.specs.Prelude.{◌≡◌, ◌<◌, All, false, length, map};
ghost use Rattle.numbered_specs.specs.Numbers.{request_of};
ghost use Rattle.plan_pairs.specs.Pairs.{asked_at};
ghost use Rattle.rank_facts.specs.Quiet.{all_fit};
ghost use Rattle.marked_quiet.specs.Asked.{HasRequest, fits_at};

use crate::asking::{plan_of, statements_of};
use marked_worlds::MarkedWorld;
use numbered_specs::NumberedRequest;

/// Whether each mode that a step asks is compatible with all modes that sessions other than this one hold there.
pub(crate) fn step_fits(world: &MarkedWorld<'_>, session: u8, step: u8) -> bool
    requires whole { world.now.spent ≡ false }
    requires step { step < length world.now.file.run.steps }
    ensures { result ≡ all_fit world.now.world session (asked_at world.now.file.run step) }
{
    world.known();
    for statement in 0..statements_of(world, step) {
        if !plan_fits(world, session, plan_of(world, step, statement)) {
            return false;
        }
    }
    true
}

fn plan_fits(world: &MarkedWorld<'_>, session: u8, plan: &[NumberedRequest]) -> bool
    requires whole { world.now.spent ≡ false }
    requires known { All (HasRequest world.now.numbers.resources) plan.now }
    ensures { result ≡ all_fit world.now.world session (map (request_of world.now.numbers.resources) plan.now) }
{
    for request in plan {
        if !request_fits(world, session, request) {
            return false;
        }
    }
    true
}

fn request_fits(world: &MarkedWorld<'_>, session: u8, request: &NumberedRequest) -> bool
    requires whole { world.now.spent ≡ false }
    requires known { HasRequest world.now.numbers.resources request.now }
    ensures { result ≡ fits_at world.now.world session (request_of world.now.numbers.resources request.now) }
{
    world.fits(session, request.resource, request.mode)
}
