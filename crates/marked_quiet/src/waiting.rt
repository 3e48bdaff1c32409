//! Whether nobody waits where a session holds a mode or its step asks one.

ghost use Rattle.std.specs.Prelude.{◌≡◌, ◌≤◌, ◌<◌, All, false, length, map};
ghost use Rattle.std.specs.List.{list_all};
ghost use Rattle.numbered_specs.specs.Numbers.{HasNumber, request_of, resource_of};
ghost use Rattle.plan_pairs.specs.Pairs.{asked_at};
ghost use Rattle.rank_facts.specs.Quiet as spec;
ghost use Rattle.marked_quiet.specs.Asked.{HasRequest, has_other_number, is_elsewhere};
ghost use Rattle.marked_quiet.specs.Waiting as waiting;

use crate::asking::{plan_of, statements_of};
use marked_worlds::MarkedWorld;
use numbered_specs::{NumberedRequest, ResourceNumber, numbers_are_apart};

/// Whether nobody waits where the session holds a mode or the step asks one.
pub(crate) fn undisturbed(world: &MarkedWorld<'_>, session: u8, step: u8) -> bool
    requires whole { world.now.spent ≡ false }
    requires session { session ≤ world.now.file.run.sessions }
    requires step { step < length world.now.file.run.steps }
    ensures { result ≡ spec.undisturbed world.now.world session (asked_at world.now.file.run step) }
{
    world.known();
    for other in 0..world.spec().sessions() + 1 {
        if !is_clear(world, session, step, other) {
            return false;
        }
    }
    true
}

/// Whether another session does not wait where the session holds a mode or the step asks one.
fn is_clear(world: &MarkedWorld<'_>, session: u8, step: u8, other: u8) -> bool
    requires whole { world.now.spent ≡ false }
    requires session { session ≤ world.now.file.run.sessions }
    requires step { step < length world.now.file.run.steps }
    ensures { result ≡ waiting.clear_of world.now.world session (asked_at world.now.file.run step) (waiting.wait_of world.now.world other) }
{
    match world.wait_at(other) {
        Some(number) => is_free(world, session, step, number),
        None => true,
    }
}

/// Whether the session holds nothing on this resource and the step asks nothing there.
fn is_free(world: &MarkedWorld<'_>, session: u8, step: u8, number: ResourceNumber) -> bool
    requires whole { world.now.spent ≡ false }
    requires session { session ≤ world.now.file.run.sessions }
    requires step { step < length world.now.file.run.steps }
    requires number { HasNumber world.now.numbers.resources number }
    ensures { result ≡ waiting.is_free world.now.world session (asked_at world.now.file.run step) (resource_of world.now.numbers.resources number) }
{
    world.holds(session, number).is_none() && none_asked(world, step, number)
}

/// Whether the step asks nothing on this resource.
fn none_asked(world: &MarkedWorld<'_>, step: u8, number: ResourceNumber) -> bool
    requires step { step < length world.now.file.run.steps }
    requires number { HasNumber world.now.numbers.resources number }
    ensures { result ≡ list_all (is_elsewhere (resource_of world.now.numbers.resources number)) (asked_at world.now.file.run step) }
{
    world.known();
    for statement in 0..statements_of(world, step) {
        if !none_asked_by(world, plan_of(world, step, statement), number) {
            return false;
        }
    }
    true
}

fn none_asked_by(world: &MarkedWorld<'_>, plan: &[NumberedRequest], number: ResourceNumber) -> bool
    requires known { All (HasRequest world.now.numbers.resources) plan.now }
    requires number { HasNumber world.now.numbers.resources number }
    ensures { result ≡ list_all (is_elsewhere (resource_of world.now.numbers.resources number)) (map (request_of world.now.numbers.resources) plan.now) }
{
    numbers_are_apart(); // for the proof
    world.known();
    has_other_numbers(plan, number)
}

fn has_other_numbers(plan: &[NumberedRequest], number: ResourceNumber) -> bool
    ensures { result ≡ list_all (has_other_number number) plan.now }
{
    plan.iter().all(|request| number != request.resource)
}
