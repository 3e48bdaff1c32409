//! What the statements of a step ask for, by numbers.

ghost use Rattle.std.specs.Prelude.{◌≡◌, ◌<◌, All, [], get_or, length};
ghost use Rattle.numbered_specs.specs.Numbers.{plans_of};
ghost use Rattle.marked_quiet.specs.Asked.{HasRequest};

use marked_worlds::MarkedWorld;
use numbered_specs::NumberedRequest;

/// How many statements the step sends: each has its plan.
pub(crate) fn statements_of(world: &MarkedWorld<'_>, step: u8) -> usize
    requires { step < length world.now.file.run.steps }
    ensures { result ≡ length (plans_of world.now.numbers.plans step) }
{
    world.known();
    world.spec().statements(step).len()
}

/// What a statement of the step asks for.
pub(crate) fn plan_of<'a>(
    world: &'a MarkedWorld<'_>,
    step: u8,
    statement: usize,
) -> &'a [NumberedRequest]
    requires step { step < length world.now.file.run.steps }
    requires statement { statement < length (plans_of world.now.numbers.plans step) }
    ensures is { result.now ≡ get_or (plans_of world.now.numbers.plans step) statement [] }
    ensures known { All (HasRequest world.now.numbers.resources) result.now }
{
    world.known();
    world.numbers().plan(step, statement)
}
