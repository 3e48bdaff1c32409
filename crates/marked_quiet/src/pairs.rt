//! Steps that do not meet.

ghost use Rattle.std.specs.Prelude.{◌≡◌, ◌<◌, IsTrue, false, get_or, length};
ghost use Rattle.bound_specs.specs.Spec.{no_step};
ghost use Rattle.plan_pairs.specs.Pairs.{ArePairs};
ghost use Rattle.rank_facts.specs.Quiet as spec;
ghost use Rattle.marked_quiet.specs.Quiet.{is_quiet_at, HaveOneEnd, AreCalm};

use crate::fitting::step_fits;
use crate::waiting::undisturbed;
use marked_worlds::MarkedWorld;
use plan_pairs::StepPairs;

/// Whether two steps of different sessions are quiet in the world now: neither session waits; each mode that one of the steps asks is
/// compatible with all modes that other sessions hold there and with each that the other step asks there; and nobody waits where
/// either session holds a mode or either step asks one. In a spent world nothing is quiet. It takes no memory.
pub fn quiet(world: &MarkedWorld<'_>, pairs: &StepPairs, step: u8, other: u8) -> bool
    requires step { step < length world.now.file.run.steps }
    requires other { other < length world.now.file.run.steps }
    requires pairs { ArePairs world.now.file.run pairs.now }
    ensures answer { result ≡ is_quiet_at world.now step other }
    // Sent in either order they lead to one world.
    ensures orders { IsTrue result → HaveOneEnd world.now step other }
    // Whichever is sent first, no wait is noted, and all other sessions stay as they are.
    ensures calm { IsTrue result → AreCalm world.now step other × AreCalm world.now other step }
{
    world.known();
    let _own = world.spec().session_of(step); // for the proof
    let _other = world.spec().session_of(other); // for the proof
    !world.spent() && is_quiet(world, pairs, step, other)
}

fn is_quiet(world: &MarkedWorld<'_>, pairs: &StepPairs, first: u8, second: u8) -> bool
    requires whole { world.now.spent ≡ false }
    requires first { first < length world.now.file.run.steps }
    requires second { second < length world.now.file.run.steps }
    requires pairs { ArePairs world.now.file.run pairs.now }
    ensures { result ≡ spec.is_quiet world.now.world (get_or world.now.file.run.steps first no_step) (get_or world.now.file.run.steps second no_step) }
{
    let spec = world.spec();
    let i = spec.session_of(first);
    let j = spec.session_of(second);
    i != j
        && pairs.go_together(first, second)
        && !world.waits(i)
        && !world.waits(j)
        && step_fits(world, i, first)
        && step_fits(world, j, second)
        && undisturbed(world, i, first)
        && undisturbed(world, j, second)
}
