//! Steps of a line that are sent, each behind a mark, and gone back from.

ghost use Rattle.std.specs.Prelude.{◌≡◌, ◌<◌, ◌≤◌, ◌∷◌, ◌++◌, [], ℕ, All, List, OnOk, false, length, take};
ghost use Rattle.known_worlds.specs.Paths.{IsAlong};

use crate::KnownWorld;
use std::alloc::AllocError;

/// Goes back from a line to the first so many of its steps.
pub(crate) fn go_back(world: &mut KnownWorld<'_>, line: &[u8], shared: usize)
    requires along { IsAlong line.now world.old }
    requires inside { shared ≤ length line.now }
    ensures along { IsAlong (take shared line.now) world.new }
    ensures file { world.new.file ≡ world.old.file }
    ensures numbers { world.new.numbers ≡ world.old.numbers }
    ensures told { world.new.told ≡ world.old.told }
{
    let mut left = line.len();
    'later: while left > shared {
        world.go_back();
        left -= 1;
    }
}

/// Goes on with the steps of a line from this one on.
pub(crate) fn go_on(world: &mut KnownWorld<'_>, line: &[u8], from: usize) -> Result<(), AllocError>
    requires along { IsAlong (take from line.now) world.old }
    requires known { All (λ k. k < length world.old.file.run.steps) line.now }
    requires inside { from ≤ length line.now }
    ensures along { OnOk result (IsAlong line.now world.new) }
    ensures file { world.new.file ≡ world.old.file }
    ensures numbers { world.new.numbers ≡ world.old.numbers }
    ensures told { world.new.told ≡ world.old.told }
{
    for place in from..line.len() {
        step_on(world, line[place])?;
    }
    Ok(())
}

/// Sets a mark and sends a step.
fn step_on(world: &mut KnownWorld<'_>, step: u8) -> Result<(), AllocError>
    requires whole { world.old.spent ≡ false }
    requires known { step < length world.old.file.run.steps }
    ensures along { OnOk result ((ks : List ℕ) → IsAlong ks world.old → IsAlong (ks ++ step ∷ []) world.new) }
    ensures file { world.new.file ≡ world.old.file }
    ensures numbers { world.new.numbers ≡ world.old.numbers }
    ensures told { world.new.told ≡ world.old.told }
{
    mark(world)?;
    match world.send(step) {
        Ok(()) => Ok(()),
        Err(_) => Err(AllocError),
    }
}

fn mark(world: &mut KnownWorld<'_>) -> Result<(), AllocError>
    ensures marked { OnOk result (world.new ≡ record world.old { marked = world.old.world ∷ world.old.marked; level = false }) }
    ensures file { world.new.file ≡ world.old.file }
    ensures numbers { world.new.numbers ≡ world.old.numbers }
    ensures told { world.new.told ≡ world.old.told }
{
    match world.mark() {
        Ok(()) => Ok(()),
        Err(_) => Err(AllocError),
    }
}
