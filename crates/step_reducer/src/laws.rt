//! The law of swaps, the contract of a function that does nothing.

ghost use Rattle.step_reducer.specs.Laws.{SwapsCoverBlocks};

/// A swap depends on the letters up to the one behind it alone: where one word that begins with them has it, all have.
pub fn swaps_cover_blocks()
    ensures { SwapsCoverBlocks }
{}
