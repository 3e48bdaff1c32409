//! The words that begin with the same letters.

ghost use Rattle.std.specs.Prelude.{◌≡◌, ℕ, ◌<◌, ◌≤◌, true, false, [], ◌∷◌, length, slice_index, get_or, List, IfOk};
ghost use Rattle.perm_ranks.specs.Words.{total};
ghost use Rattle.perm_ranks.specs.Blocks.{HasRank};
ghost use Rattle.bound_specs.specs.Spec.{queues_of};
ghost use Rattle.rank_facts.specs.Swap.{quiet_heads};
ghost use Rattle.step_reducer.specs.Framed.{framed, standing};
ghost use Rattle.step_reducer.specs.Reduced.{AreSwaps, LeftOf};
ghost use Rattle.step_reducer.specs.Walks.{IsFrame, IsTurn, IsCovered};

use crate::step_table::StepTable;
use arrayvec::ArrayVec;
use known_worlds::KnownWorld;
use perm_ranks::{Block, MAX_SESSIONS};
use std::alloc::AllocError;

/// For each letter whether it and the one before it make a swap. Letters that are not listed make none.
pub(crate) type Swaps = ArrayVec<bool, MAX_SESSIONS>;

/// The words that begin with the same letters, and with which next letters the last one makes a swap.
#[derive(Drop)]
pub(crate) struct Frame {
    pub(crate) block: Block,
    pub(crate) swaps: Swaps,
}

/// Where the word of a rank goes on from a frame: its next letter, the step of it, the words that share the letter too, and with
/// which letters behind it the letter makes a swap.
#[derive(Drop)]
pub(crate) struct Turn {
    pub(crate) letter: u8,
    pub(crate) step: u8,
    pub(crate) block: Block,
    pub(crate) swaps: Swaps,
}

impl Frame {
    /// The frame of a block whose words share no letter.
    pub(crate) fn new(block: Block) -> Frame
        ensures block { result.block ≡ block }
        ensures swaps { result.swaps.items ≡ [] }
    {
        Frame {
            block,
            swaps: Swaps::new(),
        }
    }

    /// The frame behind a turn.
    pub(crate) fn of_turn(turn: Turn) -> Frame
        ensures block { result.block ≡ turn.block }
        ensures swaps { result.swaps.items ≡ turn.swaps.items }
    {
        let Turn {
            letter: _,
            step: _,
            block,
            swaps,
        } = turn;
        Frame { block, swaps }
    }

    /// An equal frame.
    pub(crate) fn copy(&self) -> Frame
        ensures block { result.block ≡ self.now.block }
        ensures swaps { result.swaps.items ≡ self.now.swaps.items }
    {
        Frame {
            block: self.block.copy(),
            swaps: copied(&self.swaps),
        }
    }
}

/// How the word of a rank goes on from a frame, with the world behind its letters. The world stays, but for where its machine stands.
pub(crate) fn turn_of(
    frame: &Frame,
    world: &mut KnownWorld<'_>,
    table: &StepTable,
    reduce: bool,
    rank: u64,
) -> Result<Turn, AllocError>
    requires table { table.now ≡ queues_of world.old.file.run }
    requires frame { IsFrame reduce world.old.file (framed frame.now (standing world.old)) }
    requires some { 0 < total frame.now.block.left }
    requires has { HasRank frame.now.block rank }
    ensures turn { IfOk result (IsTurn reduce (framed frame.now (standing world.old)) rank) }
    ensures same { world.new ≡ record world.old { level = world.new.level } }
{
    let (letter, block) = frame.block.at(rank);
    let step = table.next(letter, frame.block.left_of(letter));
    let swaps = swaps_of(&frame.block, world, table, reduce, letter, step)?;
    Ok(Turn {
        letter,
        step,
        block,
        swaps,
    })
}

/// With which letters the letter makes a swap. Where ranks are not reduced it makes none.
fn swaps_of(
    block: &Block,
    world: &mut KnownWorld<'_>,
    table: &StepTable,
    reduce: bool,
    letter: u8,
    step: u8,
) -> Result<Swaps, AllocError>
    requires table { table.now ≡ queues_of world.old.file.run }
    requires whole { world.old.spent ≡ false }
    requires left { 0 < slice_index block.now.left letter }
    requires step { step < length world.old.file.run.steps }
    requires lefts { (a : ℕ) → get_or block.now.left a 0 ≤ length (get_or table.now a []) }
    ensures swaps { IfOk result (λ swaps. AreSwaps reduce world.old.file.run.steps world.old.world table.now block.now.left letter step swaps.items) }
    ensures same { world.new ≡ record world.old { level = world.new.level } }
{
    if !reduce {
        return Ok(Swaps::new());
    }
    swaps_with(block, world, table, letter, step)
}

/// With which smaller letters the letter makes a swap.
fn swaps_with(
    block: &Block,
    world: &mut KnownWorld<'_>,
    table: &StepTable,
    letter: u8,
    step: u8,
) -> Result<Swaps, AllocError>
    requires table { table.now ≡ queues_of world.old.file.run }
    requires whole { world.old.spent ≡ false }
    requires left { 0 < slice_index block.now.left letter }
    requires step { step < length world.old.file.run.steps }
    requires lefts { (a : ℕ) → get_or block.now.left a 0 ≤ length (get_or table.now a []) }
    ensures swaps { IfOk result (λ swaps. AreSwaps true world.old.file.run.steps world.old.world table.now block.now.left letter step swaps.items) }
    ensures same { world.new ≡ record world.old { level = world.new.level } }
{
    let _sessions = world.spec().sessions(); // for the proof
    let mut swaps = Swaps::new();
    for smaller in 0..letter {
        let is_quiet = is_quiet_beside(block, world, table, step, smaller)?;
        swaps.push(is_quiet);
    }
    Ok(swaps)
}

/// Whether the next step of a session is there and quiet beside the step.
fn is_quiet_beside(
    block: &Block,
    world: &mut KnownWorld<'_>,
    table: &StepTable,
    step: u8,
    smaller: u8,
) -> Result<bool, AllocError>
    requires table { table.now ≡ queues_of world.old.file.run }
    requires whole { world.old.spent ≡ false }
    requires step { step < length world.old.file.run.steps }
    requires few { get_or block.now.left smaller 0 ≤ length (get_or table.now smaller []) }
    ensures answer { IfOk result (λ yes. (ks rest : List ℕ) → LeftOf (get_or table.now smaller []) (get_or block.now.left smaller 0) rest
        → yes ≡ quiet_heads world.old.file.run.steps world.old.world (step ∷ ks) rest) }
    ensures same { world.new ≡ record world.old { level = world.new.level } }
{
    let left = block.left_of(smaller);
    if left == 0 {
        return Ok(false);
    }
    world.is_quiet(step, table.next(smaller, left))
}

fn copied(swaps: &Swaps) -> Swaps
    ensures { result.items ≡ swaps.now.items }
{
    let mut copy = Swaps::new();
    copy.try_extend_from_slice(swaps.as_slice()).unwrap();
    copy
}

/// Whether a letter is among those that make a swap.
pub(crate) fn is_listed(swaps: &Swaps, letter: u8) -> bool
    ensures { result ≡ get_or swaps.now.items letter false }
{
    let letter = letter as usize;
    letter < swaps.len() && swaps[letter]
}

impl Turn {
    /// Whether some letter is left and each letter that is left makes a swap, so that all the words have one swap.
    pub(crate) fn is_covered(&self) -> bool
        ensures { result ≡ true → IsCovered self.now }
    {
        self.block.letters_left() > 0 && all_listed(&self.block, &self.swaps)
    }
}

fn all_listed(block: &Block, swaps: &Swaps) -> bool
    ensures { result ≡ true → (letter : ℕ) → 0 < get_or block.now.left letter 0 → get_or swaps.now.items letter false ≡ true }
{
    for letter in 0..block.sessions() {
        if block.left_of(letter) > 0 && !is_listed(swaps, letter) {
            return false;
        }
    }
    true
}
