//! Frames of prefixes that later words share.

ghost use mathlib.Core.List.{IsPrefix};
ghost use Rattle.std.specs.Prelude.{◌≡◌, ℕ, ◌<◌, ◌≤◌, Bool, true, IfOk, OnOk, IsTrue, false, length, get_or, slice_get, Some, ◌++◌, ◌∷◌, [], ◌⊎◌};
ghost use Rattle.perm_ranks.specs.Words.{total};
ghost use Rattle.perm_ranks.specs.Blocks.{HasRank, end_of};
ghost use Rattle.perm_ranks.specs.declared.TheConstants.{MAX_STEPS};
ghost use Rattle.bound_specs.specs.Spec.{SpecFile, queues_of};
ghost use Rattle.machine_model.specs.World.{outcome_of};
ghost use Rattle.step_reducer.specs.Framed.{standing};
ghost use Rattle.step_reducer.specs.Walks.{IsFrame, IsStack, IsAt, IsTurn, HasGone, HasParted, HasTurned};

use crate::frame::{Frame, Turn, is_listed, turn_of};
use crate::step_table::StepTable;
use crate::worlds::{mark, outcome, send};
use known_worlds::KnownWorld;
use perm_ranks::Block;
use std::alloc::{AllocError, Global};
use std::marker::Model;
use transcripts::Outcome;

/// The frame of the longest prefix, and below it frames of shorter ones that later words share. The world stands behind the
/// longest one, and has a mark for each frame below.
///
/// ```text
/// word     a   b   b   a   c ..
/// top      [ a b b a ]            the world behind these four steps, and which next letters make a swap with the last one
/// below    [ a b ]                a later word begins so
///          [ ]                    the start, while a later word is left
/// ```
///
/// Contracts see each frame with the world behind its letters, the outcomes that were told, and whether the machine stands in the
/// world of the longest prefix.
pub(crate) struct Stack<'a> {
    below: Vec<Frame>,
    top: Frame,
    world: KnownWorld<'a>,
}

// Written out and not derived, so that who owns one calls this and does not let its parts go one by one.
impl Drop for Stack<'_> {
    fn drop(self) {
        let Stack {
            below: _below,
            top: _top,
            world: _world,
        } = self;
    }
}

impl<'a> Model for Stack<'a> {
    ghost use Rattle.std.specs.Coded.{codes};
    ghost use Rattle.finite_maps.specs.Codes.{map_code};
    ghost use Rattle.lock_modes.specs.contracts.value.Value as value;
    ghost use Rattle.lock_modes.specs.contracts.resource.Resource as resource;
    ghost use Rattle.lock_queues.specs.contracts.wait.Wait as waiting;
    ghost use Rattle.bound_statements.specs.contracts.statement.Bound as bound;
    ghost use Rattle.events.specs.contracts.event.Event as event;
    ghost use Rattle.step_reducer.specs.Framed.{IsStacked, Stacked, stacked};

    ghost Value = { Stacked };

    ghost coded = { Prim.hlevel (codes, map_code, value.the_row.coded, bound.the_row.coded, resource.the_row.coded, waiting.the_row.coded, event.the_row.coded) };

    ghost view = { λ s. stacked s.below.items s.top s.world };

    ghost invariant = { λ s. IsStacked s.below.items s.world };
}

impl<'a> Stack<'a> {
    /// The frame of no letters, with the world in which the spec starts.
    pub(crate) fn new(alloc: Global, start: KnownWorld<'a>, block: Block) -> Stack<'a>
        requires marked { start.marked ≡ [] }
        ensures below { result.below ≡ [] }
        ensures block { result.top.block ≡ block }
        ensures swaps { result.top.swaps ≡ [] }
        ensures world { result.top.world ≡ standing start.entry }
        ensures told { result.told ≡ start.entry.told }
    {
        Stack {
            below: Vec::new(alloc),
            top: Frame::new(block),
            world: start,
        }
    }
}

impl Stack<'_> {
    /// How many letters the words have behind the longest prefix.
    pub(crate) fn letters_left(&self) -> u8
        ensures all { result ≡ total self.now.top.block.left }
        ensures few { result ≤ MAX_STEPS }
    {
        self.top.block.letters_left()
    }

    /// Behind which rank the words of the longest prefix end.
    fn end(&self) -> u64
        ensures { result ≡ end_of self.now.top.block }
    {
        self.top.block.end()
    }

    /// Whether the letter makes a swap with the last one of the longest prefix.
    pub(crate) fn is_swap(&self, letter: u8) -> bool
        ensures { result ≡ get_or self.now.top.swaps letter false }
    {
        is_listed(&self.top.swaps, letter)
    }

    /// How the word of a rank goes on. The stack stays, but for where the machine stands.
    pub(crate) fn turn(
        &mut self,
        table: &StepTable,
        reduce: bool,
        rank: u64,
    ) -> Result<Turn, AllocError>
        requires table { table.now ≡ queues_of self.old.top.world.file.run }
        requires frame { IsFrame reduce self.old.top.world.file self.old.top }
        requires some { 0 < total self.old.top.block.left }
        requires has { HasRank self.old.top.block rank }
        ensures turn { IfOk result (IsTurn reduce self.new.top rank) }
        ensures same { self.new ≡ record self.old { level = self.new.level } }
    {
        turn_of(&self.top, &mut self.world, table, reduce, rank)
    }

    /// Tells what was told up to the end of the longest prefix: the answer is its number among the outcomes that were told.
    pub(crate) fn outcome(&mut self) -> Result<usize, AllocError>
        requires { self.old.top.world.spent ≡ false }
        ensures told { IfOk result (λ number. slice_get self.new.told number ≡ Some (outcome_of self.old.top.world.file.run.sessions self.old.top.world.world)) }
        ensures front { IsPrefix self.old.told self.new.told }
        ensures same { self.new ≡ record self.old { told = self.new.told; level = self.new.level } }
    {
        outcome(&mut self.world)
    }

    /// The outcome that was told with a number.
    pub(crate) fn told(&self, number: usize) -> &Outcome
        requires { number < length self.now.told }
        ensures { slice_get self.now.told number ≡ Some result.now }
    {
        self.world.told(number)
    }

    /// Goes back to the longest prefix that the word of the rank shares.
    pub(crate) fn go_back(&mut self, at: u64)
        ensures at { (reduce : Bool) (file : SpecFile) (end : ℕ) → at < end → IsStack reduce file at end self.old → IsAt reduce file at end self.new }
        ensures parted { (reduce : Bool) (file : SpecFile) (last end : ℕ) → at < end → IsStack reduce file last end self.old
            → (self.new.top.block ≡ self.old.top.block) ⊎ HasParted last at self.old.top.block self.new.top.block }
        ensures told { self.new.told ≡ self.old.told }
    {
        'shared: while self.end() <= at {
            if !self.pop() {
                return;
            }
        }
    }

    /// Goes back to the frame below, if there is one.
    fn pop(&mut self) -> bool
        ensures popped { result ≡ true → self.old.below ≡ self.new.below ++ self.new.top ∷ [] }
        ensures none { result ≡ false → self.old.below ≡ [] }
        ensures same { result ≡ false → self.new ≡ self.old }
        ensures told { self.new.told ≡ self.old.told }
    {
        let Some(frame) = self.below.pop() else {
            return false;
        };
        self.top = frame;
        self.world.go_back();
        true
    }

    /// Goes on by a letter. The frame is kept where a later rank before the end has a word that shares it.
    pub(crate) fn descend(&mut self, turn: Turn, end: u64) -> Result<(), AllocError>
        requires whole { self.old.top.world.spent ≡ false }
        requires known { turn.step < length self.old.top.world.file.run.steps }
        ensures gone { OnOk result ((reduce : Bool) (file : SpecFile) (at : ℕ) → at < end → IsAt reduce file at end self.old → IsTurn reduce self.old.top at turn
            → get_or self.old.top.swaps turn.letter false ≡ false → HasGone reduce file at end self.old self.new) }
        ensures told { self.new.told ≡ self.old.told }
    {
        let behind = turn.block.end();
        if behind < end && behind < self.end() {
            self.keep()?;
        }
        self.go(turn)?;
        Ok(())
    }

    /// Keeps the topmost frame below.
    fn keep(&mut self) -> Result<(), AllocError>
        requires whole { self.old.top.world.spent ≡ false }
        ensures below { OnOk result (self.new.below ≡ self.old.below ++ self.old.top ∷ []) }
        ensures top { OnOk result (self.new.top ≡ self.old.top) }
        ensures told { self.new.told ≡ self.old.told }
    {
        self.below.reserve(1)?;
        mark(&mut self.world)?;
        self.below.push_reserved(self.top.copy());
        Ok(())
    }

    /// Goes on by a letter, from the topmost frame.
    fn go(&mut self, turn: Turn) -> Result<(), AllocError>
        requires whole { self.old.top.world.spent ≡ false }
        requires known { turn.step < length self.old.top.world.file.run.steps }
        ensures turned { OnOk result (HasTurned self.old.top turn self.new.top) }
        ensures below { OnOk result (self.new.below ≡ self.old.below) }
        ensures told { self.new.told ≡ self.old.told }
    {
        send(&mut self.world, turn.step)?;
        self.top = Frame::of_turn(turn);
        Ok(())
    }
}
