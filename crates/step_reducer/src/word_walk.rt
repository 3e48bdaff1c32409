//! The facts of ranks of a spec whose orders are all words.

ghost use mathlib.Core.List.{IsPrefix};
ghost use Rattle.std.specs.Prelude.{◌≡◌, ◌<◌, ◌≤◌, [], length, OnOk, IfOk, false};
ghost use Rattle.perm_ranks.specs.Words.{total, all_words};
ghost use Rattle.bound_specs.specs.Spec.{counts_of, queues_of};
ghost use Rattle.machine_model.specs.Start.{Started, start as begins};
ghost use Rattle.step_reducer.specs.Saying.{IsTold, fact_of, finding_of, giving_of};
ghost use Rattle.step_reducer.specs.Walking.{IsWords};
ghost use Rattle.step_reducer.specs.Reduced.{tour_of, IsTour};
ghost use Rattle.step_reducer.specs.Walks.{RunsOne, IsAt, IsWalk, IsFound, HasSent, HasGiven};

use crate::fact::Given;
use crate::said::{Said, SaidRun};
use crate::stack::Stack;
use crate::step_table::StepTable;
use bound_specs::Spec;
use known_worlds::KnownWorld;
use perm_ranks::Shape;
use std::alloc::{AllocError, Global};

/// Stands before a rank, with worlds of prefixes of its word that later words share.
pub(crate) struct WordWalk<'a> {
    pub(crate) table: StepTable,
    pub(crate) reduce: bool,
    pub(crate) end: u64,
    pub(crate) steps: u8,
    pub(crate) at: u64,
    pub(crate) stack: Stack<'a>,
}

// Written out and not derived, so that who owns one calls this and does not let its parts go one by one.
impl Drop for WordWalk<'_> {
    fn drop(self) {
        let WordWalk {
            table: _table,
            reduce: _,
            end: _,
            steps: _,
            at: _,
            stack: _stack,
        } = self;
    }
}

/// What is said of ranks, the rank behind the last one of which it is said, and how many steps were sent for it.
#[derive(Clone, Copy)]
pub(crate) struct Found {
    pub(crate) end: u64,
    pub(crate) said: Said,
    pub(crate) sent: u8,
}

impl<'a> WordWalk<'a> {
    pub(crate) fn new(
        alloc: Global,
        spec: &'a Spec,
        shape: &Shape,
        start: KnownWorld<'a>,
        first: u64,
        end: u64,
        reduce: bool,
    ) -> Result<WordWalk<'a>, AllocError>
        requires shape { shape.now ≡ counts_of (queues_of spec.now.run) }
        requires words { spec.now.run.lines ≡ [] }
        requires started { begins spec.now.run ≡ Started start.world }
        requires whole { start.spent ≡ false }
        requires of_spec { start.file ≡ spec.now }
        requires marked { start.marked ≡ [] }
        requires untold { start.told ≡ [] }
        requires few { end ≤ length (all_words shape.now) }
        requires order { first ≤ end }
        ensures walk { IfOk result (λ walk. IsWords spec.now reduce first end walk × (walk.at ≡ first)) }
        ensures told { IfOk result (λ walk. walk.stack.told ≡ []) }
    {
        let block = shape.block();
        let steps = block.letters_left();
        let table = StepTable::of(alloc, spec)?;
        let stack = Stack::new(alloc, start, block);
        Ok(WordWalk {
            table,
            reduce,
            end,
            steps,
            at: first,
            stack,
        })
    }

    /// What is said of the next ranks, at least of one, none of them past an end. What is kept on the way serves ranks behind that end too.
    pub(crate) fn next_run(&mut self, end: u64) -> Result<Given, AllocError>
        requires walk { IsWalk self.old.stack.top.world.file self.old }
        requires some { self.old.at < end }
        requires inside { end ≤ self.old.end }
        ensures given { IfOk result (λ given. HasGiven self.old.stack.top.world.file end self.old (giving_of self.new.stack.told given) self.new) }
        ensures number { IfOk result (λ given. IsTold self.new.stack.told given.run.said) }
        ensures front { IsPrefix self.old.stack.told self.new.stack.told }
    {
        let first = self.at;
        self.stack.go_back(first);
        let found = find(
            &mut self.stack,
            &self.table,
            self.reduce,
            self.steps,
            first,
            end,
            self.end,
        )?;
        self.at = found.end;
        Ok(Given {
            run: SaidRun {
                first,
                end: found.end,
                said: found.said,
            },
            sent: found.sent,
        })
    }
}

/// Goes down from a stack that has the rank to the fact of it and of the ranks behind it up to an end. Frames are kept that later
/// ranks share, of all that the walk goes to.
fn find(
    stack: &mut Stack<'_>,
    table: &StepTable,
    reduce: bool,
    steps: u8,
    at: u64,
    end: u64,
    all: u64,
) -> Result<Found, AllocError>
    requires tour { IsTour (tour_of stack.old.top.world.file.run reduce) }
    requires table { table.now ≡ queues_of stack.old.top.world.file.run }
    requires steps { steps ≡ total (counts_of (queues_of stack.old.top.world.file.run)) }
    requires some { at < end }
    requires inside { end ≤ all }
    requires has { IsAt reduce stack.old.top.world.file at all stack.old }
    ensures found { IfOk result (λ found. IsFound reduce stack.old.top.world.file at end (finding_of stack.new.told found)) }
    ensures has { OnOk result (IsAt reduce stack.old.top.world.file at all stack.new) }
    ensures sent { IfOk result (λ found. HasSent reduce stack.old.top.world.file.run at stack.old (finding_of stack.new.told found) stack.new) }
    ensures ran { IfOk result (λ found. RunsOne at found.end (fact_of stack.new.told found.said)) }
    ensures number { IfOk result (λ found. IsTold stack.new.told found.said) }
    ensures front { IsPrefix stack.old.told stack.new.told }
{
    let before = stack.letters_left();
    'letter: while stack.letters_left() > 0 {
        let turn = stack.turn(table, reduce, at)?;
        let left = stack.letters_left();
        let behind = end.min(turn.block.end());
        if stack.is_swap(turn.letter) {
            return Ok(Found {
                end: behind,
                said: Said::Swap(steps - left - 1),
                sent: before - left,
            });
        }
        if turn.is_covered() {
            return Ok(Found {
                end: behind,
                said: Said::Swap(steps - left),
                sent: before - left,
            });
        }
        stack.descend(turn, all)?;
    }
    let number = stack.outcome()?;
    Ok(Found {
        end: at + 1,
        said: Said::Ran(number),
        sent: before,
    })
}
