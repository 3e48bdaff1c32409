//! What is told of the ranks of a book's spec, from rank 0 on.

ghost use Rattle.std.specs.Prelude.{◌≡◌, ◌<◌, [], ◌∷◌, Some, IfOk, IfErr, OnOk, length, set};
ghost use Rattle.bound_specs.specs.Spec.{ranks};
ghost use Rattle.fact_books.specs.Books.{IsKept};
ghost use Rattle.book_stretches.specs.declared.judging.Vote.TheVariants as votes;
ghost use Rattle.book_stretches.specs.Sweep.{book_of, end, HasClass, HasMovedOn, HasMovedTo, HaveNothing, HaveOne, IsBegun, IsTelling, IsToldAs, SayAll};
ghost use Rattle.book_stretches.specs.Telling.{AreTold, IsNotTold};

use crate::classes::Classes;
use crate::error::TellError;
use crate::judging::{Verdict, Vote, last_of};
use crate::leading::lead_of;
use crate::sweep::{active_at, border};
use crate::told::ToldRanks;
use bound_specs::Spec;
use class_stretches::Stretches;
use compact_outcomes::CompactOutcomes;
use fact_books::{Lead, Run};
use std::alloc::{AllocError, Global};

/// What is told of the ranks up to here: the book's spec, outcomes and runs; the class of each of these outcomes, where it is known; the
/// outcomes of the classes; and the ranks in classes.
pub(crate) struct Telling<'a, 'b> {
    pub(crate) spec: &'a Spec,
    pub(crate) outcomes: &'b CompactOutcomes,
    pub(crate) runs: &'a [Run],
    pub(crate) classes: Vec<Option<u32>>,
    pub(crate) told: Classes<'b>,
    pub(crate) stretches: Stretches,
}

// Written out and not derived, so that who owns one calls this and does not let its parts go one by one.
impl Drop for Telling<'_, '_> {
    fn drop(self) {
        let Telling {
            spec: _,
            outcomes: _,
            runs: _,
            classes: _classes,
            told: _told,
            stretches: _stretches,
        } = self;
    }
}

impl<'a, 'b> Telling<'a, 'b> {
    /// Nothing is told yet.
    pub(crate) fn new(
        alloc: Global,
        spec: &'a Spec,
        outcomes: &'b CompactOutcomes,
        runs: &'a [Run],
    ) -> Result<Telling<'a, 'b>, AllocError>
        ensures { IfOk result (IsBegun spec.now outcomes.now runs.now) }
    {
        let classes = vec![in alloc; None; outcomes.len()]?;
        Ok(Telling {
            spec,
            outcomes,
            runs,
            classes,
            told: Classes::new(alloc),
            stretches: Stretches::new(alloc),
        })
    }
}

impl<'b> Telling<'_, 'b> {
    /// Tells all ranks of the spec. A stretch of which the same runs say all is told at once.
    pub(crate) fn tell_all(&mut self, alloc: Global) -> Result<(), TellError>
        requires telling { IsTelling self.old }
        requires none { end self.old ≡ 0 }
        requires kept { IsKept self.old.outcomes.now self.old.runs.now }
        ensures ok { OnOk result (HasMovedTo (ranks self.old.spec.now.run) self.old self.new) }
        ensures stop { IfErr result (IsNotTold (book_of self.old)) }
    {
        let ranks = self.spec.ranks();
        let mut active = Vec::new(alloc);
        let mut next = 0;
        while self.stretches.end() < ranks {
            let rank = self.stretches.end();
            let (now, after) = active_at(alloc, active.as_slice(), self.runs, next, rank)?;
            let until = border(now.as_slice(), self.runs, after, rank, ranks);
            match self.tell_stretch(now.as_slice(), until) {
                Ok(()) => {}
                Err(error) => return Err(error),
            }
            active = now;
            next = after;
        }
        Ok(())
    }

    /// Tells the ranks up to an end, of which these runs say all.
    fn tell_stretch(&mut self, active: &[Run], until: u64) -> Result<(), TellError>
        requires telling { IsTelling self.old }
        requires say { SayAll self.old active.now until }
        requires some { end self.old < until }
        ensures ok { OnOk result (HasMovedTo until self.old self.new) }
        ensures stop { IfErr result (IsNotTold (book_of self.old)) }
    {
        match active {
            [] => told_as(self.push_none(until)),
            [run] => told_as(self.tell_run(*run, until)),
            _ => self.tell_each(active, until),
        }
    }

    /// Tells the ranks up to an end, of which one run says all.
    fn tell_run(&mut self, run: Run, to: u64) -> Result<(), AllocError>
        requires telling { IsTelling self.old }
        requires say { SayAll self.old (run ∷ []) to }
        ensures { OnOk result (HasMovedTo to self.old self.new) }
    {
        while self.stretches.end() < to {
            self.tell_block(run, to)?;
        }
        Ok(())
    }

    /// Tells the next of the ranks of which one run says all: as many as it leads alike.
    fn tell_block(&mut self, run: Run, until: u64) -> Result<(), AllocError>
        requires telling { IsTelling self.old }
        requires say { SayAll self.old (run ∷ []) until }
        requires some { end self.old < until }
        ensures { OnOk result (HasMovedOn until self.old self.new) }
    {
        let at = self.stretches.end();
        let (lead, last) = lead_of(self.spec, run.tag, at, until);
        match lead {
            Lead::Value(n) => self.push_outcome(n, last),
            // Where the ranks that they lead to reach into them, they are copied in parts.
            Lead::From(from) => self
                .stretches
                .copy(from, last.min(at.saturating_add(at - from))),
            Lead::Nowhere => self.push_none(last),
        }
    }

    /// Tells the ranks up to an end, of which several runs say all.
    fn tell_each(&mut self, active: &[Run], until: u64) -> Result<(), TellError>
        requires telling { IsTelling self.old }
        requires say { SayAll self.old active.now until }
        ensures ok { OnOk result (HasMovedTo until self.old self.new) }
        ensures stop { IfErr result (IsNotTold (book_of self.old)) }
    {
        while self.stretches.end() < until {
            match self.tell_next(active, until) {
                Ok(()) => {}
                Err(error) => return Err(error),
            }
        }
        Ok(())
    }

    /// Tells the next rank of those of which several runs say all, and those behind it where only outcomes are said.
    fn tell_next(&mut self, active: &[Run], until: u64) -> Result<(), TellError>
        requires telling { IsTelling self.old }
        requires say { SayAll self.old active.now until }
        requires some { end self.old < until }
        ensures ok { OnOk result (HasMovedOn until self.old self.new) }
        ensures stop { IfErr result (IsNotTold (book_of self.old)) }
    {
        let rank = self.stretches.end();
        let last = last_of(active, rank, until);
        match self.judged(active, until) {
            Verdict::Nothing => told_as(self.push_none(last)),
            Verdict::One(vote) => told_as(self.push_vote(vote, last)),
            Verdict::Several => Err(TellError::Clash(rank)),
        }
    }

    /// Tells ranks up to an end, which have no value.
    fn push_none(&mut self, until: u64) -> Result<(), AllocError>
        requires telling { IsTelling self.old }
        requires nothing { HaveNothing self.old until }
        ensures { OnOk result (HasMovedTo until self.old self.new) }
    {
        let _classes = self.stretches.classes(); // for the proof
        self.stretches.push(until, None)
    }

    /// Tells ranks up to an end, which have one value.
    fn push_vote(&mut self, vote: Vote, until: u64) -> Result<(), AllocError>
        requires telling { IsTelling self.old }
        requires one { HaveOne self.old vote until }
        ensures { OnOk result (HasMovedTo until self.old self.new) }
    {
        match vote {
            Vote::Table(n) => self.push_outcome(n, until),
            Vote::Class(class) => self.stretches.push(until, Some(class)),
        }
    }

    /// Tells ranks up to an end, whose one value has a number in the book's table.
    fn push_outcome(&mut self, n: usize, until: u64) -> Result<(), AllocError>
        requires telling { IsTelling self.old }
        requires one { HaveOne self.old (votes.Table n) until }
        ensures { OnOk result (HasMovedTo until self.old self.new) }
    {
        let class = self.class_of(n)?;
        self.stretches.push(until, Some(class))
    }

    /// The class that tells the outcome with a number in the book's table, a new one where it did not come yet.
    fn class_of(&mut self, n: usize) -> Result<u32, AllocError>
        requires telling { IsTelling self.old }
        requires known { n < length self.old.outcomes.now }
        ensures { IfOk result (HasClass self.old self.new n) }
    {
        if let Some(class) = self.classes[n] {
            return Ok(class);
        }
        let outcomes = self.outcomes;
        let class = self.told.number(&outcomes.get(n))?;
        mark(&mut self.classes, n, class);
        Ok(class)
    }

    /// The ranks and the outcomes of their classes.
    pub(crate) fn into_told(self) -> ToldRanks<'b>
        requires telling { IsTelling self }
        requires all { end self ≡ ranks self.spec.now.run }
        ensures { AreTold (book_of self.entry) result }
    {
        self.told.known();
        let _classes = self.stretches.classes(); // for the proof
        let Telling {
            spec: _,
            outcomes: _,
            runs: _,
            classes: _classes,
            told,
            stretches,
        } = self;
        ToldRanks {
            outcomes: told.into_outcomes(),
            stretches,
        }
    }
}

/// The same, where memory alone can be wanting.
fn told_as(grown: Result<(), AllocError>) -> Result<(), TellError>
    ensures { IsToldAs grown result }
{
    match grown {
        Ok(()) => Ok(()),
        Err(_) => Err(TellError::NoMemory),
    }
}

fn mark(classes: &mut Vec<Option<u32>>, n: usize, class: u32)
    requires { n < length classes.old.items }
    ensures { classes.new.items ≡ set classes.old.items n (Some class) }
{
    classes[n] = Some(class);
}
