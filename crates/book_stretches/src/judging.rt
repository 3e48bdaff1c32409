//! What several runs give a rank.

ghost use Rattle.std.specs.Prelude.{◌≡◌, ◌↔◌, ℕ, ◌<◌, IsTrue, length, false, Some};
ghost use Rattle.fact_books.specs.Runs.{AllSound, IsNumbered};
ghost use Rattle.fact_books.specs.declared.run.Tag.TheVariants as tags;
ghost use Rattle.fact_books.specs.Sweep.{GoesTo, OnlyRan};
ghost use Rattle.book_stretches.specs.Sweep.{end, said, IsKnown, IsTelling, IsVerdict, IsVoteOf, IsWith, HasVote};

use crate::leading::lead_of;
use crate::telling::Telling;
use compact_outcomes::CompactOutcome;
use fact_books::{Lead, Run, Tag};

/// The outcome that a fact gives: the one with this number in the book's table, or that of a class.
#[derive(Clone, Copy)]
pub(crate) enum Vote {
    Table(usize),
    Class(u32),
}

/// What the facts of a rank give.
#[derive(Clone, Copy)]
pub(crate) enum Verdict {
    /// No value.
    Nothing,
    /// One value, and no other.
    One(Vote),
    /// More than one value.
    Several,
}

impl Telling<'_, '_> {
    /// What the runs in hand give the next rank.
    pub(crate) fn judged(&self, active: &[Run], until: u64) -> Verdict
        requires telling { IsTelling self.now }
        requires sound { AllSound (length self.now.outcomes.now) active.now }
        requires some { end self.now < until }
        ensures { IsVerdict self.now (end self.now) active.now result }
    {
        let mut found = Verdict::Nothing;
        for i in 0..active.len() {
            let vote = self.vote_of(active[i].tag, until);
            found = self.with_vote(found, vote);
        }
        found
    }

    /// What a tag gives the next rank.
    fn vote_of(&self, tag: Tag, until: u64) -> Option<Vote>
        requires telling { IsTelling self.now }
        requires numbered { IsNumbered (length self.now.outcomes.now) tag }
        requires some { end self.now < until }
        ensures { IsVoteOf self.now (end self.now) tag result }
    {
        let (lead, _end) = lead_of(self.spec, tag, self.stretches.end(), until);
        match lead {
            Lead::Value(n) => Some(Vote::Table(n)),
            Lead::From(below) => match self.stretches.class_of(below) {
                Some(class) => Some(Vote::Class(class)),
                None => None,
            },
            Lead::Nowhere => None,
        }
    }

    /// The verdict with one more vote.
    fn with_vote(&self, found: Verdict, vote: Option<Vote>) -> Verdict
        requires found { HasVote self.now found }
        requires vote { IsKnown self.now vote }
        ensures { IsWith self.now found vote result }
    {
        match vote {
            None => found,
            Some(vote) => self.with_one(found, vote),
        }
    }

    fn with_one(&self, found: Verdict, vote: Vote) -> Verdict
        requires found { HasVote self.now found }
        requires vote { IsKnown self.now (Some vote) }
        ensures { IsWith self.now found (Some vote) result }
    {
        match found {
            Verdict::Nothing => Verdict::One(vote),
            Verdict::One(other) => {
                if self.is_same(vote, other) {
                    Verdict::One(other)
                } else {
                    Verdict::Several
                }
            }
            Verdict::Several => Verdict::Several,
        }
    }

    /// Whether two votes are for one outcome.
    fn is_same(&self, a: Vote, b: Vote) -> bool
        requires a { IsKnown self.now (Some a) }
        requires b { IsKnown self.now (Some b) }
        ensures { IsTrue result ↔ (said self.now a ≡ said self.now b) }
    {
        self.outcome_of(a).is_same(&self.outcome_of(b))
    }

    fn outcome_of(&self, vote: Vote) -> CompactOutcome<'_>
        requires { IsKnown self.now (Some vote) }
        ensures { said self.now vote ≡ Some result }
    {
        match vote {
            Vote::Table(n) => self.outcomes.get(n),
            Vote::Class(class) => self.told.outcome(class).again(),
        }
    }
}

/// How far the verdict of a rank goes: where only outcomes are said, it is that of all ranks up to the end.
pub(crate) fn last_of(active: &[Run], rank: u64, until: u64) -> u64
    requires { rank < until }
    ensures { GoesTo active.now rank until result }
{
    if only_ran(active) { until } else { rank + 1 }
}

/// Whether only outcomes are said.
fn only_ran(active: &[Run]) -> bool
    ensures { IsTrue result → OnlyRan active.now }
{
    for i in 0..active.len() {
        if is_swap(active[i].tag) {
            return false;
        }
    }
    true
}

fn is_swap(tag: Tag) -> bool
    ensures { (result ≡ false) → (n : ℕ) × (tag ≡ tags.Ran n) }
{
    match tag {
        Tag::Ran(_) => false,
        Tag::Swap(_) => true,
    }
}
