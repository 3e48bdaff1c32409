//! What the runs that cover a rank give it.

ghost use Rattle.std.specs.Prelude.{◌≡◌, ◌<◌, ◌≤◌, length, IfSome, IsTrue, None, Some, slice_index_or, [], MatchOption};
ghost use Rattle.fact_books.specs.Runs.{AllSound, IsNumbered};
ghost use Rattle.fact_books.specs.Sweep.{leads_of, values_of, AllBelow, tag_vote, IsLead, AreLeads};
ghost use Rattle.fact_books.specs.Sweep.{IsVerdict, IsWith, IsNamed, IsOneOf, OnlyRan, GoesTo};

use crate::error::ReportError;
use crate::leading::Lead;
use crate::run::{Run, Tag};
use compact_outcomes::CompactOutcomes;
use perm_ranks::Shape;

/// What the facts of a rank give.
#[derive(Clone, Copy, Drop)]
pub(crate) enum Verdict {
    /// No value.
    Nothing,
    /// The outcome with this number, and no other.
    One(usize),
    /// More than one value.
    Several,
}

/// What the runs in hand give at the next rank, where each has its lead for the ranks from `first` up to `last`.
pub(crate) fn judged(
    outcomes: &CompactOutcomes,
    shape: &Option<Shape>,
    done: &[usize],
    active: &[Run],
    leads: &[Lead],
    first: u64,
    last: u64,
) -> Verdict
    requires sound { AllSound (length outcomes.now) active.now }
    requires done_numbered { AllBelow (length outcomes.now) done.now }
    requires leads { AreLeads (leads_of shape.now) first last active.now leads.now }
    requires from { first ≤ length done.now }
    requires to { length done.now < last }
    ensures { IsVerdict outcomes.now (tag_vote outcomes.now (leads_of shape.now) (values_of outcomes.now done.now) (length done.now)) active.now result }
{
    let mut found = Verdict::Nothing;
    for i in 0..active.len() {
        let vote = vote_of(outcomes, shape, done, active[i].tag, leads[i], first, last);
        found = with_vote(outcomes, found, vote);
    }
    found
}

/// The number of the outcome that a tag gives at the next rank.
fn vote_of(
    outcomes: &CompactOutcomes,
    shape: &Option<Shape>,
    done: &[usize],
    tag: Tag,
    lead: Lead,
    first: u64,
    last: u64,
) -> Option<usize>
    requires numbered { IsNumbered (length outcomes.now) tag }
    requires done_numbered { AllBelow (length outcomes.now) done.now }
    requires lead { IsLead (leads_of shape.now) first last tag lead }
    requires from { first ≤ length done.now }
    requires to { length done.now < last }
    ensures { MatchOption result
        (tag_vote outcomes.now (leads_of shape.now) (values_of outcomes.now done.now) (length done.now) tag ≡ None)
        (λ n. (n < length outcomes.now) × (tag_vote outcomes.now (leads_of shape.now) (values_of outcomes.now done.now) (length done.now) tag
        ≡ Some (slice_index_or outcomes.now n []))) }
{
    match lead {
        Lead::Value(n) => Some(n),
        Lead::From(below) => {
            let rank = below + (done.len() as u64 - first);
            Some(done[rank as usize])
        }
        Lead::Nowhere => None,
    }
}

/// The verdict with one more vote.
fn with_vote(outcomes: &CompactOutcomes, found: Verdict, vote: Option<usize>) -> Verdict
    requires found { IsNamed (length outcomes.now) found }
    requires vote { IfSome vote (λ n. n < length outcomes.now) }
    ensures { IsWith outcomes.now found vote result }
{
    match vote {
        None => found,
        Some(n) => with_number(outcomes, found, n),
    }
}

fn with_number(outcomes: &CompactOutcomes, found: Verdict, n: usize) -> Verdict
    requires found { IsNamed (length outcomes.now) found }
    requires vote { n < length outcomes.now }
    ensures { IsWith outcomes.now found (Some n) result }
{
    match found {
        Verdict::Nothing => Verdict::One(n),
        Verdict::One(m) => {
            if n == m || outcomes.get(n).is_same(&outcomes.get(m)) {
                Verdict::One(m)
            } else {
                Verdict::Several
            }
        }
        Verdict::Several => Verdict::Several,
    }
}

/// The number of the one value, or why there is none.
pub(crate) fn one_of(verdict: Verdict, rank: u64) -> Result<usize, ReportError>
    ensures { IsOneOf verdict rank result }
{
    match verdict {
        Verdict::One(n) => Ok(n),
        Verdict::Nothing => Err(ReportError::Missing(rank)),
        Verdict::Several => Err(ReportError::Clash(rank)),
    }
}

/// How far the verdict of a rank goes: where only outcomes are said, it is that of all ranks up to the end.
pub(crate) fn last_of(active: &[Run], rank: u64, until: u64) -> u64
    requires { rank < until }
    ensures { GoesTo active.now rank until result }
{
    if only_ran(active) { until } else { rank + 1 }
}

fn only_ran(active: &[Run]) -> bool
    ensures { IsTrue result → OnlyRan active.now }
{
    for i in 0..active.len() {
        if active[i].tag.is_swap() {
            return false;
        }
    }
    true
}
