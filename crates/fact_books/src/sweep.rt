//! The values of all ranks, by one pass over the runs.

ghost use Rattle.std.specs.Prelude.{◌≡◌, ◌<◌, ◌≤◌, length, drop, IfOk, IfErr, ℕ, slice_index_or};
ghost use Rattle.fact_books.specs.Runs.{AllSound, AllTo, firsts};
ghost use Rattle.fact_books.specs.Books.{IsKept, facts_in};
ghost use Rattle.fact_books.specs.Values.{AreValues};
ghost use Rattle.fact_books.specs.Sweep.{leads_of, values_of, AllBelow, AllCover, AllReach, IsSplit, IsStop};

use crate::error::ReportError;
use crate::filling::fill;
use crate::run::Run;
use compact_outcomes::CompactOutcomes;
use perm_ranks::Shape;
use std::alloc::{AllocError, Global};

/// The numbers of the values of so many ranks, or the least rank that has not exactly one. A stretch in which the same runs say
/// all is filled at once.
pub(crate) fn sweep(
    alloc: Global,
    outcomes: &CompactOutcomes,
    runs: &[Run],
    shape: &Option<Shape>,
    ranks: u64,
) -> Result<Vec<usize>, ReportError>
    requires kept { IsKept outcomes.now runs.now }
    ensures numbered { IfOk result (λ done. AllBelow (length outcomes.now) done.items) }
    ensures values { IfOk result (λ done. AreValues (facts_in outcomes.now runs.now) (leads_of shape.now) ranks (values_of outcomes.now done.items)) }
    ensures stop { IfErr result (IsStop (facts_in outcomes.now runs.now) (leads_of shape.now) ranks) }
{
    let mut done = Vec::new(alloc);
    let mut active = Vec::new(alloc);
    let mut next = 0;
    while (done.len() as u64) < ranks {
        let rank = done.len() as u64;
        let (now, after) = active_at(alloc, active.as_slice(), runs, next, rank)?;
        let until = border(now.as_slice(), runs, after, rank, ranks);
        fill(&mut done, outcomes, shape, now.as_slice(), until)?;
        active = now;
        next = after;
    }
    Ok(done)
}

/// The runs in hand at a rank: those in hand before that still cover it, and those of the rest that do.
fn active_at(
    alloc: Global,
    active: &[Run],
    runs: &[Run],
    next: usize,
    rank: u64,
) -> Result<(Vec<Run>, usize), AllocError>
    requires bound { next ≤ length runs.now }
    requires began { AllTo rank (firsts active.now) }
    ensures bound { IfOk result (λ p. p.1 ≤ length runs.now) }
    ensures cover { IfOk result (λ p. AllCover rank p.0.items) }
    ensures sound { IfOk result (λ p. (n : ℕ) → AllSound n active.now → AllSound n runs.now → AllSound n p.0.items) }
    ensures rest { IfOk result (λ p. (d : _) → p.1 < length runs.now → rank < (slice_index_or runs.now p.1 d).first) }
    ensures facts { IfOk result (λ p. (t : _) (all : _) → IsSplit t all active.now (drop next runs.now) rank
        → IsSplit t all p.0.items (drop p.1 runs.now) rank) }
{
    let mut now = Vec::new(alloc);
    for i in 0..active.len() {
        let run = active[i];
        if rank < run.end {
            now.push(run)?;
        }
    }
    let mut after = next;
    while after < runs.len() && runs[after].first <= rank {
        let run = runs[after];
        if rank < run.end {
            now.push(run)?;
        }
        after += 1;
    }
    Ok((now, after))
}

/// Up to which rank the runs in hand stay the same.
fn border(active: &[Run], runs: &[Run], next: usize, rank: u64, ranks: u64) -> u64
    requires rank { rank < ranks }
    requires cover { AllCover rank active.now }
    requires rest { (d : _) → next < length runs.now → rank < (slice_index_or runs.now next d).first }
    ensures above { rank < result }
    ensures few { result ≤ ranks }
    ensures reach { AllReach result active.now }
    ensures rest { (d : _) → next < length runs.now → result ≤ (slice_index_or runs.now next d).first }
{
    let mut until = ranks;
    if next < runs.len() {
        until = until.min(runs[next].first);
    }
    for i in 0..active.len() {
        until = until.min(active[i].end);
    }
    until
}
