//! The values of a stretch of ranks of which the same runs say all.

ghost use Rattle.std.specs.Prelude.{◌≡◌, ◌<◌, ◌≤◌, ◌-◌, ◌++◌, ◌∷◌, [], length, IfOk, IfErr, OnOk};
ghost use Rattle.fact_books.specs.Runs.{AllSound};
ghost use Rattle.fact_books.specs.Sweep.{leads_of, AllBelow, AreLeads, FillsStretch, StopsStretch, copies};

use crate::error::ReportError;
use crate::judging::{judged, last_of, one_of};
use crate::leading::{Lead, lead_of};
use crate::run::Run;
use compact_outcomes::CompactOutcomes;
use perm_ranks::Shape;
use std::alloc::{AllocError, Global};

/// Adds the numbers of the values up to a rank, where the runs in hand say all.
pub(crate) fn fill(
    done: &mut Vec<usize>,
    outcomes: &CompactOutcomes,
    shape: &Option<Shape>,
    active: &[Run],
    until: u64,
) -> Result<(), ReportError>
    requires sound { AllSound (length outcomes.now) active.now }
    requires numbered { AllBelow (length outcomes.now) done.old.items }
    requires bound { length done.old.items ≤ until }
    ensures numbered { OnOk result (AllBelow (length outcomes.now) done.new.items) }
    ensures filled { OnOk result (length done.new.items ≡ until) }
    ensures values { OnOk result (FillsStretch outcomes.now (leads_of shape.now) active.now until done.old.items done.new.items) }
    ensures stop { IfErr result (StopsStretch outcomes.now (leads_of shape.now) active.now until done.old.items) }
{
    while (done.len() as u64) < until {
        let rank = done.len() as u64;
        let alloc = *done.allocator();
        let (leads, last) = leads_at(alloc, shape, active, rank, until)?;
        match fill_block(done, outcomes, shape, active, leads.as_slice(), rank, last) {
            Ok(()) => {}
            Err(error) => return Err(error),
        }
    }
    Ok(())
}

/// Where each run leads at a rank and at those behind it, up to the end that is answered too.
fn leads_at(
    alloc: Global,
    shape: &Option<Shape>,
    active: &[Run],
    rank: u64,
    until: u64,
) -> Result<(Vec<Lead>, u64), AllocError>
    requires { rank < until }
    ensures leads { IfOk result (λ p. AreLeads (leads_of shape.now) rank p.1 active.now p.0.items) }
    ensures some { IfOk result (λ p. rank < p.1) }
    ensures few { IfOk result (λ p. p.1 ≤ until) }
{
    let mut leads = Vec::with_capacity(alloc, active.len())?;
    let mut last = until;
    for run in active {
        let (lead, end) = lead_of(shape, run.tag, rank, last);
        leads.push(lead)?;
        last = end;
    }
    Ok((leads, last))
}

/// Adds the numbers of the values up to the end of a block, in which each run has its lead.
fn fill_block(
    done: &mut Vec<usize>,
    outcomes: &CompactOutcomes,
    shape: &Option<Shape>,
    active: &[Run],
    leads: &[Lead],
    first: u64,
    last: u64,
) -> Result<(), ReportError>
    requires sound { AllSound (length outcomes.now) active.now }
    requires numbered { AllBelow (length outcomes.now) done.old.items }
    requires leads { AreLeads (leads_of shape.now) first last active.now leads.now }
    requires from { first ≤ length done.old.items }
    requires bound { length done.old.items ≤ last }
    ensures numbered { OnOk result (AllBelow (length outcomes.now) done.new.items) }
    ensures filled { OnOk result (length done.new.items ≡ last) }
    ensures values { OnOk result (FillsStretch outcomes.now (leads_of shape.now) active.now last done.old.items done.new.items) }
    ensures stop { IfErr result (StopsStretch outcomes.now (leads_of shape.now) active.now last done.old.items) }
{
    while (done.len() as u64) < last {
        let rank = done.len() as u64;
        let verdict = judged(outcomes, shape, done.as_slice(), active, leads, first, last);
        let n = match one_of(verdict, rank) {
            Ok(n) => n,
            Err(error) => return Err(error),
        };
        let end = last_of(active, rank, last);
        extend(done, n, end)?;
    }
    Ok(())
}

/// Adds the number until so many are there.
fn extend(done: &mut Vec<usize>, n: usize, last: u64) -> Result<(), AllocError>
    requires { length done.old.items ≤ last }
    ensures { OnOk result (done.new.items ≡ done.old.items ++ copies n (last - length done.old.items)) }
{
    while (done.len() as u64) < last {
        done.push(n)?;
    }
    Ok(())
}
