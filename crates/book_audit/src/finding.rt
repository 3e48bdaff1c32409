//! What a piece of work finds.

ghost use Rattle.std.specs.Prelude.{◌≡◌, ◌<◌, length, min, IfOk, OnOk};
ghost use Rattle.rank_facts.specs.Values.{Facts};
ghost use Rattle.fact_books.specs.Runs.{AllSound, IsSound};
ghost use Rattle.fact_books.specs.Books.{Contents};
ghost use Rattle.fact_books.specs.Entries.{recorded};
ghost use Rattle.book_audit.specs.Audit.{IsAudit};
ghost use Rattle.book_audit.specs.Grounds.{IsGround};
ghost use Rattle.book_audit.specs.Findings.{IsFinding, IsLeast, said, with_said, limit, first_of};

use crate::error::AuditError;
use crate::ground::Ground;
use bound_specs::Spec;
use compact_outcomes::CompactOutcomes;
use fact_books::Run;
use std::alloc::{AllocError, Global};

/// What is found of the facts of some runs.
#[derive(Clone, Copy, Drop)]
pub(crate) enum Finding {
    /// Each is true.
    AllTrue,
    /// This is the least rank with one that is not true.
    False(u64),
    /// Memory ran out.
    NoMemory,
}

/// What is found of the facts that runs say.
pub(crate) fn finding_of(
    alloc: Global,
    spec: &Spec,
    outcomes: &CompactOutcomes,
    runs: &[Run],
) -> Finding
    requires { AllSound (length outcomes.now) runs.now }
    ensures { IsFinding spec.now.run (said outcomes.now runs.now) result }
{
    match Ground::of(alloc, spec) {
        Ok(mut ground) => found(least_false(&mut ground, spec, outcomes, runs)),
        Err(AllocError) => Finding::NoMemory,
    }
}

fn found(least: Result<Option<u64>, AllocError>) -> Finding
    ensures { (spec : _) (has : Facts) → IfOk least (IsLeast spec has) → IsFinding spec has result }
{
    match least {
        Ok(None) => Finding::AllTrue,
        Ok(Some(rank)) => Finding::False(rank),
        Err(AllocError) => Finding::NoMemory,
    }
}

/// The least rank at which one of the runs says what is not true.
fn least_false(
    ground: &mut Ground<'_>,
    spec: &Spec,
    outcomes: &CompactOutcomes,
    runs: &[Run],
) -> Result<Option<u64>, AllocError>
    requires ground { IsGround spec.now outcomes.now ground.old }
    requires sound { AllSound (length outcomes.now) runs.now }
    ensures { IfOk result (IsLeast spec.now.run (said outcomes.now runs.now)) }
{
    let mut least = None;
    for i in 0..runs.len() {
        least = with_run(ground, spec, outcomes, runs[i], least)?;
    }
    Ok(least)
}

/// The least rank with one more run. Ranks from the least so far on are not looked at.
fn with_run(
    ground: &mut Ground<'_>,
    spec: &Spec,
    outcomes: &CompactOutcomes,
    run: Run,
    least: Option<u64>,
) -> Result<Option<u64>, AllocError>
    requires ground { IsGround spec.now outcomes.now ground.old }
    requires sound { IsSound (length outcomes.now) run }
    ensures ground { OnOk result (IsGround spec.now outcomes.now ground.new) }
    ensures least { IfOk result (λ now. (has : Facts) → IsLeast spec.now.run has least → IsLeast spec.now.run (with_said has outcomes.now run) now) }
{
    let found = ground.first_false(spec, outcomes, run, limit(run.end, least))?;
    Ok(first_of(found, least))
}

fn limit(end: u64, least: Option<u64>) -> u64
    ensures { result ≡ limit end least }
{
    match least {
        Some(rank) => end.min(rank),
        None => end,
    }
}

fn first_of(found: Option<u64>, least: Option<u64>) -> Option<u64>
    ensures { result ≡ first_of found least }
{
    match found {
        Some(rank) => Some(rank),
        None => least,
    }
}

/// The audit's answer.
pub(crate) fn told(finding: Finding) -> Result<(), AuditError>
    ensures { (book : Contents) → IsFinding book.file.run (recorded book.facts) finding → IsAudit book result }
{
    match finding {
        Finding::AllTrue => Ok(()),
        Finding::False(rank) => Err(AuditError::False(rank)),
        Finding::NoMemory => Err(AuditError::NoMemory),
    }
}
