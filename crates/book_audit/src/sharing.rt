//! Pieces of work in threads.

ghost use Rattle.std.specs.Prelude.{◌≡◌, ◌≤◌, All, IfOk, length};
ghost use Rattle.std.specs.List.{AllZip};
ghost use Rattle.bound_specs.specs.Spec.{SpecFile};
ghost use Rattle.bound_specs.specs.Binding.{IsFileOf};
ghost use Rattle.fact_books.specs.Runs.{AllSound};
ghost use Rattle.book_audit.specs.Findings.{IsFinding, said};
ghost use Rattle.book_audit.specs.Pieces.{both, all_of};
ghost use Rattle.book_audit.specs.declared.finding.Finding.TheVariants as found;

use crate::finding::{Finding, finding_of};
use crate::source::bound_spec;
use compact_outcomes::CompactOutcomes;
use fact_books::Run;
use rayon::current_num_threads;
use rayon::prelude::*;
use sqlite_items::Items;
use std::alloc::{AllocError, Global};
use std::thread::Threads;

/// How many parts `rayon` makes of a list at most, and so how often an audit binds and starts its spec at most.
const MOST_PIECES: usize = 64;

/// How many pieces there are to be at most: as many as threads can be, two for each processor. A thread keeps the pieces that it is
/// given, so that more of them would bind and start the spec more often and end no earlier.
pub(crate) fn most_pieces(threads: &impl Threads) -> u64
    ensures { 1 ≤ result }
{
    current_num_threads(threads)
        .saturating_mul(2)
        .min(MOST_PIECES) as u64
}

/// What is found of each piece, in their order.
pub(crate) fn findings_of<R: Threads + Sync>(
    threads: &R,
    alloc: Global,
    text: &str,
    outcomes: &CompactOutcomes,
    pieces: &[Items<Run>],
) -> Result<Vec<Finding>, AllocError>
    requires { All (AllSound (length outcomes.now)) pieces.now }
    ensures { IfOk result (λ findings. (file : SpecFile) → IsFileOf text.now file
        → AllZip (λ piece finding. IsFinding file.run (said outcomes.now piece) finding) pieces.now findings.items) }
{
    // A list of a few pieces is worth threads too, since each is some thousand steps.
    pieces
        .par_iter()
        .with_min_len(1)
        .map(
            |piece: &Items<Run>| -> Finding
                requires { AllSound (length outcomes.now) piece.now }
                ensures { (file : SpecFile) → IsFileOf text.entry.now file → IsFinding file.run (said outcomes.entry.now piece.now) result }
            { finding_in(alloc, text, outcomes, piece.as_slice()) },
        )
        .collect(threads, alloc)
}

/// What is found of the facts that runs say of the spec with this text. Threads share the text, and each piece binds and starts the
/// spec for itself.
fn finding_in(alloc: Global, text: &str, outcomes: &CompactOutcomes, runs: &[Run]) -> Finding
    requires { AllSound (length outcomes.now) runs.now }
    ensures { (file : SpecFile) → IsFileOf text.now file → IsFinding file.run (said outcomes.now runs.now) result }
{
    match bound_spec(alloc, text) {
        Ok(spec) => finding_of(alloc, &spec, outcomes, runs),
        Err(AllocError) => Finding::NoMemory,
    }
}

/// What is found of all pieces.
pub(crate) fn all_of(findings: &[Finding]) -> Finding
    ensures { result ≡ all_of found.AllTrue findings.now }
{
    let mut all = Finding::AllTrue;
    for i in 0..findings.len() {
        all = both(all, findings[i]);
    }
    all
}

/// What is found of two pieces.
fn both(a: Finding, b: Finding) -> Finding
    ensures { result ≡ both a b }
{
    match a {
        Finding::NoMemory => Finding::NoMemory,
        Finding::AllTrue => b,
        Finding::False(rank) => match b {
            Finding::NoMemory => Finding::NoMemory,
            Finding::AllTrue => Finding::False(rank),
            Finding::False(other) => Finding::False(rank.min(other)),
        },
    }
}
