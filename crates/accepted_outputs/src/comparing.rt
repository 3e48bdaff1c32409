//! Where two reports differ first.

ghost use Rattle.std.specs.Prelude.{◌≡◌, ◌↔◌, ◌<◌, [], Some, IfSome, IsTrue, length, slice_index_or};
ghost use Rattle.accepted_outputs.specs.Judging.{IsComparison, IsFirstPlace};

use crate::sessions::first_session;
use fact_books::Report;
use transcripts::Outcome;

/// The first rank at which two reports differ, and there the first session that does. None where they are equal.
pub(crate) fn first_difference(report: &Report, other: &Report) -> Option<(u64, u8)>
    ensures { IsComparison report.now other.now result }
{
    report.known();
    other.known();
    let rank = first_rank(report, other)?;
    let Some(told) = report.outcome(rank) else {
        return Some((rank, 0));
    };
    let Some(accepted) = other.outcome(rank) else {
        return Some((rank, 0));
    };
    let session = first_session(told.sessions(), accepted.sessions());
    Some((rank, session))
}

/// The first rank at which two reports differ. Where the ranks before one had the same two outcomes, they are not compared again.
fn first_rank(report: &Report, other: &Report) -> Option<u64>
    ensures { IsFirstPlace report.now other.now result }
{
    let (outcomes, numbers) = report.parts();
    let (accepted, names) = other.parts();
    let shorter = numbers.len().min(names.len());
    let mut alike = None;
    for rank in 0..shorter {
        let number = numbers[rank];
        let name = names[rank];
        if !is_alike(outcomes, number, accepted, name, alike) {
            return Some(rank as u64);
        }
        alike = Some((number, name));
    }
    if numbers.len() == names.len() {
        None
    } else {
        Some(shorter as u64)
    }
}

/// Whether two outcomes with these numbers are the same, where the numbers of two that are may be known.
fn is_alike(
    outcomes: &[Outcome],
    number: usize,
    accepted: &[Outcome],
    name: usize,
    alike: Option<(usize, usize)>,
) -> bool
    requires number { number < length outcomes.now }
    requires name { name < length accepted.now }
    requires alike { IfSome alike (λ p. slice_index_or outcomes.now p.0 [] ≡ slice_index_or accepted.now p.1 []) }
    ensures { IsTrue result ↔ (slice_index_or outcomes.now number [] ≡ slice_index_or accepted.now name []) }
{
    if is_pair(alike, number, name) {
        return true;
    }
    outcomes[number].is_same(&accepted[name])
}

fn is_pair(pair: Option<(usize, usize)>, number: usize, name: usize) -> bool
    ensures { IsTrue result → pair ≡ Some (number, name) }
{
    match pair {
        None => false,
        Some((n, m)) => n == number && m == name,
    }
}
