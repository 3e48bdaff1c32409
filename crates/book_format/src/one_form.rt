//! The one form of a book: its outcomes in the order of their texts, and its longest runs in order.

ghost use Rattle.std.specs.Prelude.{◌≡◌, IfOk, length, vec_len};
ghost use Rattle.fact_books.specs.Runs.{AllSound};
ghost use Rattle.fact_books.specs.Books.{IsKept, facts_in};
ghost use Rattle.book_format.specs.Forms.{Rises, ComesBefore, IsForm};
ghost use Rattle.book_format.specs.Numbering.{AreFlags, AreFlagged, AreNumbers, IsNumber};

use crate::canonical::{canonical, number_at};
use compact_outcomes::CompactOutcome;
use fact_books::{Run, Tag, renumber};
use std::alloc::{AllocError, Global};

/// Outcomes in the order of their texts, and runs that name them.
#[derive(Drop)]
pub(crate) struct OneForm<'a> {
    pub(crate) outcomes: Vec<CompactOutcome<'a>>,
    pub(crate) runs: Vec<Run>,
}

/// The one form of what these runs say of these outcomes.
pub(crate) fn one_form<'a>(
    alloc: Global,
    outcomes: &[CompactOutcome<'a>],
    runs: &[Run],
) -> Result<OneForm<'a>, AllocError>
    requires { AllSound (length outcomes.now) runs.now }
    ensures { IfOk result (λ form. IsForm (facts_in outcomes.now runs.now) form.outcomes.items form.runs.items) }
{
    let flags = flags_of(alloc, outcomes.len(), runs)?;
    let named = named(alloc, outcomes, flags.as_slice())?;
    let numbers = numbers_of(alloc, outcomes, named.as_slice())?;
    let renumbered = renumber(alloc, numbers.as_slice(), runs)?;
    let runs = canonical(alloc, renumbered.as_slice())?;
    Ok(OneForm {
        outcomes: named,
        runs,
    })
}

/// Of each outcome, whether a run names it.
fn flags_of(alloc: Global, outcomes: usize, runs: &[Run]) -> Result<Vec<bool>, AllocError>
    requires { AllSound outcomes runs.now }
    ensures len { IfOk result (λ flags. vec_len flags ≡ outcomes) }
    ensures flags { IfOk result (λ flags. AreFlags runs.now flags.items) }
{
    let mut flags = vec![in alloc; false; outcomes]?;
    for run in runs {
        match run.tag {
            Tag::Ran(n) => flags[n as usize] = true,
            Tag::Swap(_) => {}
        }
    }
    Ok(flags)
}

/// The outcomes with a flag, once each, in the order of their texts.
fn named<'a>(
    alloc: Global,
    outcomes: &[CompactOutcome<'a>],
    flags: &[bool],
) -> Result<Vec<CompactOutcome<'a>>, AllocError>
    requires { length flags.now ≡ length outcomes.now }
    ensures rises { IfOk result (λ out. Rises ComesBefore out.items) }
    ensures named { IfOk result (λ out. AreFlagged outcomes.now flags.now out.items) }
{
    let mut named = flagged(alloc, outcomes, flags)?;
    named.sort_unstable();
    named.dedup();
    Ok(named)
}

/// The outcomes with a flag.
fn flagged<'a>(
    alloc: Global,
    outcomes: &[CompactOutcome<'a>],
    flags: &[bool],
) -> Result<Vec<CompactOutcome<'a>>, AllocError>
    requires { length flags.now ≡ length outcomes.now }
    ensures { IfOk result (λ out. AreFlagged outcomes.now flags.now out.items) }
{
    let mut out = Vec::new(alloc);
    for n in 0..outcomes.len() {
        if flags[n] {
            out.push(outcomes[n].again())?;
        }
    }
    Ok(out)
}

/// Where each outcome stands among those that rise, or 0 where it is not there.
fn numbers_of(
    alloc: Global,
    outcomes: &[CompactOutcome<'_>],
    named: &[CompactOutcome<'_>],
) -> Result<Vec<u32>, AllocError>
    requires { Rises ComesBefore named.now }
    ensures { IfOk result (λ numbers. AreNumbers outcomes.now named.now numbers.items) }
{
    let mut numbers = Vec::with_capacity(alloc, outcomes.len())?;
    for outcome in outcomes {
        let number = number_at(number_of(outcome, named))?;
        numbers.push(number)?;
    }
    Ok(numbers)
}

/// Where the outcome stands among those that rise, or 0 where it is not there.
fn number_of(outcome: &CompactOutcome<'_>, named: &[CompactOutcome<'_>]) -> usize
    requires { Rises ComesBefore named.now }
    ensures { IsNumber named.now outcome.now result }
{
    match named.binary_search(outcome) {
        Ok(n) => n,
        Err(_) => 0,
    }
}
