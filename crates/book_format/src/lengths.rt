//! How long the parts of a book's text are, and how many facts a book has.

ghost use Rattle.std.specs.Prelude.{◌≡◌, ◌<◌, ◌≤◌, ◌-◌, ◌^◌, All, codes, decimal, flat_map, length, min};
ghost use Rattle.std.specs.List.{join_by};
ghost use Rattle.compact_outcomes.specs.CompactTexts.{after_comma};
ghost use Rattle.book_format.specs.BookText.{total_of};
ghost use Rattle.book_format.specs.Laws.{RunFits};
ghost use Rattle.book_format.specs.Pieces.{run_text, tag_front, told_text};

use crate::canonical::number;
use compact_outcomes::CompactOutcome;
use fact_books::{Run, Tag};
use itoa::Buffer;

/// What stands before the number in a run's text.
pub(crate) fn front(tag: Tag) -> &'static str
    ensures { result.now ≡ tag_front tag }
{
    match tag {
        Tag::Ran(_) => ",\"ran\",",
        Tag::Swap(_) => ",\"swap\",",
    }
}

/// How many ranks the run has.
pub(crate) fn ranks_in(run: &Run) -> u64
    ensures { result ≡ run.now.end - run.now.first }
{
    run.end.saturating_sub(run.first)
}

/// The numbers of a run have the widths of their types.
fn widths(run: &Run)
    ensures { RunFits run.now }
{
    width(run.first);
    width(run.end);
    width(number(run.tag) as u64);
}

/// The number has the width of its type.
fn width(number: u64)
    ensures { number < 2 ^ 64 }
{
    let _number = number; // for the proof
}

/// How many facts the runs have, or the largest number where there are more.
pub(crate) fn facts_in(runs: &[Run]) -> u64
    ensures facts { result ≡ min (total_of runs.now) u64.MAX }
    ensures fit { All RunFits runs.now }
{
    let mut facts: u64 = 0;
    for run in runs {
        widths(run);
        facts = facts.saturating_add(ranks_in(run));
    }
    facts
}

/// How long the texts of the runs are with commas between them, or the largest number where they are longer.
pub(crate) fn runs_len(runs: &[Run]) -> u64
    ensures { result ≡ min (length (join_by run_text (codes ",") runs.now)) u64.MAX }
{
    match runs.split_first() {
        None => 0,
        Some((first, others)) => run_len(first).saturating_add(other_runs_len(others)),
    }
}

fn other_runs_len(runs: &[Run]) -> u64
    ensures { result ≡ min (length (flat_map (after_comma run_text) runs.now)) u64.MAX }
{
    let mut len: u64 = 0;
    for run in runs {
        len = len.saturating_add(run_len(run) + 1);
    }
    len
}

fn run_len(run: &Run) -> u64
    ensures len { result ≡ length (run_text run.now) }
    ensures short { result ≤ 200 }
{
    let ranks = digits(run.first) + digits(ranks_in(run));
    let tag = digits(number(run.tag) as u64) + front(run.tag).len() as u64;
    ranks + tag + 3
}

/// How many digits a number has.
fn digits(number: u64) -> u64
    ensures len { result ≡ length (decimal number) }
    ensures short { result ≤ 40 }
{
    Buffer::new().format(number).len() as u64
}

/// How long the texts of outcomes are with commas between them, or the largest number where they are longer.
pub(crate) fn outcomes_len(outcomes: &[CompactOutcome<'_>]) -> u64
    ensures { result ≡ min (length (join_by told_text (codes ",") outcomes.now)) u64.MAX }
{
    match outcomes.split_first() {
        None => 0,
        Some((first, others)) => outcome_len(first).saturating_add(other_outcomes_len(others)),
    }
}

fn other_outcomes_len(outcomes: &[CompactOutcome<'_>]) -> u64
    ensures { result ≡ min (length (flat_map (after_comma told_text) outcomes.now)) u64.MAX }
{
    let mut len: u64 = 0;
    for outcome in outcomes {
        len = len.saturating_add(outcome_len(outcome)).saturating_add(1);
    }
    len
}

/// How long the text of an outcome is.
fn outcome_len(outcome: &CompactOutcome<'_>) -> u64
    ensures { result ≡ length (told_text outcome.now) }
{
    outcome.as_bytes().len() as u64
}
