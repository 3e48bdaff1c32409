//! The longest runs of a set of facts, in order.

ghost use Rattle.std.specs.Prelude.{◌≡◌, ◌⊎◌, IfOk, IsTrue, max};
ghost use Rattle.std.specs.List.Sorted.{IsPermutation};
ghost use Rattle.book_format.specs.Forms.{Rises, IsLater, run_cmp, tag_kind, tag_number};
ghost use Rattle.book_format.specs.Canonical.{AreInTurn, IsTagSorted, IsPast, IsTouching, AreSound, StaySound, SayTheSame, tag_cmp};

use fact_books::{Run, Tag};
use std::alloc::{AllocError, Global};
use std::cmp::Ordering;

/// The one list of runs that says the same: the longest ones, in order. It has at most as many. Runs that come one behind the other, as
/// those of one range do, are gone over once; others are sorted twice.
pub(crate) fn canonical(alloc: Global, runs: &[Run]) -> Result<Vec<Run>, AllocError>
    requires { AreSound runs.now }
    ensures rises { IfOk result (λ out. Rises IsLater out.items) }
    ensures facts { IfOk result (λ out. SayTheSame out.items runs.now) }
    ensures sound { IfOk result (λ out. StaySound runs.now out.items) }
{
    if are_in_turn(runs) {
        longest(alloc, runs)
    } else {
        sorted_and_joined(alloc, runs)
    }
}

/// The longest runs of any runs, in order.
fn sorted_and_joined(alloc: Global, runs: &[Run]) -> Result<Vec<Run>, AllocError>
    requires { AreSound runs.now }
    ensures rises { IfOk result (λ out. Rises IsLater out.items) }
    ensures facts { IfOk result (λ out. SayTheSame out.items runs.now) }
    ensures sound { IfOk result (λ out. StaySound runs.now out.items) }
{
    let sorted = by_tag(alloc, runs)?;
    let joined = longest(alloc, sorted.as_slice())?;
    Ok(in_order(joined))
}

/// Whether each run begins where the one before ends, or behind it.
fn are_in_turn(runs: &[Run]) -> bool
    ensures { IsTrue result → AreInTurn runs.now }
{
    for i in 1..runs.len() {
        if runs[i].first < runs[i - 1].end {
            return false;
        }
    }
    true
}

/// 0 for an outcome, 1 for a swap.
pub(crate) fn kind(tag: Tag) -> u8
    ensures { result ≡ tag_kind tag }
{
    match tag {
        Tag::Ran(_) => 0,
        Tag::Swap(_) => 1,
    }
}

/// An outcome's number, or the place of a swap.
pub(crate) fn number(tag: Tag) -> usize
    ensures { result ≡ tag_number tag }
{
    match tag {
        Tag::Ran(n) => n as usize,
        Tag::Swap(k) => k as usize,
    }
}

/// The number with which a run names an outcome at a place. One past 32 bits is refused as an outcome is for which there is no memory.
pub(crate) fn number_at(place: usize) -> Result<u32, AllocError>
    ensures { IfOk result (λ number. number ≡ place) }
{
    let Ok(number) = u32::try_from(place) else {
        return Err(AllocError);
    };
    Ok(number)
}

/// By what runs say, and then by their first ranks.
fn tag_order(a: &Run, b: &Run) -> Ordering
    ensures { result ≡ tag_cmp a.now b.now }
{
    kind(a.tag)
        .cmp(&kind(b.tag))
        .then(number(a.tag).cmp(&number(b.tag)))
        .then(a.first.cmp(&b.first))
}

/// By their first ranks, and then by what they say.
fn run_order(a: &Run, b: &Run) -> Ordering
    ensures { result ≡ run_cmp a.now b.now }
{
    a.first
        .cmp(&b.first)
        .then(kind(a.tag).cmp(&kind(b.tag)))
        .then(number(a.tag).cmp(&number(b.tag)))
}

/// The runs by what they say, and then by their first ranks.
fn by_tag(alloc: Global, runs: &[Run]) -> Result<Vec<Run>, AllocError>
    ensures sorted { IfOk result (λ out. IsTagSorted out.items) }
    ensures same { IfOk result (λ out. IsPermutation runs.now out.items) }
{
    let mut sorted = Vec::from_slice(alloc, runs)?;
    sorted.sort_unstable_by(|a, b| tag_order(a, b));
    Ok(sorted)
}

fn touches(current: Run, run: Run) -> bool
    ensures { IsTouching current run result }
{
    current.tag.is(run.tag) && run.first <= current.end
}

fn grown(current: Run, run: Run) -> Run
    ensures first { result.first ≡ current.first }
    ensures end { result.end ≡ max current.end run.end }
    ensures tag { result.tag ≡ current.tag }
{
    Run {
        first: current.first,
        end: current.end.max(run.end),
        tag: current.tag,
    }
}

/// The longest runs, of runs in the order of what they say and of their first ranks, or of runs that come one behind the other. They stand in the
/// order of those.
fn longest(alloc: Global, runs: &[Run]) -> Result<Vec<Run>, AllocError>
    requires order { IsTagSorted runs.now ⊎ AreInTurn runs.now }
    requires sound { AreSound runs.now }
    ensures apart { IfOk result (λ out. IsTagSorted runs.now → Rises IsPast out.items) }
    ensures rises { IfOk result (λ out. AreInTurn runs.now → Rises IsLater out.items) }
    ensures facts { IfOk result (λ out. SayTheSame out.items runs.now) }
    ensures sound { IfOk result (λ out. StaySound runs.now out.items) }
{
    let mut out = Vec::new(alloc);
    if runs.is_empty() {
        return Ok(out);
    }
    let mut current = runs[0];
    for i in 1..runs.len() {
        let run = runs[i];
        if touches(current, run) {
            current = grown(current, run);
        } else {
            out.push(current)?;
            current = run;
        }
    }
    out.push(current)?;
    Ok(out)
}

/// The longest runs in the order of their first ranks.
fn in_order(runs: Vec<Run>) -> Vec<Run>
    requires apart { Rises IsPast runs.items }
    requires sound { AreSound runs.items }
    ensures rises { Rises IsLater result.items }
    ensures facts { SayTheSame result.items runs.items }
    ensures sound { StaySound runs.items result.items }
{
    let mut runs = runs;
    runs.sort_unstable_by(|a, b| run_order(a, b));
    runs
}
