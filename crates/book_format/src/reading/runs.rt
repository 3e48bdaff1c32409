//! The runs of a book.

ghost use Rattle.std.specs.Prelude.{◌≡◌, ◌≢◌, ◌↔◌, ◌<◌, ◌≤◌, ◌+◌, ◌-◌, ◌⊎◌, ℕ, IfOk, IsTrue, IsSome, List, [], ◌∷◌, ◌++◌, length, slice_index, cond, nat_lt};
ghost use Rattle.std.specs.Prelude.{replicate, Some, None};
ghost use Rattle.serde_json.specs.View.{view, items_view};
ghost use Rattle.fact_books.specs.Recording.{EachRun};
ghost use Rattle.book_format.specs.Forms.{run_cmp};
ghost use Rattle.book_format.specs.Reading.{Meets, StandsAfter};
ghost use Rattle.book_format.specs.ReadingRuns.{AllNamed, AreEnds, AreRunsOf, ComesAhead, IsApart, IsLed, IsNextRun, IsPast, IsTagOf, end_at, span_in};
ghost use Rattle.book_format.specs.ReadingRuns.{span_in_four, span_in_items, tag_in};

use crate::canonical::{kind, number};
use crate::error::BookError;
use crate::pieces::MAX_FACTS;
use bound_specs::Spec;
use fact_books::{Run, Tag, leads_along};
use rank_facts::MAX_PLACES;
use serde_json::Value as Json;
use std::alloc::{AllocError, Global};
use std::cmp::Ordering;

/// A run as a file has it.
#[derive(Clone, Copy, Drop)]
pub(crate) struct Span {
    pub(crate) first: u64,
    pub(crate) count: u64,
    pub(crate) tag: Tag,
}

/// For each outcome and each place the end of the last run that names it, 0 where none does.
pub(crate) struct Ends {
    pub(crate) ran: Vec<u64>,
    pub(crate) swap: Vec<u64>,
}

// Written out and not derived, so that who owns one calls this and does not let its parts go one by one.
impl Drop for Ends {
    fn drop(self) {
        let Ends {
            ran: _ran,
            swap: _swap,
        } = self;
    }
}

impl Ends {
    pub(crate) fn new(alloc: Global, outcomes: usize) -> Result<Ends, AllocError>
        ensures { IfOk result (λ ends. AreEnds outcomes ends []) }
    {
        Ok(Ends {
            ran: zeros(alloc, outcomes)?,
            swap: zeros(alloc, MAX_PLACES)?,
        })
    }

    fn at(&self, tag: Tag) -> u64
        requires tag { IsTagOf (length self.now.ran.items) tag }
        requires places { length self.now.swap.items ≡ 256 }
        ensures { result ≡ end_at self.now tag }
    {
        match tag {
            Tag::Ran(n) => self.ran[n as usize],
            Tag::Swap(k) => self.swap[k as usize],
        }
    }

    /// Notes a run that neither overlaps nor touches one that says the same.
    pub(crate) fn note(&mut self, run: Run)
        requires tag { IsTagOf (length self.old.ran.items) run.tag }
        requires places { length self.old.swap.items ≡ 256 }
        requires some { run.first < run.end }
        ensures { (outcomes : ℕ) (runs : List Run) → AreEnds outcomes self.old runs → IsApart runs run → AreEnds outcomes self.new (runs ++ run ∷ []) }
    {
        match run.tag {
            Tag::Ran(n) => self.ran[n as usize] = run.end,
            Tag::Swap(k) => self.swap[k as usize] = run.end,
        }
    }

    /// Whether a run begins behind the last one that says the same.
    fn is_apart(&self, run: &Run) -> bool
        requires tag { IsTagOf (length self.now.ran.items) run.now.tag }
        requires places { length self.now.swap.items ≡ 256 }
        ensures { IsTrue result ↔ ((end_at self.now run.now.tag ≡ 0) ⊎ (end_at self.now run.now.tag < run.now.first)) }
    {
        let end = self.at(run.tag);
        end == 0 || end < run.first
    }

    /// Whether each outcome is named by a run.
    pub(crate) fn all_named(&self) -> bool
        ensures { IsTrue result ↔ ((n : ℕ) → n < length self.now.ran.items → slice_index self.now.ran.items n ≢ 0) }
    {
        for end in &self.ran {
            if *end == 0 {
                return false;
            }
        }
        true
    }
}

fn zeros(alloc: Global, count: usize) -> Result<Vec<u64>, AllocError>
    ensures { IfOk result (λ zeros. zeros.items ≡ replicate count 0) }
{
    vec![in alloc; 0; count]
}

/// The runs that these values are, of a spec and so many outcomes, each of which has to be named.
pub(crate) fn runs_of(
    alloc: Global,
    spec: &Spec,
    outcomes: u32,
    values: &[Json],
) -> Result<Vec<Run>, BookError>
    ensures { Meets (λ runs. runs.items) (AreRunsOf spec.now.run outcomes (items_view values.now)) result }
{
    let mut ends = Ends::new(alloc, outcomes as usize)?;
    let mut runs = Vec::new(alloc);
    let mut facts = 0;
    for value in values {
        let run = match next_run(spec, outcomes, value, facts, runs.as_slice(), &ends) {
            Ok(run) => run,
            Err(error) => return Err(error),
        };
        facts += run.end - run.first;
        ends.note(run);
        runs.push(run)?;
    }
    if !ends.all_named() {
        return Err(BookError::BadField);
    }
    Ok(runs)
}

/// The run that a value is, behind others that have so many facts.
pub(super) fn next_run(
    spec: &Spec,
    outcomes: u32,
    value: &Json,
    facts: u64,
    before: &[Run],
    ends: &Ends,
) -> Result<Run, BookError>
    requires few { facts ≤ MAX_FACTS }
    requires ends { AreEnds outcomes ends.now before.now }
    ensures { Meets (λ run. run) (IsNextRun spec.now.run outcomes before.now facts (view value.now)) result }
{
    let Some(span) = span_of(value, outcomes) else {
        return Err(BookError::BadField);
    };
    if span.count > MAX_FACTS - facts {
        return Err(BookError::TooLarge);
    }
    if !is_within(&span, spec.ranks()) {
        return Err(BookError::BadRank);
    }
    let run = Run {
        first: span.first,
        end: span.first + span.count,
        tag: span.tag,
    };
    if !is_led(spec, &run) {
        return Err(BookError::BadSwap);
    }
    if !is_past(outcomes, before, ends, &run) {
        return Err(BookError::OutOfOrder);
    }
    Ok(run)
}

fn is_within(span: &Span, ranks: u64) -> bool
    ensures { IsTrue result ↔ (span.now.first + span.now.count ≤ ranks) }
{
    span.first <= ranks && span.count <= ranks - span.first
}

/// Whether a swap leads to a rank from each of the run's ranks.
pub(crate) fn is_led(spec: &Spec, run: &Run) -> bool
    ensures { IsTrue result ↔ IsLed spec.now.run run.now.first run.now.end run.now.tag }
{
    match run.tag {
        Tag::Ran(_) => true,
        Tag::Swap(place) => leads_along(spec, place, run.first, run.end),
    }
}

/// Whether a run stands after the last one, and apart from those that say the same.
pub(crate) fn is_past(outcomes: u32, before: &[Run], ends: &Ends, run: &Run) -> bool
    requires tag { IsTagOf outcomes run.now.tag }
    requires ends { AreEnds outcomes ends.now before.now }
    ensures { IsTrue result ↔ IsPast before.now run.now }
{
    stands_after(before, run) && ends.is_apart(run)
}

fn stands_after(before: &[Run], run: &Run) -> bool
    ensures { IsTrue result ↔ StandsAfter ComesAhead before.now run.now }
{
    match before.last() {
        Some(last) => order(last, run).is_lt(),
        None => true,
    }
}

/// By the first rank, outcomes before swaps, then by number.
fn order(a: &Run, b: &Run) -> Ordering
    ensures { result ≡ run_cmp a.now b.now }
{
    let firsts = a.first.cmp(&b.first);
    let kinds = kind(a.tag).cmp(&kind(b.tag));
    let numbers = number(a.tag).cmp(&number(b.tag));
    firsts.then(kinds.then(numbers))
}

/// The first rank, the count, the word and the number that a value has.
fn span_of(value: &Json, outcomes: u32) -> Option<Span>
    ensures { result ≡ span_in outcomes (view value.now) }
{
    match value {
        Json::Array(items) => span_of_items(items.as_slice(), outcomes),
        Json::Null => None,
        Json::Bool(_) => None,
        Json::Number(_) => None,
        Json::String(_) => None,
        Json::Object(_) => None,
    }
}

fn span_of_items(items: &[Json], outcomes: u32) -> Option<Span>
    ensures { result ≡ span_in_items outcomes (items_view items.now) }
{
    if items.len() != 4 {
        return None;
    }
    span_of_four(&items[0], &items[1], &items[2], &items[3], outcomes)
}

fn span_of_four(
    first: &Json,
    count: &Json,
    word: &Json,
    number: &Json,
    outcomes: u32,
) -> Option<Span>
    ensures { result ≡ span_in_four outcomes (view first.now) (view count.now) (view word.now) (view number.now) }
{
    let first = first.as_u64()?;
    let count = count.as_u64()?;
    let word = word.as_str()?;
    let number = number.as_u64()?;
    let tag = tag_of(word, number, outcomes)?;
    if count == 0 {
        return None;
    }
    Some(Span { first, count, tag })
}

/// What is said of each rank, of so many outcomes.
fn tag_of(word: &str, number: u64, outcomes: u32) -> Option<Tag>
    ensures { result ≡ tag_in outcomes word.now number }
{
    if word == "ran" {
        ran_of(number, outcomes)
    } else if word == "swap" {
        swap_of(number)
    } else {
        None
    }
}

fn ran_of(number: u64, outcomes: u32) -> Option<Tag>
    ensures { result ≡ cond (nat_lt number outcomes) (Some (Tag.Ran number)) None }
{
    if number < u64::from(outcomes) {
        Some(Tag::Ran(number as u32))
    } else {
        None
    }
}

fn swap_of(number: u64) -> Option<Tag>
    ensures { result ≡ cond (nat_lt number 256) (Some (Tag.Swap number)) None }
{
    if number < MAX_PLACES as u64 {
        Some(Tag::Swap(number as u8))
    } else {
        None
    }
}
