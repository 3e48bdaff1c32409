//! The book of facts one by one.

ghost use Rattle.std.specs.Prelude.{◌≡◌, ◌↔◌, ◌<◌, IfOk, IsTrue, None, [], option_map};
ghost use Rattle.std.specs.FinSet.{from_list};
ghost use Rattle.serde_json.specs.View.{view, items_view};
ghost use Rattle.fact_books.specs.Entries.{entry_cmp, fact_cmp};
ghost use Rattle.book_format.specs.Reading.{Meets, StandsAfter};
ghost use Rattle.book_format.specs.ReadingFacts.{AreEntries, AreUnder, ComesUnder, IsEntry, IsFact, IsFactLed, IsNextEntry, IsRan, IsSwap, RanksBelow};
ghost use Rattle.book_format.specs.ReadingFacts.{entries_of, entry_in_three, entry_items, entry_of, entry_parts, place_in};
ghost use Rattle.book_format.specs.ReadingBooks.{IsFactsOf, fact_parts};

use super::outcomes::outcome_of;
use super::parts::{items_at, members_in, text_at};
use crate::error::BookError;
use bound_specs::Spec;
use fact_books::{Book, Builder, leads_along};
use rank_facts::Fact;
use serde_json::Value as Json;
use std::alloc::{AllocError, Global};
use std::cmp::Ordering;
use transcripts::Outcome;

/// A rank with a fact.
#[derive(Drop)]
pub(crate) struct RankFact {
    pub(crate) rank: u64,
    pub(crate) fact: Fact,
}

/// What a book of facts has besides its format.
#[derive(Clone, Copy, Drop)]
pub struct FactParts<'a> {
    /// The facts, as values.
    pub facts: &'a [Json],
    /// The text of the spec.
    pub text: &'a str,
}

/// The parts of a book of facts. None where a member is missing, of another kind, or one too many.
pub fn fact_parts(value: &Json) -> Option<FactParts<'_>>
    ensures { option_map (λ parts. record { facts = items_view parts.facts.now; text = parts.text.now }) result ≡ fact_parts (view value.now) }
{
    if members_in(value) != 3 {
        return None;
    }
    let facts = items_at(value, "facts")?;
    let text = text_at(value, "spec")?;
    Some(FactParts { facts, text })
}

/// The book of a spec, for which levels are not asked for, with the facts that these values are.
pub fn book_of_facts(alloc: Global, spec: &Spec, values: &[Json]) -> Result<Book, BookError>
    requires unasked { spec.now.asked ≡ None }
    ensures { Meets (λ book. book) (IsFactsOf spec.now (items_view values.now)) result }
{
    let facts = match facts_of(alloc, spec, values) {
        Ok(facts) => facts,
        Err(error) => return Err(error),
    };
    let builder = built(alloc, spec.ranks(), facts.as_slice())?;
    Ok(Book::of_facts(alloc, spec, builder)?)
}

/// The set of these facts, whose ranks rise and are below a number.
fn built(alloc: Global, ranks: u64, facts: &[RankFact]) -> Result<Builder, AllocError>
    requires rising { AreUnder (entries_of facts.now) }
    requires few { RanksBelow ranks (entries_of facts.now) }
    ensures { IfOk result (λ builder. builder.facts ≡ from_list (entries_of facts.now)) }
{
    let mut builder = Builder::new(alloc);
    for fact in facts {
        builder.push(fact.rank, fact.rank + 1, &fact.fact)?;
    }
    Ok(builder)
}

/// The facts that these values are, which have to rise.
fn facts_of(alloc: Global, spec: &Spec, values: &[Json]) -> Result<Vec<RankFact>, BookError>
    ensures { Meets (λ facts. entries_of facts.items) (AreEntries spec.now.run [] (items_view values.now)) result }
{
    let mut facts = Vec::new(alloc);
    for value in values {
        let fact = match next_fact(alloc, spec, facts.as_slice(), value) {
            Ok(fact) => fact,
            Err(error) => return Err(error),
        };
        facts.push(fact)?;
    }
    Ok(facts)
}

/// The fact that a value is, behind others.
pub(super) fn next_fact(
    alloc: Global,
    spec: &Spec,
    before: &[RankFact],
    value: &Json,
) -> Result<RankFact, BookError>
    ensures { Meets entry_of (IsNextEntry spec.now.run (entries_of before.now) (view value.now)) result }
{
    let fact = match fact_of_value(alloc, spec, value) {
        Ok(fact) => fact,
        Err(error) => return Err(error),
    };
    if fact.rank >= spec.ranks() {
        return Err(BookError::BadRank);
    }
    if !is_led(spec, &fact) {
        return Err(BookError::BadSwap);
    }
    if !stands_after(before, &fact) {
        return Err(BookError::OutOfOrder);
    }
    Ok(fact)
}

/// Whether a swap leads to a rank.
fn is_led(spec: &Spec, fact: &RankFact) -> bool
    requires { fact.now.rank < u64.MAX }
    ensures { IsTrue result ↔ IsFactLed spec.now.run fact.now.rank fact.now.fact }
{
    match &fact.fact {
        Fact::Ran(_) => true,
        Fact::Swap(place) => leads_along(spec, *place, fact.rank, fact.rank + 1),
    }
}

fn stands_after(before: &[RankFact], fact: &RankFact) -> bool
    ensures { IsTrue result ↔ StandsAfter ComesUnder (entries_of before.now) (entry_of fact.now) }
{
    match before.last() {
        Some(last) => order(last, fact).is_lt(),
        None => true,
    }
}

/// By the rank, outcomes before swaps, outcomes by their texts and swaps by their places.
fn order(a: &RankFact, b: &RankFact) -> Ordering
    ensures { result ≡ entry_cmp (entry_of a.now) (entry_of b.now) }
{
    let ranks = a.rank.cmp(&b.rank);
    ranks.then(fact_order(&a.fact, &b.fact))
}

fn fact_order(a: &Fact, b: &Fact) -> Ordering
    ensures { result ≡ fact_cmp a.now b.now }
{
    match a {
        Fact::Ran(outcome) => outcome_order(outcome, b),
        Fact::Swap(place) => place_order(*place, b),
    }
}

fn outcome_order(outcome: &Outcome, other: &Fact) -> Ordering
    ensures { result ≡ fact_cmp (Fact.Ran outcome.now) other.now }
{
    match other {
        Fact::Ran(other) => outcome.order(other),
        Fact::Swap(_) => Ordering::Less,
    }
}

fn place_order(place: u8, other: &Fact) -> Ordering
    ensures { result ≡ fact_cmp (Fact.Swap place) other.now }
{
    match other {
        Fact::Ran(_) => Ordering::Greater,
        Fact::Swap(other) => place.cmp(other),
    }
}

/// A fact as a file has it.
#[derive(Clone, Copy, Drop)]
struct EntryParts<'a> {
    rank: u64,
    word: &'a str,
    value: &'a Json,
}

/// The rank, the word and the value that a fact has.
fn entry_parts(value: &Json) -> Option<EntryParts<'_>>
    ensures { option_map (λ parts. record { rank = parts.rank; word = parts.word.now; value = view parts.value.now }) result ≡ entry_parts (view value.now) }
{
    match value {
        Json::Array(items) => entry_items(items.as_slice()),
        Json::Null => None,
        Json::Bool(_) => None,
        Json::Number(_) => None,
        Json::String(_) => None,
        Json::Object(_) => None,
    }
}

fn entry_items(items: &[Json]) -> Option<EntryParts<'_>>
    ensures { option_map (λ parts. record { rank = parts.rank; word = parts.word.now; value = view parts.value.now }) result
        ≡ entry_items (items_view items.now) }
{
    if items.len() != 3 {
        return None;
    }
    entry_of_three(&items[0], &items[1], &items[2])
}

fn entry_of_three<'a>(rank: &Json, word: &'a Json, value: &'a Json) -> Option<EntryParts<'a>>
    ensures { option_map (λ parts. record { rank = parts.rank; word = parts.word.now; value = view parts.value.now }) result
        ≡ entry_in_three (view rank.now) (view word.now) (view value.now) }
{
    let rank = rank.as_u64()?;
    let word = word.as_str()?;
    Some(EntryParts { rank, word, value })
}

/// The rank and the fact that a value has.
fn fact_of_value(alloc: Global, spec: &Spec, value: &Json) -> Result<RankFact, BookError>
    ensures { Meets entry_of (IsEntry spec.now.run (view value.now)) result }
{
    let Some(parts) = entry_parts(value) else {
        return Err(BookError::BadField);
    };
    match fact_of_word(alloc, spec, parts.word, parts.value) {
        Ok(fact) => Ok(RankFact {
            rank: parts.rank,
            fact,
        }),
        Err(error) => Err(error),
    }
}

/// The fact that is told by a word and a value.
fn fact_of_word(alloc: Global, spec: &Spec, word: &str, value: &Json) -> Result<Fact, BookError>
    ensures { Meets (λ fact. fact) (IsFact spec.now.run word.now (view value.now)) result }
{
    if word == "ran" {
        ran_of(alloc, spec, value)
    } else if word == "swap" {
        swap_of(value)
    } else {
        Err(BookError::BadField)
    }
}

fn ran_of(alloc: Global, spec: &Spec, value: &Json) -> Result<Fact, BookError>
    ensures { Meets (λ fact. fact) (IsRan spec.now.run (view value.now)) result }
{
    match outcome_of(alloc, spec, value) {
        Ok(outcome) => Ok(Fact::Ran(outcome)),
        Err(error) => Err(error),
    }
}

fn swap_of(value: &Json) -> Result<Fact, BookError>
    ensures { Meets (λ fact. fact) (IsSwap (view value.now)) result }
{
    match place_of(value) {
        Some(place) => Ok(Fact::Swap(place)),
        None => Err(BookError::BadField),
    }
}

fn place_of(value: &Json) -> Option<u8>
    ensures { result ≡ place_in (view value.now) }
{
    u8::try_from(value.as_u64()?).ok()
}
