//! The outcome that a JSON value stands for.

ghost use Rattle.std.specs.Prelude.{◌≡◌, ◌≢◌, List, Some, None, IfOk, IfErr, MatchResult, option_and_then, option_map};
ghost use Rattle.serde_json.specs.Find.{as_array};
ghost use Rattle.serde_json.specs.View.{view, items_view};
ghost use Rattle.events.specs.declared.event.Event.{Event as Told};
ghost use Rattle.events.specs.declared.event.Event.TheVariants.{Failed, Warned};
ghost use Rattle.transcripts.specs.Outcome.{OutcomeFits};
ghost use Rattle.transcripts.specs.Json.{outcome_data};
ghost use Rattle.transcripts.specs.JsonReading.{cell_in, count_in, event_in, fault_of, list_in, numbered_event, outcome_in, pair_event, step_in, tagged_event, warning_of, word_event, Reads};
ghost use Rattle.transcripts.specs.declared.error.ValueError.TheVariants.{BadField};

use crate::Outcome;
use crate::error::ValueError;
use events::{Event, Fault, Transcript, Warning};
use lock_modes::{Row, Text, Value};
use serde_json::Value as Json;
use std::alloc::Global;

/// The outcome that a JSON value stands for. Refused is a value that `outcome_value` gives of no outcome.
pub fn outcome_of_value(alloc: Global, value: &Json) -> Result<Outcome, ValueError>
    ensures stands { IfOk result (λ outcome. outcome_data outcome ≡ view value.now) }
    ensures bad { IfErr result (λ error. error ≡ BadField → (outcome : List (List Told)) → OutcomeFits outcome → outcome_data outcome ≢ view value.now) }
{
    outcome(alloc, value)
}

fn outcome(alloc: Global, value: &Json) -> Result<Outcome, ValueError>
    ensures { Reads (λ outcome. outcome) result (outcome_in (view value.now)) }
{
    let mut transcripts = Vec::new(alloc);
    for session in items(value)? {
        transcripts.push(transcript(alloc, session)?)?;
    }
    Ok(Outcome::new(alloc, transcripts)?)
}

fn transcript(alloc: Global, value: &Json) -> Result<Transcript, ValueError>
    ensures { Reads (λ events. events) result (list_in event_in (view value.now)) }
{
    let mut transcript = Transcript::new(alloc);
    for event in items(value)? {
        transcript.push(event_of(alloc, event)?)?;
    }
    Ok(transcript)
}

/// The items of an array.
fn items(value: &Json) -> Result<&[Json], ValueError>
    ensures { MatchResult result (λ items. as_array (view value.now) ≡ Some (items_view items.now)) (λ error. (error ≡ BadField) × (as_array (view value.now) ≡ None)) }
{
    match value {
        Json::Array(items) => Ok(items.as_slice()),
        _ => Err(ValueError::BadField),
    }
}

fn event_of(alloc: Global, value: &Json) -> Result<Event, ValueError>
    ensures { Reads (λ event. event) result (event_in (view value.now)) }
{
    match value {
        Json::String(word) => word_event(word.as_str()).ok_or(ValueError::BadField),
        Json::Array(items) => pair_event(alloc, items.as_slice()),
        _ => Err(ValueError::BadField),
    }
}

/// The event of two items: a word, and what it is said of.
#[tactic(auto, using(crate::proofs::JsonLaws::two_items, crate::proofs::JsonLaws::not_two_items))]
fn pair_event(alloc: Global, items: &[Json]) -> Result<Event, ValueError>
    ensures { Reads (λ event. event) result (pair_event (items_view items.now)) }
{
    if items.len() != 2 {
        return Err(ValueError::BadField);
    }
    match items[0].as_str() {
        Some(tag) => tagged_event(alloc, tag, &items[1]),
        None => Err(ValueError::BadField),
    }
}

/// The event of one word.
fn word_event(word: &str) -> Option<Event>
    ensures { result ≡ word_event word.now }
{
    if word == "began" {
        Some(Event::Began)
    } else if word == "committed" {
        Some(Event::Committed)
    } else if word == "rolledback" {
        Some(Event::RolledBack)
    } else if word == "locked" {
        Some(Event::Locked)
    } else if word == "set" {
        Some(Event::Set)
    } else if word == "waiting" {
        Some(Event::Waiting)
    } else if word == "resumed" {
        Some(Event::Resumed)
    } else if word == "done" {
        Some(Event::Done)
    } else {
        None
    }
}

/// The event of a word, and what it is said of.
fn tagged_event(alloc: Global, tag: &str, value: &Json) -> Result<Event, ValueError>
    ensures { Reads (λ event. event) result (tagged_event tag.now (view value.now)) }
{
    if tag == "row" {
        return Ok(Event::Row(row(alloc, value)?));
    }
    numbered_event(tag, value).ok_or(ValueError::BadField)
}

/// The event of a word that is said of a number.
fn numbered_event(tag: &str, value: &Json) -> Option<Event>
    ensures { result ≡ numbered_event tag.now (view value.now) }
{
    if tag == "sent" {
        step(value).map(|n| Event::Sent(n))
    } else if tag == "rows" {
        count(value).map(|n| Event::Rows(n))
    } else if tag == "inserted" {
        count(value).map(|n| Event::Inserted(n))
    } else if tag == "updated" {
        count(value).map(|n| Event::Updated(n))
    } else if tag == "deleted" {
        count(value).map(|n| Event::Deleted(n))
    } else if tag == "warned" {
        warned(value)
    } else if tag == "failed" {
        failed(value)
    } else if tag == "notsent" {
        step(value).map(|n| Event::NotSent(n))
    } else {
        None
    }
}

fn warned(value: &Json) -> Option<Event>
    ensures { result ≡ option_map Warned (option_and_then warning_of (count_in (view value.now))) }
{
    Some(Event::Warned(warning(count(value)?)?))
}

fn failed(value: &Json) -> Option<Event>
    ensures { result ≡ option_map Failed (option_and_then fault_of (count_in (view value.now))) }
{
    Some(Event::Failed(fault(count(value)?)?))
}

/// The count that a value is, in the words of the definition: so no caller has to ask anew what a number is.
fn count(value: &Json) -> Option<u64>
    ensures { result ≡ count_in (view value.now) }
{
    value.as_u64()
}

fn step(value: &Json) -> Option<u8>
    ensures { result ≡ step_in (view value.now) }
{
    u8::try_from(count(value)?).ok()
}

fn warning(number: u64) -> Option<Warning>
    ensures { result ≡ warning_of number }
{
    match number {
        1 => Some(Warning::InBlock),
        2 => Some(Warning::NoBlock),
        _ => None,
    }
}

fn fault(number: u64) -> Option<Fault>
    ensures { result ≡ fault_of number }
{
    match number {
        1 => Some(Fault::Duplicate),
        2 => Some(Fault::OutOfRange),
        3 => Some(Fault::Deadlock),
        4 => Some(Fault::Aborted),
        5 => Some(Fault::Unavailable),
        _ => None,
    }
}

fn row(alloc: Global, value: &Json) -> Result<Row, ValueError>
    ensures { Reads (λ row. row) result (list_in cell_in (view value.now)) }
{
    let mut values = Vec::new(alloc);
    for cell in items(value)? {
        values.push(cell_of(alloc, cell)?)?;
    }
    Ok(Row::from_values(values)?)
}

fn cell_of(alloc: Global, value: &Json) -> Result<Value, ValueError>
    ensures { Reads (λ cell. cell) result (cell_in (view value.now)) }
{
    match value {
        Json::Number(_) => match value.as_i64() {
            Some(number) => Ok(Value::Int(number)),
            None => Err(ValueError::BadField),
        },
        Json::String(text) => Ok(Value::Text(Text::from_str(alloc, text.as_str())?)),
        _ => Err(ValueError::BadField),
    }
}
