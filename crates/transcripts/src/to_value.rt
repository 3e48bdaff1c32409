//! The JSON value of an outcome.

ghost use Rattle.std.specs.Prelude.{◌≡◌, map, IfOk};
ghost use Rattle.serde_json.specs.Data.{string};
ghost use Rattle.serde_json.specs.View.{view};
ghost use Rattle.serde_json.specs.Written.{compact_text};
ghost use Rattle.transcripts.specs.Compact.{outcome_json};
ghost use Rattle.transcripts.specs.Json.{cell_data, event_data, list, outcome_data, session_data, tagged, whole};

use crate::Outcome;
use events::{Event, Transcript, fault_number, warning_number};
use lock_modes::Value;
use serde_json::Value as Json;
use std::alloc::{AllocError, Global};

/// The JSON value of an outcome: an array of sessions, and each an array with a value for each event. Printed without
/// spaces it is the outcome's compact text. It fails for want of memory alone.
pub fn outcome_value(alloc: Global, outcome: &Outcome) -> Result<Json, AllocError>
    ensures value { IfOk result (λ value. view value ≡ outcome_data outcome.now) }
    ensures text { IfOk result (λ value. compact_text (view value) ≡ outcome_json outcome.now) }
{
    outcome.known();
    let value = sessions_value(alloc, outcome.sessions())?;
    Ok(value)
}

fn sessions_value(alloc: Global, transcripts: &[Transcript]) -> Result<Json, AllocError>
    ensures { IfOk result (λ value. view value ≡ outcome_data transcripts.now) }
{
    let mut sessions = Vec::new(alloc);
    for transcript in transcripts {
        sessions.push(session_value(alloc, transcript.events())?)?;
    }
    Ok(Json::Array(sessions))
}

fn session_value(alloc: Global, events: &[Event]) -> Result<Json, AllocError>
    ensures { IfOk result (λ value. view value ≡ session_data events.now) }
{
    let mut values = Vec::new(alloc);
    for event in events {
        values.push(event_value(alloc, event)?)?;
    }
    Ok(Json::Array(values))
}

fn event_value(alloc: Global, event: &Event) -> Result<Json, AllocError>
    ensures { IfOk result (λ value. view value ≡ event_data event.now) }
{
    match event {
        Event::Sent(step) => tagged(alloc, "sent", Json::from(*step)),
        Event::Row(row) => tagged(alloc, "row", row_value(alloc, row.values())?),
        Event::Rows(count) => tagged(alloc, "rows", Json::from(*count)),
        Event::Inserted(count) => tagged(alloc, "inserted", Json::from(*count)),
        Event::Updated(count) => tagged(alloc, "updated", Json::from(*count)),
        Event::Deleted(count) => tagged(alloc, "deleted", Json::from(*count)),
        Event::Began => word(alloc, "began"),
        Event::Committed => word(alloc, "committed"),
        Event::RolledBack => word(alloc, "rolledback"),
        Event::Locked => word(alloc, "locked"),
        Event::Set => word(alloc, "set"),
        Event::Warned(warning) => tagged(alloc, "warned", Json::from(warning_number(*warning))),
        Event::Failed(fault) => tagged(alloc, "failed", Json::from(fault_number(*fault))),
        Event::Waiting => word(alloc, "waiting"),
        Event::Resumed => word(alloc, "resumed"),
        Event::Done => word(alloc, "done"),
        Event::NotSent(step) => tagged(alloc, "notsent", Json::from(*step)),
    }
}

fn word(alloc: Global, word: &str) -> Result<Json, AllocError>
    ensures { IfOk result (λ value. view value ≡ string word.now) }
{
    Ok(Json::String(String::from_str(alloc, word)?))
}

/// A word, and what it is said of.
fn tagged(alloc: Global, tag: &str, value: Json) -> Result<Json, AllocError>
    ensures { IfOk result (λ pair. view pair ≡ tagged tag.now (view value)) }
{
    Ok(Json::Array(vec![in alloc; word(alloc, tag)?, value]?))
}

fn row_value(alloc: Global, row: &[Value]) -> Result<Json, AllocError>
    ensures { IfOk result (λ value. view value ≡ list (map cell_data row.now)) }
{
    let mut values = Vec::new(alloc);
    for value in row {
        values.push(cell(alloc, value)?)?;
    }
    Ok(Json::Array(values))
}

fn cell(alloc: Global, value: &Value) -> Result<Json, AllocError>
    ensures { IfOk result (λ json. view json ≡ cell_data value.now) }
{
    match value {
        Value::Int(number) => Ok(Json::from(*number)),
        Value::Text(text) => word(alloc, text.as_str()),
    }
}
