//! Outcomes as the writer lays them out.

use crate::cursor::Cursor;
use crate::rows::row_at;
use events::{Event, Fault, Transcript, Warning};
use std::alloc::Global;
use transcripts::Outcome;

/// The outcome that is next.
pub(crate) fn outcome_at(alloc: Global, cursor: &mut Cursor<'_>) -> Option<Outcome> {
    let mut transcripts = Vec::new(alloc);
    if !cursor.passes(b"[") {
        return None;
    }
    for _ in 0..cursor.len() {
        transcripts.push(transcript_at(alloc, cursor)?).ok()?;
        if !cursor.passes(b",") {
            break;
        }
    }
    if !cursor.passes(b"]") {
        return None;
    }
    Outcome::new(alloc, transcripts).ok()
}

/// The transcript that is next.
fn transcript_at(alloc: Global, cursor: &mut Cursor<'_>) -> Option<Transcript> {
    let mut transcript = Transcript::new(alloc);
    if !cursor.passes(b"[") {
        return None;
    }
    if cursor.passes(b"]") {
        return Some(transcript);
    }
    for _ in 0..cursor.len() {
        transcript.push(event_at(alloc, cursor)?).ok()?;
        if !cursor.passes(b",") {
            break;
        }
    }
    if !cursor.passes(b"]") {
        return None;
    }
    Some(transcript)
}

/// The event that is next. Those that come most are tried first.
fn event_at(alloc: Global, cursor: &mut Cursor<'_>) -> Option<Event> {
    if cursor.passes(b"[\"") {
        let event = tagged_at(alloc, cursor)?;
        if !cursor.passes(b"]") {
            return None;
        }
        return Some(event);
    }
    if cursor.passes(b"\"done\"") {
        Some(Event::Done)
    } else if cursor.passes(b"\"waiting\"") {
        Some(Event::Waiting)
    } else if cursor.passes(b"\"resumed\"") {
        Some(Event::Resumed)
    } else if cursor.passes(b"\"began\"") {
        Some(Event::Began)
    } else if cursor.passes(b"\"committed\"") {
        Some(Event::Committed)
    } else if cursor.passes(b"\"rolledback\"") {
        Some(Event::RolledBack)
    } else if cursor.passes(b"\"locked\"") {
        Some(Event::Locked)
    } else if cursor.passes(b"\"set\"") {
        Some(Event::Set)
    } else {
        None
    }
}

/// The event of the word that is next, and of what it is said of.
fn tagged_at(alloc: Global, cursor: &mut Cursor<'_>) -> Option<Event> {
    if cursor.passes(b"sent\",") {
        Some(Event::Sent(u8::try_from(cursor.number()?).ok()?))
    } else if cursor.passes(b"row\",[") {
        Some(Event::Row(row_at(alloc, cursor)?))
    } else if cursor.passes(b"rows\",") {
        Some(Event::Rows(cursor.number()?))
    } else if cursor.passes(b"updated\",") {
        Some(Event::Updated(cursor.number()?))
    } else if cursor.passes(b"inserted\",") {
        Some(Event::Inserted(cursor.number()?))
    } else if cursor.passes(b"deleted\",") {
        Some(Event::Deleted(cursor.number()?))
    } else if cursor.passes(b"notsent\",") {
        Some(Event::NotSent(u8::try_from(cursor.number()?).ok()?))
    } else if cursor.passes(b"failed\",") {
        Some(Event::Failed(fault(cursor.number()?)?))
    } else if cursor.passes(b"warned\",") {
        Some(Event::Warned(warning(cursor.number()?)?))
    } else {
        None
    }
}

fn fault(number: u64) -> Option<Fault> {
    match number {
        1 => Some(Fault::Duplicate),
        2 => Some(Fault::OutOfRange),
        3 => Some(Fault::Deadlock),
        4 => Some(Fault::Aborted),
        5 => Some(Fault::Unavailable),
        _ => None,
    }
}

fn warning(number: u64) -> Option<Warning> {
    match number {
        1 => Some(Warning::InBlock),
        2 => Some(Warning::NoBlock),
        _ => None,
    }
}
