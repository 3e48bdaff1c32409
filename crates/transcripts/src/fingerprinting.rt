//! A number by which an outcome is looked for.

use crate::outcome::Outcome;
use events::{Event, Fault, Transcript, Warning};
use lock_modes::Value;
use std::hash::{FoldHasher, Hasher};

/// More than there are kinds of events.
const KINDS: u64 = 32;

/// A number that equal outcomes share, and others seldom. It is made when an outcome is, and shared by its forks.
pub fn fingerprint(outcome: &Outcome) -> u64 {
    outcome.print()
}

/// The number of the outcome of these transcripts.
pub(crate) fn print_of(transcripts: &[Transcript]) -> u64 {
    let mut hasher = FoldHasher::default();
    for transcript in transcripts {
        hash_transcript(transcript, &mut hasher);
    }
    hasher.finish()
}

fn hash_transcript(transcript: &Transcript, hasher: &mut FoldHasher) {
    hasher.write_usize(transcript.events().len());
    for event in transcript.events() {
        match event {
            Event::Row(row) => hash_values(row.values(), hasher),
            // A session sends its steps in their order, and nearly each is done: what is left of both is in the number of all events.
            Event::Sent(_) | Event::Done => {}
            _ => hasher.write_u64(word_of(event)),
        }
    }
}

/// Adds values to what is hashed.
pub fn hash_values(values: &[Value], hasher: &mut FoldHasher) {
    for value in values {
        match value {
            Value::Int(number) => hasher.write_i64(*number),
            Value::Text(text) => hasher.write(text.as_str().as_bytes()),
        }
    }
}

/// What an event tells, in one word. What is lost of a large number tells few events apart.
fn word_of(event: &Event) -> u64 {
    match event {
        Event::Sent(step) => word(0, *step as u64),
        Event::Row(row) => word(1, row.values().len() as u64),
        Event::Rows(count) => word(2, *count),
        Event::Inserted(count) => word(3, *count),
        Event::Updated(count) => word(4, *count),
        Event::Deleted(count) => word(5, *count),
        Event::Began => word(6, 0),
        Event::Committed => word(7, 0),
        Event::RolledBack => word(8, 0),
        Event::Locked => word(9, 0),
        Event::Set => word(10, 0),
        Event::Warned(Warning::InBlock) => word(11, 0),
        Event::Warned(Warning::NoBlock) => word(11, 1),
        Event::Failed(Fault::Duplicate) => word(12, 0),
        Event::Failed(Fault::OutOfRange) => word(12, 1),
        Event::Failed(Fault::Deadlock) => word(12, 2),
        Event::Failed(Fault::Aborted) => word(12, 3),
        Event::Failed(Fault::Unavailable) => word(12, 4),
        Event::Waiting => word(13, 0),
        Event::Resumed => word(14, 0),
        Event::Done => word(15, 0),
        Event::NotSent(step) => word(16, *step as u64),
    }
}

fn word(kind: u64, number: u64) -> u64 {
    number.wrapping_mul(KINDS).wrapping_add(kind)
}
