//! The outcomes of a book.

ghost use Rattle.std.specs.Prelude.{◌≡◌, ◌↔◌, ◌<◌, IsTrue, All, [], length, get_or};
ghost use Rattle.serde_json.specs.View.{view, items_view};
ghost use Rattle.bound_specs.specs.Spec.{IsBound};
ghost use Rattle.machine_model.specs.Outcome.{IsOutcomeOf, IsOwnStep, IsToldOf};
ghost use Rattle.book_format.specs.Forms.{ComesBefore};
ghost use Rattle.book_format.specs.Reading.{AreOutcomes, IsNextOutcome, IsOutcome, Meets, StandsAfter};

use crate::error::BookError;
use bound_specs::Spec;
use compact_outcomes::{CompactOutcome, CompactOutcomes, CompactText};
use events::{Event, Transcript};
use serde_json::Value as Json;
use std::alloc::Global;
use transcripts::{Outcome, ValueError, outcome_of_value};

/// The outcomes that these values are, which have to rise by their texts.
pub(crate) fn outcomes_of(
    alloc: Global,
    spec: &Spec,
    values: &[Json],
) -> Result<CompactOutcomes, BookError>
    ensures { Meets (λ outcomes. outcomes) (AreOutcomes spec.now.run [] (items_view values.now)) result }
{
    let mut outcomes = CompactOutcomes::new(alloc);
    for value in values {
        let outcome = match next_outcome(alloc, spec, &outcomes, value) {
            Ok(outcome) => outcome,
            Err(error) => return Err(error),
        };
        outcomes.push(&outcome.as_outcome())?;
    }
    Ok(outcomes)
}

/// The outcome that a value is, behind others.
pub(super) fn next_outcome(
    alloc: Global,
    spec: &Spec,
    before: &CompactOutcomes,
    value: &Json,
) -> Result<CompactText, BookError>
    ensures { Meets (λ outcome. outcome) (IsNextOutcome spec.now.run before.now (view value.now)) result }
{
    let outcome = match outcome_of(alloc, spec, value) {
        Ok(outcome) => outcome,
        Err(error) => return Err(error),
    };
    let outcome = CompactText::of(alloc, &outcome)?;
    if !stands_after(before, &outcome.as_outcome()) {
        return Err(BookError::OutOfOrder);
    }
    Ok(outcome)
}

/// Whether the text of an outcome comes after that of the last one.
pub(super) fn stands_after(before: &CompactOutcomes, outcome: &CompactOutcome<'_>) -> bool
    ensures { IsTrue result ↔ StandsAfter ComesBefore before.now outcome.now }
{
    match before.last() {
        Some(last) => last.order(outcome).is_lt(),
        None => true,
    }
}

/// The outcome that a value is: one that a run of the spec may tell.
pub(crate) fn outcome_of(alloc: Global, spec: &Spec, value: &Json) -> Result<Outcome, BookError>
    ensures { Meets (λ outcome. outcome) (IsOutcome spec.now.run (view value.now)) result }
{
    match outcome_of_value(alloc, value) {
        Ok(outcome) => {
            outcome.known();
            if !is_outcome_of(spec, outcome.sessions()) {
                return Err(BookError::BadField);
            }
            Ok(outcome)
        }
        Err(ValueError::BadField) => Err(BookError::BadField),
        Err(ValueError::NoMemory) => Err(BookError::NoMemory),
    }
}

/// Whether there is a transcript for each session, which names steps of that session alone.
pub(super) fn is_outcome_of(spec: &Spec, sessions: &[Transcript]) -> bool
    ensures { IsTrue result ↔ IsOutcomeOf spec.now.run sessions.now }
{
    let count = spec.sessions();
    if sessions.len() != count as usize {
        return false;
    }
    for session in 0..count {
        if !is_own(spec, session, sessions[session as usize].events()) {
            return false;
        }
    }
    true
}

/// Whether these events name steps of the session alone.
fn is_own(spec: &Spec, session: u8, events: &[Event]) -> bool
    ensures { IsTrue result ↔ All (IsToldOf spec.now.run.steps session) events.now }
{
    for event in events {
        if !is_told_of(spec, session, event) {
            return false;
        }
    }
    true
}

fn is_told_of(spec: &Spec, session: u8, event: &Event) -> bool
    ensures { IsTrue result ↔ IsToldOf spec.now.run.steps session event.now }
{
    match event {
        Event::Sent(step) => is_own_step(spec, session, *step),
        Event::NotSent(step) => is_own_step(spec, session, *step),
        Event::Row(_) => true,
        Event::Rows(_) => true,
        Event::Inserted(_) => true,
        Event::Updated(_) => true,
        Event::Deleted(_) => true,
        Event::Began => true,
        Event::Committed => true,
        Event::RolledBack => true,
        Event::Locked => true,
        Event::Set => true,
        Event::Warned(_) => true,
        Event::Failed(_) => true,
        Event::Waiting => true,
        Event::Resumed => true,
        Event::Done => true,
    }
}

fn is_own_step(spec: &Spec, session: u8, step: u8) -> bool
    ensures { IsTrue result ↔ IsOwnStep spec.now.run.steps session step }
{
    step < spec.steps() && spec.session_of(step) == session
}
