//! What is shown as an answer.

ghost use Rattle.std.specs.Prelude.{◌≡◌, ◌++◌, ◌∷◌, [], map, IfOk, OnOk};
ghost use Rattle.order_classes.specs.Letters.{answers_in, answers_of, is_answer};

use crate::shows::{Shows, copied_tables};
use events::{Event, Transcript};
use finite_maps::Fork;
use lock_modes::{Row, Value};
use sqlite_items::Items;
use std::alloc::{AllocError, Global};
use transcripts::Outcome;

/// What is answered where this is shown.
pub fn answers_of(alloc: Global, shows: &Shows) -> Result<Shows, AllocError>
    ensures { IfOk result (λ answers. answers ≡ answers_of shows.now) }
{
    let told = told_as_answers(alloc, shows.told.sessions())?;
    let left = copied_tables(alloc, shows.left.as_slice())?;
    Ok(Shows {
        told,
        left,
        rests: Items::new(alloc),
    })
}

fn told_as_answers(alloc: Global, sessions: &[Transcript]) -> Result<Outcome, AllocError>
    ensures { IfOk result (λ told. told ≡ map answers_in sessions.now) }
{
    let mut all = Vec::with_capacity(alloc, sessions.len())?;
    for session in sessions {
        let answers = answers_in(alloc, session.events())?;
        all.push(answers)?;
    }
    Outcome::new(alloc, all)
}

fn answers_in(alloc: Global, events: &[Event]) -> Result<Transcript, AllocError>
    ensures { IfOk result (λ answers. answers ≡ answers_in events.now) }
{
    let mut answers = Transcript::new(alloc);
    for event in events {
        push_answer(&mut answers, event)?;
    }
    Ok(answers)
}

/// Adds an event if it is an answer.
fn push_answer(answers: &mut Transcript, event: &Event) -> Result<(), AllocError>
    ensures { OnOk result (answers.new ≡ answers.old ++ answers_in (event.now ∷ [])) }
{
    if is_answer(event) {
        let copy = event.fork()?;
        answers.push(copy)?;
    }
    Ok(())
}

fn is_answer(event: &Event) -> bool
    ensures { result ≡ is_answer event.now }
{
    match event {
        Event::Row(_)
        | Event::Rows(_)
        | Event::Inserted(_)
        | Event::Updated(_)
        | Event::Deleted(_)
        | Event::Failed(_) => true,
        Event::Sent(_)
        | Event::Began
        | Event::Committed
        | Event::RolledBack
        | Event::Locked
        | Event::Set
        | Event::Warned(_) => false,
        // When a statement is answered is no part of its answer.
        Event::Waiting | Event::Resumed | Event::Done | Event::NotSent(_) => false,
    }
}
