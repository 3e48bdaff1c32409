//! What becomes of the steps of an order, by what sessions are told in it.

ghost use Rattle.std.specs.Prelude.{◌≡◌, cond};
ghost use Rattle.std.specs.List.{list_any};
ghost use Rattle.class_texts.specs.Marks as spec;

use events::{Event, Transcript};

/// What becomes of a step in an order. A step that is skipped has no other mark, and one that no session is told of has none.
#[derive(Clone, Copy)]
pub struct Marks {
    /// It is not sent, since its session waits.
    pub is_skipped: bool,
    /// Its session waits in it, at once or when it goes on.
    pub waits: bool,
    /// A request of it fails, at once or when its session goes on.
    pub fails: bool,
}

/// What is told of a step.
#[derive(Clone, Copy)]
enum Sign {
    Waits,
    Fails,
}

fn is_sent(step: u8, event: &Event) -> bool
    ensures { result ≡ spec.is_sent step event.now }
{
    match event {
        Event::Sent(other) => *other == step,
        _ => false,
    }
}

fn is_skipped(step: u8, event: &Event) -> bool
    ensures { result ≡ spec.is_skipped step event.now }
{
    match event {
        Event::NotSent(other) => *other == step,
        _ => false,
    }
}

fn names_step(step: u8, event: &Event) -> bool
    ensures { result ≡ spec.names_step step event.now }
{
    is_sent(step, event) || is_skipped(step, event)
}

fn begins_step(event: &Event) -> bool
    ensures { result ≡ spec.begins_step event.now }
{
    matches!(event, Event::Sent(_))
}

fn is_told(sign: Sign, event: &Event) -> bool
    ensures { result ≡ spec.is_told sign event.now }
{
    match sign {
        Sign::Waits => matches!(event, Event::Waiting),
        Sign::Fails => matches!(event, Event::Failed(_)),
    }
}

/// Whether the step stands among the events.
fn has_step(step: u8, events: &[Event]) -> bool
    ensures { result ≡ list_any (spec.names_step step) events.now }
{
    events.iter().any(|event| names_step(step, event))
}

/// What the first session is told whose transcript has the step, or nothing.
fn told_of(step: u8, told: &[Transcript]) -> &[Event]
    ensures { result.now ≡ spec.told_of step told.now }
{
    for transcript in told {
        if has_step(step, transcript.events()) {
            return transcript.events();
        }
    }
    &[]
}

/// What is told from the next turn of the step on, or nothing where there is none.
fn from_turn(step: u8, events: &[Event]) -> &[Event]
    ensures { result.now ≡ spec.from_turn step events.now }
{
    for place in 0..events.len() {
        if names_step(step, &events[place]) {
            return &events[place..];
        }
    }
    &[]
}

/// What is told behind where the next turn of the step begins, or nothing where there is none.
fn behind_turn(step: u8, events: &[Event]) -> &[Event]
    ensures { result.now ≡ spec.behind_turn step events.now }
{
    for place in 0..events.len() {
        if names_step(step, &events[place]) {
            return &events[place + 1..];
        }
    }
    &[]
}

fn passed(step: u8, other: u8, events: &[Event]) -> &[Event]
    ensures { result.now ≡ spec.passed step other events.now }
{
    if other == step {
        behind_turn(step, events)
    } else {
        events
    }
}

/// What is told behind the turns that the step has among others.
fn behind_turns<'a>(step: u8, before: &[u8], events: &'a [Event]) -> &'a [Event]
    ensures { result.now ≡ spec.behind_turns step before.now events.now }
{
    let mut left = events;
    for other in before {
        left = passed(step, *other, left);
    }
    left
}

/// Whether it is told before another step is sent.
fn comes_to(sign: Sign, events: &[Event]) -> bool
    ensures { result ≡ spec.comes_to sign events.now }
{
    for event in events {
        if begins_step(event) {
            return false;
        }
        if is_told(sign, event) {
            return true;
        }
    }
    false
}

/// The marks of a turn of a step, from which on these events are told.
fn turn_marks(step: u8, events: &[Event]) -> Marks
    ensures { result ≡ spec.turn_marks step events.now }
{
    match events.split_first() {
        None => no_marks(),
        Some((event, behind)) => begun_marks(is_skipped(step, event), behind),
    }
}

fn no_marks() -> Marks
    ensures { result ≡ spec.no_marks }
{
    Marks {
        is_skipped: false,
        waits: false,
        fails: false,
    }
}

fn begun_marks(is_skipped: bool, behind: &[Event]) -> Marks
    ensures { result ≡ cond is_skipped spec.skipped (spec.sent_marks behind.now) }
{
    if is_skipped {
        return Marks {
            is_skipped: true,
            waits: false,
            fails: false,
        };
    }
    sent_marks(behind)
}

/// The marks of a step that is sent, behind which these events are told.
fn sent_marks(behind: &[Event]) -> Marks
    ensures { result ≡ spec.sent_marks behind.now }
{
    let waits = comes_to(Sign::Waits, behind);
    let fails = comes_to(Sign::Fails, behind);
    Marks {
        is_skipped: false,
        waits,
        fails,
    }
}

/// What becomes of a step behind these others in an order that tells the sessions this. A permutation line may have a step several times.
pub fn marks_of(step: u8, before: &[u8], told: &[Transcript]) -> Marks
    ensures { result ≡ spec.marks step before.now told.now }
{
    turn_marks(
        step,
        from_turn(step, behind_turns(step, before, told_of(step, told))),
    )
}
