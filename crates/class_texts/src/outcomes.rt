//! What an order tells each session.

ghost use Rattle.std.specs.Prelude.{◌≡◌, ◌++◌, OnOk, flat_map, string_bytes, zip};
ghost use Rattle.class_texts.specs.Beneath as spec;

use crate::left::margin;
use events::{Event, Transcript};
use lock_modes::Text;
use shown_texts::push_event;
use std::alloc::AllocError;

fn push_line(text: &mut String, steps: &[Text], event: &Event) -> Result<(), AllocError>
    ensures { OnOk result (string_bytes text.new ≡ string_bytes text.old ++ spec.event_beneath steps.now event.now) }
{
    text.push_str(margin())?;
    text.push_str("  ")?;
    push_event(text, steps, event)?;
    text.push_str("\n")
}

fn push_events(text: &mut String, steps: &[Text], events: &[Event]) -> Result<(), AllocError>
    ensures { OnOk result (string_bytes text.new ≡ string_bytes text.old ++ flat_map (spec.event_beneath steps.now) events.now) }
{
    for event in events {
        push_line(text, steps, event)?;
    }
    Ok(())
}

fn push_session(
    text: &mut String,
    steps: &[Text],
    name: &str,
    events: &[Event],
) -> Result<(), AllocError>
    ensures { OnOk result (string_bytes text.new ≡ string_bytes text.old ++ spec.session_beneath steps.now (name.now, events.now)) }
{
    push_name(text, name)?;
    push_events(text, steps, events)
}

fn push_name(text: &mut String, name: &str) -> Result<(), AllocError>
    ensures { OnOk result (string_bytes text.new ≡ string_bytes text.old ++ spec.name_beneath name.now) }
{
    text.push_str(margin())?;
    text.push_str("session ")?;
    text.push_str(name)?;
    text.push_str("\n")
}

/// Puts the text of an outcome behind another text, each line behind the margin, where these are the names of the sessions and of the steps.
pub(crate) fn push_outcome(
    text: &mut String,
    sessions: &[Text],
    steps: &[Text],
    told: &[Transcript],
) -> Result<(), AllocError>
    ensures { OnOk result (string_bytes text.new ≡ string_bytes text.old ++ spec.outcome_beneath sessions.now steps.now told.now) }
{
    let count = sessions.len().min(told.len());
    for session in 0..count {
        push_session(
            text,
            steps,
            sessions[session].as_str(),
            told[session].events(),
        )?;
    }
    Ok(())
}
