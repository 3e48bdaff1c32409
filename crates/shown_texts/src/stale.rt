//! Stale reads in words.

ghost use Rattle.std.specs.Prelude.{◌≡◌, ◌++◌, IfOk, OnOk, flat_map, string_bytes};
ghost use Rattle.shown_texts.specs.Characters.{shown_text};
ghost use Rattle.shown_texts.specs.Stale as spec;

use crate::characters::{put, put_line, put_shown};
use crate::frame::Frame;
use crate::names::name_at;
use crate::told::{push_values, step_name};
use events::Event;
use line_moments::Stale;
use lock_modes::Text;
use sqlite_items::Items;
use std::alloc::{AllocError, Global};

/// Puts the rows that are told, each behind a comma, behind a text.
fn push_further_rows(text: &mut String, events: &[Event]) -> Result<(), AllocError>
    ensures { OnOk result (string_bytes text.new ≡ string_bytes text.old ++ flat_map spec.further_row events.now) }
{
    for event in events {
        push_further_row(text, event)?;
    }
    Ok(())
}

fn push_further_row(text: &mut String, event: &Event) -> Result<(), AllocError>
    ensures { OnOk result (string_bytes text.new ≡ string_bytes text.old ++ spec.further_row event.now) }
{
    if event.values().is_empty() {
        return Ok(());
    }
    text.push_str(", ")?;
    push_values(text, event.values())
}

/// Puts the rows that are told behind a text, with a comma between each two, or that there is none.
fn push_rows(text: &mut String, events: &[Event]) -> Result<(), AllocError>
    ensures { OnOk result (string_bytes text.new ≡ string_bytes text.old ++ spec.rows_text events.now) }
{
    for place in 0..events.len() {
        let values = events[place].values();
        if !values.is_empty() {
            push_values(text, values)?;
            return push_further_rows(text, &events[place + 1..]);
        }
    }
    text.push_str("no row")
}

/// Puts the rows that are told behind a line.
fn put_rows(alloc: Global, line: &mut Items<char>, events: &[Event]) -> Result<(), AllocError>
    ensures { OnOk result (line.new ≡ line.old ++ shown_text (spec.rows_text events.now)) }
{
    let mut text = String::new(alloc);
    push_rows(&mut text, events)?;
    put_shown(line, text.as_str())
}

/// Puts what a step has read behind a line, where these are the names of the steps.
fn put_read(
    alloc: Global,
    line: &mut Items<char>,
    steps: &[Text],
    stale: &Stale,
) -> Result<(), AllocError>
    ensures { OnOk result (line.new ≡ line.old ++ spec.read_text steps.now stale.now) }
{
    put_shown(line, step_name(steps, stale.step))?;
    put(line, " read ")?;
    put_rows(alloc, line, stale.told.events())
}

/// Puts what a session has committed behind a line.
fn put_committed(
    alloc: Global,
    line: &mut Items<char>,
    names: &[Items<char>],
    writer: usize,
    stale: &Stale,
) -> Result<(), AllocError>
    ensures { OnOk result (line.new ≡ line.old ++ spec.committed_text names.now writer stale.now) }
{
    put_line(line, name_at(names, writer))?;
    put(line, " committed ")?;
    put_rows(alloc, line, stale.told_now.events())
}

/// What is told of a read that a session made stale, where these are the names of the steps.
pub(crate) fn stale_text(
    alloc: Global,
    frame: &Frame,
    steps: &[Text],
    writer: usize,
    stale: &Stale,
) -> Result<Items<char>, AllocError>
    ensures { IfOk result (λ line. line ≡ spec.stale_text frame.now steps.now writer stale.now) }
{
    let mut line = Items::new(alloc);
    put_read(alloc, &mut line, steps, stale)?;
    put(&mut line, "; ")?;
    put_committed(alloc, &mut line, frame.names.as_slice(), writer, stale)?;
    Ok(line)
}
