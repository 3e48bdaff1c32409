//! Rows on one line.

ghost use Rattle.std.specs.Prelude.{◌≡◌, ◌++◌, [], IfOk, OnOk, flat_map, map};
ghost use Rattle.std.specs.List.{list_any};
ghost use Rattle.shown_texts.specs.Lanes.{words};
ghost use Rattle.class_texts.specs.Beneath as spec;

use events::Event;
use lock_modes::{Row, Text, Value};
use shown_texts::{put, put_line, values_line, words_of};
use sqlite_items::Items;
use std::alloc::{AllocError, Global};

/// The values of final rows.
pub(crate) fn values_of<'a>(
    alloc: Global,
    rows: &'a [(Value, Row)],
) -> Result<Vec<&'a [Value]>, AllocError>
    ensures { IfOk result (λ all. map (λ r. r.now) all.items ≡ map spec.values_of rows.now) }
{
    let mut all = Vec::with_capacity(alloc, rows.len())?;
    for row in rows {
        all.push(row.1.values())?;
    }
    Ok(all)
}

/// The rows that events tell of.
pub(crate) fn rows_of<'a>(
    alloc: Global,
    events: &'a [Event],
) -> Result<Vec<&'a [Value]>, AllocError>
    ensures { IfOk result (λ all. map (λ r. r.now) all.items ≡ spec.rows_of events.now) }
{
    let mut all = Vec::new(alloc);
    for event in events {
        push_row(event, &mut all)?;
    }
    Ok(all)
}

fn push_row<'a>(event: &'a Event, all: &mut Vec<&'a [Value]>) -> Result<(), AllocError>
    ensures { OnOk result (map (λ r. r.now) all.new.items ≡ map (λ r. r.now) all.old.items ++ spec.behind_row event.now []) }
{
    match event {
        Event::Row(row) => all.push(row.values())?,
        _ => {}
    }
    Ok(())
}

/// Puts the values of a row behind a line.
pub(crate) fn put_row(
    alloc: Global,
    line: &mut Items<char>,
    values: &[Value],
) -> Result<(), AllocError>
    ensures { OnOk result (line.new ≡ line.old ++ spec.row_text values.now) }
{
    let text = values_line(alloc, values)?;
    put_line(line, text.as_slice())
}

fn put_others(alloc: Global, line: &mut Items<char>, rows: &[&[Value]]) -> Result<(), AllocError>
    ensures { OnOk result (line.new ≡ line.old ++ flat_map spec.behind_comma (map (λ r. r.now) rows.now)) }
{
    for row in rows {
        put(line, ", ")?;
        put_row(alloc, line, row)?;
    }
    Ok(())
}

/// Puts rows behind a line, or that there is none.
pub(crate) fn put_rows(
    alloc: Global,
    line: &mut Items<char>,
    rows: &[&[Value]],
) -> Result<(), AllocError>
    ensures { OnOk result (line.new ≡ line.old ++ spec.rows_text (map (λ r. r.now) rows.now)) }
{
    match rows.split_first() {
        None => put(line, "no row"),
        Some((first, others)) => {
            put_row(alloc, line, first)?;
            put_others(alloc, line, others)
        }
    }
}

fn is_failure(event: &Event) -> bool
    ensures { result ≡ spec.is_failure event.now }
{
    matches!(event, Event::Failed(_))
}

/// Whether a SELECT fails that sees this.
pub(crate) fn has_failed(events: &[Event]) -> bool
    ensures { result ≡ list_any spec.is_failure events.now }
{
    events.iter().any(|event: &Event| is_failure(event))
}

/// Puts events in their words behind a line.
pub(crate) fn put_words(
    alloc: Global,
    line: &mut Items<char>,
    steps: &[Text],
    events: &[Event],
) -> Result<(), AllocError>
    ensures { OnOk result (line.new ≡ line.old ++ flat_map (words steps.now) events.now) }
{
    for event in events {
        let text = words_of(alloc, steps, event)?;
        put_line(line, text.as_slice())?;
    }
    Ok(())
}

/// Puts what a SELECT sees behind a line.
pub(crate) fn put_seen(
    alloc: Global,
    line: &mut Items<char>,
    steps: &[Text],
    events: &[Event],
) -> Result<(), AllocError>
    ensures { OnOk result (line.new ≡ line.old ++ spec.seen_text steps.now events.now) }
{
    if has_failed(events) {
        return put_words(alloc, line, steps, events);
    }
    let rows = rows_of(alloc, events)?;
    put_rows(alloc, line, rows.as_slice())
}
