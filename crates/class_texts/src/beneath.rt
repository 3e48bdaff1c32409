//! What is told of a class beneath its order.

ghost use Rattle.std.specs.Prelude.{◌≡◌, ◌++◌, OnOk, string_bytes};
ghost use Rattle.class_texts.specs.Pages as spec;

use crate::left::left_lines;
use crate::looks::looks_lines;
use crate::outcomes::push_outcome;
use crate::page::Page;
use crate::ranks::{ranks_line, runs_at};
use events::Transcript;
use order_classes::{ClassRow, Shows};
use shown_texts::{push_line, push_lines};
use std::alloc::{AllocError, Global};

/// Puts the ranks of the class at a place behind a text, if they are told.
fn push_ranks(
    alloc: Global,
    text: &mut String,
    page: &Page<'_>,
    place: usize,
) -> Result<(), AllocError>
    ensures { OnOk result (string_bytes text.new ≡ string_bytes text.old ++ spec.ranks_part page.now place) }
{
    if page.with_ranks {
        let line = ranks_line(alloc, runs_at(page.ranks, place))?;
        return push_line(text, line.as_slice());
    }
    Ok(())
}

/// Puts an outcome behind a text, if outcomes are told.
fn push_outcome_part(
    text: &mut String,
    page: &Page<'_>,
    told: &[Transcript],
) -> Result<(), AllocError>
    ensures { OnOk result (string_bytes text.new ≡ string_bytes text.old ++ spec.outcome_part page.now told.now) }
{
    if page.with_outcomes {
        return push_outcome(text, page.sessions, page.steps, told);
    }
    Ok(())
}

/// Puts the final rows where this is shown behind a text, if they are told.
fn push_left(
    alloc: Global,
    text: &mut String,
    page: &Page<'_>,
    shows: &Shows,
) -> Result<(), AllocError>
    ensures { OnOk result (string_bytes text.new ≡ string_bytes text.old ++ spec.lines_bytes (spec.left_part page.now shows.now)) }
{
    if page.with_left {
        let lines = left_lines(alloc, page.by, page.tables, page.sessions, shows)?;
        return push_lines(text, lines.as_slice());
    }
    Ok(())
}

/// Puts what is seen of the class at a place behind a text.
fn push_looks(
    alloc: Global,
    text: &mut String,
    page: &Page<'_>,
    place: usize,
) -> Result<(), AllocError>
    ensures { OnOk result (string_bytes text.new ≡ string_bytes text.old ++ spec.lines_bytes (spec.looks_part page.now place)) }
{
    let lines = looks_lines(alloc, page.steps, place, page.looks)?;
    push_lines(text, lines.as_slice())
}

/// Puts what is told of the class at a place behind a text.
pub(crate) fn push_beneath(
    alloc: Global,
    text: &mut String,
    page: &Page<'_>,
    place: usize,
    row: &ClassRow,
) -> Result<(), AllocError>
    ensures { OnOk result (string_bytes text.new ≡ string_bytes text.old ++ spec.beneath page.now place row.now) }
{
    push_ranks(alloc, text, page, place)?;
    push_outcome_part(text, page, row.shows.told.sessions())?;
    push_left(alloc, text, page, &row.shows)?;
    push_looks(alloc, text, page, place)
}
