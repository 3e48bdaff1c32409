//! How records differ, in lines.

use crate::changes::{Change, ChangedResults, Changes};
use crate::record::ReadResult;
use std::alloc::{AllocError, Global};

/// How many results of a kind are written one by one.
const MOST_WRITTEN: usize = 5;

/// The lines that say how two records differ. The first one goes behind a path, a colon and a blank.
pub fn changes_text(alloc: Global, changes: &Changes<'_>) -> Result<String, AllocError> {
    let mut text = String::new(alloc);
    match changes {
        Changes::Unread => text.push_str(
            "differs, and what is accepted is no record of this version\n",
        )?,
        Changes::Head => text.push_str("only the head of the record differs\n")?,
        Changes::Results(results) => push_changed(alloc, results, &mut text)?,
    }
    Ok(text)
}

fn push_changed(
    alloc: Global,
    results: &ChangedResults<'_>,
    text: &mut String,
) -> Result<(), AllocError> {
    let (gone, come, changed) = (
        results.gone.len(),
        results.come.len(),
        results.changed.len(),
    );
    let line = format!(in alloc;
        "differs: results gone {gone}, new {come}, with other numbers {changed}\n"
    )?;
    text.push_str(&line)?;
    push_change("orders", results.orders, text)?;
    push_change("letters", results.letters, text)?;
    push_change("results left out", results.left_out, text)?;
    push_results(alloc, "  gone\n", &results.gone, text)?;
    push_results(alloc, "  new\n", &results.come, text)?;
    push_other_numbers(alloc, &results.changed, text)
}

/// Texts one behind the other.
fn push_all(parts: &[&str], text: &mut String) -> Result<(), AllocError> {
    for part in parts {
        text.push_str(part)?;
    }
    Ok(())
}

/// What was and what is, where it differs.
fn push_change(name: &str, change: Change<&str>, text: &mut String) -> Result<(), AllocError> {
    if change.was == change.is {
        return Ok(());
    }
    push_all(
        &[
            "  ",
            name,
            "\n    was: ",
            change.was,
            "\n    is: ",
            change.is,
            "\n",
        ],
        text,
    )
}

/// How many there are besides those that are written one by one, if any are.
fn push_more(alloc: Global, count: usize, text: &mut String) -> Result<(), AllocError> {
    let more = count.saturating_sub(MOST_WRITTEN);
    if more > 0 {
        let line = format!(in alloc; "    and {more} more\n")?;
        text.push_str(&line)?;
    }
    Ok(())
}

/// The first of some results with all of their lines, behind a head. Nothing where there are none.
fn push_results(
    alloc: Global,
    head: &str,
    results: &[ReadResult<'_>],
    text: &mut String,
) -> Result<(), AllocError> {
    if results.is_empty() {
        return Ok(());
    }
    text.push_str(head)?;
    for result in results.iter().take(MOST_WRITTEN) {
        push_all(
            &["    ", result.orders, "\n      first:", result.first, "\n"],
            text,
        )?;
        push_content(result.content, text)?;
    }
    push_more(alloc, results.len(), text)
}

fn push_content(content: &str, text: &mut String) -> Result<(), AllocError> {
    for line in content.lines() {
        push_all(&["    ", line, "\n"], text)?;
    }
    Ok(())
}

/// The first of some results with their numbers, as they were and as they are. Nothing where there are none.
fn push_other_numbers(
    alloc: Global,
    changed: &[Change<ReadResult<'_>>],
    text: &mut String,
) -> Result<(), AllocError> {
    if changed.is_empty() {
        return Ok(());
    }
    text.push_str("  other numbers\n")?;
    for change in changed.iter().take(MOST_WRITTEN) {
        push_numbers("    was: ", change.was, text)?;
        push_numbers("    is: ", change.is, text)?;
    }
    push_more(alloc, changed.len(), text)
}

fn push_numbers(before: &str, one: ReadResult<'_>, text: &mut String) -> Result<(), AllocError> {
    push_all(&[before, one.orders, ", first:", one.first, "\n"], text)
}
