//! A record of a spec's results, taken apart again.

use std::alloc::{AllocError, Global};

/// The first line of a record of this version.
const VERSION: &str = "isofarm record 1\n";

/// The end of a paragraph, and the empty line behind it.
const GAP: &str = "\n\n";

/// What stands between the last result and the number of those that are left out.
const MORE: &str = "\n\nand ";

/// A result as a record has it.
#[derive(Clone, Copy)]
pub struct ReadResult<'t> {
    /// How many orders have it, of how many.
    pub orders: &'t str,
    /// The number of these orders.
    pub count: &'t str,
    /// The first of them.
    pub first: &'t str,
    /// The lines of what sessions answer, and of the final rows.
    pub content: &'t str,
}

/// What is compared of a record.
#[derive(Drop)]
pub(crate) struct Record<'t> {
    pub(crate) orders: &'t str,
    pub(crate) letters: &'t str,
    /// All that stands behind the head.
    pub(crate) behind: &'t str,
    pub(crate) results: Vec<ReadResult<'t>>,
    /// How many results are left out.
    pub(crate) left_out: &'t str,
}

/// The record that a text is, if it is one of this version.
pub(crate) fn read_record<'t>(
    alloc: Global,
    text: &'t str,
) -> Result<Option<Record<'t>>, AllocError> {
    let Some((head, behind)) = head_of(text) else {
        return Ok(None);
    };
    let Some((orders, letters)) = totals_of(head) else {
        return Ok(None);
    };
    let Some((paragraphs, left_out)) = cut_behind_results(behind) else {
        return Ok(None);
    };
    let mut results = Vec::new(alloc);
    for paragraph in paragraphs.split(GAP) {
        let Some(result) = result_of(paragraph) else {
            return Ok(None);
        };
        results.push(result)?;
    }
    Ok(Some(Record {
        orders,
        letters,
        behind,
        results,
        left_out,
    }))
}

/// The lines of the head but the first one, and all that stands behind the head.
fn head_of(text: &str) -> Option<(&str, &str)> {
    let lines = text.strip_prefix(VERSION)?.strip_suffix("\n")?;
    if lines.ends_with("\n") {
        return None;
    }
    lines.split_once(GAP)
}

/// The number of orders in a head, and the letters with theirs.
fn totals_of(head: &str) -> Option<(&str, &str)> {
    let (_spec, behind) = head.split_once("\n")?;
    let (_locking, totals) = behind.split_once("\n")?;
    let (orders, letters) = totals.strip_prefix("orders ")?.split_once("\n")?;
    if letters.contains("\n") {
        return None;
    }
    Some((orders, letters))
}

/// The result that a paragraph is of.
fn result_of(paragraph: &str) -> Option<ReadResult<'_>> {
    let (_number, behind) = paragraph.strip_prefix("result ")?.split_once(": ")?;
    let (orders, behind) = behind.split_once("\n")?;
    let (count, _of) = orders.split_once(" of ")?;
    let (first, content) = behind.strip_prefix("  first:")?.split_once("\n")?;
    Some(ReadResult {
        orders,
        count,
        first,
        content,
    })
}

/// The paragraphs of results, and the number of those that the last paragraph says are left out.
fn cut_behind_results(behind: &str) -> Option<(&str, &str)> {
    let Some((results, more)) = behind.rsplit_once(MORE) else {
        return Some((behind, "0"));
    };
    if more.contains("\n") {
        return None;
    }
    let (number, _words) = more.split_once(" ")?;
    Some((results, number))
}
