//! How the record of today differs from the accepted one.

use crate::record::{ReadResult, Record, read_record};
use std::alloc::{AllocError, Global};

/// How two records differ.
#[derive(Drop)]
pub enum Changes<'t> {
    /// One of them is no record of this version.
    Unread,
    /// In lines of their heads that have no number.
    Head,
    /// In numbers, in results, or in the order in which results stand.
    Results(ChangedResults<'t>),
}

/// A thing as it was and as it is.
#[derive(Clone, Copy)]
pub struct Change<T> {
    pub was: T,
    pub is: T,
}

/// What differs of the numbers and results of two records. Results are in the order of their record.
#[derive(Drop)]
pub struct ChangedResults<'t> {
    /// How many orders there are.
    pub orders: Change<&'t str>,
    /// How many of them have which letter.
    pub letters: Change<&'t str>,
    /// How many results the records leave out.
    pub left_out: Change<&'t str>,
    /// Those that today's record has not.
    pub gone: Vec<ReadResult<'t>>,
    /// Those that the accepted record has not.
    pub come: Vec<ReadResult<'t>>,
    /// Those of another number of orders, or with another first one.
    pub changed: Vec<Change<ReadResult<'t>>>,
}

/// How the record of today differs from the accepted one.
pub fn compare_texts<'t>(
    alloc: Global,
    accepted: &'t str,
    text: &'t str,
) -> Result<Changes<'t>, AllocError> {
    let Some(was) = read_record(alloc, accepted)? else {
        return Ok(Changes::Unread);
    };
    let Some(is) = read_record(alloc, text)? else {
        return Ok(Changes::Unread);
    };
    if has_same_numbers(&was, &is) {
        return Ok(Changes::Head);
    }
    Ok(Changes::Results(changed_results(alloc, &was, &is)?))
}

/// Whether two records have the same orders, letters and results.
fn has_same_numbers(was: &Record<'_>, is: &Record<'_>) -> bool {
    was.orders == is.orders && was.letters == is.letters && was.behind == is.behind
}

fn changed_results<'t>(
    alloc: Global,
    was: &Record<'t>,
    is: &Record<'t>,
) -> Result<ChangedResults<'t>, AllocError> {
    let old = by_content(alloc, &was.results)?;
    let new = by_content(alloc, &is.results)?;
    Ok(ChangedResults {
        orders: Change {
            was: was.orders,
            is: is.orders,
        },
        letters: Change {
            was: was.letters,
            is: is.letters,
        },
        left_out: Change {
            was: was.left_out,
            is: is.left_out,
        },
        gone: without(alloc, &was.results, &new)?,
        come: without(alloc, &is.results, &old)?,
        changed: changed_numbers(alloc, &is.results, &old)?,
    })
}

/// The results in the order of their content.
fn by_content<'t>(
    alloc: Global,
    results: &[ReadResult<'t>],
) -> Result<Vec<ReadResult<'t>>, AllocError> {
    let mut sorted = Vec::new(alloc);
    for result in results {
        sorted.push(*result)?;
    }
    sorted.sort_unstable_by_key(|one: &ReadResult<'_>| one.content);
    Ok(sorted)
}

/// The result with this content, if there is one.
fn result_with<'t>(sorted: &[ReadResult<'t>], content: &str) -> Option<ReadResult<'t>> {
    let place = sorted
        .binary_search_by(|one: &ReadResult<'_>| one.content.cmp(content))
        .ok()?;
    sorted.get(place).copied()
}

/// The results whose content none of the others has.
fn without<'t>(
    alloc: Global,
    results: &[ReadResult<'t>],
    others: &[ReadResult<'_>],
) -> Result<Vec<ReadResult<'t>>, AllocError> {
    let mut left = Vec::new(alloc);
    for result in results {
        if result_with(others, result.content).is_none() {
            left.push(*result)?;
        }
    }
    Ok(left)
}

/// The results of which there is an old one with the same content, and another number of orders or another first one.
fn changed_numbers<'t>(
    alloc: Global,
    results: &[ReadResult<'t>],
    old: &[ReadResult<'t>],
) -> Result<Vec<Change<ReadResult<'t>>>, AllocError> {
    let mut changed = Vec::new(alloc);
    for is in results {
        if let Some(was) = result_with(old, is.content) {
            if was.count != is.count || was.first != is.first {
                changed.push(Change { was, is: *is })?;
            }
        }
    }
    Ok(changed)
}
