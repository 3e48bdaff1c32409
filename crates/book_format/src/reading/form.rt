//! The book of runs.

ghost use Rattle.std.specs.Prelude.{◌≡◌, None, option_map};
ghost use Rattle.serde_json.specs.View.{view, items_view};
ghost use Rattle.book_format.specs.Reading.{Meets};
ghost use Rattle.book_format.specs.ReadingBooks.{IsRunsOf, run_parts};

use super::outcomes::outcomes_of;
use super::parts::{items_at, members_in, text_at};
use super::runs::runs_of;
use crate::canonical::number_at;
use crate::error::BookError;
use bound_specs::Spec;
use fact_books::Book;
use serde_json::Value as Json;
use std::alloc::Global;

/// What a book of runs has besides its format.
#[derive(Clone, Copy, Drop)]
pub struct RunParts<'a> {
    /// The runs, as values.
    pub facts: &'a [Json],
    /// The outcomes that runs name, as values.
    pub outcomes: &'a [Json],
    /// The text of the spec.
    pub text: &'a str,
}

/// The parts of a book of runs. None where a member is missing, of another kind, or one too many.
pub fn run_parts(value: &Json) -> Option<RunParts<'_>>
    ensures { option_map (λ parts. record { facts = items_view parts.facts.now; outcomes = items_view parts.outcomes.now; text = parts.text.now }) result
        ≡ run_parts (view value.now) }
{
    if members_in(value) != 4 {
        return None;
    }
    let facts = items_at(value, "facts")?;
    let outcomes = items_at(value, "outcomes")?;
    let text = text_at(value, "spec")?;
    Some(RunParts {
        facts,
        outcomes,
        text,
    })
}

/// The book of a spec, for which levels are not asked for, with the runs and outcomes that these values are.
pub fn book_of_runs(
    alloc: Global,
    spec: &Spec,
    facts: &[Json],
    outcomes: &[Json],
) -> Result<Book, BookError>
    requires unasked { spec.now.asked ≡ None }
    ensures { Meets (λ book. book) (IsRunsOf spec.now (items_view facts.now) (items_view outcomes.now)) result }
{
    let table = match outcomes_of(alloc, spec, outcomes) {
        Ok(table) => table,
        Err(error) => return Err(error),
    };
    let count = number_at(table.len())?;
    let runs = match runs_of(alloc, spec, count, facts) {
        Ok(runs) => runs,
        Err(error) => return Err(error),
    };
    Ok(Book::of_runs(alloc, spec, table, runs)?)
}
