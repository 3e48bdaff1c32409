//! Joins of books.

ghost use Rattle.std.specs.Prelude.{◌≡◌, ◌≢◌, ◌↔◌, IfOk, OnOk, IsErrOf};
ghost use Rattle.std.specs.FinSet as set;
ghost use Rattle.fact_books.specs.Entries.{entry_cmp};
ghost use Rattle.fact_books.specs.Books.{joined, facts_in, IsKept};
ghost use Rattle.fact_books.specs.declared.error.JoinError.TheVariants as join_error;

use crate::book::Book;
use crate::error::JoinError;
use crate::merging::{merge, renumber};
use crate::run::Run;
use crate::table::Table;
use std::alloc::{AllocError, Global};

/// The facts of both books, which have to be of one spec.
pub fn join(a: &Book, b: &Book) -> Result<Book, JoinError>
    ensures union { IfOk result (λ book. book ≡ joined a.now b.now) }
    ensures same { OnOk result (a.now.file ≡ b.now.file) }
    ensures mismatch { IsErrOf result join_error.SpecMismatch ↔ (a.now.file.text ≢ b.now.file.text) }
{
    a.known();
    b.known();
    if a.text() != b.text() {
        return Err(JoinError::SpecMismatch);
    }
    match union(a, b) {
        Ok(book) => Ok(book),
        Err(_) => Err(JoinError::NoMemory),
    }
}

/// The facts of both books of one spec.
pub fn union(a: &Book, b: &Book) -> Result<Book, AllocError>
    requires { a.now.file ≡ b.now.file }
    ensures { IfOk result (λ book. book ≡ joined a.now b.now) }
{
    let (table, runs) = joined_parts(
        *a.runs.allocator(),
        &a.table,
        a.runs.as_slice(),
        &b.table,
        b.runs.as_slice(),
    )?;
    Ok(Book {
        about: a.about.clone()?,
        table,
        runs,
    })
}

/// The outcomes and runs of both.
fn joined_parts(
    alloc: Global,
    table: &Table,
    runs: &[Run],
    other: &Table,
    others: &[Run],
) -> Result<(Table, Vec<Run>), AllocError>
    requires kept { IsKept table.now runs.now }
    requires others_kept { IsKept other.now others.now }
    ensures kept { IfOk result (λ p. IsKept p.0 p.1.items) }
    ensures facts { IfOk result (λ p. facts_in p.0 p.1.items ≡ set.union (facts_in table.now runs.now) (facts_in other.now others.now)) }
{
    let mut joined = table.copied(alloc)?;
    let numbers = joined.numbers(alloc, other.outcomes())?;
    let renumbered = renumber(alloc, numbers.as_slice(), others)?;
    let merged = merge(alloc, joined.outcomes().len(), runs, renumbered.as_slice())?;
    Ok((joined, merged))
}
