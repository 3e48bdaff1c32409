//! Books.

ghost use Rattle.std.specs.Prelude.{◌≡◌, IfOk, None};
ghost use Rattle.bound_specs.specs.Binding.{IsFileOf};
ghost use Rattle.fact_books.specs.Books.{empty_book, AllRecordable};

use crate::about::About;
use crate::run::Run;
use crate::table::Table;
use bound_specs::Spec;
use std::alloc::{AllocError, Global};
use std::marker::Model;
use std::sync::Arc;

/// A spec with its text, and a finite set of ranks with facts; a rank may have several. Contracts see these two, so that books with
/// equal sets are equal.
///
/// ```text
/// ranks   0   1   2   3   4   5   6 ..      table
/// runs    [ 0 )                             0: the outcome of ranks 0 and 3
///             [ swap at 1   )               1: that of rank 4
///                         [ 0 )
///                             [ 1 )
/// ```
///
/// A run says the same of each rank from its first one up to its end: the outcome with a number in the table, or a swap at a place. Runs
/// rise by their first ranks, and may overlap.
pub struct Book {
    pub(crate) about: Arc<About>,
    pub(crate) table: Table,
    pub(crate) runs: Vec<Run>,
}

// Written out and not derived, so that who owns one calls this and does not let its parts go one by one.
impl Drop for Book {
    fn drop(self) {
        let Book {
            about: _about,
            table: _table,
            runs: _runs,
        } = self;
    }
}

impl Model for Book {
    ghost use Rattle.std.specs.Coded.{codes};
    ghost use Rattle.std.specs.FinSet as set;
    ghost use Rattle.bound_specs.specs.contracts.spec.Spec as file;
    ghost use Rattle.rank_facts.specs.contracts.fact.Fact as fact;
    ghost use Rattle.fact_books.specs.Books.{Contents, contents_of, IsBook};

    ghost Value = { Contents };

    ghost coded = { Prim.hlevel (codes, set.code, file.the_row.coded, fact.the_row.coded) };

    ghost view = { λ b. contents_of b.about.value b.table b.runs.items };

    ghost invariant = { λ b. IsBook b.about.value b.table b.runs.items };
}

impl Book {
    /// The book without facts of a spec for which levels are not asked for.
    pub fn empty(alloc: Global, spec: &Spec) -> Result<Book, AllocError>
        requires { spec.now.asked ≡ None }
        ensures { IfOk result (λ book. book ≡ empty_book spec.now) }
    {
        let about = About::of(alloc, spec)?;
        Ok(Book {
            about: Arc::new(alloc, about)?,
            table: Table::new(alloc),
            runs: Vec::new(alloc),
        })
    }

    /// What every book keeps: its spec is what its text binds to, and each fact may stand in a book of that spec.
    pub fn known(&self)
        ensures file { IsFileOf self.now.file.text self.now.file }
        ensures facts { AllRecordable self.now.file.run self.now.facts }
    {
        let _runs = &self.runs; // for the proof
    }

    /// The text of the spec.
    pub fn text(&self) -> &str
        ensures { result.now ≡ self.now.file.text }
    {
        self.about.text.as_str()
    }
}
