//! Books of runs that come from elsewhere, as from a file.

ghost use Rattle.std.specs.Prelude.{◌≡◌, ◌↔◌, IfOk, IsTrue, None, length};
ghost use Rattle.rank_facts.specs.Swap.{leads_in};
ghost use Rattle.fact_books.specs.Runs.{AllSound, IsRising, firsts};
ghost use Rattle.fact_books.specs.Books.{AllRecordable, IsAbout, facts_in, file_of};
ghost use Rattle.fact_books.specs.Recording.{EachRun, IsRecordableRun, LeadsAlong, is_from};

use crate::about::{About, shape_of};
use crate::book::Book;
use crate::builder::Builder;
use crate::leading::{Lead, lead_of};
use crate::run::{Run, Tag};
use crate::table::Table;
use bound_specs::Spec;
use compact_outcomes::CompactOutcomes;
use std::alloc::{AllocError, Global};
use std::sync::Arc;

impl Book {
    /// What runs say of the ranks of a spec for which levels are not asked for, in the order of their first ranks. Each names its outcome by the number in
    /// the list.
    pub fn of_runs(
        alloc: Global,
        spec: &Spec,
        outcomes: CompactOutcomes,
        runs: Vec<Run>,
    ) -> Result<Book, AllocError>
        requires unasked { spec.now.asked ≡ None }
        requires rising { IsRising (firsts runs.items) }
        requires sound { AllSound (length outcomes) runs.items }
        requires recordable { EachRun (IsRecordableRun spec.now.run outcomes) runs.items }
        ensures file { IfOk result (λ book. book.file ≡ spec.now) }
        ensures facts { IfOk result (λ book. book.facts ≡ facts_in outcomes runs.items) }
    {
        let about = About::of(alloc, spec)?;
        Ok(Book {
            about: Arc::new(alloc, about)?,
            table: Table::of(alloc, outcomes),
            runs,
        })
    }

    /// The facts of a builder, which are of ranks of the spec, for which levels are not asked for.
    pub fn of_facts(alloc: Global, spec: &Spec, facts: Builder) -> Result<Book, AllocError>
        requires unasked { spec.now.asked ≡ None }
        requires recordable { AllRecordable spec.now.run facts.facts }
        ensures file { IfOk result (λ book. book.file ≡ spec.now) }
        ensures facts { IfOk result (λ book. book.facts ≡ facts.facts) }
    {
        let about = About::of(alloc, spec)?;
        book_of(alloc, about, facts)
    }
}

/// The book of a spec with the facts of a builder.
fn book_of(alloc: Global, about: About, builder: Builder) -> Result<Book, AllocError>
    requires about { IsAbout about }
    requires recordable { AllRecordable (file_of about).run builder.facts }
    ensures file { IfOk result (λ book. book.file ≡ file_of about) }
    ensures facts { IfOk result (λ book. book.facts ≡ builder.facts) }
{
    let (table, runs) = builder.into_parts();
    Ok(Book {
        about: Arc::new(alloc, about)?,
        table,
        runs,
    })
}

/// Whether the exchange at a place leads to a rank from each of these ranks. Ranks whose words share the letters up to the one behind
/// the place are looked at once.
pub fn leads_along(spec: &Spec, place: u8, first: u64, end: u64) -> bool
    ensures { IsTrue result ↔ LeadsAlong (leads_in spec.now.run) place first end }
{
    let shape = shape_of(spec);
    let mut rank = first;
    while rank < end {
        let (lead, last) = lead_of(&shape, Tag::Swap(place), rank, end);
        if !is_from(lead) {
            return false;
        }
        rank = last;
    }
    true
}

fn is_from(lead: Lead) -> bool
    ensures { result ≡ is_from lead }
{
    match lead {
        Lead::From(_) => true,
        Lead::Value(_) => false,
        Lead::Nowhere => false,
    }
}
