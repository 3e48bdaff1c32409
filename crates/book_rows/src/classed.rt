//! Classes of what books tell, as they are told.

ghost use Rattle.std.specs.Prelude.{◌≡◌, IfOk};
ghost use Rattle.book_stretches.specs.Telling.{AreTold};
ghost use Rattle.book_rows.specs.Classes.{IsClassedBook};

use crate::rows::rows_of;
use crate::totals::totals_of;
use book_stretches::ToldRanks;
use bound_specs::Spec;
use class_stretches::Missing;
use fact_books::Book;
use order_classes::{ClassRow, Totals};
use std::alloc::{AllocError, Global};

/// What books tell, in classes.
pub struct BookClasses<'a> {
    /// How many ranks show what: the letters S and R are not told.
    pub totals: Totals,
    /// The classes in the order of their least ranks, with nothing of what is left.
    pub rows: Vec<ClassRow>,
    /// Which ranks are missing, where any are.
    pub missing: Option<Missing>,
    /// Which ranks are in which class: its number is the place of its row. A rank that is missing is in none.
    pub told: ToldRanks<'a>,
}

// Written out and not derived, so that who owns one calls this and does not let its parts go one by one.
impl Drop for BookClasses<'_> {
    fn drop(self) {
        let BookClasses {
            totals: _,
            rows: _rows,
            missing: _,
            told: _told,
        } = self;
    }
}

/// The ranks of a book's spec in classes by what is told of them.
pub fn classes_of<'a>(
    alloc: Global,
    book: &Book,
    spec: &Spec,
    told: ToldRanks<'a>,
) -> Result<BookClasses<'a>, AllocError>
    requires spec { spec.now ≡ book.now.file }
    requires told { AreTold book.now told }
    ensures { IfOk result (IsClassedBook book.now) }
{
    let _classes = told.stretches.classes(); // for the proof
    let _ranks = spec.ranks(); // for the proof
    let rows = rows_of(alloc, spec, &told)?;
    Ok(BookClasses {
        totals: totals_of(rows.as_slice()),
        rows,
        missing: told.stretches.missing(),
        told,
    })
}
