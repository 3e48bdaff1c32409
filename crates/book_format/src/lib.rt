//! Book files: each book has one text, which is written; and what the value of a file says of a spec.
#![tactic(auto)]

mod canonical;
mod compacting;
mod comparing;
mod error;
mod laws;
mod lengths;
mod one_form;
mod pieces;
mod printing;
mod reading;
mod write_error;
mod writing;

pub use compacting::compacted;
pub use comparing::book_of_text;
pub use error::BookError;
pub use laws::{
    books_have_one_text, bytes_are_one_book, texts_read_as_values, written_books_read_back,
};
pub use pieces::{MAX_FACTS, MAX_TEXT};
pub use reading::{
    FactParts, Listed, RunParts, Version, book_of_facts, book_of_runs, fact_parts, facts_at,
    forms_read_back, outcomes_at, run_parts, runs_at, value_at, version_of,
};
pub use write_error::WriteError;
pub use writing::write_book;
