//! What the JSON value of a book file says: its parts, and the book that they make of the spec that its text names.

mod arrays;
mod facts;
mod form;
mod laws;
mod listed;
mod lists;
mod outcomes;
mod parts;
mod runs;
mod tokens;

pub use arrays::{facts_at, outcomes_at, runs_at};
pub use facts::{FactParts, book_of_facts, fact_parts};
pub use form::{RunParts, book_of_runs, run_parts};
pub use laws::forms_read_back;
pub use listed::Listed;
pub(crate) use lists::are_runs;
pub use parts::{Version, version_of};
pub use tokens::value_at;
