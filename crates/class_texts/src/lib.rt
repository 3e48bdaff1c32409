//! The text of classes: how many orders of a spec show what, and the classes with their first orders.
#![tactic(auto)]

mod beneath;
mod columns;
mod counted;
mod expected;
mod head;
mod intervals;
mod kind;
mod laws;
mod left;
mod legend;
mod letters;
mod levels;
mod looks;
mod marks;
mod orders;
mod outcomes;
mod page;
mod pages;
mod ranks;
mod records;
mod rows;
mod shares;
mod table;
mod totals;
mod widths;

pub use expected::{Expected, first_miss, met_of};
pub use head::seen_once;
pub use kind::ClassKind;
pub use laws::{letters_are_told, misses_are_told, one_row_is_met, standings_are_shown};
pub use left::rows_at;
pub use letters::{Letter, letters_of, letters_text};
pub use levels::{Side, levels_text};
pub use looks::{Looked, seen_at};
pub use marks::{Marks, marks_of};
pub use page::Page;
pub use pages::classes_text;
pub use ranks::runs_at;
pub use records::{MAX_RECORDED, record_text};
