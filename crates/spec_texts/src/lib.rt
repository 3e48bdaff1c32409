//! What binding lets go of a spec, read again from its text: the tables that its main setups declare, what each step sends, on one line, where
//! statements stand that have no effect, and which levels transactions name.
#![tactic(auto)]

mod levels;
mod line;
mod reading;
mod shown;
mod statements;
mod steps;
mod tables;

pub use levels::{lines_at, other_level_lines, repeatable_lines};
pub use statements::{SqlPart, statements_with};
pub use steps::statement_texts;
pub use tables::tables_of;
