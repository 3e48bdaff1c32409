//! The rows of all tables as sessions see them, with marks to go back to: for who would else copy them before each step.
#![tactic(auto)]

mod cell;
mod cells;
mod ending;
mod picture;
mod places;
mod pool;
mod print;
mod rows;
mod scan;

pub use picture::RowsPicture;
pub use rows::MarkedRows;
pub use scan::Scan;
