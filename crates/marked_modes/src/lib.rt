//! Who holds which lock mode, by the numbers of resources, with marks to go back to: for who would else copy all of it before each step.
#![tactic(auto)]

mod clearing;
mod modes;
mod picture;
mod row;

pub use modes::MarkedModes;
pub use picture::ModesPicture;
pub use row::MAX_HOLDERS;
