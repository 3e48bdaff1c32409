//! What a statement does to rows that are given as a list, and what it tells.
#![tactic(auto)]

mod effect;
mod entry;
mod evaluate;
mod few;
mod select;
mod sorting;
mod update;
mod value_ref;
mod write;

pub use effect::{Given, nothing, telling};
pub use entry::{Entries, Entry};
pub use evaluate::holds;
pub use few::Few;
pub use select::selected;
pub use update::{deleted, updated};
pub use value_ref::ValueRef;
pub use write::{Write, Writes};
