//! Lists that go back to marks, for who would else copy a list before each change.
#![tactic(auto)]

mod marked_list;
mod trail;

pub use marked_list::MarkedList;
