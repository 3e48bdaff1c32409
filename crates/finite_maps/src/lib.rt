//! Finite maps by their entries in the order of their keys, as contracts speak of them, and what their versions can hold.
#![tactic(auto)]

mod fork;

pub use fork::Fork;
