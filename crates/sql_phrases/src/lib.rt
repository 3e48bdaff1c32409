//! What is known of SQL and not in the subset, by name.
#![tactic(auto)]

mod phrases;
mod tables;

pub use phrases::known_sentence;
