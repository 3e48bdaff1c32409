//! What is shown, each once, under numbers.
#![tactic(auto)]

mod different;

pub use different::Different;
