//! Runs statements over rows and transcripts that have marks to go back to.
#![tactic(auto)]

mod marked_sight;
mod run;

pub use run::run_statement;
