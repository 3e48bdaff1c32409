//! Judgements: a report is compared with accepted ones.
#![tactic(auto)]

mod comparing;
mod judging;
mod sessions;
mod verdict;

pub use judging::judge;
pub use verdict::{Differences, Verdict};
