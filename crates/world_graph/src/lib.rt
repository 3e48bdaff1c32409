//! The graph of the worlds to which words lead, each explored once, and the words that lead to each, counted.
#![tactic(auto)]

mod explored;
mod exploring;
mod schedules;
mod walk;

pub use explored::{Explored, LETTERS, Refused};
pub use exploring::{ExploreError, Graph, explore};
pub use schedules::{CountedGraph, Final, ScheduleError, census, finals};
