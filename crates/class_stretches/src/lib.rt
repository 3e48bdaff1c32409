//! Stretches of ranks, each with the number of its class. Ranks come in rising order and by the run, never one by one.
#![tactic(auto)]

mod copying;
mod laws;
mod list;
mod missing;
mod rank_run;
mod stretch;
mod stretches;
mod tally;

pub use laws::{missing_are_told, none_is_missing, stretches_are_groups, tallies_are_of_classes};
pub use missing::Missing;
pub use rank_run::RankRun;
pub use stretch::Stretch;
pub use stretches::Stretches;
pub use tally::Tally;
