//! What the farm promises as a whole: from the bytes of a spec to its report, over any runs of its ranks.
#![tactic(auto)]

mod farms;
mod headline;
mod laws;

pub use farms::report_of_two_farms;
pub use headline::{HeadlineFault, Plan, book_of_runs, report_of_runs};
pub use laws::{reports_are_the_machines, runs_are_true, runs_decide};
