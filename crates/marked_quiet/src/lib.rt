//! Whether two steps are quiet in a world with marks: by the numbers of what they ask for, in place of their lock plans.
#![tactic(auto)]

mod asking;
mod fitting;
mod pairs;
mod waiting;

pub use pairs::quiet;
