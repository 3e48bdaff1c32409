//! Jobs: what shards to run, and how their books are joined.
#![tactic(auto)]

mod boxed;
mod job;
mod laws;
mod leaves;
mod making;

pub use boxed::Boxed;
pub use job::{Job, MAX_LEVELS};
pub use laws::leaves_decide;
pub use making::make;
