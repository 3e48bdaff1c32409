//! What a statement does to the rows that its session sees, and what it tells.
#![tactic(auto)]

mod effects;
mod insert;
mod laws;
mod matching;
mod run;
mod sights;
mod stores;

pub use effects::effect_of;
pub use insert::number_after;
pub use laws::links_are_associative;
pub use run::run_statement;
pub use sights::Sight;
