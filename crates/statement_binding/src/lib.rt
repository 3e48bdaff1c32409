//! Binds written statements and declarations over the tables that are declared: bound statements, or the first refusal.
#![tactic(auto)]

mod changes;
mod conditions;
mod declaring;
mod expressions;
mod inserts;
mod joining;
mod keys;
mod laws;
mod lists;
mod queries;
mod statements;
mod types;

pub use declaring::create;
pub use laws::{chains_are_lists, least_kinds_are_told};
pub use statements::statement;
