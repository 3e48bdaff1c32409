//! Reads the whole SQL subset: the statements of a block, as they are written, or its first fault.
#![tactic(auto)]

mod changes;
mod conditions;
mod lists;
mod locks;
mod queries;
mod quotes;
mod reading;
mod rows;
mod settings;
mod steps;
mod tables;
mod transactions;
mod values;

pub use reading::read_sql;
