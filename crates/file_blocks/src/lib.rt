//! The blocks of a spec file that are sent, one after another: those of the main setups, and then those of each session, its setup and its steps.
#![tactic(auto)]

mod blocks;

pub use blocks::{Role, SentBlock, sent_blocks};
