//! A spec as the machine runs it: its names, what its setups and steps send, and in which orders.
#![tactic(auto)]

mod block;
mod orders;
mod spec;
mod walking;

pub use block::{Block, Step};
pub use orders::{Line, Orders};
use perm_ranks::MAX_STEPS;
pub use spec::{Parts, Spec};
use spec_reader::MAX_ITEMS;

/// The steps of a file with permutation lines, at most: their numbers and how many they are fit a byte.
pub const MAX_LINED_STEPS: usize = 255;

/// The steps of one permutation, at most: those of a word or the items of a line.
pub const MAX_SENT: usize = if MAX_STEPS < MAX_ITEMS {
    MAX_ITEMS
} else {
    MAX_STEPS
};
