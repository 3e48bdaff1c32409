//! Ranges of ranks.

/// The ranks of a shard, at most.
pub const MAX_RANKS: u64 = 1_000_000;

/// The places of swaps are below this: a place is a byte.
pub const MAX_PLACES: usize = 256;

/// The ranks from `first` up to but not `end`.
#[derive(Clone, Copy, PartialEq, Eq)]
pub struct Shard {
    pub first: u64,
    pub end: u64,
}
