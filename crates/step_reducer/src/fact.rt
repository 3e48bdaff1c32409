//! Facts of ranks in runs.

use crate::said::SaidRun;
use rank_facts::Fact;

/// One fact of each rank from `first` up to but not `end`.
#[derive(Drop)]
pub struct FactRun {
    pub first: u64,
    pub end: u64,
    pub fact: Fact,
}

/// What is said of a run of ranks, and how many steps were sent for it.
#[derive(Clone, Copy)]
pub(crate) struct Given {
    pub(crate) run: SaidRun,
    pub(crate) sent: u8,
}
