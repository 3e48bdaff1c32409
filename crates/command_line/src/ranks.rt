//! Which ranks of a spec are run.

/// Some ranks of a spec.
#[derive(Clone, Copy, Drop)]
pub enum WantedRanks {
    /// All of them.
    All,
    /// Those from the first up to but not the end.
    Range { first: u64, end: u64 },
}
