//! What a walk says of ranks.

/// What a walk says of ranks: the outcome with this number among those it told, or a swap at this place.
#[derive(Clone, Copy)]
pub enum Said {
    Ran(usize),
    Swap(u8),
}

/// What is said of each rank from `first` up to but not `end`.
#[derive(Clone, Copy)]
pub struct SaidRun {
    pub first: u64,
    pub end: u64,
    pub said: Said,
}
