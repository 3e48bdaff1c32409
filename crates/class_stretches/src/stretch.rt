//! One stretch of ranks.

/// The ranks from where the stretch before ends, or from 0, up to an end. They are in one class.
#[derive(Clone, Copy)]
pub struct Stretch {
    /// The rank behind the last one.
    pub end: u64,
    /// The number of their class, or `None` where it is not known.
    pub class: Option<u32>,
}
