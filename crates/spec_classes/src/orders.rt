//! Which orders of a spec are put in classes.

use spec_schedules::Kind;

/// Which orders of a spec are put in classes: all of a kind, or those of some ranks.
#[derive(Clone, Copy)]
pub(crate) struct Orders<'a> {
    pub(crate) kind: Kind,
    /// The ranks of the orders, each of which counts by itself, where they are not all.
    pub(crate) ranks: Option<&'a [u64]>,
}
