//! What is asked for.

use order_classes::{Filter, Grouping};

/// What is asked for: the orders that pass all filters, grouped so.
#[derive(Clone, Copy)]
pub struct Asked<'a> {
    pub by: Grouping,
    pub filters: &'a [Filter],
}
