//! What is found of the orders of a spec.

use different_shows::Different;
use spec_classes::OrderClass;

/// The orders of a spec in classes, and what its serial orders answer, which is told of a spec without permutation lines.
#[derive(Clone, Copy)]
pub struct FoundOrders<'a> {
    pub classes: &'a [OrderClass],
    pub serial: Option<&'a Different>,
}
