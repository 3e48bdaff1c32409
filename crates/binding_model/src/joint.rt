//! What joins the parts of a chain.

/// What joins the parts of a chain: AND, of which all have to hold, or OR.
#[derive(Clone, Copy)]
pub enum Joint {
    All,
    Any,
}
