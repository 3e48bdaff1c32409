//! What stands at the front of a text, whatever its tokens are.

/// What stands at the front of a text.
#[derive(Clone, Copy)]
pub enum Piece<T> {
    /// White space or a comment, and its length.
    Blank(usize),
    /// A token, and its length.
    Next(T, usize),
    /// A token after which nothing is read.
    Last(T),
}

/// A token and its offset.
#[derive(Clone, Copy)]
pub struct Placed<T> {
    pub at: usize,
    pub token: T,
}
