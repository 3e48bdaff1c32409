/// What a request for a lock gets.
#[derive(Clone, Copy, PartialEq, Eq)]
pub enum Answer {
    /// The mode is had.
    Granted,
    /// The session waits.
    Waits,
    /// The wait would close a ring, so the request is refused.
    Ring,
}

/// What a request for a lock gets that refuses to wait.
#[derive(Clone, Copy, PartialEq, Eq)]
pub enum Taken {
    /// The mode is had.
    Granted,
    /// The mode may not be had at once, and nothing is changed.
    Refused,
}
