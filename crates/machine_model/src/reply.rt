use events::Fault;

/// What a request of a session that goes gets.
#[derive(Clone, Copy, PartialEq, Eq)]
pub enum Reply {
    /// The mode is had.
    Had,
    /// The session waits.
    Waits,
    /// This fault ends the step.
    Refused(Fault),
}
