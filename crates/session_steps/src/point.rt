//! Places in what sessions send.

ghost use Rattle.std.specs.Prelude.{◌≡◌};

/// What sends statements.
#[derive(Clone, Copy, PartialEq, Eq)]
pub enum Origin {
    /// A setup of the spec or of a session.
    Setup,
    /// The step with this number.
    Step(u8),
}

/// A place in a step: the number of a statement, and of a request of it.
#[derive(Clone, Copy, PartialEq, Eq)]
pub struct Point {
    pub statement: usize,
    pub request: u8,
}

impl Point {
    /// The first request of the first statement.
    pub fn start() -> Point
        ensures { result ≡ record { statement = 0; request = 0 } }
    {
        Point {
            statement: 0,
            request: 0,
        }
    }
}

/// What is left of a step: the session goes on there when its request is had.
#[derive(Clone, Copy, PartialEq, Eq)]
pub struct Rest {
    pub step: u8,
    pub point: Point,
}
