//! What an answer finds.

ghost use Rattle.std.specs.Prelude.{◌≡◌};
ghost use Rattle.book_commands.specs.Finding.{finding_status};

/// What an answer finds, where no fault stops it.
#[derive(Clone, Copy, PartialEq, Eq)]
pub enum Finding {
    /// What was asked for is written, and nothing is amiss.
    Good,
    /// A book has a false fact, or does not hold a range, or its report is equal to none of the accepted ones; or a spec's classes are not as accepted.
    Bad,
    /// Of several specs one is refused, and none ends worse.
    Refused,
    /// Of several specs there was no memory for one, and none ends worse.
    NoMemory,
    /// Of several specs one is not read, or its accepted text is not read or not written.
    Unread,
}

impl Finding {
    /// The exit status: 0 where nothing is amiss, 1 where something is, and of specs that are not tested the status of their faults.
    pub fn status(&self) -> u8
        ensures { result ≡ finding_status self.now }
    {
        match self {
            Finding::Good => 0,
            Finding::Bad => 1,
            Finding::Refused => 3,
            Finding::NoMemory => 4,
            Finding::Unread => 5,
        }
    }
}
