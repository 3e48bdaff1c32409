use finite_maps::Fork;
use std::alloc::AllocError;
use transcripts::Outcome;

/// What is known of a rank.
pub enum Fact {
    /// Its line was run, with this outcome.
    Ran(Outcome),
    /// It tells that the two steps at this place of its line and after it are quiet and stand in falling order, so that exchanging
    /// them leads to a smaller rank with the same outcome. Places count from 0.
    Swap(u8),
}

// Written out and not derived, so that who owns one calls this and does not let its parts go one by one.
impl Drop for Fact {
    fn drop(self) {
        match self {
            Fact::Ran(_outcome) => {}
            Fact::Swap(_) => {}
        }
    }
}

impl Fork for Fact {
    fn fork(&self) -> Result<Fact, AllocError> {
        Ok(match self {
            Fact::Ran(outcome) => Fact::Ran(outcome.fork()?),
            Fact::Swap(place) => Fact::Swap(*place),
        })
    }
}
