ghost use Rattle.std.specs.Prelude.{◌≡◌};
ghost use Rattle.session_steps.specs.Refused.{number_of};
ghost use Rattle.session_steps.specs.declared.error.SendError.TheVariants as send_error;
ghost use Rattle.session_steps.specs.declared.error.StartError.TheVariants as start_error;

use std::alloc::AllocError;
use std::error::Error;
use std::fmt;

/// Why a spec does not start: the first that happens.
#[derive(Clone, Copy, Debug, PartialEq, Eq)]
pub enum StartError {
    /// A statement of this main setup block failed, or the block left a transaction block open. Blocks count from 0.
    SetupFailed { block: u64 },
    /// A statement of the setup of this session failed.
    SessionSetupFailed { session: u64 },
    /// The setup of this session has to wait.
    SessionSetupWaits { session: u64 },
    /// Memory ran out.
    NoMemory,
}

/// Why a world does not take a step, or gives no outcome.
#[derive(Clone, Copy, Debug, PartialEq, Eq)]
pub enum SendError {
    /// Memory ran out; the world is spent from then on.
    NoMemory,
    /// An earlier step was refused memory.
    Spent,
}

impl StartError {
    /// The number that a fault line shows.
    pub fn number(&self) -> u8
        ensures { result ≡ number_of self.now }
    {
        match self {
            StartError::SetupFailed { .. } => 1,
            StartError::SessionSetupFailed { .. } => 2,
            StartError::SessionSetupWaits { .. } => 3,
            StartError::NoMemory => 4,
        }
    }
}

impl fmt::Display for StartError {
    fn fmt<W: fmt::Write>(&self, f: &mut fmt::Formatter<W>) -> fmt::Result {
        match self {
            StartError::SetupFailed { block } => write!(f, "setup block {block} fails"),
            StartError::SessionSetupFailed { session } => write!(
                f,
                "the setup of session {session} fails"
            ),
            StartError::SessionSetupWaits { session } => write!(
                f,
                "the setup of session {session} waits"
            ),
            StartError::NoMemory => f.write_str("no memory"),
        }
    }
}

impl Error for StartError {}

impl fmt::Display for SendError {
    fn fmt<W: fmt::Write>(&self, f: &mut fmt::Formatter<W>) -> fmt::Result {
        f.write_str(match self {
            SendError::NoMemory => "no memory",
            SendError::Spent => "the world is spent",
        })
    }
}

impl Error for SendError {}

impl From<AllocError> for StartError {
    ghost from_gives = { λ _ e. e ≡ start_error.NoMemory };

    fn from(_error: AllocError) -> StartError {
        StartError::NoMemory
    }
}

impl From<AllocError> for SendError {
    ghost from_gives = { λ _ e. e ≡ send_error.NoMemory };

    fn from(_error: AllocError) -> SendError {
        SendError::NoMemory
    }
}
