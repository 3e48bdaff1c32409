ghost use Rattle.std.specs.Prelude.{◌≡◌};
ghost use Rattle.machine_model.specs.Go.{is_broken};
ghost use Rattle.machine_model.specs.Start.{is_outside};

use bound_statements::Level;

/// Where a session stands with its transaction block.
#[derive(Clone, Copy, PartialEq, Eq)]
pub enum Status {
    Outside,
    /// In a block of this level.
    InBlock(Level),
    /// The block has failed: only its end has an effect.
    Broken,
}

impl Status {
    /// Whether the block has failed.
    pub fn is_broken(self) -> bool
        ensures { result ≡ is_broken self }
    {
        matches!(self, Status::Broken)
    }

    /// Whether there is no block.
    pub fn is_outside(self) -> bool
        ensures { result ≡ is_outside self }
    {
        matches!(self, Status::Outside)
    }
}
