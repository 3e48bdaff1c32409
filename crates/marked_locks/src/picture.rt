//! Pictures of a lock table.

ghost use Rattle.std.specs.Prelude.{◌≡◌, IfOk, true};
ghost use Rattle.marked_locks.specs.Queued.{pictured};

use crate::locks::MarkedLocks;
use crate::wait::{NumberedWait, are_same};
use marked_modes::ModesPicture;
use std::alloc::{AllocError, Global};

/// A lock table as it was when it was taken. It says nothing of the resources of another spec.
#[derive(Drop)]
pub struct LocksPicture {
    pub(crate) modes: ModesPicture,
    pub(crate) waits: Vec<NumberedWait>,
}

impl LocksPicture {
    /// On how many resources somebody held something.
    pub fn held(&self) -> usize {
        self.modes.held()
    }
}

impl MarkedLocks {
    /// A picture of the lock table now. It fails for want of memory alone.
    pub fn picture(&self, alloc: Global) -> Result<LocksPicture, AllocError>
        ensures { IfOk result (λ picture. pictured self.now.resources picture ≡ self.now.now) }
    {
        let modes = self.modes.picture(alloc)?;
        let mut waits = Vec::new(alloc);
        waits.extend_from_slice(self.waits.as_slice())?;
        Ok(LocksPicture { modes, waits })
    }

    /// Whether the lock table now is that of a picture. Contracts promise what a yes means; a no costs time alone.
    pub fn is_pictured(&self, picture: &LocksPicture) -> bool
        ensures { result ≡ true → pictured self.now.resources picture.now ≡ self.now.now }
    {
        are_same(self.waits.as_slice(), picture.waits.as_slice())
            && self.modes.is_pictured(&picture.modes)
    }
}
