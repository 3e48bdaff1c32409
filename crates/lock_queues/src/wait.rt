ghost use Rattle.std.specs.Prelude.{◌≡◌, IfOk};
ghost use Rattle.lock_modes.specs.Resource.{resource_at, same_resource};

use finite_maps::Fork;
use lock_modes::{Mode, Place, Resource};
use std::alloc::AllocError;

/// A session that waits, with the mode that it asked for on a resource.
#[derive(Drop)]
pub struct Wait {
    pub session: u8,
    pub resource: Resource,
    pub mode: Mode,
}

impl Wait {
    /// Whether it is for this place.
    pub fn is_at(&self, place: Place<'_>) -> bool
        ensures { result ≡ same_resource self.now.resource (resource_at place.entry) }
    {
        match (&self.resource, place) {
            (Resource::Table(table), Place::Table(other)) => *table == other,
            (Resource::Row(table, key), Place::Row(other, other_key)) => {
                *table == other && key == other_key
            }
            _ => false,
        }
    }
}

impl Fork for Wait {
    fn fork(&self) -> Result<Wait, AllocError> {
        Ok(Wait {
            session: self.session,
            resource: self.resource.fork()?,
            mode: self.mode,
        })
    }
}
