//! What one session was told.

ghost use Rattle.std.specs.Prelude.{◌≡◌, ◌↔◌, [], ◌∷◌, ◌++◌, IfOk, IsTrue, OnOk, OnErr};

use crate::event::Event;
use crate::same::are_same_events;
use crate::turn::copied;
use finite_maps::Fork;
use std::alloc::{AllocError, Global};
use std::marker::Model;

/// What one session is told, seen by contracts as the list of its events in order.
pub struct Transcript {
    events: Vec<Event>,
}

// Written out and not derived, so that who owns one calls this and does not let its parts go one by one.
impl Drop for Transcript {
    fn drop(self) {
        let Transcript { events: _events } = self;
    }
}

impl Model for Transcript {
    ghost use Rattle.std.specs.Prelude.{List};
    ghost use Rattle.events.specs.declared.event.Event.{Event as Told};

    ghost Value = { List Told };

    ghost view = { λ t. t.events.items };
}

impl Transcript {
    /// A transcript without events.
    pub fn new(alloc: Global) -> Transcript
        ensures { result ≡ [] }
    {
        Transcript {
            events: Vec::new(alloc),
        }
    }

    /// A transcript without events, with room for so many. Contracts do not see the room.
    pub fn with_room(alloc: Global, room: usize) -> Result<Transcript, AllocError>
        ensures { IfOk result (λ transcript. transcript ≡ []) }
    {
        Ok(Transcript {
            events: Vec::with_capacity(alloc, room)?,
        })
    }

    /// Adds an event at the end. It fails for want of memory alone.
    pub fn push(&mut self, event: Event) -> Result<(), AllocError>
        ensures ok { OnOk result (self.new ≡ self.old ++ event ∷ []) }
        ensures err { OnErr result (self.new ≡ self.old) }
    {
        self.events.push(event)?;
        Ok(())
    }

    /// Adds copies of events at the end.
    pub(crate) fn extend(&mut self, events: &[Event]) -> Result<(), AllocError>
        ensures { OnOk result (self.new ≡ self.old ++ events.now) }
    {
        self.events.reserve(events.len())?;
        for event in events {
            self.events.push_reserved(event.fork()?);
        }
        Ok(())
    }

    /// Whether both sessions are told the same.
    pub fn is_same(&self, other: &Transcript) -> bool
        ensures { IsTrue result ↔ (self.now ≡ other.now) }
    {
        are_same_events(self.events(), other.events())
    }

    /// The events in order.
    pub fn events(&self) -> &[Event]
        ensures { result.now ≡ self.now }
    {
        self.events.as_slice()
    }
}

impl Fork for Transcript {
    fn fork(&self) -> Result<Transcript, AllocError> {
        let alloc = *self.events.allocator();
        Ok(Transcript {
            events: copied(alloc, self.events.as_slice())?,
        })
    }
}
