//! Events that are still being told.

ghost use Rattle.std.specs.Prelude.{◌≡◌, [], ◌∷◌, ◌++◌, IfOk, OnOk, OnErr};

use crate::event::Event;
use crate::transcript::Transcript;
use crate::turn::{Turns, copied};
use finite_maps::Fork;
use std::alloc::{AllocError, Global};
use std::marker::Model;
use std::mem;

/// What one session has been told so far, seen by contracts as the list of its events in order. A fork shares the events
/// of turns that have ended, and copies those of the turn that goes on. Each goes on alone.
pub struct Log {
    /// The turns that have ended.
    turns: Turns,
    /// What was told since.
    current: Vec<Event>,
    /// How many events a transcript has to have room for.
    room: usize,
    alloc: Global,
}

// Written out and not derived, so that who owns one calls this and does not let its parts go one by one.
impl Drop for Log {
    fn drop(self) {
        let Log {
            turns: _turns,
            current: _current,
            room: _,
            alloc: _,
        } = self;
    }
}

impl Model for Log {
    ghost use Rattle.std.specs.Prelude.{List, ◌++◌};
    ghost use Rattle.events.specs.declared.event.Event.{Event as Told};

    ghost Value = { List Told };

    ghost view = { λ log. log.turns.told ++ log.current.items };
}

impl Log {
    /// Nothing was told.
    pub fn new(alloc: Global) -> Log
        ensures { result ≡ [] }
    {
        Log {
            turns: Turns::new(),
            current: Vec::new(alloc),
            room: 0,
            alloc,
        }
    }

    /// Adds an event at the end. It fails for want of memory alone.
    pub fn push(&mut self, event: Event) -> Result<(), AllocError>
        ensures ok { OnOk result (self.new ≡ self.old ++ event ∷ []) }
        ensures err { OnErr result (self.new ≡ self.old) }
    {
        let is_last = event.ends_turn();
        self.current.push(event)?;
        self.room = self.room.saturating_add(1);
        if is_last {
            self.end_turn();
        }
        Ok(())
    }

    /// Puts what is told in the current turn among the turns that have ended. Where there is no room or no memory for that, it stays where it is.
    fn end_turn(&mut self)
        ensures { self.new ≡ self.old }
    {
        let events = mem::replace(&mut self.current, Vec::new(self.alloc));
        self.current = self.turns.add(self.alloc, events);
    }

    /// A transcript of the events so far. It fails for want of memory alone.
    pub fn to_transcript(&self) -> Result<Transcript, AllocError>
        ensures { IfOk result (λ transcript. transcript ≡ self.now) }
    {
        let mut transcript = Transcript::with_room(self.alloc, self.room)?;
        self.turns.tell(&mut transcript)?;
        transcript.extend(self.current.as_slice())?;
        Ok(transcript)
    }
}

impl Fork for Log {
    fn fork(&self) -> Result<Log, AllocError> {
        Ok(Log {
            turns: self.turns.fork()?,
            current: copied(self.alloc, self.current.as_slice())?,
            room: self.room,
            alloc: self.alloc,
        })
    }
}
