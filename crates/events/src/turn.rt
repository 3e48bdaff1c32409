//! What was told in turns that have ended.

ghost use Rattle.std.specs.Prelude.{◌≡◌, ◌++◌, [], IfOk, OnOk};

use crate::event::Event;
use crate::transcript::Transcript;
use finite_maps::Fork;
use std::alloc::{AllocError, Global};
use std::marker::Model;
use std::rc::Rc;

/// No more turns than these stand behind one another, since letting go of them goes as deep. A session that sends 28 steps, each of which waits
/// three times, has half as many.
const MAX_TURNS: u8 = 200;

/// Turns that have ended, seen by contracts as what was told in them. A fork shares them all.
#[cycle(turns)]
#[derive(Drop)]
pub(crate) struct Turns {
    last: Option<Rc<Turn>>,
    len: u8,
}

/// A turn behind those that ended before it.
#[cycle(turns)]
#[derive(Drop)]
pub(crate) struct Turn {
    before: Turns,
    events: Vec<Event>,
}

impl Model for Turns {
    ghost use Rattle.events.specs.Turned.{Turned};

    ghost Value = { Turned };

    ghost use Rattle.events.specs.Log.{turned};

    ghost view = { λ turns. turned turns.last };

    ghost size = { λ turns. turns.count };

    ghost use Rattle.std.proofs.Common.{arith};

    ghost size_decreases = { λ a h. Prim.grind (arith) };
}

impl Turns {
    /// No turns.
    pub(crate) fn new() -> Turns
        ensures { result.told ≡ [] }
    {
        Turns { last: None, len: 0 }
    }

    /// Puts a turn of these events behind the others. Where there is no room or no memory for that they come back, and else none.
    pub(crate) fn add(&mut self, alloc: Global, events: Vec<Event>) -> Vec<Event>
        ensures { self.new.told ++ result.items ≡ self.old.told ++ events.items }
    {
        if self.len >= MAX_TURNS {
            return events;
        }
        let turn = Turn {
            before: Turns {
                last: self.last.take(),
                len: self.len,
            },
            events,
        };
        match Rc::new(alloc, turn) {
            Ok(last) => {
                self.last = Some(last);
                self.len += 1;
                Vec::new(alloc)
            }
            Err(refused) => {
                let Turn { before, events } = refused.value;
                self.last = before.last;
                events
            }
        }
    }

    /// Adds a copy of each event to a transcript.
    pub(crate) fn tell(&self, transcript: &mut Transcript) -> Result<(), AllocError>
        ensures { OnOk result (transcript.new ≡ transcript.old ++ self.now.told) }
    {
        let Some(turn) = &self.last else {
            return Ok(());
        };
        turn.before.tell(transcript)?;
        transcript.extend(turn.events.as_slice())
    }
}

impl Fork for Turns {
    fn fork(&self) -> Result<Turns, AllocError> {
        match &self.last {
            None => Ok(Turns { last: None, len: 0 }),
            Some(turn) => Ok(Turns {
                last: Some(turn.clone()?),
                len: self.len,
            }),
        }
    }
}

/// The same events in a list of their own.
pub(crate) fn copied(alloc: Global, events: &[Event]) -> Result<Vec<Event>, AllocError>
    ensures { IfOk result (λ copy. copy.items ≡ events.now) }
{
    let mut copy = Vec::with_capacity(alloc, events.len())?;
    for event in events {
        copy.push_reserved(event.fork()?);
    }
    Ok(copy)
}
