ghost use Rattle.std.specs.Prelude.{◌≡◌, ◌==◌, ◌↔◌, ◌<◌, Some, not, set, length, true, IfOk, OnOk, OnErr, IsTrue};
ghost use Rattle.finite_maps.specs.Map.{get, insert, keep, empty, entries};
ghost use Rattle.lock_modes.specs.Resource.{resource_at};
ghost use Rattle.lock_queues.specs.Locks as locks;
ghost use Rattle.lock_queues.specs.LockTable.{Holding, Fits, look_at, slice};
ghost use Rattle.lock_queues.specs.Records as records;

use crate::modes::Modes;
use finite_maps::Fork;
use lock_modes::{Mode, Place, Resource, compatible};
use std::alloc::{AllocError, Global};
use std::marker::Model;

/// The modes that sessions hold, by the number of the session. Sessions behind the last one hold none.
#[derive(Drop)]
pub struct Held {
    alloc: Global,
    sessions: Vec<Modes>,
}

impl Model for Held {
    ghost use Rattle.std.specs.Coded.{codes};
    ghost use Rattle.finite_maps.specs.Codes.{map_code};
    ghost use Rattle.finite_maps.specs.Map.{Map};
    ghost use Rattle.lock_modes.specs.declared.mode.Mode.{Mode};
    ghost use Rattle.lock_modes.specs.contracts.resource.Resource as resource;
    ghost use Rattle.lock_queues.specs.LockTable.{holding_order};
    ghost use Rattle.lock_queues.specs.Records.{held_map};

    ghost Value = { Map holding_order Mode };

    ghost coded = { Prim.hlevel (codes, map_code, resource.the_row.coded) };

    ghost view = { λ h. held_map h.sessions.items };
}

impl Held {
    /// Nothing is held.
    pub fn new(alloc: Global) -> Held
        ensures { result ≡ empty }
    {
        Held {
            alloc,
            sessions: Vec::new(alloc),
        }
    }

    /// The mode that a session holds at a place.
    pub fn mode_of(&self, session: u8, place: Place<'_>) -> Option<Mode>
        ensures { result ≡ get self.now (session, resource_at place.entry) }
    {
        let session = session as usize;
        if session < self.sessions.len() {
            self.sessions[session].get(place)
        } else {
            None
        }
    }

    /// What a session holds, in the order of resources. It fails for want of memory alone.
    pub fn list(&self, session: u8) -> Result<Vec<(Resource, Mode)>, AllocError>
        ensures { IfOk result (λ list. list.items ≡ entries (slice session self.now)) }
    {
        let session = session as usize;
        if session < self.sessions.len() {
            self.sessions[session].list(self.alloc)
        } else {
            Ok(Vec::new(self.alloc))
        }
    }

    /// Whether the mode is compatible with what every other session holds at a place.
    pub fn fits(&self, session: u8, place: Place<'_>, mode: Mode) -> bool
        ensures { IsTrue result ↔ Fits (look_at self.now) session (resource_at place.entry) mode }
    {
        all_fit(self.sessions.as_slice(), session, place, mode)
    }

    /// Gives a session the mode at a place. Without memory everything is held as it was.
    pub fn give(&mut self, session: u8, place: Place<'_>, mode: Mode) -> Result<(), AllocError>
        ensures given { OnOk result (self.new ≡ insert self.old (session, resource_at place.entry) mode) }
        ensures kept { OnErr result (self.new ≡ self.old) }
    {
        if is_mode(self.mode_of(session, place), mode) {
            return Ok(());
        }
        reach(self.alloc, &mut self.sessions, session)?;
        let session = session as usize;
        let modes = self.sessions[session].put(self.alloc, place, mode)?;
        put(&mut self.sessions, session, modes);
        Ok(())
    }

    /// Takes everything away from a session.
    pub fn take(&mut self, session: u8)
        ensures { self.new ≡ keep (λ (h : Holding). not (h.0 == session)) self.old }
    {
        let session = session as usize;
        if session < self.sessions.len() {
            put(&mut self.sessions, session, Modes::new(self.alloc));
        }
    }
}

impl Fork for Held {
    fn fork(&self) -> Result<Held, AllocError> {
        let mut sessions = Vec::with_capacity(self.alloc, self.sessions.len())?;
        for modes in &self.sessions {
            sessions.push(modes.fork()?)?;
        }
        Ok(Held {
            alloc: self.alloc,
            sessions,
        })
    }
}

/// Whether what is held is this mode.
fn is_mode(held: Option<Mode>, mode: Mode) -> bool
    ensures { result ≡ true → held ≡ Some mode }
{
    match held {
        None => false,
        Some(held) => held == mode,
    }
}

/// Whether a mode goes with the one that another session holds, if it holds one.
pub fn fits_with(mode: Mode, held: Option<Mode>) -> bool
    ensures { result ≡ locks.fits_with mode held }
{
    match held {
        None => true,
        Some(held) => compatible(mode, held),
    }
}

/// Makes room for the modes of a session. Nobody holds more or less for that, also where memory runs out.
fn reach(alloc: Global, sessions: &mut Vec<Modes>, session: u8) -> Result<(), AllocError>
    ensures same { records.held_map sessions.new.items ≡ records.held_map sessions.old.items }
    ensures inside { OnOk result (session < length sessions.new.items) }
{
    for _more in sessions.len()..session as usize + 1 {
        sessions.push(Modes::new(alloc))?;
    }
    Ok(())
}

/// Puts the modes of a session in the place of those that it had.
fn put(sessions: &mut Vec<Modes>, session: usize, modes: Modes)
    requires { session < length sessions.old.items }
    ensures { sessions.new.items ≡ set sessions.old.items session modes }
{
    sessions[session] = modes;
}

/// Whether the mode goes with what each session but this one holds at a place.
fn all_fit(sessions: &[Modes], session: u8, place: Place<'_>, mode: Mode) -> bool
    ensures { IsTrue result ↔ records.AllFit sessions.now session (resource_at place.entry) mode }
{
    for other in 0..sessions.len() {
        if other != session as usize && !fits_with(mode, sessions[other].get(place)) {
            return false;
        }
    }
    true
}
