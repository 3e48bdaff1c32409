ghost use Rattle.std.specs.Prelude.{◌≡◌, ◌==◌, ◌↔◌, ◌<◌, ℕ, not, true, false, IfOk, OnOk, OnErr, IsTrue, MatchOption};
ghost use Rattle.std.specs.List.{filter, find};
ghost use Rattle.std.specs.Option.{option_copied, option_map};
ghost use Rattle.finite_maps.specs.Map.{get, entries};
ghost use Rattle.lock_modes.specs.Resource.{resource_at};
ghost use Rattle.lock_queues.specs.Locks as locks;
ghost use Rattle.lock_queues.specs.LockTable as spec;
ghost use Rattle.lock_queues.specs.Reasons as reasons;
ghost use Rattle.lock_queues.specs.Rings as rings;
ghost use Rattle.lock_queues.specs.Rules as rule;
ghost use Rattle.lock_queues.specs.Sound.{Distinct, IsSound};

use crate::answer::{Answer, Taken};
use crate::held::Held;
use crate::queue::{Spot, find_spot, next_ripe, place_of, wanted, wanted_mode};
use crate::ring::is_in_ring;
use crate::told::{Hop, ring_of};
use crate::wait::Wait;
use crate::want::{Want, want_at};
use finite_maps::Fork;
use lock_modes::{Mode, Place, Resource};
use std::alloc::{AllocError, Global};
use std::marker::Model;

/// Who holds which mode, and who waits, in the order of arrival.
///
/// Contracts see one finite map from a session and a resource to the mode held there, and the list of waits.
/// No session waits twice, modes that different sessions hold on a resource are compatible, and no session
/// waits for itself by way of others. A call that takes memory fails for want of it alone.
pub struct LockTable {
    held: Held,
    waits: Vec<Wait>,
}

// Written out and not derived, so that who owns one calls this and does not let its parts go one by one.
impl Drop for LockTable {
    fn drop(self) {
        let LockTable {
            held: _held,
            waits: _waits,
        } = self;
    }
}

impl Model for LockTable {
    ghost use Rattle.std.specs.Coded.{codes};
    ghost use Rattle.finite_maps.specs.Codes.{map_code};
    ghost use Rattle.lock_modes.specs.contracts.resource.Resource as resource;
    ghost use Rattle.lock_queues.specs.contracts.wait.Wait as waiting;
    ghost use Rattle.lock_queues.specs.LockTable as spec;
    ghost use Rattle.lock_queues.specs.Sound.{IsSound};

    ghost Value = { spec.Locks };

    ghost coded = { Prim.hlevel (codes, map_code, resource.the_row.coded, waiting.the_row.coded) };

    ghost view = { λ t. record { held = t.held; waits = t.waits.items } };

    ghost invariant = { λ t. IsSound (record { held = t.held; waits = t.waits.items }) };
}

impl LockTable {
    /// A table in which nobody holds anything or waits.
    pub fn new(alloc: Global) -> LockTable
        ensures { result ≡ spec.no_locks }
    {
        LockTable {
            held: Held::new(alloc),
            waits: Vec::new(alloc),
        }
    }

    /// Asks for a mode. The session gets the cover of it and the mode that it holds, or waits for that, or
    /// is refused because its wait would close a ring. Without memory the table stays as it was.
    pub fn ask(&mut self, session: u8, place: Place<'_>, mode: Mode) -> Result<Answer, AllocError>
        requires { locks.waits_now self.old.waits session ≡ false }
        ensures answer { IfOk result (rule.IsAnswer self.old session (resource_at place.entry) mode) }
        ensures change { IfOk result (λ answer. self.new ≡ rule.after self.old session (resource_at place.entry) mode answer) }
        ensures kept { OnErr result (self.new ≡ self.old) }
    {
        if self.ask_now(session, place, mode)? == Taken::Granted {
            return Ok(Answer::Granted);
        }
        let resource = place.to_resource()?;
        self.waits.push(Wait {
            session,
            resource,
            mode,
        })?;
        if is_in_ring(&self.held, &self.waits, session) {
            self.waits.pop();
            return Ok(Answer::Ring);
        }
        Ok(Answer::Waits)
    }

    /// Asks for a mode and refuses to wait: the session gets the cover of it and the mode that it holds, or
    /// nothing is changed. No ring is looked for. Without memory the table stays as it was.
    pub fn ask_now(
        &mut self,
        session: u8,
        place: Place<'_>,
        mode: Mode,
    ) -> Result<Taken, AllocError>
        requires { locks.waits_now self.old.waits session ≡ false }
        ensures answer { IfOk result (rule.IsTaken self.old session (resource_at place.entry) mode) }
        ensures change { IfOk result (λ answer. self.new ≡ rule.after_now self.old session (resource_at place.entry) mode answer) }
        ensures kept { OnErr result (self.new ≡ self.old) }
    {
        let own = self.held.mode_of(session, place);
        if may_have(&self.held, &self.waits, own, session, place, mode) {
            let wanted = wanted_mode(own, mode);
            self.held.give(session, place, wanted)?;
            return Ok(Taken::Granted);
        }
        Ok(Taken::Refused)
    }

    /// Takes all modes from a session, and its wait if it has one. Without memory the table stays as it was.
    pub fn let_go(&mut self, session: u8) -> Result<(), AllocError>
        ensures gone { OnOk result (self.new ≡ spec.let_go self.old session) }
        ensures kept { OnErr result (self.new ≡ self.old) }
    {
        self.held.take(session);
        remove_wait(&mut self.waits, session);
        Ok(())
    }

    /// The session whose wait is ripe and came first, over all resources, if any is. A wait is ripe where its wanted
    /// mode fits what other sessions hold there, and no wait is ahead of it.
    pub fn next_grant(&self) -> Option<u8>
        ensures { MatchOption result (rule.NothingRipe self.now) (rule.IsNextOf self.now) }
    {
        next_ripe(&self.held, &self.waits)
    }

    /// Gives the session of `next_grant` its wanted mode. Without memory the table stays as it was.
    pub fn grant(&mut self, session: u8) -> Result<(), AllocError>
        requires { rule.IsNextOf self.old session }
        ensures granted { OnOk result ((s : locks.Spot) → rule.IsNext self.old s → self.new ≡ spec.grant self.old s) }
        ensures kept { OnErr result (self.new ≡ self.old) }
    {
        let Some(wait) = find_wait(&self.waits, session) else {
            unreachable!()
        };
        let mode = wanted(&self.held, wait);
        self.held.give(session, wait.resource.place(), mode)?;
        remove_wait(&mut self.waits, session);
        Ok(())
    }

    /// Whether the session waits.
    pub fn waits(&self, session: u8) -> bool
        ensures { result ≡ locks.waits_now self.now.waits session }
    {
        self.waits.iter().any(|wait| wait.session == session)
    }

    /// The mode that the session holds at a place, if it holds one there.
    pub fn holds(&self, session: u8, place: Place<'_>) -> Option<Mode>
        ensures { result ≡ spec.look_in self.now session (resource_at place.entry) }
    {
        self.held.mode_of(session, place)
    }

    /// What every table keeps: modes of different sessions are compatible, no session waits twice, and there
    /// is no ring.
    pub fn known(&self)
        ensures { IsSound self.now }
    {
        let _held = &self.held; // for the proof
    }

    /// What the session waits for, if it waits: the resource, and the mode that it is to get there.
    pub fn wait_of(&self, session: u8) -> Option<(Place<'_>, Mode)>
        ensures { option_map (λ p. (resource_at p.0, p.1)) result ≡ rule.wait_of self.now session }
    {
        match find_wait(&self.waits, session) {
            None => None,
            Some(wait) => Some((wait.resource.place(), wanted(&self.held, wait))),
        }
    }

    /// What the session wants, if it waits, and whom of the sessions below the count it waits for, in their order, and
    /// why. It fails for want of memory alone.
    pub fn want_of(&self, alloc: Global, session: u8, count: u8) -> Result<Option<Want>, AllocError>
        ensures { IfOk result (λ want. want ≡ reasons.want_of count (spec.look_in self.now) self.now.waits session) }
    {
        match find_spot(&self.waits, session) {
            None => Ok(None),
            Some(spot) => Ok(Some(want_at(alloc, &self.held, &spot, count)?)),
        }
    }

    /// What the session's request would want as a wait behind all others, and whom of the sessions below the count it would
    /// wait for. It fails for want of memory alone.
    pub fn want_for(
        &self,
        alloc: Global,
        session: u8,
        place: Place<'_>,
        mode: Mode,
        count: u8,
    ) -> Result<Want, AllocError>
        ensures { IfOk result (λ want. want
            ≡ reasons.want_at count (spec.look_in self.now) (reasons.last_spot self.now.waits session (resource_at place.entry) mode)) }
    {
        let resource = place.to_resource()?;
        let wait = Wait {
            session,
            resource,
            mode,
        };
        let spot = Spot {
            before: &self.waits,
            wait: &wait,
            after: &[],
        };
        want_at(alloc, &self.held, &spot, count)
    }

    /// What the session holds, in the order of resources. It fails for want of memory alone.
    pub fn held_by(&self, session: u8) -> Result<Vec<(Resource, Mode)>, AllocError>
        ensures { IfOk result (λ list. list.items ≡ entries (spec.slice session self.now.held)) }
    {
        self.held.list(session)
    }

    /// The ring that the session's wait would close, told edge by edge: of the shortest ones the least by its sessions, from
    /// this session on. It fails for want of memory alone.
    pub fn ring(
        &self,
        alloc: Global,
        session: u8,
        place: Place<'_>,
        mode: Mode,
        count: u8,
    ) -> Result<Vec<Hop>, AllocError>
        requires free { locks.waits_now self.now.waits session ≡ false }
        requires below { session < count }
        requires closes { locks.closes_ring count (spec.look_in self.now) (spec.queued self.now session (resource_at place) mode).waits session ≡ true }
        ensures { IfOk result (λ hops. hops.items
            ≡ rings.ring_told count (spec.look_in self.now) (spec.queued self.now session (resource_at place.entry) mode).waits session) }
    {
        let mut waits = fork_waits(alloc, &self.waits)?;
        let resource = place.to_resource()?;
        waits.push(Wait {
            session,
            resource,
            mode,
        })?;
        ring_of(alloc, &self.held, &waits, session, count)
    }
}

impl Fork for LockTable {
    fn fork(&self) -> Result<LockTable, AllocError> {
        let held = self.held.fork()?;
        let mut waits = Vec::new(*self.waits.allocator());
        for wait in &self.waits {
            waits.push(wait.fork()?)?;
        }
        Ok(LockTable { held, waits })
    }
}

fn fork_waits(alloc: Global, waits: &[Wait]) -> Result<Vec<Wait>, AllocError>
    ensures { IfOk result (λ copies. copies.items ≡ waits.now) }
{
    let mut copies = Vec::new(alloc);
    for wait in waits {
        copies.push(wait.fork()?)?;
    }
    Ok(copies)
}

/// Whether a session that holds this may have a mode at once.
fn may_have(
    held: &Held,
    waits: &[Wait],
    own: Option<Mode>,
    session: u8,
    place: Place<'_>,
    mode: Mode,
) -> bool
    requires { own ≡ get held.now (session, resource_at place) }
    ensures { IsTrue result ↔ rule.MayHave (record { held = held.now; waits = waits.now }) session (resource_at place.entry) mode }
{
    (own.is_some() || nobody_waits(waits, place))
        && held.fits(session, place, wanted_mode(own, mode))
}

fn nobody_waits(waits: &[Wait], place: Place<'_>) -> bool
    ensures { result ≡ locks.nobody_waits waits.now (resource_at place.entry) }
{
    waits.iter().all(|wait| !wait.is_at(place))
}

fn find_wait(waits: &[Wait], session: u8) -> Option<&Wait>
    ensures { option_copied result ≡ find (λ (w : locks.Wait). w.session == session) waits.now }
{
    waits.iter().find(|wait| wait.session == session)
}

/// Takes out the wait of a session, if it has one.
fn remove_wait(waits: &mut Vec<Wait>, session: u8)
    requires { Distinct waits.old.items }
    ensures { waits.new.items ≡ filter (λ (w : locks.Wait). not (w.session == session)) waits.old.items }
{
    if let Some(at) = place_of(waits, session) {
        waits.remove(at);
    }
}
