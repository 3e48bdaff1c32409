//! The lock table by numbers, now and at marks.

ghost use Rattle.std.specs.Prelude.{◌≡◌, ◌<◌, ◌↔◌, ◌∷◌, [], false, length, IfOk, IfSome, IsTrue, MatchOption, OnErr, OnOk};
ghost use Rattle.std.specs.Option.{option_map};
ghost use Rattle.std.specs.List.Sorted.{IsStrictlySortedBy};
ghost use Rattle.lock_modes.specs.Resource.{resource_cmp};
ghost use Rattle.lock_queues.specs.Locks as locks;
ghost use Rattle.lock_queues.specs.LockTable as spec;
ghost use Rattle.lock_queues.specs.Rules as rule;
ghost use Rattle.lock_queues.specs.Sound.{IsSound};
ghost use Rattle.lock_queues.specs.declared.answer.Taken.TheVariants.{Refused};
ghost use Rattle.numbered_specs.specs.Numbers.{HasNumber, resource_of};
ghost use Rattle.marked_locks.specs.Queued.{GrantsOnly, LosesSome};

use crate::leaving::remove_wait;
use crate::queue::{has_already, may_have, next_ripe, wanted, wanted_mode};
use crate::ring::is_in_ring;
use crate::wait::{NumberedWait, is_waiting, place_of_wait};
use lock_modes::Mode;
use lock_queues::{Answer, Taken, covered_modes_are_had, tables_stay_sound};
use marked_lists::MarkedList;
use marked_modes::{MAX_HOLDERS, MarkedModes};
use numbered_specs::{ResourceNumber, SpecNumbers};
use std::alloc::{AllocError, Global};
use std::marker::Model;
use std::sync::Arc;

/// Who holds which mode on the resources of a spec, and who waits, in the order of arrival, with marks to go back to.
///
/// Contracts see the resources, the lock table now, and the lock tables at the marks that stand, the newest first. Modes of different sessions are
/// compatible, no session waits twice, and none waits for itself by way of others, now and at marks. A call that takes memory fails for want of it
/// alone, and what was at marks stays.
#[derive(Drop)]
pub struct MarkedLocks {
    pub(crate) modes: MarkedModes,
    /// In the order of arrival.
    pub(crate) waits: MarkedList<NumberedWait>,
}

impl Model for MarkedLocks {
    ghost use Rattle.std.specs.Coded.{codes};
    ghost use Rattle.finite_maps.specs.Codes.{map_code};
    ghost use Rattle.lock_modes.specs.contracts.resource.Resource as resource;
    ghost use Rattle.lock_queues.specs.contracts.wait.Wait as waiting;
    ghost use Rattle.marked_locks.specs.Queued.{MarkedTable, table_of};
    ghost use Rattle.marked_locks.specs.Kept.{IsKept};

    ghost Value = { MarkedTable };

    ghost coded = { Prim.hlevel (codes, map_code, resource.the_row.coded, waiting.the_row.coded) };

    ghost view = { λ t. table_of t.modes t.waits };

    ghost invariant = { λ t. IsKept t.modes t.waits };
}

impl MarkedLocks {
    /// Nobody holds anything or waits, and no mark stands. It fails for want of memory alone.
    pub fn new(alloc: Global, numbers: Arc<SpecNumbers>) -> Result<MarkedLocks, AllocError>
        requires { IsStrictlySortedBy resource_cmp numbers.value.resources }
        ensures { IfOk result (λ table. table ≡ record { resources = numbers.value.resources; now = spec.no_locks; marked = [] }) }
    {
        tables_stay_sound(); // for the proof
        let modes = MarkedModes::new(alloc, numbers)?;
        Ok(MarkedLocks {
            modes,
            waits: MarkedList::new(alloc),
        })
    }

    /// Whether the session waits.
    pub fn waits(&self, session: u8) -> bool
        ensures { result ≡ locks.waits_now self.now.now.waits session }
    {
        is_waiting(self.waits.as_slice(), session)
    }

    /// What the session waits for, if it waits: the number of the resource, and the mode that it is to get there.
    pub fn wait_of(&self, session: u8) -> Option<(ResourceNumber, Mode)>
        ensures known { IfSome result (λ found. HasNumber self.now.resources found.0) }
        ensures wait { option_map (λ found. (resource_of self.now.resources found.0, found.1)) result ≡ rule.wait_of self.now.now session }
    {
        let waits = self.waits.as_slice();
        match place_of_wait(waits, session) {
            None => None,
            Some(place) => {
                let wait = waits[place];
                Some((wait.resource, wanted(&self.modes, wait)))
            }
        }
    }

    /// Whether the mode is compatible with what every other session holds on a resource.
    pub fn fits(&self, session: u8, number: ResourceNumber, mode: Mode) -> bool
        requires { HasNumber self.now.resources number }
        ensures { IsTrue result ↔ spec.Fits (spec.look_in self.now.now) session (resource_of self.now.resources number) mode }
    {
        self.modes.fits(session, number, mode)
    }

    /// The mode that the session holds on a resource, if it holds one there.
    pub fn holds(&self, session: u8, number: ResourceNumber) -> Option<Mode>
        requires session { session < MAX_HOLDERS }
        requires number { HasNumber self.now.resources number }
        ensures { result ≡ spec.look_in self.now.now session (resource_of self.now.resources number) }
    {
        self.modes.mode_of(session, number)
    }

    /// What every table keeps: modes of different sessions are compatible, no session waits twice, and there is no ring.
    pub fn known(&self)
        ensures { IsSound self.now.now }
    {
        let _modes = &self.modes; // for the proof
    }

    /// Asks for a mode. The session gets the cover of it and the mode that it holds, or waits for that, or is refused because its wait would close a
    /// ring. Without memory everything stays as it was.
    pub fn ask(
        &mut self,
        session: u8,
        number: ResourceNumber,
        mode: Mode,
    ) -> Result<Answer, AllocError>
        requires free { locks.waits_now self.old.now.waits session ≡ false }
        requires session { session < MAX_HOLDERS }
        requires number { HasNumber self.old.resources number }
        ensures answer { IfOk result (rule.IsAnswer self.old.now session (resource_of self.old.resources number) mode) }
        ensures change { IfOk result (λ answer.
            self.new ≡ record self.old { now = rule.after self.old.now session (resource_of self.old.resources number) mode answer }) }
        ensures kept { OnErr result (self.new ≡ self.old) }
    {
        match self.ask_now(session, number, mode)? {
            Taken::Granted => Ok(Answer::Granted),
            Taken::Refused => self.wait_or_refuse(session, number, mode),
        }
    }

    /// Lets a session wait for a mode that it may not have at once, unless its wait would close a ring.
    fn wait_or_refuse(
        &mut self,
        session: u8,
        number: ResourceNumber,
        mode: Mode,
    ) -> Result<Answer, AllocError>
        requires free { locks.waits_now self.old.now.waits session ≡ false }
        requires session { session < MAX_HOLDERS }
        requires number { HasNumber self.old.resources number }
        requires refused { rule.IsTaken self.old.now session (resource_of self.old.resources number) mode Refused }
        ensures answer { IfOk result (rule.IsAnswer self.old.now session (resource_of self.old.resources number) mode) }
        ensures change { IfOk result (λ answer.
            self.new ≡ record self.old { now = rule.after self.old.now session (resource_of self.old.resources number) mode answer }) }
        ensures kept { OnErr result (self.new ≡ self.old) }
    {
        tables_stay_sound(); // for the proof
        let count = self.waits.len();
        self.waits.push(NumberedWait {
            session,
            resource: number,
            mode,
        })?;
        if is_in_ring(&self.modes, self.waits.as_slice(), session) {
            self.waits.truncate(count);
            return Ok(Answer::Ring);
        }
        Ok(Answer::Waits)
    }

    /// Asks for a mode and refuses to wait: the session gets the cover of it and the mode that it holds, or nothing is changed. No ring is looked
    /// for. Without memory everything stays as it was.
    pub fn ask_now(
        &mut self,
        session: u8,
        number: ResourceNumber,
        mode: Mode,
    ) -> Result<Taken, AllocError>
        requires free { locks.waits_now self.old.now.waits session ≡ false }
        requires session { session < MAX_HOLDERS }
        requires number { HasNumber self.old.resources number }
        ensures answer { IfOk result (rule.IsTaken self.old.now session (resource_of self.old.resources number) mode) }
        ensures change { IfOk result (λ answer.
            self.new ≡ record self.old { now = rule.after_now self.old.now session (resource_of self.old.resources number) mode answer }) }
        ensures kept { OnErr result (self.new ≡ self.old) }
    {
        tables_stay_sound(); // for the proof
        let own = self.modes.mode_of(session, number);
        if has_already(own, mode) {
            covered_modes_are_had(); // for the proof
            return Ok(Taken::Granted);
        }
        if may_have(
            &self.modes,
            self.waits.as_slice(),
            own,
            session,
            number,
            mode,
        ) {
            let wanted = wanted_mode(own, mode);
            self.modes.give(session, number, wanted)?;
            return Ok(Taken::Granted);
        }
        Ok(Taken::Refused)
    }

    /// Takes all modes from a session, and its wait if it has one. Where memory runs out nobody waits any more, and the session may have lost some of
    /// its modes; what was at marks stays.
    pub fn let_go(&mut self, session: u8) -> Result<(), AllocError>
        requires { session < MAX_HOLDERS }
        ensures gone { OnOk result (self.new ≡ record self.old { now = spec.let_go self.old.now session }) }
        ensures refused { OnErr result (LosesSome session self.old.now self.new.now) }
        ensures resources { self.new.resources ≡ self.old.resources }
        ensures marked { self.new.marked ≡ self.old.marked }
    {
        tables_stay_sound(); // for the proof
        if let Err(error) = self.modes.let_go(session) {
            // Who waits for whom may be otherwise now.
            self.waits.truncate(0);
            return Err(error);
        }
        match place_of_wait(self.waits.as_slice(), session) {
            None => Ok(()),
            Some(place) => remove_wait(&mut self.waits, place),
        }
    }

    /// The session whose wait is ripe and came first, over all resources, if any is. A wait is ripe where its wanted mode fits what other sessions
    /// hold there, and no wait is ahead of it.
    pub fn next_grant(&self) -> Option<u8>
        ensures { MatchOption result (rule.NothingRipe self.now.now) (rule.IsNextOf self.now.now) }
    {
        next_ripe(&self.modes, self.waits.as_slice())
    }

    /// Gives the session of `next_grant` its wanted mode. Where memory runs out all is as it was, or the session has the mode and nobody waits any
    /// more; what was at marks stays.
    pub fn grant(&mut self, session: u8) -> Result<(), AllocError>
        requires { rule.IsNextOf self.old.now session }
        ensures granted { OnOk result ((s : locks.Spot) → rule.IsNext self.old.now s → self.new ≡ record self.old { now = spec.grant self.old.now s }) }
        ensures refused { OnErr result (GrantsOnly self.old.now self.new.now) }
        ensures resources { self.new.resources ≡ self.old.resources }
        ensures marked { self.new.marked ≡ self.old.marked }
    {
        tables_stay_sound(); // for the proof
        let Some(place) = place_of_wait(self.waits.as_slice(), session) else {
            unreachable!()
        };
        let wait = self.waits.get(place);
        let mode = wanted(&self.modes, wait);
        self.modes.give(session, wait.resource, mode)?;
        remove_wait(&mut self.waits, place)
    }

    /// Sets a mark. Without memory everything stays as it was.
    pub fn mark(&mut self) -> Result<(), AllocError>
        ensures marked { OnOk result (self.new ≡ record self.old { marked = self.old.now ∷ self.old.marked }) }
        ensures kept { OnErr result (self.new ≡ self.old) }
    {
        self.modes.mark()?;
        match self.waits.mark() {
            Ok(()) => Ok(()),
            Err(error) => {
                self.modes.go_back();
                Err(error)
            }
        }
    }

    /// Goes back to the newest mark, which is gone then. It takes no memory.
    pub fn go_back(&mut self)
        requires { 0 < length self.old.marked }
        ensures marked { self.old.marked ≡ self.new.now ∷ self.new.marked }
        ensures resources { self.new.resources ≡ self.old.resources }
    {
        self.modes.go_back();
        self.waits.go_back();
    }
}
