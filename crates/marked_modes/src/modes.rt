//! The modes that sessions hold, now and at marks.

ghost use Rattle.std.specs.Prelude.{◌≡◌, ◌<◌, ◌==◌, ◌↔◌, ◌∷◌, [], not, length, IfOk, OnErr, OnOk, IsTrue};
ghost use Rattle.std.specs.List.Sorted.{IsStrictlySortedBy};
ghost use Rattle.finite_maps.specs.Map.{empty, get, insert, keep};
ghost use Rattle.lock_modes.specs.Resource.{resource_cmp};
ghost use Rattle.lock_queues.specs.LockTable.{Fits, Holding, look_at};
ghost use Rattle.marked_modes.specs.Held.{TakesSome};
ghost use Rattle.numbered_specs.specs.Numbers.{HasNumber, resource_of};

use crate::clearing::{clear, forget};
use crate::row::{Given, MAX_HOLDERS, ModeRow};
use lock_modes::Mode;
use marked_lists::MarkedList;
use numbered_specs::{ResourceNumber, SpecNumbers};
use std::alloc::{AllocError, Global};
use std::marker::Model;
use std::sync::Arc;

/// Who holds which mode on the resources of a spec, with marks to go back to.
///
/// Contracts see the resources, who holds which mode now, and who held which at the marks that stand, the newest first. A call that takes memory
/// fails for want of it alone, and what was held at marks stays.
#[derive(Drop)]
pub struct MarkedModes {
    numbers: Arc<SpecNumbers>,
    /// For each resource a row.
    pub(crate) rows: MarkedList<ModeRow>,
    /// What was given, the newest last, with more than is held still. It is empty again where only one session held anything and lets it go, so that what
    /// setups have locked is not gone through at each end of a transaction.
    given: MarkedList<Given>,
}

impl Model for MarkedModes {
    ghost use Rattle.std.specs.Coded.{codes};
    ghost use Rattle.finite_maps.specs.Codes.{map_code};
    ghost use Rattle.lock_modes.specs.contracts.resource.Resource as resource;
    ghost use Rattle.marked_modes.specs.Held.{MarkedHolds};
    ghost use Rattle.marked_modes.specs.Kept.{IsKept, holds_of};

    ghost Value = { MarkedHolds };

    ghost coded = { Prim.hlevel (codes, map_code, resource.the_row.coded) };

    ghost view = { λ m. holds_of m.numbers.value.resources m.rows };

    ghost invariant = { λ m. IsKept m.numbers.value.resources m.rows m.given };
}

impl MarkedModes {
    /// Nobody holds anything, and no mark stands.
    pub fn new(alloc: Global, numbers: Arc<SpecNumbers>) -> Result<MarkedModes, AllocError>
        requires { IsStrictlySortedBy resource_cmp numbers.value.resources }
        ensures { IfOk result (λ modes. modes ≡ record { resources = numbers.value.resources; now = empty; marked = [] }) }
    {
        let mut rows = MarkedList::new(alloc);
        for _resource in 0..numbers.count() {
            rows.push(ModeRow::blank())?;
        }
        Ok(MarkedModes {
            numbers,
            rows,
            given: MarkedList::new(alloc),
        })
    }

    /// The mode that a session holds on a resource.
    pub fn mode_of(&self, session: u8, number: ResourceNumber) -> Option<Mode>
        requires session { session < MAX_HOLDERS }
        requires number { HasNumber self.now.resources number }
        ensures { result ≡ get self.now.now (session, resource_of self.now.resources number) }
    {
        self.rows.get(number.place()).mode_of(session)
    }

    /// Whether a mode is compatible with what every other session holds on a resource.
    #[inline(always)]
    pub fn fits(&self, session: u8, number: ResourceNumber, mode: Mode) -> bool
        requires { HasNumber self.now.resources number }
        ensures { IsTrue result ↔ Fits (look_at self.now.now) session (resource_of self.now.resources number) mode }
    {
        self.rows.get(number.place()).fits(session, mode)
    }

    /// Gives a session a mode on a resource, in the place of the one that it has there. Without memory everything is held as it was.
    #[inline(always)]
    pub fn give(
        &mut self,
        session: u8,
        number: ResourceNumber,
        mode: Mode,
    ) -> Result<(), AllocError>
        requires session { session < MAX_HOLDERS }
        requires number { HasNumber self.old.resources number }
        ensures given { OnOk result (self.new ≡ record self.old { now = insert self.old.now (session, resource_of self.old.resources number) mode }) }
        ensures kept { OnErr result (self.new ≡ self.old) }
    {
        let place = number.place();
        let row = self.rows.get(place).with(session, Some(mode));
        self.given.push(Given { session, place })?;
        self.rows.set(place, row)
    }

    /// Takes everything away from a session. Where memory runs out some of it is, and nothing from others.
    pub fn let_go(&mut self, session: u8) -> Result<(), AllocError>
        requires { session < MAX_HOLDERS }
        ensures gone { OnOk result (self.new ≡ record self.old { now = keep (λ (h : Holding). not (h.0 == session)) self.old.now }) }
        ensures refused { OnErr result (TakesSome session self.old.now self.new.now) }
        ensures resources { self.new.resources ≡ self.old.resources }
        ensures marked { self.new.marked ≡ self.old.marked }
    {
        clear(&mut self.rows, self.given.as_slice(), session)?;
        forget(&mut self.given, session);
        Ok(())
    }

    /// Sets a mark. Without memory everything stays as it was.
    pub fn mark(&mut self) -> Result<(), AllocError>
        ensures marked { OnOk result (self.new ≡ record self.old { marked = self.old.now ∷ self.old.marked }) }
        ensures kept { OnErr result (self.new ≡ self.old) }
    {
        self.rows.mark()?;
        match self.given.mark() {
            Ok(()) => Ok(()),
            Err(error) => {
                self.rows.go_back();
                Err(error)
            }
        }
    }

    /// Goes back to the newest mark, which is gone then. It takes no memory.
    pub fn go_back(&mut self)
        requires { 0 < length self.old.marked }
        ensures marked { self.old.marked ≡ self.new.now ∷ self.new.marked }
        ensures resources { self.new.resources ≡ self.old.resources }
    {
        self.rows.go_back();
        self.given.go_back();
    }
}
