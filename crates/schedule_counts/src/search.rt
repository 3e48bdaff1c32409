//! A search of the worlds of a spec.

ghost use Rattle.std.specs.Prelude.{◌≡◌, ◌∷◌, ◌++◌, [], false, true, length, slice_get, IfOk, OnOk, Some};
ghost use Rattle.world_graph.specs.Worlds.{IsOver};
ghost use Rattle.spec_schedules.specs.Schedules.{may_come};
ghost use Rattle.schedule_counts.specs.Searching.{HasShows, IsShownAt};
ghost use Rattle.spec_schedules.specs.Points.{Point, point_rules};

use crate::machine::world_number;
use crate::place::Place;
use binding_model::Table;
use different_shows::Different;
use marked_worlds::MarkedWorld;
use perm_ranks::MAX_SESSIONS;
use spec_schedules::Kind;
use std::alloc::Global;
use std::marker::Model;
use world_graph::{Explored, LETTERS, Refused};
use world_shows::shows_of;

/// A world that was noted.
#[derive(Clone, Copy)]
pub(crate) struct Noted {
    /// Its number among the machine's worlds.
    pub(crate) world: usize,
    /// For each session the number from which on its steps are still to be sent.
    pub(crate) next: [u8; MAX_SESSIONS],
    /// The number of what it shows, where no further step may come.
    pub(crate) shows: Option<u32>,
}

/// A machine of a spec, with what is still to be sent, the worlds that were noted, and what was shown.
#[derive(Drop)]
pub(crate) struct Search<'a> {
    pub(crate) alloc: Global,
    pub(crate) machine: MarkedWorld<'a>,
    /// The tables of the spec.
    pub(crate) tables: &'a [Table],
    pub(crate) kind: Kind,
    pub(crate) place: Place,
    /// The places at the marks, the oldest first.
    pub(crate) marks: Vec<Place>,
    pub(crate) noted: Vec<Noted>,
    pub(crate) shown: Different,
    /// The machine's worlds and what was shown may take so many bytes.
    pub(crate) room: usize,
}

impl<'a> Model for Search<'a> {
    ghost use Rattle.std.specs.Coded.{codes};
    ghost use Rattle.finite_maps.specs.Codes.{map_code};
    ghost use Rattle.lock_modes.specs.contracts.value.Value as value;
    ghost use Rattle.lock_modes.specs.contracts.resource.Resource as resource;
    ghost use Rattle.lock_queues.specs.contracts.wait.Wait as waiting;
    ghost use Rattle.bound_statements.specs.contracts.statement.Bound as bound;
    ghost use Rattle.events.specs.contracts.event.Event as event;
    ghost use Rattle.spec_schedules.specs.contracts.kind.Kind as kinds;
    ghost use Rattle.binding_model.specs.contracts.tables.Table as table;
    ghost use Rattle.order_classes.specs.contracts.shows.Shows as shows;
    ghost use Rattle.schedule_counts.specs.Searching.{Searched, searched, IsKept};

    ghost Value = { Searched };

    ghost coded = { Prim.hlevel (codes, map_code, value.the_row.coded, bound.the_row.coded, resource.the_row.coded, waiting.the_row.coded, event.the_row.coded, kinds.the_row.coded, table.the_row.coded, shows.the_row.coded) };

    ghost view = { λ s. searched s.machine s.tables.now s.kind s.place s.marks.items s.noted.items s.shown };

    ghost invariant = { λ s. IsKept s.machine s.tables.now s.kind s.place s.marks.items s.noted.items s.shown };
}

impl Explored for Search<'_> {
    ghost use Rattle.std.specs.Prelude.{List};
    ghost use Rattle.binding_model.specs.declared.tables.Table.{Table};
    ghost use Rattle.spec_schedules.specs.Points.{Point, point_rules};

    ghost World = { Point };

    ghost rules = { point_rules };

    ghost world = { λ s. s.point };

    ghost marked = { λ s. s.marked };

    ghost seen = { λ s. s.seen };

    ghost Fixed = { List Table };

    ghost fixed = { λ s. s.tables };

    ghost is_whole = { λ s. s.spent ≡ false };

    fn enabled(&self, letter: u8) -> bool {
        self.place.has(self.machine.spec(), letter) && self.may_come(letter)
    }

    fn offset(&self, letter: u8) -> u64 {
        self.place.offset(letter)
    }

    fn step(&mut self, letter: u8) -> Result<(), Refused> {
        let spec = self.machine.spec();
        let Some(step) = self.place.take(spec, letter) else {
            return Err(Refused);
        };
        match self.machine.send(step) {
            Ok(()) => Ok(()),
            Err(_) => Err(Refused),
        }
    }

    fn mark(&mut self) -> Result<(), Refused> {
        match self.machine.mark() {
            Ok(()) => {}
            Err(_) => return Err(Refused),
        }
        match self.marks.push(self.place.copy()) {
            Ok(()) => Ok(()),
            Err(_) => Err(Refused),
        }
    }

    fn go_back(&mut self) {
        self.machine.go_back();
        if let Some(place) = self.marks.pop() {
            self.place = place;
        }
    }

    fn number(&mut self) -> Result<u32, Refused> {
        let world = self.world_number()?;
        if self.is_noted(world) {
            return short(world);
        }
        let shows = self.shows()?;
        self.note(world, shows)
    }
}

impl Search<'_> {
    /// Whether a step of the session may come.
    fn may_come(&self, session: u8) -> bool
        requires { self.now.spent ≡ false }
        ensures { result ≡ may_come self.now.point.kind self.now.point.world session }
    {
        match self.kind {
            Kind::Schedules => !self.machine.waits(session),
            Kind::Permutations => true,
        }
    }

    /// Whether no further step may come.
    fn is_over(&self) -> bool
        requires { self.now.spent ≡ false }
        ensures { result ≡ false → IsOver point_rules self.now.point → ⊥ }
    {
        for letter in 0..LETTERS {
            if self.enabled(letter) {
                return false;
            }
        }
        true
    }

    /// The number of the world now among the machine's.
    fn world_number(&mut self) -> Result<usize, Refused>
        ensures known { IfOk result (λ number. slice_get self.new.worlds number ≡ Some self.old.point.world) }
        ensures whole { OnOk result (self.old.spent ≡ false) }
        ensures same { self.new ≡ record self.old { worlds = self.new.worlds } }
    {
        let room = self.room_for_worlds();
        world_number(&mut self.machine, room)
    }

    /// Whether the point now was noted under this number, which is that of its world.
    fn is_noted(&self, world: usize) -> bool
        requires { slice_get self.now.worlds world ≡ Some self.now.point.world }
        ensures { result ≡ true → slice_get self.now.seen world ≡ Some self.now.point }
    {
        match self.noted.get(world) {
            Some(noted) => noted.world == world && noted.next == self.place.next,
            None => false,
        }
    }

    /// The number of what the world now shows, where no further step may come.
    fn shows(&mut self) -> Result<Option<u32>, Refused>
        requires { self.old.spent ≡ false }
        ensures shown { IfOk result (IsShownAt self.new) }
        ensures same { self.new ≡ record self.old { shown = self.new.shown } }
    {
        if !self.is_over() {
            return Ok(None);
        }
        let Ok(shows) = shows_of(self.alloc, &mut self.machine, self.tables) else {
            return Err(Refused);
        };
        match self.shown.number(&shows) {
            Ok(number) => Ok(Some(number)),
            Err(_) => Err(Refused),
        }
    }

    /// Notes the point now, and answers its number.
    fn note(&mut self, world: usize, shows: Option<u32>) -> Result<u32, Refused>
        requires known { slice_get self.old.worlds world ≡ Some self.old.point.world }
        requires shows { IsShownAt self.old shows }
        ensures number { IfOk result (λ number. number ≡ length self.old.seen) }
        ensures noted { OnOk result (self.new ≡ record self.old { seen = self.old.seen ++ self.old.point ∷ [] }) }
    {
        let number = short(self.noted.len())?;
        let noted = Noted {
            world,
            next: self.place.next,
            shows,
        };
        match self.noted.push(noted) {
            Ok(()) => Ok(number),
            Err(_) => Err(Refused),
        }
    }

    /// The number of what a point shows that was noted, where no further step may come.
    pub(crate) fn shows_at(&self, number: usize) -> Option<u32>
        ensures { (p : Point) → slice_get self.now.seen number ≡ Some p → IsOver point_rules p → HasShows self.now.tables self.now.shown p result }
    {
        self.noted.get(number)?.shows
    }

    /// How many points were noted.
    pub(crate) fn noted(&self) -> u64 {
        self.noted.len() as u64
    }

    /// Whether the worlds that were noted take the room that what was shown leaves them.
    pub(crate) fn is_full(&self) -> bool {
        self.machine.noted_bytes() >= self.room_for_worlds()
    }

    /// So many bytes are left for the machine's worlds by what was shown.
    fn room_for_worlds(&self) -> usize {
        self.room.saturating_sub(self.shown.bytes())
    }
}

fn short(number: usize) -> Result<u32, Refused>
    ensures { IfOk result (λ short. short ≡ number) }
{
    match u32::try_from(number) {
        Ok(short) => Ok(short),
        Err(_) => Err(Refused),
    }
}
