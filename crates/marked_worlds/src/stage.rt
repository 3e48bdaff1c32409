//! The rows, the locks and the sessions of a world, now and at marks.

ghost use mathlib.Core.List.{IsPrefix};
ghost use Rattle.std.specs.Prelude.{◌≡◌, ◌≤◌, ◌<◌, ◌↔◌, ◌==◌, ◌∷◌, [], length, refl, slice_get, take, IfOk, IfSome, IsTrue, OnErr, OnOk, Some};
ghost use Rattle.std.specs.List.{find};
ghost use Rattle.std.specs.Option.{option_map};
ghost use Rattle.std.specs.List.Sorted.{IsStrictlySortedBy};
ghost use Rattle.lock_modes.specs.Resource.{resource_cmp};
ghost use Rattle.lock_queues.specs.declared.wait.Wait.{Wait};
ghost use Rattle.lock_queues.specs.LockTable.{Fits, look_in};
ghost use Rattle.row_tables.specs.Layers.{rows_of};
ghost use Rattle.numbered_specs.specs.Numbers.{HasNumber, resource_of};
ghost use Rattle.session_steps.specs.Stage.{IsBlank, transcripts_of};
ghost use Rattle.marked_worlds.specs.Stages as spec;

use crate::asking::{ask_one, request_at};
use crate::members::MarkedMembers;
use crate::seen_stages::{SeenStage, SeenTable};
use bound_statements::Bound;
use events::{Event, Fault};
use lock_modes::Mode;
use machine_model::{Reply, Status};
use marked_locks::MarkedLocks;
use marked_modes::MAX_HOLDERS;
use marked_rows::{MarkedRows, RowsPicture, Scan};
use numbered_specs::{ResourceNumber, SpecNumbers};
use session_steps::{Origin, Rest, Stage};
use std::alloc::{AllocError, Global};
use std::marker::Model;
use std::sync::Arc;
use transcripts::Outcome;

/// `note` notes stages until they take so many bytes, with what walks remember beside them.
const MOST_SEEN: usize = 32 << 20;

/// `note` notes a stage with so many cells and resources when it comes first.
const SMALL_STAGE: usize = 112;

/// So many stages with the print of the one now are compared with it, so that many stages with one print don't cost the square of their number.
const MOST_COMPARED: usize = 64;

/// A picture of rows takes so many bytes for each place at which something was written: what lies there, with its key. The rows there are counted by
/// `MarkedRows::count_written`, each at the first picture behind the step that wrote it.
const PLACE_BYTES: usize = 80;

/// What is noted of a stage beside it takes so many for each resource on which a session holds something, in a list that has room for up to twice as many.
const HELD_BYTES: usize = 48;

/// So many for each session: how it stands, what it was told, and its wait.
const SESSION_BYTES: usize = 80;

/// And so many beside: the lists that have all that, with what allocations and lists that grow take, and the place in the index.
const STAGE_BYTES: usize = 640;

/// A walk remembers so many bytes for each session beside a stage that `note` has noted: to which stage its next step leads. A list that grows has room
/// for up to twice as much.
const EDGE_BYTES: usize = 24;

/// So many for each two sessions: whether their next steps are quiet.
const PAIR_BYTES: usize = 16;

/// And so many for the number of what the stage told.
const OUTCOME_BYTES: usize = 32;

/// The rows, the locks and the sessions of a world, with marks to go back to.
///
/// Contracts see the numbers of the spec, the stage now, the stages at the marks that stand, the newest first, the outcomes that were told, and the stages
/// that were noted. After want of memory the stage now is good for nothing but going back; what was at marks stays, and so do outcomes and what was noted.
#[derive(Drop)]
pub(crate) struct MarkedStage {
    alloc: Global,
    numbers: Arc<SpecNumbers>,
    rows: MarkedRows,
    locks: MarkedLocks,
    members: MarkedMembers,
    seen: SeenTable,
}

impl Model for MarkedStage {
    ghost use Rattle.std.specs.Coded.{codes};
    ghost use Rattle.finite_maps.specs.Codes.{map_code};
    ghost use Rattle.lock_modes.specs.contracts.value.Value as value;
    ghost use Rattle.lock_modes.specs.contracts.resource.Resource as resource;
    ghost use Rattle.lock_queues.specs.contracts.wait.Wait as waiting;
    ghost use Rattle.numbered_specs.specs.contracts.request.NumberedRequest as request;
    ghost use Rattle.events.specs.contracts.event.Event as event;
    ghost use Rattle.marked_worlds.specs.Stages.{IsKept, MarkedStages, marked_stages};

    ghost Value = { MarkedStages };

    ghost coded = { Prim.hlevel (codes, map_code, value.the_row.coded, resource.the_row.coded, waiting.the_row.coded, request.the_row.coded, event.the_row.coded) };

    ghost view = { λ s. marked_stages s.numbers.value s.rows s.locks s.members s.seen.stages.items };

    ghost invariant = { λ s. IsKept s.numbers.value s.rows s.locks s.members s.seen.stages.items };
}

impl MarkedStage {
    /// So many sessions that have done nothing, over no rows, and no mark.
    pub(crate) fn new(
        alloc: Global,
        numbers: Arc<SpecNumbers>,
        count: u8,
    ) -> Result<MarkedStage, AllocError>
        requires rise { IsStrictlySortedBy resource_cmp numbers.value.resources }
        requires few { count ≤ MAX_HOLDERS }
        ensures numbers { IfOk result (λ stage. stage.numbers ≡ numbers.value) }
        ensures blank { IfOk result (λ stage. IsBlank count stage.now) }
        ensures marked { IfOk result (λ stage. stage.marked ≡ []) }
        ensures told { IfOk result (λ stage. stage.told ≡ []) }
        ensures seen { IfOk result (λ stage. stage.seen ≡ []) }
    {
        let own = numbers.clone()?;
        let locks = MarkedLocks::new(alloc, own)?;
        let members = MarkedMembers::new(alloc, count)?;
        Ok(MarkedStage {
            alloc,
            numbers,
            rows: MarkedRows::new(alloc),
            locks,
            members,
            seen: SeenTable::new(alloc),
        })
    }

    /// The numbers of the spec.
    pub(crate) fn numbers(&self) -> &SpecNumbers
        ensures { result.now ≡ self.now.numbers }
    {
        &self.numbers
    }

    /// For which resource the session waits, if it waits.
    pub(crate) fn wait_at(&self, session: u8) -> Option<ResourceNumber>
        ensures known { IfSome result (HasNumber self.now.numbers.resources) }
        ensures wait { option_map (resource_of self.now.numbers.resources) result
            ≡ option_map (λ (w : Wait). w.resource) (find (λ (w : Wait). w.session == session) self.now.now.locks.waits) }
    {
        match self.locks.wait_of(session) {
            None => None,
            Some((resource, _mode)) => Some(resource),
        }
    }

    /// The mode that the session holds on a resource, if it holds one there.
    pub(crate) fn holds(&self, session: u8, number: ResourceNumber) -> Option<Mode>
        requires session { session < length self.now.now.members }
        requires number { HasNumber self.now.numbers.resources number }
        ensures { result ≡ look_in self.now.now.locks session (resource_of self.now.numbers.resources number) }
    {
        self.locks.holds(session, number)
    }

    /// Whether the mode is compatible with what every other session holds on a resource.
    pub(crate) fn fits(&self, session: u8, number: ResourceNumber, mode: Mode) -> bool
        requires { HasNumber self.now.numbers.resources number }
        ensures { IsTrue result ↔ Fits (look_in self.now.now.locks) session (resource_of self.now.numbers.resources number) mode }
    {
        self.locks.fits(session, number, mode)
    }

    /// The committed rows of a table in the order of their keys.
    pub(crate) fn committed(&self, table: u16) -> Scan<'_>
        ensures { result ≡ rows_of table self.now.now.store.committed }
    {
        self.rows.committed(table)
    }

    /// The number of what the first so many sessions were told, among the outcomes that were told. It is made where they were not told so before.
    pub(crate) fn number(&mut self, count: u8) -> Result<usize, AllocError>
        requires { count ≤ length self.old.now.members }
        ensures outcome { IfOk result (λ number. slice_get self.new.told number ≡ Some (transcripts_of (take count self.old.now.members))) }
        ensures front { IsPrefix self.old.told self.new.told }
        ensures same { self.new ≡ record self.old { told = self.new.told } }
    {
        self.members.number(self.alloc, count)
    }

    /// The outcome with a number.
    pub(crate) fn outcome(&self, number: usize) -> &Outcome
        requires { number < length self.now.told }
        ensures { slice_get self.now.told number ≡ Some result.now }
    {
        self.members.outcome(number)
    }

    /// The number of the stage now, with so many sessions, among those that were noted. It is noted behind all others where it was not found; none where
    /// it is passed over, since much was noted or it is large. That a stage that was noted is found is not promised, so one may have two numbers.
    pub(crate) fn note(&mut self, count: u8) -> Result<Option<usize>, AllocError>
        requires { count ≡ length self.old.now.members }
        ensures known { IfOk result (λ answer. IfSome answer (λ number. slice_get self.new.seen number ≡ Some self.old.now)) }
        ensures front { IsPrefix self.old.seen self.new.seen }
        ensures same { self.new ≡ record self.old { seen = self.new.seen } }
    {
        let print = self.members.print(count);
        if let Some(number) = self.found(print, count) {
            return Ok(Some(number));
        }
        if self.seen.bytes >= MOST_SEEN {
            return Ok(None);
        }
        if self.is_large() && !self.seen.newest.contains_key(&print) {
            self.seen.newest.insert(print, None)?;
            return Ok(None);
        }
        let rows = self.pictured()?;
        Ok(Some(self.add(rows, print, count, walk_bytes(count))?))
    }

    /// As `note`, but for who remembers nothing beside stages: each stage is noted while all that is noted takes fewer bytes than there is room for. None
    /// where it is not found and the room is used up.
    pub(crate) fn note_within(
        &mut self,
        count: u8,
        room: usize,
    ) -> Result<Option<usize>, AllocError>
        requires { count ≡ length self.old.now.members }
        ensures known { IfOk result (λ answer. IfSome answer (λ number. slice_get self.new.seen number ≡ Some self.old.now)) }
        ensures front { IsPrefix self.old.seen self.new.seen }
        ensures same { self.new ≡ record self.old { seen = self.new.seen } }
    {
        let print = self.members.print(count);
        if let Some(number) = self.found(print, count) {
            return Ok(Some(number));
        }
        if self.seen.bytes >= room {
            return Ok(None);
        }
        let rows = self.pictured()?;
        Ok(Some(self.add(rows, print, count, 0)?))
    }

    /// How many bytes all that is noted of stages takes, or a few more, with what walks remember beside those that `note` noted.
    pub(crate) fn noted_bytes(&self) -> usize {
        self.seen.bytes
    }

    /// The picture of the rows now, which is shared with a stage that was noted where one has it. Else it is counted.
    fn pictured(&mut self) -> Result<RowsPicture, AllocError>
        ensures picture { IfOk result (λ picture. picture ≡ self.old.now.store) }
        ensures same { self.new ≡ self.old }
    {
        let print = self.rows.print();
        if let Some(known) = self.seen.picture_of(&self.rows, print)? {
            return Ok(known);
        }
        let picture = self.rows.picture(self.alloc)?;
        let places = self.rows.places().saturating_mul(PLACE_BYTES);
        let bytes = self.rows.count_written().saturating_add(places);
        self.seen.bytes = self.seen.bytes.saturating_add(bytes);
        self.seen.pictured.insert(print, self.seen.stages.len())?;
        Ok(picture)
    }

    /// Notes the stage now, with so many sessions, behind all others. The answer is its number. So many bytes are taken beside it.
    fn add(
        &mut self,
        rows: RowsPicture,
        print: u64,
        count: u8,
        beside: usize,
    ) -> Result<usize, AllocError>
        requires rows { rows ≡ self.old.now.store }
        requires count { count ≡ length self.old.now.members }
        ensures known { IfOk result (λ number. slice_get self.new.seen number ≡ Some self.old.now) }
        ensures front { IsPrefix self.old.seen self.new.seen }
        ensures same { self.new ≡ record self.old { seen = self.new.seen } }
    {
        let number = self.seen.stages.len();
        let earlier = self.seen.newest_with(print);
        let stage = SeenStage::of(
            self.alloc,
            rows,
            &self.locks,
            &mut self.members,
            count,
            earlier,
        )?;
        let bytes = stage_bytes(stage.locks.held(), count).saturating_add(beside);
        self.seen.stages.push(stage)?;
        self.seen.bytes = self.seen.bytes.saturating_add(bytes);
        self.seen.newest.insert(print, Some(number))?;
        Ok(number)
    }

    /// The number of the stage now among those that were noted, looked for by the number that is made of what its sessions were told.
    fn found(&self, print: u64, count: u8) -> Option<usize>
        requires { count ≡ length self.now.now.members }
        ensures { IfSome result (λ number. slice_get self.now.seen number ≡ Some self.now.now) }
    {
        let mut next = self.seen.newest_with(print);
        for _compared in 0..MOST_COMPARED {
            let number = next?;
            let seen = self.seen.stages.as_slice().get(number)?;
            if seen.is(&self.rows, &self.locks, &self.members, count) {
                return Some(number);
            }
            next = seen.earlier;
        }
        None
    }

    /// Whether the stage is noted only when it may have come a second time, since to take a picture of it goes through whole tables.
    fn is_large(&self) -> bool {
        self.rows.places().saturating_add(self.numbers.count()) > SMALL_STAGE
    }

    /// Sets a mark. Without memory everything stays as it was.
    pub(crate) fn mark(&mut self) -> Result<(), AllocError>
        ensures marked { OnOk result (self.new ≡ record self.old { marked = self.old.now ∷ self.old.marked }) }
        ensures kept { OnErr result (self.new ≡ self.old) }
    {
        self.rows.mark()?;
        if let Err(error) = self.locks.mark() {
            self.rows.go_back();
            return Err(error);
        }
        if let Err(error) = self.members.mark() {
            self.rows.go_back();
            self.locks.go_back();
            return Err(error);
        }
        Ok(())
    }

    /// Goes back to the newest mark, which is gone then. It takes no memory.
    pub(crate) fn go_back(&mut self)
        requires { 0 < length self.old.marked }
        ensures marked { self.old.marked ≡ self.new.now ∷ self.new.marked }
        ensures numbers { self.new.numbers ≡ self.old.numbers }
        ensures told { self.new.told ≡ self.old.told }
        ensures seen { self.new.seen ≡ self.old.seen }
    {
        self.rows.go_back();
        self.locks.go_back();
        self.members.go_back();
    }
}

impl Stage for MarkedStage {
    ghost staged = { λ s. s.now };

    ghost Past = { spec.Past };

    ghost past = { spec.past_of };

    ghost count = { λ p. p.count };

    ghost knows = { λ p. spec.IsKnown p.numbers };

    fn waits(&self, session: u8) -> bool {
        self.locks.waits(session)
    }

    fn next_grant(&self) -> Option<u8> {
        self.locks.next_grant()
    }

    fn sound(&self) {
        self.locks.known()
    }

    fn status(&self, session: u8) -> Status {
        self.members.status(session)
    }

    fn rest(&self, session: u8) -> Option<Rest> {
        self.members.rest(session)
    }

    fn has_failed(&self, session: u8) -> Result<bool, AllocError> {
        self.members.has_failed(self.alloc, session)
    }

    fn ask(
        &mut self,
        session: u8,
        statement: &Bound,
        origin: Origin,
        place: usize,
        number: u8,
    ) -> Result<Option<Reply>, AllocError> {
        let Some(request) = request_at(&self.numbers, statement, origin, place, number)? else {
            return Ok(None);
        };
        let reply = ask_one(&mut self.locks, session, statement, request)?;
        Ok(Some(reply))
    }

    fn run(
        &mut self,
        alloc: Global,
        session: u8,
        statement: &Bound,
    ) -> Result<Option<Fault>, AllocError> {
        self.members.run(alloc, statement, session, &mut self.rows)
    }

    fn undo(&mut self, session: u8) -> Result<(), AllocError> {
        self.rows.undo(session)
    }

    fn keep(&mut self, session: u8) -> Result<(), AllocError> {
        self.rows.keep(session)
    }

    fn let_go(&mut self, session: u8) -> Result<(), AllocError> {
        self.locks.let_go(session)
    }

    fn grant(&mut self, session: u8) -> Result<(), AllocError> {
        self.locks.grant(session)
    }

    fn tell(&mut self, session: u8, event: Event) -> Result<(), AllocError> {
        self.members.tell(session, event)
    }

    fn forget(&mut self, session: u8) -> Result<(), AllocError> {
        self.members.forget(session)
    }

    fn set_status(&mut self, session: u8, status: Status) -> Result<(), AllocError> {
        self.members.set_status(session, status)
    }

    fn set_rest(&mut self, session: u8, rest: Option<Rest>) -> Result<(), AllocError> {
        self.members.set_rest(session, rest)
    }

    ghost counts = { λ x. refl };
}

/// How many bytes what is noted of a stage takes beside the picture of its rows, with locks on so many resources and so many sessions.
fn stage_bytes(held: usize, count: u8) -> usize {
    let held = held.saturating_mul(HELD_BYTES);
    let sessions = (count as usize).saturating_mul(SESSION_BYTES);
    held.saturating_add(sessions).saturating_add(STAGE_BYTES)
}

/// How many bytes a walk takes for what it remembers beside a stage with so many sessions. The control session is one of these, and sends no step.
fn walk_bytes(count: u8) -> usize {
    let sessions = (count as usize).saturating_sub(1);
    let pairs = sessions.saturating_mul(sessions);
    sessions
        .saturating_mul(EDGE_BYTES)
        .saturating_add(pairs.saturating_mul(PAIR_BYTES))
        .saturating_add(OUTCOME_BYTES)
}
