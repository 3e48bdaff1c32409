//! A world that remembers.

ghost use mathlib.Core.List.{IsPrefix};
ghost use Rattle.std.specs.Prelude.{◌≡◌, ◌<◌, ◌↔◌, ◌∷◌, [], List, IfErr, IfOk, IfSome, IsErrOf, OnErr, OnOk, Some, false, length, reverse, slice_get, true};
ghost use Rattle.machine_model.specs.Outcome.{IsOutcomeOf};
ghost use Rattle.machine_model.specs.Start.{Started, start};
ghost use Rattle.machine_model.specs.World.{World, outcome_of, send};
ghost use Rattle.session_steps.specs.Refused.{IsRefusedBy};
ghost use Rattle.known_worlds.specs.Known.{is_quiet_in};
ghost use Rattle.known_worlds.specs.Remembered.{are_quiet, AreNoted, IsGraph, IsNoted};

use crate::graph::Graph;
use crate::late_world::LateWorld;
use bound_specs::Spec;
use session_steps::{SendError, StartError};
use std::alloc::{AllocError, Global};
use std::marker::Model;
use transcripts::Outcome;

/// A world over a spec, with marks to go back to, that remembers which step led from which world to which, and what was answered of each world. Where that
/// is known no machine runs.
///
/// Contracts see what they see of a `MarkedWorld`, and the calls that both have promise the same. What is remembered is not seen, nor which worlds were
/// noted; but whether the machine has made all that was asked (`level`).
pub struct KnownWorld<'a> {
    late: LateWorld<'a>,
    graph: Graph,
    /// For each mark that stands the number of its world, if it has one, the newest last.
    marks: Vec<Option<u32>>,
    /// The number of the world now, if it has one.
    at: Option<u32>,
    is_spent: bool,
}

// Written out and not derived, so that who owns one calls this and does not let its parts go one by one.
impl Drop for KnownWorld<'_> {
    fn drop(self) {
        let KnownWorld {
            late: _late,
            graph: _graph,
            marks: _marks,
            at: _,
            is_spent: _,
        } = self;
    }
}

impl<'a> Model for KnownWorld<'a> {
    ghost use Rattle.std.specs.Coded.{codes};
    ghost use Rattle.finite_maps.specs.Codes.{map_code};
    ghost use Rattle.lock_modes.specs.contracts.value.Value as value;
    ghost use Rattle.lock_modes.specs.contracts.resource.Resource as resource;
    ghost use Rattle.lock_queues.specs.contracts.wait.Wait as waiting;
    ghost use Rattle.bound_statements.specs.contracts.statement.Bound as bound;
    ghost use Rattle.numbered_specs.specs.contracts.request.NumberedRequest as request;
    ghost use Rattle.events.specs.contracts.event.Event as event;
    ghost use Rattle.known_worlds.specs.Known.{KnownRunning};
    ghost use Rattle.known_worlds.specs.Late.{shown};
    ghost use Rattle.known_worlds.specs.Remembered.{IsKnown};

    ghost Value = { KnownRunning };

    ghost coded = { Prim.hlevel (codes, map_code, value.the_row.coded, bound.the_row.coded, resource.the_row.coded, waiting.the_row.coded, request.the_row.coded, event.the_row.coded) };

    ghost view = { λ k. shown k.late k.is_spent };

    ghost invariant = { λ k. IsKnown k.late k.graph k.marks.items k.at };
}

impl<'a> KnownWorld<'a> {
    /// The world in which the spec starts, without a mark. No outcome was told of it.
    pub fn start(alloc: Global, spec: &'a Spec) -> Result<KnownWorld<'a>, StartError>
        ensures started { IfOk result (λ world. start spec.now.run ≡ Started world.world) }
        ensures of_spec { IfOk result (λ world. world.file ≡ spec.now) }
        ensures marked { IfOk result (λ world. world.marked ≡ []) }
        ensures told { IfOk result (λ world. world.told ≡ []) }
        ensures whole { IfOk result (λ world. world.spent ≡ false) }
        ensures refused { IfErr result (λ error. IsRefusedBy error (start spec.now.run)) }
    {
        let mut late = LateWorld::start(alloc, spec)?;
        let at = number_of(&mut late)?;
        Ok(KnownWorld {
            late,
            graph: Graph::new(alloc, spec),
            marks: Vec::new(alloc),
            at,
            is_spent: false,
        })
    }

    /// The spec that the world is of.
    pub fn spec(&self) -> &'a Spec
        ensures { result.now ≡ self.now.file }
    {
        self.late.spec()
    }
}

impl KnownWorld<'_> {
    /// Sends a step. A session that waits is not sent it, and is told so. Else its statements run in order, until the step ends, a request waits or a
    /// fault ends it; then the waits that are ripe are granted in turn, and their sessions go on. After want of memory the world is spent, and a spent
    /// one takes no step. Where it is known to which world the step leads none of this is done again.
    pub fn send(&mut self, step: u8) -> Result<(), SendError>
        requires { step < length self.old.file.run.steps }
        ensures sent { OnOk result (self.new.world ≡ send self.old.file.run.steps self.old.world step) }
        ensures whole { OnOk result (self.new.spent ≡ false) }
        ensures spent { IsErrOf result SendError.Spent ↔ (self.old.spent ≡ true) }
        ensures after { OnErr result (self.new.spent ≡ true) }
        ensures kept { IsErrOf result SendError.Spent → self.new ≡ self.old }
        ensures of_spec { self.new.file ≡ self.old.file }
        ensures numbers { self.new.numbers ≡ self.old.numbers }
        ensures marked { self.new.marked ≡ self.old.marked }
        ensures told { self.new.told ≡ self.old.told }
    {
        if self.is_spent {
            return Err(SendError::Spent);
        }
        match step_on(&mut self.late, &mut self.graph, self.at, step) {
            Ok(at) => {
                self.at = at;
                Ok(())
            }
            Err(_) => {
                self.at = None;
                self.is_spent = true;
                Err(SendError::NoMemory)
            }
        }
    }

    /// Sets a mark, to which the world can go back; a spent one sets none. Where it is refused everything stays as it was.
    pub fn mark(&mut self) -> Result<(), SendError>
        ensures marked { OnOk result (self.new ≡ record self.old { marked = self.old.world ∷ self.old.marked; level = false }) }
        ensures spent { IsErrOf result SendError.Spent ↔ (self.old.spent ≡ true) }
        ensures kept { OnErr result (self.new ≡ self.old) }
    {
        if self.is_spent {
            return Err(SendError::Spent);
        }
        self.marks.reserve(1)?;
        self.late.mark()?;
        self.marks.push_reserved(self.at);
        Ok(())
    }

    /// Goes back to the newest mark, which is gone then. The world is not spent then, whatever it was. It takes no memory.
    pub fn go_back(&mut self)
        requires { 0 < length self.old.marked }
        ensures marked { self.old.marked ≡ self.new.world ∷ self.new.marked }
        ensures whole { self.new.spent ≡ false }
        ensures of_spec { self.new.file ≡ self.old.file }
        ensures numbers { self.new.numbers ≡ self.old.numbers }
        ensures told { self.new.told ≡ self.old.told }
    {
        self.late.go_back();
        self.at = newest(&mut self.marks);
        self.is_spent = false;
    }

    /// Tells the transcripts so far, one for each session: the answer is their number among the outcomes that were told. They are copied where the sessions
    /// were not told the same before, also on the way to other worlds. A spent world tells of none.
    pub fn outcome(&mut self) -> Result<usize, SendError>
        ensures told { IfOk result (λ number. slice_get self.new.told number ≡ Some (outcome_of self.old.file.run.sessions self.old.world)) }
        ensures own { IfOk result (λ number. IfSome (slice_get self.new.told number) (IsOutcomeOf self.old.file.run)) }
        ensures spent { IsErrOf result SendError.Spent ↔ (self.old.spent ≡ true) }
        ensures front { IsPrefix self.old.told self.new.told }
        ensures same { self.new ≡ record self.old { told = self.new.told; level = self.new.level } }
    {
        if self.is_spent {
            return Err(SendError::Spent);
        }
        Ok(outcome_in(&mut self.late, &mut self.graph, self.at)?)
    }

    /// The outcome that was told with a number.
    pub fn told(&self, number: usize) -> &Outcome
        requires { number < length self.now.told }
        ensures { slice_get self.now.told number ≡ Some result.now }
    {
        self.late.told(number)
    }

    /// Whether two steps of different sessions are quiet in the world now, as `marked_quiet` has it. In a spent world nothing is quiet.
    pub fn is_quiet(&mut self, step: u8, other: u8) -> Result<bool, AllocError>
        requires step { step < length self.old.file.run.steps }
        requires other { other < length self.old.file.run.steps }
        ensures answer { IfOk result (λ yes. yes ≡ is_quiet_in self.old step other) }
        ensures same { self.new ≡ record self.old { level = self.new.level } }
    {
        if self.is_spent {
            return Ok(false);
        }
        quiet_in(&mut self.late, &mut self.graph, self.at, step, other)
    }
}

/// Takes the newest mark away, and answers the number of its world.
fn newest(marks: &mut Vec<Option<u32>>) -> Option<u32>
    ensures { (seen : List World) (w : World) (ws : List World) → AreNoted seen (reverse marks.old.items) (w ∷ ws)
        → IsNoted seen result w × AreNoted seen (reverse marks.new.items) ws }
{
    match marks.pop() {
        Some(at) => at,
        None => None,
    }
}

/// The number of the world, if it has one that is small enough to be kept.
fn number_of(late: &mut LateWorld<'_>) -> Result<Option<u32>, AllocError>
    ensures known { IfOk result (λ at. IsNoted late.new.seen at late.old.world) }
    ensures front { IsPrefix late.old.seen late.new.seen }
    ensures same { late.new ≡ record late.old { seen = late.new.seen; level = late.new.level } }
{
    Ok(small(late.number()?))
}

fn small(number: Option<usize>) -> Option<u32>
    ensures { IfSome result (λ n. number ≡ Some n) }
{
    match number {
        Some(number) if number <= u32::MAX as usize => Some(number as u32),
        _ => None,
    }
}

/// Sends a step, and answers the number of the world behind it. The machine runs if that is not known.
fn step_on(
    late: &mut LateWorld<'_>,
    graph: &mut Graph,
    at: Option<u32>,
    step: u8,
) -> Result<Option<u32>, AllocError>
    requires step { step < length late.old.file.run.steps }
    requires noted { IsNoted late.old.seen at late.old.world }
    requires graph { IsGraph late.old graph.old }
    ensures sent { OnOk result (late.new.world ≡ send late.old.file.run.steps late.old.world step) }
    ensures noted { IfOk result (λ to. IsNoted late.new.seen to late.new.world) }
    ensures graph { IsGraph late.new graph.new }
    ensures front { IsPrefix late.old.seen late.new.seen }
    ensures same { late.new ≡ record late.old { world = late.new.world; seen = late.new.seen; level = late.new.level } }
{
    let session = late.spec().session_of(step);
    let known = graph.next(at, session, step);
    late.send(step)?;
    match known {
        Some(to) => Ok(Some(to)),
        None => {
            let to = number_of(late)?;
            graph.note_next(at, session, step, to);
            Ok(to)
        }
    }
}

/// Tells the outcome. The machine runs if its number is not known.
fn outcome_in(
    late: &mut LateWorld<'_>,
    graph: &mut Graph,
    at: Option<u32>,
) -> Result<usize, AllocError>
    requires noted { IsNoted late.old.seen at late.old.world }
    requires graph { IsGraph late.old graph.old }
    ensures told { IfOk result (λ number. slice_get late.new.told number ≡ Some (outcome_of late.old.file.run.sessions late.old.world)) }
    ensures own { IfOk result (λ number. IfSome (slice_get late.new.told number) (IsOutcomeOf late.old.file.run)) }
    ensures graph { IsGraph late.new graph.new }
    ensures front { IsPrefix late.old.told late.new.told }
    ensures same { late.new ≡ record late.old { told = late.new.told; level = late.new.level } }
{
    if let Some(number) = graph.outcome(at) {
        return Ok(number);
    }
    let number = late.outcome()?;
    graph.note_outcome(at, number);
    Ok(number)
}

/// Whether two steps are quiet. The machine runs if that is not known.
fn quiet_in(
    late: &mut LateWorld<'_>,
    graph: &mut Graph,
    at: Option<u32>,
    step: u8,
    other: u8,
) -> Result<bool, AllocError>
    requires step { step < length late.old.file.run.steps }
    requires other { other < length late.old.file.run.steps }
    requires noted { IsNoted late.old.seen at late.old.world }
    requires graph { IsGraph late.old graph.old }
    ensures answer { IfOk result (λ yes. yes ≡ are_quiet late.old late.old.world step other) }
    ensures graph { IsGraph late.new graph.new }
    ensures same { late.new ≡ record late.old { level = late.new.level } }
{
    let spec = late.spec();
    let cell = graph.cell(spec.session_of(step), spec.session_of(other));
    if let Some(yes) = graph.quiet(at, cell, step, other) {
        return Ok(yes);
    }
    let yes = late.is_quiet(step, other)?;
    graph.note_quiet(at, cell, step, other, yes);
    Ok(yes)
}
