//! What a step changes, and the calls that change it.

ghost use Rattle.std.specs.Prelude.{◌≡◌, ◌<◌, ℕ, false, length, IfOk, MatchOption, OnOk};
ghost use Rattle.std.specs.List.{list_any};
ghost use Rattle.lock_queues.specs.Locks.{Spot, waits_now};
ghost use Rattle.lock_queues.specs.Rules.{IsNext, IsNextOf, NothingRipe};
ghost use Rattle.lock_queues.specs.Sound.{IsSound};
ghost use Rattle.row_tables.specs.Layers.{sight};
ghost use Rattle.bound_statements.specs.Plan.{HasKeys, IsShort};
ghost use Rattle.bound_statements.specs.declared.statement.Bound.{Bound as Statement};
ghost use Rattle.statement_evaluation.specs.Effect.{effect};
ghost use Rattle.statement_execution.specs.Run.{MayLook, fault_of};
ghost use Rattle.machine_model.specs.Start.{is_failure};
ghost use Rattle.session_steps.specs.Going.{AsksOne, told};
ghost use Rattle.session_steps.specs.Acting as act;
ghost use Rattle.session_steps.specs.Stage.{Staged, member_at, others, standing_at, with_rest};
ghost use Rattle.session_steps.specs.declared.point.Origin.{Origin as From};

use crate::point::{Origin, Rest};
use bound_statements::Bound;
use events::{Event, Fault};
use machine_model::{Reply, Status};
use std::alloc::{AllocError, Global};

/// The rows, the locks and the sessions of a world, with the calls of which a session's step is made.
///
/// Sessions are numbered from 0 on. A call that answers by a `Result` fails for want of memory alone. After such a failure these contracts tell only
/// that the past is as it was; what else is left, each stage says.
pub trait Stage: Drop {
    // the rows, the locks and the sessions, as the definitions have them
    ghost staged: { Self → Staged };

    // what no call changes, whatever comes of it
    ghost Past: { Type 0 };

    ghost past: { Self → Past };

    // how many sessions there are
    ghost count: { Past → ℕ };

    // a stage with this past can ask for the locks of this statement, which stands at this place of what is sent
    ghost knows: { Past → From → ℕ → Statement → Type 0 };

    /// Whether the session waits.
    fn waits(&self, session: u8) -> bool
        ensures { result ≡ waits_now (staged self.now).locks.waits session };

    /// The session whose wait is ripe and came first, if any is.
    fn next_grant(&self) -> Option<u8>
        ensures { MatchOption result (NothingRipe (staged self.now).locks) (IsNextOf (staged self.now).locks) };

    /// Changes nothing: its contract tells that the lock table is sound, which it is also after want of memory.
    fn sound(&self)
        ensures { IsSound (staged self.now).locks };

    /// Where the session stands with its transaction block.
    fn status(&self, session: u8) -> Status
        requires { session < count (past self.now) }
        ensures { result ≡ (member_at (staged self.now) session).state.status };

    /// What is left of the session's step while it waits.
    fn rest(&self, session: u8) -> Option<Rest>
        requires { session < count (past self.now) }
        ensures { result ≡ (member_at (staged self.now) session).rest };

    /// Whether the session was told of a fault.
    fn has_failed(&self, session: u8) -> Result<bool, AllocError>
        requires { session < count (past self.now) }
        ensures { IfOk result (λ failed. failed ≡ list_any is_failure (member_at (staged self.now) session).state.transcript) };

    /// Asks for the request with a number, from 0 on, of a statement's lock plan; none where the plan has no such request. The statement is that with
    /// this place, from 0 on, among those of the setup or the step that it is of.
    fn ask(
        &mut self,
        session: u8,
        statement: &Bound,
        origin: Origin,
        place: usize,
        number: u8,
    ) -> Result<Option<Reply>, AllocError>
        requires keys { HasKeys statement.now }
        requires short { IsShort statement.now }
        requires known { knows (past self.old) origin place statement.now }
        requires inside { session < count (past self.old) }
        requires idle { waits_now (staged self.old).locks.waits session ≡ false }
        ensures asked { IfOk result (AsksOne session (staged self.old).locks statement.now number (staged self.new).locks) }
        ensures locks { OnOk result (standing_at session (staged self.new) ≡ act.locked (standing_at session (staged self.old)) (staged self.new).locks) }
        ensures others { OnOk result (others session (staged self.new) ≡ others session (staged self.old)) }
        ensures past { past self.new ≡ past self.old };

    /// Does a statement whose effect is on rows: its whole effect on the rows that the session sees, or none where it fails. Where others have written only a
    /// select may look, which shows what is committed. Tells of it; where it fails, the fault is the answer and nothing is told.
    fn run(
        &mut self,
        alloc: Global,
        session: u8,
        statement: &Bound,
    ) -> Result<Option<Fault>, AllocError>
        requires alone { MayLook session statement.now (staged self.old).store }
        requires inside { session < count (past self.old) }
        ensures fault { IfOk result (λ fault. fault ≡ fault_of (effect statement.now (sight session (staged self.old).store))) }
        ensures ran { OnOk result (standing_at session (staged self.new) ≡ act.ran session statement.now (standing_at session (staged self.old))) }
        ensures others { OnOk result (others session (staged self.new) ≡ others session (staged self.old)) }
        ensures past { past self.new ≡ past self.old };

    /// Drops what the session wrote in its transaction.
    fn undo(&mut self, session: u8) -> Result<(), AllocError>
        ensures undone { OnOk result (standing_at session (staged self.new) ≡ act.undone session (standing_at session (staged self.old))) }
        ensures others { OnOk result (others session (staged self.new) ≡ others session (staged self.old)) }
        ensures past { past self.new ≡ past self.old };

    /// Makes what the session wrote in its transaction committed.
    fn keep(&mut self, session: u8) -> Result<(), AllocError>
        ensures kept { OnOk result (standing_at session (staged self.new) ≡ act.kept session (standing_at session (staged self.old))) }
        ensures others { OnOk result (others session (staged self.new) ≡ others session (staged self.old)) }
        ensures past { past self.new ≡ past self.old };

    /// Takes all modes from the session, and its wait if it has one.
    fn let_go(&mut self, session: u8) -> Result<(), AllocError>
        requires { session < count (past self.old) }
        ensures gone { OnOk result (standing_at session (staged self.new) ≡ act.let_go session (standing_at session (staged self.old))) }
        ensures others { OnOk result (others session (staged self.new) ≡ others session (staged self.old)) }
        ensures past { past self.new ≡ past self.old };

    /// Gives the session of `next_grant` the mode that it waits for, and takes its wait from the list.
    fn grant(&mut self, session: u8) -> Result<(), AllocError>
        requires { IsNextOf (staged self.old).locks session }
        ensures granted { OnOk result ((s : Spot) → IsNext (staged self.old).locks s
            → standing_at session (staged self.new) ≡ act.granted s (standing_at session (staged self.old))) }
        ensures others { OnOk result (others session (staged self.new) ≡ others session (staged self.old)) }
        ensures past { past self.new ≡ past self.old };

    /// Tells the session of an event.
    fn tell(&mut self, session: u8, event: Event) -> Result<(), AllocError>
        requires { session < count (past self.old) }
        ensures told { OnOk result (standing_at session (staged self.new) ≡ told (standing_at session (staged self.old)) event) }
        ensures others { OnOk result (others session (staged self.new) ≡ others session (staged self.old)) }
        ensures past { past self.new ≡ past self.old };

    /// Forgets what the session was told.
    fn forget(&mut self, session: u8) -> Result<(), AllocError>
        requires { session < count (past self.old) }
        ensures forgot { OnOk result (standing_at session (staged self.new) ≡ act.forgot (standing_at session (staged self.old))) }
        ensures others { OnOk result (others session (staged self.new) ≡ others session (staged self.old)) }
        ensures past { past self.new ≡ past self.old };

    /// Notes where the session stands with its transaction block.
    fn set_status(&mut self, session: u8, status: Status) -> Result<(), AllocError>
        requires { session < count (past self.old) }
        ensures stands { OnOk result (standing_at session (staged self.new) ≡ act.stands (standing_at session (staged self.old)) status) }
        ensures others { OnOk result (others session (staged self.new) ≡ others session (staged self.old)) }
        ensures past { past self.new ≡ past self.old };

    /// Notes what is left of the session's step.
    fn set_rest(&mut self, session: u8, rest: Option<Rest>) -> Result<(), AllocError>
        requires { session < count (past self.old) }
        ensures left { OnOk result (staged self.new ≡ with_rest session rest (staged self.old)) }
        ensures past { past self.new ≡ past self.old };

    ghost counts: { (x : Self) → length (staged x).members ≡ count (past x) };
}
