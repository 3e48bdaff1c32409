//! What serial orders answer. They are not run one by one: behind the same sessions, in whatever order, the machine is mostly in the same state, and what is left
//! is run from there once.

ghost use Rattle.std.specs.Prelude.{◌≡◌, ◌≢◌, ◌≤◌, ℕ, [], false, length, replicate, IfOk, IsErrOf, OnOk};
ghost use Rattle.perm_ranks.specs.declared.TheConstants.{MAX_SESSIONS};
ghost use Rattle.machine_model.specs.Start.{start};
ghost use Rattle.session_steps.specs.Refused.{IsRefusedBy};
ghost use Rattle.session_steps.specs.declared.error.StartError.{StartError};
ghost use Rattle.schedule_counts.specs.declared.counting.StatesError.TheVariants.{Start, TooMany};
ghost use Rattle.spec_classes.specs.Classes.{AreSerialAnswers};
ghost use Rattle.spec_classes.specs.Serial.{AreOnce, IsAnswerBehind, IsAnswerFrom, IsAnswerIn, IsReady, IsRun, whole};
ghost use Rattle.spec_classes.specs.Showing.{IsAtStart};

use crate::answered::{Answered, Left};
use crate::showing::within;
use crate::start::started;
use binding_model::Table;
use bound_specs::Spec;
use different_shows::Different;
use marked_worlds::MarkedWorld;
use order_classes::{answers_of, session_orders_are_all};
use perm_ranks::MAX_SESSIONS;
use schedule_counts::StatesError;
use session_steps::SendError;
use std::alloc::Global;
use world_shows::shows_of;

/// What the orders answer that run the sessions one behind the other, each whole: each answer once. It is asked of a spec without permutation lines.
/// At most `room` bytes are taken by the different states that are noted, and by the answers.
pub fn serial_answers(
    alloc: Global,
    spec: &Spec,
    tables: &[Table],
    room: usize,
) -> Result<Different, StatesError>
    requires { spec.now.run.lines ≡ [] }
    ensures answers { IfOk result (AreSerialAnswers tables.now spec.now.run) }
    ensures refused { (error : StartError) → IsErrOf result (StatesError.Start error) → IsRefusedBy error (start spec.now.run) }
    ensures few { (noted : ℕ) → IsErrOf result (TooMany noted) → ⊥ }
{
    let mut world = started(alloc, spec)?;
    match all_answers(alloc, &mut world, spec, tables, room) {
        Ok(answers) => Ok(answers),
        Err(_) => Err(StatesError::Memory),
    }
}

/// What they answer. The machine is at the start of the spec.
fn all_answers(
    alloc: Global,
    world: &mut MarkedWorld<'_>,
    spec: &Spec,
    tables: &[Table],
    room: usize,
) -> Result<Different, SendError>
    requires { IsAtStart spec.now world.old }
    ensures { IfOk result (AreSerialAnswers tables.now spec.now.run) }
{
    session_orders_are_all();
    let mut answered = Answered::new(alloc);
    let left = once(spec.sessions());
    add_orders(alloc, world, tables, room, left, &mut answered)?;
    Ok(answered.answers)
}

/// Each of so many sessions once.
fn once(sessions: u8) -> Left
    requires { sessions ≤ MAX_SESSIONS }
    ensures long { length result ≡ MAX_SESSIONS }
    ensures once { AreOnce sessions result }
{
    let mut left = [0; MAX_SESSIONS];
    for session in 0..sessions {
        left[session as usize] = 1;
    }
    left
}

/// Adds what the orders of the sessions that are left answer, run from the world now. The world comes back to where it is.
#[cycle(orders)]
fn add_orders(
    alloc: Global,
    world: &mut MarkedWorld<'_>,
    tables: &[Table],
    room: usize,
    left: Left,
    answered: &mut Answered,
) -> Result<(), SendError>
    requires long { length left ≡ MAX_SESSIONS }
    requires ready { IsReady tables.now world.old answered.old }
    ensures { OnOk result (IsRun tables.now (IsAnswerFrom tables.now left) world.old answered.old world.new answered.new) }
{
    let none = [0; MAX_SESSIONS];
    if left == none {
        add_answer(alloc, world, tables, room, answered)?;
        return Ok(());
    }
    let number = world.number_within(room.saturating_sub(answered.answers.bytes()))?;
    if answered.has(number, left) {
        return Ok(());
    }
    add_each(alloc, world, tables, room, left, answered)?;
    answered.note(number, left);
    Ok(())
}

/// The same, where some session is left: what the orders answer that begin with the first of them, with the next one, and so on.
#[cycle(orders)]
fn add_each(
    alloc: Global,
    world: &mut MarkedWorld<'_>,
    tables: &[Table],
    room: usize,
    left: Left,
    answered: &mut Answered,
) -> Result<(), SendError>
    requires long { length left ≡ MAX_SESSIONS }
    requires some { left ≢ replicate MAX_SESSIONS 0 }
    requires ready { IsReady tables.now world.old answered.old }
    ensures { OnOk result (IsRun tables.now (IsAnswerFrom tables.now left) world.old answered.old world.new answered.new) }
{
    for session in 0..MAX_SESSIONS {
        if left[session] > 0 {
            let mut rest = left;
            rest[session] -= 1;
            add_behind(alloc, world, tables, room, session as u8, rest, answered)?;
        }
    }
    Ok(())
}

/// Adds what the orders answer that begin with this session, and have those that are left behind it.
#[cycle(orders)]
fn add_behind(
    alloc: Global,
    world: &mut MarkedWorld<'_>,
    tables: &[Table],
    room: usize,
    session: u8,
    left: Left,
    answered: &mut Answered,
) -> Result<(), SendError>
    requires long { length left ≡ MAX_SESSIONS }
    requires ready { IsReady tables.now world.old answered.old }
    ensures { OnOk result (IsRun tables.now (IsAnswerBehind tables.now session left) world.old answered.old world.new answered.new) }
{
    world.mark()?;
    send_session(world, session)?;
    add_orders(alloc, world, tables, room, left, answered)?;
    world.go_back();
    Ok(())
}

/// Sends all steps of a session, one behind the other.
fn send_session(world: &mut MarkedWorld<'_>, session: u8) -> Result<(), SendError>
    requires whole { world.old.spent ≡ false }
    ensures sent { OnOk result (world.new.world ≡ whole world.old.file.run world.old.world session) }
    ensures whole { OnOk result (world.new.spent ≡ false) }
    ensures marked { world.new.marked ≡ world.old.marked }
    ensures seen { world.new.seen ≡ world.old.seen }
    ensures of_spec { world.new.file ≡ world.old.file }
{
    let spec = world.spec();
    let _steps = spec.steps(); // for the proof
    let mut next = 0;
    while let Some(step) = spec.step_from(session, next) {
        world.send(step)?;
        next = step + 1;
    }
    Ok(())
}

/// Adds what is answered in the world now, if the answers take no more than the room.
fn add_answer(
    alloc: Global,
    world: &mut MarkedWorld<'_>,
    tables: &[Table],
    room: usize,
    answered: &mut Answered,
) -> Result<(), SendError>
    requires { IsReady tables.now world.old answered.old }
    ensures { OnOk result (IsRun tables.now (IsAnswerIn tables.now) world.old answered.old world.new answered.new) }
{
    let shows = shows_of(alloc, world, tables)?;
    let answer = answers_of(alloc, &shows)?;
    answered.answers.number(&answer)?;
    within(room, &answered.answers)?;
    Ok(())
}
