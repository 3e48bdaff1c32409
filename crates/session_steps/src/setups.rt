//! The setups of a spec, before its first step is sent.

ghost use Rattle.std.specs.Prelude.{◌≡◌, ◌<◌, ◌≤◌, [], length, suc, All, is_some, IfOk, IfErr, OnOk};
ghost use Rattle.std.specs.List.{list_any};
ghost use Rattle.bound_statements.specs.Plan.{HasKeys, IsShort};
ghost use Rattle.bound_specs.specs.Spec.{AllHaveKeys, AllAreShort};
ghost use Rattle.machine_model.specs.Start.{Started, is_failure, is_outside, main_setups, session_setups, start};
ghost use Rattle.session_steps.specs.Refused.{IsRefusedBy};
ghost use Rattle.session_steps.specs.Stage.{member_at, world_in, IsBlank, IsSettled, IsStage, KnowsAll, KnowsSetups};
ghost use Rattle.session_steps.specs.SetUp as spec;
ghost use Rattle.session_steps.specs.SetUp.{HasEnded, IsReadyForMains, IsReadyForSessions};
ghost use Rattle.session_steps.specs.declared.point.Origin.TheVariants as origin;

use crate::error::StartError;
use crate::point::{Origin, Point};
use crate::stage::Stage;
use crate::stepping::go_on;
use bound_specs::{Block, Spec};
use std::alloc::{AllocError, Global};

/// How a setup ended.
#[derive(Clone, Copy, PartialEq, Eq)]
pub enum SetUp {
    /// A statement of it failed.
    Failed,
    /// A request of it waits.
    Waits,
    /// All of it went through, and a transaction block is open.
    Open,
    /// All of it went through, and no transaction block is open.
    Closed,
}

/// Runs the setups of a spec on a stage on which nothing was done: its main setups in order, then the setup of each session. The first that is refused
/// refuses the start; of the stage no more than its past is told then.
pub fn run_setups<S: Stage>(alloc: Global, stage: &mut S, spec: &Spec) -> Result<(), StartError>
    requires blank { IsBlank (suc spec.now.run.sessions) (S.staged stage.old) }
    requires known { KnowsSetups (S.knows (S.past stage.old) origin.Setup) spec.now.run }
    ensures started { OnOk result (start spec.now.run ≡ Started (world_in spec.now.run.steps (S.staged stage.new))) }
    ensures settled { OnOk result (IsSettled spec.now.run.sessions spec.now.run.steps (S.staged stage.new)) }
    ensures refused { IfErr result (λ error. IsRefusedBy error (start spec.now.run)) }
    ensures past { S.past stage.new ≡ S.past stage.old }
{
    let control = spec.sessions();
    let own = spec.session_setups();
    main_setups(alloc, stage, control, spec.setups())?;
    session_setups(alloc, stage, own)
}

/// Runs the main setup blocks in order, each in the control session. The first that fails or leaves a transaction block
/// open refuses the start.
pub(crate) fn main_setups<S: Stage>(
    alloc: Global,
    stage: &mut S,
    control: u8,
    blocks: &[Block],
) -> Result<(), StartError>
    requires ready { IsReadyForMains control (S.staged stage.old) }
    requires keys { AllHaveKeys blocks.now }
    requires short { AllAreShort blocks.now }
    requires known { All (KnowsAll (S.knows (S.past stage.old) origin.Setup)) blocks.now }
    ensures ran { OnOk result (main_setups control 0 (world_in [] (S.staged stage.old)) blocks.now ≡ Started (world_in [] (S.staged stage.new))) }
    ensures ready { OnOk result (IsReadyForSessions (suc control) (S.staged stage.new)) }
    ensures refused { IfErr result (λ error. IsRefusedBy error (main_setups control 0 (world_in [] (S.staged stage.old)) blocks.now)) }
    ensures past { S.past stage.new ≡ S.past stage.old }
{
    for (number, block) in blocks.iter().enumerate() {
        match set_up(alloc, stage, control, block)? {
            SetUp::Closed => {}
            SetUp::Waits => unreachable!(),
            SetUp::Failed | SetUp::Open => {
                return Err(StartError::SetupFailed {
                    block: number as u64,
                });
            }
        }
    }
    Ok(())
}

/// Runs the setup of each session in order. The first that fails or has to wait refuses the start.
pub(crate) fn session_setups<S: Stage>(
    alloc: Global,
    stage: &mut S,
    blocks: &[Block],
) -> Result<(), StartError>
    requires ready { IsReadyForSessions (suc (length blocks.now)) (S.staged stage.old) }
    requires few { length blocks.now ≤ 255 }
    requires keys { AllHaveKeys blocks.now }
    requires short { AllAreShort blocks.now }
    requires known { All (KnowsAll (S.knows (S.past stage.old) origin.Setup)) blocks.now }
    ensures ran { OnOk result (session_setups 0 (world_in [] (S.staged stage.old)) blocks.now ≡ Started (world_in [] (S.staged stage.new))) }
    ensures ready { OnOk result (IsReadyForSessions (suc (length blocks.now)) (S.staged stage.new)) }
    ensures refused { IfErr result (λ error. IsRefusedBy error (session_setups 0 (world_in [] (S.staged stage.old)) blocks.now)) }
    ensures past { S.past stage.new ≡ S.past stage.old }
{
    for (number, block) in blocks.iter().enumerate() {
        let session = number as u64;
        match set_up(alloc, stage, number as u8, block)? {
            SetUp::Closed | SetUp::Open => {}
            SetUp::Waits => return Err(StartError::SessionSetupWaits { session }),
            SetUp::Failed => return Err(StartError::SessionSetupFailed { session }),
        }
    }
    Ok(())
}

/// Runs a setup of a session and forgets what it tells.
fn set_up<S: Stage>(
    alloc: Global,
    stage: &mut S,
    session: u8,
    block: &Block,
) -> Result<SetUp, AllocError>
    requires stage { IsStage [] (S.staged stage.old) }
    requires inside { session < length (S.staged stage.old).members }
    requires keys { All HasKeys block.now }
    requires short { All IsShort block.now }
    requires known { KnowsAll (S.knows (S.past stage.old) origin.Setup) block.now }
    ensures ended { IfOk result (λ end. HasEnded end session block.now (S.staged stage.old) (S.staged stage.new)) }
    ensures past { S.past stage.new ≡ S.past stage.old }
{
    let stopped = go_on(
        alloc,
        stage,
        session,
        Origin::Setup,
        block.statements(),
        Point::start(),
    )?;
    let end = end_of(stage, session, stopped)?;
    stage.forget(session)?;
    Ok(end)
}

/// How a setup ended, after which its session stands so.
fn end_of<S: Stage>(stage: &S, session: u8, stopped: Option<Point>) -> Result<SetUp, AllocError>
    requires { session < S.count (S.past stage.now) }
    ensures { IfOk result (λ end. end ≡ spec.end_of (list_any is_failure (member_at (S.staged stage.now) session).state.transcript) (is_some stopped)
        (is_outside (member_at (S.staged stage.now) session).state.status)) }
{
    if stage.has_failed(session)? {
        return Ok(SetUp::Failed);
    }
    if stopped.is_some() {
        return Ok(SetUp::Waits);
    }
    if stage.status(session).is_outside() {
        return Ok(SetUp::Closed);
    }
    Ok(SetUp::Open)
}
