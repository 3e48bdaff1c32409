//! What is shown of a line: how its sessions stand at first and at last, its moments, and what the setups and the line leave.

ghost use Rattle.std.specs.Prelude.{◌≡◌, ◌≤◌, ◌<◌, ◌↔◌, ◌++◌, suc, Some, false, true, All, IfOk, IfErr, OnOk, OnErr, IsErrOf, length};
ghost use Rattle.bound_specs.specs.Spec.{IsBound};
ghost use Rattle.line_moments.specs.Left.{begun, left_in, standings, shown, shown_from};
ghost use Rattle.line_moments.specs.Moments.{moments, line_moments};
ghost use Rattle.machine_model.specs.Start.{Start, Started, start};
ghost use Rattle.machine_model.specs.World.{send, send_all};
ghost use Rattle.session_machine.specs.Running.{IsNotRunBy};
ghost use Rattle.session_machine.specs.Showing as spec;
ghost use Rattle.session_machine.specs.SharedStage.{staged_of};
ghost use Rattle.session_steps.specs.Stage.{IsWithin};

use crate::error::RunError;
use crate::leaving::{committed, lefts_of};
use crate::runs::not_started;
use crate::stage::SharedStage;
use crate::world::World;
use binding_model::Table;
use bound_specs::Spec;
use line_moments::{Begun, Left, Moment, Shown, Standing};
use session_steps::{SendError, Stage};
use sqlite_items::Items;
use std::alloc::{AllocError, Global};

impl SharedStage {
    /// How so many sessions stand, and what they hold, in their order.
    pub(crate) fn begun(&self, alloc: Global, sessions: u8) -> Result<Items<Begun>, AllocError>
        requires { sessions ≤ length self.now.members.items }
        ensures { IfOk result (λ begun. begun ≡ spec.begun_in sessions (staged_of self.now)) }
    {
        let mut all = Items::new(alloc);
        for session in 0..sessions {
            let held = self.locks.held_by(session)?;
            all.push(Begun {
                status: self.status(session),
                locks: Items::from_vec(held),
            })?;
        }
        Ok(all)
    }

    /// How so many sessions stand at last, of all that there are, in their order.
    pub(crate) fn standings(
        &self,
        alloc: Global,
        sessions: u8,
        count: u8,
    ) -> Result<Items<Standing>, AllocError>
        requires { sessions ≤ length self.now.members.items }
        ensures { IfOk result (λ standings. standings ≡ spec.standings_in sessions count (staged_of self.now)) }
    {
        let mut all = Items::new(alloc);
        for session in 0..sessions {
            let want = self.locks.want_of(alloc, session, count)?;
            all.push(Standing::new(want, self.status(session)))?;
        }
        Ok(all)
    }

    /// The committed rows of declared tables.
    pub(crate) fn lefts(
        &self,
        alloc: Global,
        count: u8,
        tables: &[Table],
    ) -> Result<Items<Left>, AllocError>
        requires count { length self.now.members.items ≡ count }
        requires within { IsWithin count self.now.store self.now.locks }
        ensures { IfOk result (λ left. left ≡ spec.lefts_from 0 tables.now self.now.store.committed) }
    {
        let store = committed(&self.store, count)?;
        let left = lefts_of(alloc, &store, tables)?;
        Ok(left)
    }
}

/// What is shown of a line of a spec with these tables: how each session stands before the first step and what it holds, the committed
/// rows that the setups leave, the moments of the line, the committed rows that it leaves, and how each session stands
/// behind its last step. Of the refusals only `Start` and `NoMemory` come.
pub fn show_line(
    alloc: Global,
    spec: &Spec,
    tables: &[Table],
    line: &[u8],
) -> Result<Shown, RunError>
    requires { All (λ k. k < length spec.now.run.steps) line.now }
    ensures shown { IfOk result (λ x. shown tables.now spec.now.run line.now ≡ Some x) }
    ensures refused { IfErr result (λ error. IsNotRunBy error (start spec.now.run)) }
{
    match World::start(alloc, spec) {
        Ok(mut world) => show_from(&mut world, tables, line),
        Err(error) => Err(not_started(error)),
    }
}

/// What is shown of a line from a world as it starts.
fn show_from(world: &mut World<'_>, tables: &[Table], line: &[u8]) -> Result<Shown, RunError>
    requires known { All (λ k. k < length world.old.file.run.steps) line.now }
    requires whole { world.old.spent ≡ false }
    requires started { start world.old.file.run ≡ Started world.old.world }
    ensures shown { IfOk result (λ x. shown tables.now world.old.file.run line.now ≡ Some x) }
    ensures refused { IfErr result (λ error. IsNotRunBy error (start world.old.file.run)) }
{
    match world.show(tables, line) {
        Ok(shown) => Ok(shown),
        Err(SendError::NoMemory) => Err(RunError::NoMemory),
        Err(SendError::Spent) => unreachable!(),
    }
}
