//! Stages that were noted.

ghost use mathlib.Core.List.{IsPrefix};
ghost use Rattle.std.specs.Prelude.{◌≡◌, [], IfOk, IfSome, length, true};
ghost use Rattle.marked_worlds.specs.Stages.{HasSessions, stage_seen, staged_of};

use crate::members::MarkedMembers;
use finite_maps::Fork;
use marked_locks::{LocksPicture, MarkedLocks};
use marked_rows::{MarkedRows, RowsPicture};
use std::alloc::{AllocError, Global};
use std::collections::BTreeMap;

/// A stage as it was noted: pictures of its rows and its locks, and the number of its sessions among those that were noted.
#[derive(Drop)]
pub(crate) struct SeenStage {
    pub(crate) rows: RowsPicture,
    pub(crate) locks: LocksPicture,
    pub(crate) sessions: usize,
    /// The number of the stage that was noted last before it with the same print.
    pub(crate) earlier: Option<usize>,
}

/// Stages that were noted, in the order in which they were. The index has the newest one with a print, a number made of what its sessions were told, or
/// none where a stage with it was passed over; from there each stage leads to the one before with its print. What they tell is compared, so that nothing
/// but speed and size depends on them.
#[derive(Drop)]
pub(crate) struct SeenTable {
    pub(crate) stages: Vec<SeenStage>,
    pub(crate) newest: BTreeMap<u64, Option<usize>>,
    /// For a number made of rows, that of the newest stage of which a picture was taken with it. Later stages with the same rows share the picture.
    pub(crate) pictured: BTreeMap<u64, usize>,
    /// What all stages take.
    pub(crate) bytes: usize,
}

impl SeenTable {
    /// No stages.
    pub(crate) fn new(alloc: Global) -> SeenTable
        ensures { result.stages.items ≡ [] }
    {
        SeenTable {
            stages: Vec::new(alloc),
            newest: BTreeMap::new(alloc),
            pictured: BTreeMap::new(alloc),
            bytes: 0,
        }
    }

    /// The number of the newest stage with a print.
    pub(crate) fn newest_with(&self, print: u64) -> Option<usize> {
        *self.newest.get(&print)?
    }

    /// The picture of the rows now, if a stage that was noted has it. It is shared.
    pub(crate) fn picture_of(
        &self,
        rows: &MarkedRows,
        print: u64,
    ) -> Result<Option<RowsPicture>, AllocError>
        ensures { IfOk result (λ known. IfSome known (λ picture. picture ≡ rows.now.now)) }
    {
        let Some(number) = self.pictured.get(&print) else {
            return Ok(None);
        };
        match self.stages.get(*number) {
            Some(stage) if rows.is_pictured(&stage.rows) => {
                let picture = stage.rows.fork()?;
                Ok(Some(picture))
            }
            _ => Ok(None),
        }
    }
}

impl SeenStage {
    /// The stage of these parts, with the one before it.
    pub(crate) fn of(
        alloc: Global,
        rows: RowsPicture,
        locks: &MarkedLocks,
        members: &mut MarkedMembers,
        count: u8,
        earlier: Option<usize>,
    ) -> Result<SeenStage, AllocError>
        requires { count ≡ length members.old.list }
        ensures seen { IfOk result (λ seen. stage_seen locks.now.resources members.new.seen seen ≡ staged_of rows locks.now.now members.old.list) }
        ensures inside { IfOk result (HasSessions members.new.seen) }
        ensures front { IsPrefix members.old.seen members.new.seen }
        ensures same { members.new ≡ record members.old { seen = members.new.seen } }
    {
        let locks = locks.picture(alloc)?;
        let sessions = members.note(alloc, count)?;
        Ok(SeenStage {
            rows,
            locks,
            sessions,
            earlier,
        })
    }

    /// Whether the stage of these parts is this one.
    pub(crate) fn is(
        &self,
        rows: &MarkedRows,
        locks: &MarkedLocks,
        members: &MarkedMembers,
        count: u8,
    ) -> bool
        requires inside { HasSessions members.now.seen self.now }
        requires count { count ≡ length members.now.list }
        ensures { result ≡ true → stage_seen locks.now.resources members.now.seen self.now ≡ staged_of rows.now.now locks.now.now members.now.list }
    {
        members.are_seen(self.sessions, count)
            && locks.is_pictured(&self.locks)
            && rows.is_pictured(&self.rows)
    }
}
