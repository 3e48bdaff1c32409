//! The stage of a world: rows, locks and sessions whose parts are shared by its forks.

ghost use Rattle.std.specs.Prelude.{◌≡◌, ℕ, length, refl, IfOk};
ghost use Rattle.session_machine.specs.SharedStage.{staged_of};
ghost use Rattle.session_steps.specs.Stage.{IsBlank};

use crate::asking::ask_one;
use crate::member::Member;
use bound_statements::{Bound, lock_plan};
use events::{Event, Fault};
use finite_maps::Fork;
use lock_queues::LockTable;
use machine_model::{Reply, Status};
use row_tables::Store;
use session_steps::{Origin, Rest, Stage};
use std::alloc::{AllocError, Global};

/// The rows, the locks and the sessions of a world. A fork shares them with this one.
pub(crate) struct SharedStage {
    pub(crate) store: Store,
    pub(crate) locks: LockTable,
    pub(crate) members: Vec<Member>,
}

// Written out and not derived, so that who owns one calls this and does not let its parts go one by one.
impl Drop for SharedStage {
    fn drop(self) {
        let SharedStage {
            store: _store,
            locks: _locks,
            members: _members,
        } = self;
    }
}

impl SharedStage {
    /// So many sessions that have done nothing, over no rows.
    pub(crate) fn new(alloc: Global, count: u8) -> Result<SharedStage, AllocError>
        ensures { IfOk result (λ stage. IsBlank count (staged_of stage)) }
    {
        let mut members = Vec::with_capacity(alloc, count as usize)?;
        for _session in 0..count {
            members.push(Member::new(alloc))?;
        }
        Ok(SharedStage {
            store: Store::new(alloc),
            locks: LockTable::new(alloc),
            members,
        })
    }

    /// An equal stage, which shares its parts with this one.
    pub(crate) fn fork(&self) -> Result<SharedStage, AllocError>
        ensures { IfOk result (λ stage. staged_of stage ≡ staged_of self.now) }
    {
        let members = fork_members(*self.members.allocator(), &self.members)?;
        Ok(SharedStage {
            store: self.store.fork()?,
            locks: self.locks.fork()?,
            members,
        })
    }
}

/// Equal sessions in the same order.
fn fork_members(alloc: Global, members: &[Member]) -> Result<Vec<Member>, AllocError>
    ensures { IfOk result (λ forked. forked.items ≡ members.now) }
{
    let mut forked = Vec::with_capacity(alloc, members.len())?;
    for member in members {
        forked.push(member.fork()?)?;
    }
    Ok(forked)
}

impl Stage for SharedStage {
    ghost staged = { staged_of };

    ghost Past = { ℕ };

    ghost past = { λ s. length s.members.items };

    ghost count = { λ n. n };

    ghost knows = { λ _ _ _ _. Unit {0} };

    fn waits(&self, session: u8) -> bool {
        self.locks.waits(session)
    }

    fn next_grant(&self) -> Option<u8> {
        self.locks.next_grant()
    }

    fn sound(&self) {
        self.locks.known();
    }

    fn status(&self, session: u8) -> Status {
        self.members[session as usize].status()
    }

    fn rest(&self, session: u8) -> Option<Rest> {
        self.members[session as usize].rest()
    }

    fn has_failed(&self, session: u8) -> Result<bool, AllocError> {
        self.members[session as usize].has_failed()
    }

    fn ask(
        &mut self,
        session: u8,
        statement: &Bound,
        _origin: Origin,
        _place: usize,
        number: u8,
    ) -> Result<Option<Reply>, AllocError> {
        let Some((place, mode)) = lock_plan(statement, number) else {
            return Ok(None);
        };
        let reply = ask_one(&mut self.locks, session, statement, place, mode)?;
        Ok(Some(reply))
    }

    fn run(
        &mut self,
        alloc: Global,
        session: u8,
        statement: &Bound,
    ) -> Result<Option<Fault>, AllocError> {
        self.members[session as usize].run(alloc, statement, session, &mut self.store)
    }

    fn undo(&mut self, session: u8) -> Result<(), AllocError> {
        self.store.undo(session)
    }

    fn keep(&mut self, session: u8) -> Result<(), AllocError> {
        self.store.keep(session);
        Ok(())
    }

    fn let_go(&mut self, session: u8) -> Result<(), AllocError> {
        self.locks.let_go(session)
    }

    fn grant(&mut self, session: u8) -> Result<(), AllocError> {
        self.locks.grant(session)
    }

    fn tell(&mut self, session: u8, event: Event) -> Result<(), AllocError> {
        self.members[session as usize].tell(event)
    }

    fn forget(&mut self, session: u8) -> Result<(), AllocError> {
        let alloc = *self.members.allocator();
        self.members[session as usize].forget(alloc);
        Ok(())
    }

    fn set_status(&mut self, session: u8, status: Status) -> Result<(), AllocError> {
        self.members[session as usize].set_status(status);
        Ok(())
    }

    fn set_rest(&mut self, session: u8, rest: Option<Rest>) -> Result<(), AllocError> {
        self.members[session as usize].set_rest(rest);
        Ok(())
    }

    ghost counts = { λ x. refl };
}
