//! Sessions that were noted.

ghost use Rattle.std.specs.Prelude.{◌≡◌, IfOk, length, true};
ghost use Rattle.marked_worlds.specs.Members.{IsSeen, members_of, sessions_seen};

use crate::members::StatusAndRest;
use crate::told::{are_of, nodes_of};
use event_tree::NodeId;
use events::Event;
use machine_model::Status;
use marked_lists::MarkedList;
use marked_logs::MarkedLogs;
use session_steps::Rest;
use std::alloc::{AllocError, Global};

/// The sessions as they were noted, with the nodes of what they were told.
#[derive(Drop)]
pub(crate) struct SeenSessions {
    pub(crate) nodes: Vec<NodeId>,
    pub(crate) kept: Vec<StatusAndRest>,
}

impl SeenSessions {
    /// The sessions now.
    pub(crate) fn of(
        alloc: Global,
        logs: &MarkedLogs<Event>,
        kept: &MarkedList<StatusAndRest>,
        count: u8,
    ) -> Result<SeenSessions, AllocError>
        requires logs { count ≡ length logs.now.now }
        requires kept { count ≡ length kept.now.list }
        ensures seen { IfOk result (IsSeen logs.now.lists) }
        ensures sessions { IfOk result (λ seen. sessions_seen logs.now.lists seen ≡ members_of logs.now.now kept.now.list) }
    {
        let nodes = nodes_of(alloc, logs, count)?;
        let mut copy = Vec::with_capacity(alloc, kept.len())?;
        copy.extend_from_slice(kept.as_slice())?;
        Ok(SeenSessions { nodes, kept: copy })
    }

    /// Whether the sessions now are these.
    pub(crate) fn are(
        &self,
        logs: &MarkedLogs<Event>,
        kept: &MarkedList<StatusAndRest>,
        count: u8,
    ) -> bool
        requires seen { IsSeen logs.now.lists self.now }
        requires logs { count ≡ length logs.now.now }
        ensures { result ≡ true → sessions_seen logs.now.lists self.now ≡ members_of logs.now.now kept.now.list }
    {
        are_of(self.nodes.as_slice(), logs, count)
            && are_same(self.kept.as_slice(), kept.as_slice())
    }
}

/// Whether these are the same.
fn are_same(kept: &[StatusAndRest], others: &[StatusAndRest]) -> bool
    ensures { result ≡ true → kept.now ≡ others.now }
{
    if kept.len() != others.len() {
        return false;
    }
    for place in 0..kept.len() {
        if !is_same(kept[place], others[place]) {
            return false;
        }
    }
    true
}

fn is_same(one: StatusAndRest, other: StatusAndRest) -> bool
    ensures { result ≡ true → one ≡ other }
{
    is_same_status(one.status, other.status) && is_same_rest(one.rest, other.rest)
}

/// Whether a session stands the same with its block, the level of the block included.
fn is_same_status(status: Status, other: Status) -> bool
    ensures { result ≡ true → status ≡ other }
{
    match (status, other) {
        (Status::Outside, Status::Outside) => true,
        (Status::InBlock(level), Status::InBlock(other)) => level == other,
        (Status::Broken, Status::Broken) => true,
        _ => false,
    }
}

/// Whether the same is left of a step, or nothing both times.
fn is_same_rest(rest: Option<Rest>, other: Option<Rest>) -> bool
    ensures { result ≡ true → rest ≡ other }
{
    match (rest, other) {
        (None, None) => true,
        (Some(rest), Some(other)) => is_same_place(rest, other),
        _ => false,
    }
}

fn is_same_place(rest: Rest, other: Rest) -> bool
    ensures { result ≡ true → rest ≡ other }
{
    rest.step == other.step
        && rest.point.statement == other.point.statement
        && rest.point.request == other.point.request
}
