//! What a wait wants, and whom it waits for.

ghost use Rattle.std.specs.Prelude.{◌≡◌, ◌++◌, IfOk, OnOk};
ghost use Rattle.lock_queues.specs.LockTable.{look_at};
ghost use Rattle.lock_queues.specs.Reasons as reasons;
ghost use Rattle.lock_queues.specs.Sides as sides;

use crate::held::Held;
use crate::queue::{Spot, is_ahead, wanted};
use crate::reason::{Edge, Reason};
use crate::wait::Wait;
use finite_maps::Fork;
use lock_modes::{Mode, Resource, compatible};
use std::alloc::{AllocError, Global};
use std::marker::Model;

/// What a session waits for: the mode there that covers what it asked for and what it has, and each reason why it waits.
#[derive(Drop)]
pub struct Want {
    pub resource: Resource,
    pub mode: Mode,
    pub asked: Mode,
    pub has: Option<Mode>,
    pub edges: Vec<Edge>,
}

impl Model for Want {
    ghost use Rattle.std.specs.Coded.{codes};
    ghost use Rattle.lock_modes.specs.contracts.resource.Resource as locked;
    ghost use Rattle.lock_queues.specs.contracts.reason.Edge as edge;
    ghost use Rattle.lock_queues.specs.Reasons as reasons;

    ghost Value = { reasons.Want };

    ghost coded = { Prim.hlevel (codes, locked.the_row.coded, edge.the_row.coded) };

    ghost view = { λ w. record { resource = w.resource; mode = w.mode; asked = w.asked; has = w.has; edges = w.edges.items } };
}

/// What the wait wants, and whom of the sessions below the count it waits for.
pub fn want_at(alloc: Global, held: &Held, spot: &Spot<'_>, count: u8) -> Result<Want, AllocError>
    ensures { IfOk result (λ want. want ≡ reasons.want_at count (look_at held.now) spot.now) }
{
    let wait = spot.wait;
    let edges = edges_of(alloc, held, spot, count)?;
    Ok(Want {
        resource: wait.resource.fork()?,
        mode: wanted(held, wait),
        asked: wait.mode,
        has: held.mode_of(wait.session, wait.resource.place()),
        edges,
    })
}

/// Whom of the sessions below the count the wait waits for, in their order, and why.
fn edges_of(alloc: Global, held: &Held, spot: &Spot<'_>, count: u8) -> Result<Vec<Edge>, AllocError>
    ensures { IfOk result (λ edges. edges.items ≡ reasons.edges_below count (look_at held.now) spot.now) }
{
    let mut edges = Vec::new(alloc);
    for session in 0..count {
        tell_session(held, spot, session, &mut edges)?;
    }
    Ok(edges)
}

/// Tells why the wait waits for a session.
pub fn tell_session(
    held: &Held,
    spot: &Spot<'_>,
    session: u8,
    edges: &mut Vec<Edge>,
) -> Result<(), AllocError>
    ensures { OnOk result (edges.new.items ≡ edges.old.items ++ reasons.edges_to (look_at held.now) spot.now session) }
{
    let wait = spot.wait;
    if wait.session == session {
        return Ok(());
    }
    let theirs = held.mode_of(session, wait.resource.place());
    tell_held(session, wanted(held, wait), theirs, edges)?;
    tell_ahead(held, wait, true, spot.before, session, edges)?;
    tell_ahead(held, wait, false, spot.after, session, edges)
}

/// Tells of what a session holds, if it holds something beside which the wanted mode does not fit.
fn tell_held(
    session: u8,
    wants: Mode,
    theirs: Option<Mode>,
    edges: &mut Vec<Edge>,
) -> Result<(), AllocError>
    ensures { OnOk result (edges.new.items ≡ edges.old.items ++ reasons.held_edges session wants theirs) }
{
    match theirs {
        None => Ok(()),
        Some(mode) => tell_mode(session, wants, mode, edges),
    }
}

/// Tells of a mode that a session holds, if the wanted mode does not fit beside it.
fn tell_mode(session: u8, wants: Mode, mode: Mode, edges: &mut Vec<Edge>) -> Result<(), AllocError>
    ensures { OnOk result (edges.new.items ≡ edges.old.items ++ sides.mode_edges session wants mode) }
{
    if compatible(wants, mode) {
        return Ok(());
    }
    edges.push(Edge {
        session,
        reason: Reason::Holds(mode),
    })?;
    Ok(())
}

/// Tells of the waits of a session that stand ahead, among others that came all earlier, or all later.
fn tell_ahead(
    held: &Held,
    wait: &Wait,
    is_earlier: bool,
    others: &[Wait],
    session: u8,
    edges: &mut Vec<Edge>,
) -> Result<(), AllocError>
    ensures { OnOk result (edges.new.items
        ≡ edges.old.items ++ sides.side_edges (look_at held.now) session wait.now is_earlier others.now) }
{
    for other in others {
        tell_other(held, wait, is_earlier, other, session, edges)?;
    }
    Ok(())
}

/// Tells of another wait, if it is the session's and stands ahead.
fn tell_other(
    held: &Held,
    wait: &Wait,
    is_earlier: bool,
    other: &Wait,
    session: u8,
    edges: &mut Vec<Edge>,
) -> Result<(), AllocError>
    ensures { OnOk result (edges.new.items
        ≡ edges.old.items ++ sides.other_edges (look_at held.now) session wait.now is_earlier other.now) }
{
    if !is_told(held, wait, is_earlier, other, session) {
        return Ok(());
    }
    edges.push(Edge {
        session,
        reason: Reason::Ahead(wanted(held, other)),
    })?;
    Ok(())
}

/// Whether another wait is the session's and stands ahead.
pub fn is_told(held: &Held, wait: &Wait, is_earlier: bool, other: &Wait, session: u8) -> bool
    ensures { result ≡ sides.is_told (look_at held.now) session wait.now is_earlier other.now }
{
    other.session == session && is_ahead(held, wait, is_earlier, other)
}
