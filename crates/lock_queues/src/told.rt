//! The ring that a wait closes, told edge by edge.

ghost use Rattle.std.specs.Prelude.{◌≡◌, ◌++◌, ◌<◌, ◌==◌, ◌||◌, ℕ, Some, None, true, IfOk, OnOk, is_some, length, get_or, List};
ghost use Rattle.std.specs.List.{list_any};
ghost use Rattle.lock_queues.specs.Locks as locks;
ghost use Rattle.lock_queues.specs.LockTable.{look_at};
ghost use Rattle.lock_queues.specs.Reasons as reasons;
ghost use Rattle.lock_queues.specs.Rings as rings;
ghost use Rattle.lock_queues.specs.Search.{marks};
ghost use Rattle.lock_queues.specs.Sides as sides;
ghost use Rattle.lock_queues.specs.Sound.{Distinct};
ghost use Rattle.lock_queues.specs.Walks as walks;

use crate::held::{Held, fits_with};
use crate::queue::{Spot, find_spot, wanted};
use crate::reason::Edge;
use crate::wait::Wait;
use crate::want::{is_told, tell_session};
use finite_maps::Fork;
use lock_modes::{Mode, Resource};
use std::alloc::{AllocError, Global};

/// How many sessions there may be.
const SESSIONS: usize = 256;

/// One edge of a ring, with what its session waits for.
#[derive(Drop)]
pub struct Hop {
    pub session: u8,
    pub resource: Resource,
    pub mode: Mode,
    pub edge: Edge,
}

/// The ring that the session's wait closes: of the shortest ones the least by its sessions, from this session on.
pub fn ring_of(
    alloc: Global,
    held: &Held,
    waits: &[Wait],
    session: u8,
    count: u8,
) -> Result<Vec<Hop>, AllocError>
    requires distinct { Distinct waits.now }
    requires below { session < count }
    requires closes { locks.closes_ring count (look_at held.now) waits.now session ≡ true }
    ensures { IfOk result (λ hops. hops.items ≡ rings.ring_told count (look_at held.now) waits.now session) }
{
    let mut rows = rows_to(alloc, held, waits, session, count)?;
    let mut hops = Vec::new(alloc);
    let mut current = session;
    while let Some(row) = rows.pop() {
        let Some(next) = next_of(held, waits, count, &row, current) else {
            return Ok(hops);
        };
        tell_hop(alloc, held, waits, current, next, &mut hops)?;
        current = next;
    }
    Ok(hops)
}

/// The rows of a shortest ring: from which sessions the one that closes it is reached along no edge, along one, and so on.
fn rows_to(
    alloc: Global,
    held: &Held,
    waits: &[Wait],
    session: u8,
    count: u8,
) -> Result<Vec<[bool; SESSIONS]>, AllocError>
    requires distinct { Distinct waits.now }
    requires below { session < count }
    requires closes { locks.closes_ring count (look_at held.now) waits.now session ≡ true }
    ensures { IfOk result (λ rows. walks.IsEnough (look_at held.now) waits.now count session rows.items) }
{
    let mut rows = Vec::new(alloc);
    let mut row = first_row(session);
    let mut behind = row_behind(held, waits, count, &row);
    while !has(&behind, session) {
        rows.push(row)?;
        row = behind;
        behind = row_behind(held, waits, count, &row);
    }
    rows.push(row)?;
    Ok(rows)
}

/// Whether the session is in the row.
fn has(row: &[bool; SESSIONS], session: u8) -> bool
    ensures { result ≡ marks row.now session }
{
    row[usize::from(session)]
}

/// The session alone.
fn first_row(session: u8) -> [bool; SESSIONS]
    ensures { (a : ℕ) → marks result a ≡ (a == session) }
{
    let mut row = [false; SESSIONS];
    row[usize::from(session)] = true;
    row
}

/// The sessions that wait for one of the row.
fn row_behind(held: &Held, waits: &[Wait], count: u8, row: &[bool; SESSIONS]) -> [bool; SESSIONS]
    requires { Distinct waits.now }
    ensures { (a : ℕ) → a < count → marks result a ≡ is_some (walks.next_of (look_at held.now) waits.now count (marks row.now) a) }
{
    let mut made = [false; SESSIONS];
    for session in 0..count {
        made[usize::from(session)] = next_of(held, waits, count, row, session).is_some();
    }
    made
}

/// The least session that this one waits for and that is in the row.
fn next_of(
    held: &Held,
    waits: &[Wait],
    count: u8,
    row: &[bool; SESSIONS],
    session: u8,
) -> Option<u8>
    requires { Distinct waits.now }
    ensures { result ≡ walks.next_of (look_at held.now) waits.now count (marks row.now) session }
{
    for next in 0..count {
        if leads_on(held, waits, row, session, next) {
            return Some(next);
        }
    }
    None
}

/// Whether a session waits for the next one, and that is in the row.
fn leads_on(held: &Held, waits: &[Wait], row: &[bool; SESSIONS], session: u8, next: u8) -> bool
    requires { Distinct waits.now }
    ensures { result ≡ rings.leads_on (locks.waits_for (look_at held.now) waits.now) (marks row.now) session next }
{
    if waits_for(held, waits, session, next) {
        has(row, next)
    } else {
        false
    }
}

/// Whether a session waits for another.
fn waits_for(held: &Held, waits: &[Wait], session: u8, other: u8) -> bool
    requires { Distinct waits.now }
    ensures { result ≡ locks.waits_for (look_at held.now) waits.now session other }
{
    match find_spot(waits, session) {
        None => false,
        Some(spot) => holds_up(held, &spot, other),
    }
}

/// Whether the session has to go before the wait is granted.
fn holds_up(held: &Held, spot: &Spot<'_>, session: u8) -> bool
    ensures { result ≡ locks.holds_up (look_at held.now) spot.now session }
{
    let wait = spot.wait;
    if wait.session == session {
        return false;
    }
    let theirs = held.mode_of(session, wait.resource.place());
    if !fits_with(wanted(held, wait), theirs) {
        return true;
    }
    if is_any_told(held, wait, true, spot.before, session) {
        return true;
    }
    is_any_told(held, wait, false, spot.after, session)
}

fn is_any_told(held: &Held, wait: &Wait, is_earlier: bool, others: &[Wait], session: u8) -> bool
    ensures { result ≡ list_any (sides.is_told (look_at held.now) session wait.now is_earlier) others.now }
{
    others
        .iter()
        .any(|other| is_told(held, wait, is_earlier, other, session))
}

/// Tells of the edge from a session to the next.
fn tell_hop(
    alloc: Global,
    held: &Held,
    waits: &[Wait],
    session: u8,
    next: u8,
    hops: &mut Vec<Hop>,
) -> Result<(), AllocError>
    ensures { OnOk result (hops.new.items ≡ hops.old.items ++ rings.hop (look_at held.now) waits.now session next) }
{
    match find_spot(waits, session) {
        None => Ok(()),
        Some(spot) => tell_spot(alloc, held, &spot, next, hops),
    }
}

fn tell_spot(
    alloc: Global,
    held: &Held,
    spot: &Spot<'_>,
    next: u8,
    hops: &mut Vec<Hop>,
) -> Result<(), AllocError>
    ensures { OnOk result (hops.new.items
        ≡ hops.old.items ++ rings.hop_by (look_at held.now) spot.now (reasons.edges_to (look_at held.now) spot.now next)) }
{
    let mut edges = Vec::new(alloc);
    tell_session(held, spot, next, &mut edges)?;
    tell_first(held, spot.wait, edges.as_slice(), hops)
}

/// Tells of the wait with the first of its edges, if it has one.
fn tell_first(
    held: &Held,
    wait: &Wait,
    edges: &[Edge],
    hops: &mut Vec<Hop>,
) -> Result<(), AllocError>
    ensures { OnOk result (hops.new.items ≡ hops.old.items ++ walks.hop_of (look_at held.now) wait.now edges.now) }
{
    match edges {
        [] => Ok(()),
        [edge, ..] => {
            let hop = hop_by(held, wait, *edge)?;
            hops.push(hop)?;
            Ok(())
        }
    }
}

fn hop_by(held: &Held, wait: &Wait, edge: Edge) -> Result<Hop, AllocError>
    ensures { IfOk result (λ hop. hop ≡ walks.hop_by (look_at held.now) wait.now edge) }
{
    Ok(Hop {
        session: wait.session,
        resource: wait.resource.fork()?,
        mode: wanted(held, wait),
        edge,
    })
}
