//! What is told of a session that went from one stage to the other.

ghost use Rattle.std.specs.Prelude.{◌≡◌, ◌++◌, ◌<◌, ◌+◌, [], ◌∷◌, None, IfOk, OnOk, length, drop};
ghost use Rattle.line_moments.specs.Moments.{changed_edges, last_sent, sent_step};
ghost use Rattle.lock_queues.specs.Reasons.{same_edges};
ghost use Rattle.lock_queues.specs.Rules.{wait_of};
ghost use Rattle.session_machine.specs.Telling as spec;

use events::{Event, Log, Transcript};
use finite_maps::Fork;
use line_moments::{Change, Still};
use lock_queues::{Edge, LockTable};
use sqlite_items::Items;
use std::alloc::{AllocError, Global};

/// The events of a list from a place on.
fn events_from(alloc: Global, events: &[Event], from: usize) -> Result<Transcript, AllocError>
    ensures { IfOk result (λ rest. rest ≡ drop from events.now) }
{
    let mut rest = Transcript::new(alloc);
    for number in from..events.len() {
        let event = events[number].fork()?;
        rest.push(event)?;
    }
    Ok(rest)
}

/// What is told in a log behind what another one tells.
pub(crate) fn events_behind(
    alloc: Global,
    before: &Log,
    after: &Log,
) -> Result<Transcript, AllocError>
    ensures { IfOk result (λ events. events ≡ drop (length before.now) after.now) }
{
    let old = before.to_transcript()?;
    let all = after.to_transcript()?;
    events_from(alloc, all.events(), old.events().len())
}

/// The step that an event tells to be sent.
fn step_of(event: &Event) -> Option<u8>
    ensures { result ≡ sent_step event.now }
{
    match event {
        Event::Sent(step) => Some(*step),
        _ => None,
    }
}

/// The step that was sent last, behind an event.
fn sent_last(last: Option<u8>, event: &Event) -> Option<u8>
    ensures { result ≡ spec.sent_last last event.now }
{
    match step_of(event) {
        None => last,
        Some(step) => Some(step),
    }
}

/// The step that was sent last.
pub(crate) fn last_step(log: &Log) -> Result<Option<u8>, AllocError>
    ensures { IfOk result (λ step. step ≡ last_sent None log.now) }
{
    let transcript = log.to_transcript()?;
    Ok(last_of(transcript.events()))
}

fn last_of(events: &[Event]) -> Option<u8>
    ensures { result ≡ last_sent None events.now }
{
    let mut last = None;
    for event in events {
        last = sent_last(last, event);
    }
    last
}

/// Whom a session waits for, of so many.
fn edges_of(
    alloc: Global,
    locks: &LockTable,
    session: u8,
    count: u8,
) -> Result<Items<Edge>, AllocError>
    ensures { IfOk result (λ edges. edges ≡ spec.edges_told count locks.now session) }
{
    match locks.want_of(alloc, session, count)? {
        None => Ok(Items::new(alloc)),
        Some(want) => Items::from_slice(alloc, &want.edges),
    }
}

/// Whether the edges are the same.
fn are_same(old: &Items<Edge>, new: &Items<Edge>) -> bool
    ensures { result ≡ same_edges old.now new.now }
{
    if old.len() != new.len() {
        return false;
    }
    agree(old.as_slice(), new.as_slice())
}

/// Whether two lists of so many edges are the same.
fn agree(old: &[Edge], new: &[Edge]) -> bool
    requires { length old.now ≡ length new.now }
    ensures { result ≡ same_edges old.now new.now }
{
    for number in 0..old.len() {
        if old[number] != new[number] {
            return false;
        }
    }
    true
}

/// Tells of a session that waits, if it does so for other reasons than before.
fn tell_still(
    alloc: Global,
    before: &LockTable,
    after: &LockTable,
    session: u8,
    count: u8,
    still: &mut Items<Still>,
) -> Result<(), AllocError>
    ensures { OnOk result (still.new
        ≡ still.old ++ changed_edges session (spec.edges_told count before.now session) (spec.edges_told count after.now session)) }
{
    let old = edges_of(alloc, before, session, count)?;
    let edges = edges_of(alloc, after, session, count)?;
    if edges.is_empty() || are_same(&old, &edges) {
        return Ok(());
    }
    still.push(Still { session, edges })
}

/// Of so many sessions but this one, those that wait for other reasons than before.
pub(crate) fn still_of(
    alloc: Global,
    before: &LockTable,
    after: &LockTable,
    session: u8,
    count: u8,
) -> Result<Items<Still>, AllocError>
    ensures { IfOk result (λ still. still ≡ spec.still_told count count session before.now after.now) }
{
    let mut still = Items::new(alloc);
    for other in 0..count {
        if other != session {
            tell_still(alloc, before, after, other, count, &mut still)?;
        }
    }
    Ok(still)
}

/// What is had where the wait of a session is granted.
pub(crate) fn had_of(
    alloc: Global,
    locks: &LockTable,
    session: u8,
) -> Result<Items<Change>, AllocError>
    ensures { IfOk result (λ changes. changes ≡ spec.had_of (wait_of locks.now session)) }
{
    let mut changes = Items::new(alloc);
    if let Some((place, mode)) = locks.wait_of(session) {
        let resource = place.to_resource()?;
        changes.push(Change::Had(resource, mode))?;
    }
    Ok(changes)
}
