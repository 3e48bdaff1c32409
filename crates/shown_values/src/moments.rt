//! The JSON of moments.

ghost use Rattle.std.specs.Prelude.{◌≡◌, ◌++◌, OnOk, codes};
ghost use Rattle.shown_values.specs.Strings.{array_json};
ghost use Rattle.shown_values.specs.Words.{line_json, told};
ghost use Rattle.shown_values.specs.Moments as spec;

use crate::strings::{push, push_before, push_index, push_word};
use crate::texts::{push_line, push_resource};
use crate::words::{push_manner, push_mode, push_status, push_step_number};
use events::{Event, Transcript};
use line_moments::{Change, Ending, Left, Moment, Stale, Still};
use lock_modes::{Mode, Resource, Text};
use lock_queues::{Edge, Hop, Reason, Want};
use sqlite_items::Items;
use std::alloc::AllocError;

/// Pushes a label and the moments of a line behind it.
pub(crate) fn push_moments(
    label: &str,
    tables: &Items<Left>,
    steps: &[Text],
    moments: &Items<Moment>,
    out: &mut Vec<u8>,
) -> Result<(), AllocError>
    ensures { OnOk result (out.new.items ≡ out.old.items ++ (label.now ++ array_json (spec.moment_json tables.now steps.now) moments.now)) }
{
    push_word(label, "[", out)?;
    for (place, moment) in moments.as_slice().iter().enumerate() {
        push_before(",", place, out)?;
        push_moment(tables, steps, moment, out)?;
    }
    push("]", out)
}

fn push_moment(
    tables: &Items<Left>,
    steps: &[Text],
    moment: &Moment,
    out: &mut Vec<u8>,
) -> Result<(), AllocError>
    ensures { OnOk result (out.new.items ≡ out.old.items ++ spec.moment_json tables.now steps.now moment.now) }
{
    push_going(moment, out)?;
    push_told(steps, &moment.events, out)?;
    push_changes(",\"locks\":", tables, &moment.changes, out)?;
    push_end(tables, steps, moment, out)
}

/// Pushes who goes, why, and with which step.
fn push_going(moment: &Moment, out: &mut Vec<u8>) -> Result<(), AllocError>
    ensures { OnOk result (out.new.items ≡ out.old.items ++ spec.going_json moment.now) }
{
    push_index("{\"session\":", moment.session, out)?;
    push_manner(",\"kind\":", moment.manner, out)?;
    push_step_number(",\"step\":", moment.step, out)
}

/// Pushes what a session is told, as a member.
fn push_told(steps: &[Text], transcript: &Transcript, out: &mut Vec<u8>) -> Result<(), AllocError>
    ensures { OnOk result (out.new.items
        ≡ out.old.items ++ (codes ",\"told\":" ++ array_json (line_json steps.now) (told transcript.now))) }
{
    push_lines(",\"told\":", steps, without_sent(transcript.events()), out)
}

/// Pushes how a moment ends.
fn push_end(
    tables: &Items<Left>,
    steps: &[Text],
    moment: &Moment,
    out: &mut Vec<u8>,
) -> Result<(), AllocError>
    ensures { OnOk result (out.new.items ≡ out.old.items ++ spec.end_json tables.now steps.now moment.now) }
{
    push_status(",\"status\":", moment.status, out)?;
    push_ending(tables, &moment.ending, out)?;
    push_stills(",\"still\":", &moment.still, out)?;
    push_stales(steps, moment.stale.as_slice(), out)?;
    push("}", out)
}

/// The events without the one that a step is sent with.
fn without_sent(events: &[Event]) -> &[Event]
    ensures { result.now ≡ told events.now }
{
    match events.split_first() {
        Some((Event::Sent(_), others)) => others,
        _ => events,
    }
}

/// Pushes a label and the lines of events behind it.
pub fn push_lines(
    label: &str,
    steps: &[Text],
    events: &[Event],
    out: &mut Vec<u8>,
) -> Result<(), AllocError>
    ensures { OnOk result (out.new.items ≡ out.old.items ++ (label.now ++ array_json (line_json steps.now) events.now)) }
{
    push_word(label, "[", out)?;
    for (place, event) in events.iter().enumerate() {
        push_before(",", place, out)?;
        push_line(event, steps, out)?;
    }
    push("]", out)
}

fn push_changes(
    label: &str,
    tables: &Items<Left>,
    changes: &Items<Change>,
    out: &mut Vec<u8>,
) -> Result<(), AllocError>
    ensures { OnOk result (out.new.items ≡ out.old.items ++ (label.now ++ array_json (spec.change_json tables.now) changes.now)) }
{
    push_word(label, "[", out)?;
    for (place, change) in changes.as_slice().iter().enumerate() {
        push_before(",", place, out)?;
        push_change(tables, change, out)?;
    }
    push("]", out)
}

fn push_change(tables: &Items<Left>, change: &Change, out: &mut Vec<u8>) -> Result<(), AllocError>
    ensures { OnOk result (out.new.items ≡ out.old.items ++ spec.change_json tables.now change.now) }
{
    match change {
        Change::Had(resource, mode) => push_lock(tables, resource, *mode, out),
        Change::LetGo => push("null", out),
    }
}

/// Pushes what is locked, and how.
pub(crate) fn push_lock(
    tables: &Items<Left>,
    resource: &Resource,
    mode: Mode,
    out: &mut Vec<u8>,
) -> Result<(), AllocError>
    ensures { OnOk result (out.new.items ≡ out.old.items ++ spec.lock_json tables.now (resource.now, mode)) }
{
    push_resource("[", tables, resource, out)?;
    push_mode(",", mode, out)?;
    push("]", out)
}

/// Pushes what is told of a wait, a deadlock or a lack, as a member.
fn push_ending(tables: &Items<Left>, ending: &Ending, out: &mut Vec<u8>) -> Result<(), AllocError>
    ensures { OnOk result (out.new.items ≡ out.old.items ++ spec.ending_json tables.now ending.now) }
{
    match ending {
        Ending::Ended => Ok(()),
        Ending::Awaits(want) => push_want(",\"want\":", tables, want, out),
        Ending::Loses(ring) => push_hops(",\"ring\":", tables, ring, out),
        Ending::Lacks(want) => push_want(",\"lacks\":", tables, want, out),
    }
}

fn push_want(
    label: &str,
    tables: &Items<Left>,
    want: &Want,
    out: &mut Vec<u8>,
) -> Result<(), AllocError>
    ensures { OnOk result (out.new.items ≡ out.old.items ++ (label.now ++ spec.want_json tables.now want.now)) }
{
    push(label, out)?;
    push_resource("{\"on\":", tables, &want.resource, out)?;
    push_mode(",\"wants\":", want.mode, out)?;
    push_has(want.has, want.asked, out)?;
    push_edges(",\"for\":", want.edges.as_slice(), out)?;
    push("}", out)
}

/// Pushes what is held already, and what is asked for beside it.
fn push_has(has: Option<Mode>, asked: Mode, out: &mut Vec<u8>) -> Result<(), AllocError>
    ensures { OnOk result (out.new.items ≡ out.old.items ++ spec.has_json has asked) }
{
    match has {
        None => Ok(()),
        Some(mode) => {
            push_mode(",\"has\":", mode, out)?;
            push_mode(",\"asks\":", asked, out)
        }
    }
}

fn push_edges(label: &str, edges: &[Edge], out: &mut Vec<u8>) -> Result<(), AllocError>
    ensures { OnOk result (out.new.items ≡ out.old.items ++ (label.now ++ array_json spec.edge_json edges.now)) }
{
    push_word(label, "[", out)?;
    for (place, edge) in edges.iter().enumerate() {
        push_before(",", place, out)?;
        push_edge(*edge, out)?;
    }
    push("]", out)
}

fn push_edge(edge: Edge, out: &mut Vec<u8>) -> Result<(), AllocError>
    ensures { OnOk result (out.new.items ≡ out.old.items ++ spec.edge_json edge) }
{
    push_index("[", edge.session, out)?;
    push_reason(edge.reason, out)?;
    push("]", out)
}

fn push_reason(reason: Reason, out: &mut Vec<u8>) -> Result<(), AllocError>
    ensures { OnOk result (out.new.items ≡ out.old.items ++ spec.reason_json reason) }
{
    match reason {
        Reason::Holds(mode) => push_mode(",\"holds\",", mode, out),
        Reason::Ahead(mode) => push_mode(",\"ahead\",", mode, out),
    }
}

fn push_hops(
    label: &str,
    tables: &Items<Left>,
    hops: &Items<Hop>,
    out: &mut Vec<u8>,
) -> Result<(), AllocError>
    ensures { OnOk result (out.new.items ≡ out.old.items ++ (label.now ++ array_json (spec.hop_json tables.now) hops.now)) }
{
    push_word(label, "[", out)?;
    for (place, hop) in hops.as_slice().iter().enumerate() {
        push_before(",", place, out)?;
        push_hop(tables, hop, out)?;
    }
    push("]", out)
}

fn push_hop(tables: &Items<Left>, hop: &Hop, out: &mut Vec<u8>) -> Result<(), AllocError>
    ensures { OnOk result (out.new.items ≡ out.old.items ++ spec.hop_json tables.now hop.now) }
{
    push_index("[", hop.session, out)?;
    push_mode(",", hop.mode, out)?;
    push_resource(",", tables, &hop.resource, out)?;
    push(",", out)?;
    push_edge(hop.edge, out)?;
    push("]", out)
}

fn push_stills(label: &str, stills: &Items<Still>, out: &mut Vec<u8>) -> Result<(), AllocError>
    ensures { OnOk result (out.new.items ≡ out.old.items ++ (label.now ++ array_json spec.still_json stills.now)) }
{
    push_word(label, "[", out)?;
    for (place, still) in stills.as_slice().iter().enumerate() {
        push_before(",", place, out)?;
        push_still(still, out)?;
    }
    push("]", out)
}

/// Pushes the reads that a moment made stale, as a member, where there are any.
fn push_stales(steps: &[Text], stales: &[Stale], out: &mut Vec<u8>) -> Result<(), AllocError>
    ensures { OnOk result (out.new.items ≡ out.old.items ++ spec.stales_json steps.now stales.now) }
{
    if stales.is_empty() {
        return Ok(());
    }
    push_some_stales(",\"stale\":", steps, stales, out)
}

/// Pushes a label and stale reads behind it.
fn push_some_stales(
    label: &str,
    steps: &[Text],
    stales: &[Stale],
    out: &mut Vec<u8>,
) -> Result<(), AllocError>
    ensures { OnOk result (out.new.items ≡ out.old.items ++ (label.now ++ array_json (spec.stale_json steps.now) stales.now)) }
{
    push_word(label, "[", out)?;
    for (place, stale) in stales.iter().enumerate() {
        push_before(",", place, out)?;
        push_stale(steps, stale, out)?;
    }
    push("]", out)
}

fn push_stale(steps: &[Text], stale: &Stale, out: &mut Vec<u8>) -> Result<(), AllocError>
    ensures { OnOk result (out.new.items ≡ out.old.items ++ spec.stale_json steps.now stale.now) }
{
    push_index("[", stale.session, out)?;
    push_index(",", stale.step, out)?;
    push_lines(",", steps, stale.told.events(), out)?;
    push_lines(",", steps, stale.told_now.events(), out)?;
    push("]", out)
}

fn push_still(still: &Still, out: &mut Vec<u8>) -> Result<(), AllocError>
    ensures { OnOk result (out.new.items ≡ out.old.items ++ spec.still_json still.now) }
{
    push_index("[", still.session, out)?;
    push_edges(",", still.edges.as_slice(), out)?;
    push("]", out)
}
