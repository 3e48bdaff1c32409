//! The lines of a lane: what a session is told, and why.

ghost use Rattle.std.specs.Prelude.{◌≡◌, ◌++◌, ◌∷◌, [], IfOk, OnOk, flat_map, map};
ghost use Rattle.shown_texts.specs.Lanes as spec;

use crate::breaking::broken;
use crate::characters::{put, put_line, put_shown};
use crate::frame::Frame;
use crate::lane::{Cell, Tone};
use crate::stale::stale_text;
use crate::told::push_event;
use crate::words::{put_hop, put_reason, put_ring, put_want};
use events::Event;
use line_moments::{Ending, Moment, Stale, Still};
use lock_modes::Text;
use lock_queues::{Edge, Hop, Want};
use machine_model::Status;
use sqlite_items::Items;
use std::alloc::{AllocError, Global};

/// How wide a text in a lane is: without its rail, a blank behind that, and one before the next lane.
pub(crate) fn width(frame: &Frame) -> usize
    ensures { result ≡ spec.width frame.now }
{
    frame.column.saturating_sub(3)
}

/// Puts a text in lines, behind so many blanks and two more from the second one on, behind other lines.
fn put_note(
    alloc: Global,
    cells: &mut Items<Cell>,
    frame: &Frame,
    rail: char,
    front: u8,
    text: &[char],
) -> Result<(), AllocError>
    ensures { OnOk result (cells.new ≡ cells.old ++ spec.note frame.now rail front text.now) }
{
    let front = usize::from(front);
    let lines = broken(alloc, width(frame), front, front + 2, text)?;
    put_cells(alloc, cells, rail, lines.as_slice())
}

/// Puts lines beside a rail behind others.
pub(crate) fn put_cells(
    alloc: Global,
    cells: &mut Items<Cell>,
    rail: char,
    lines: &[Items<char>],
) -> Result<(), AllocError>
    ensures { OnOk result (cells.new ≡ cells.old ++ map (spec.cell rail) lines.now) }
{
    for line in lines {
        put_cell(alloc, cells, rail, line.as_slice())?;
    }
    Ok(())
}

fn put_cell(
    alloc: Global,
    cells: &mut Items<Cell>,
    rail: char,
    text: &[char],
) -> Result<(), AllocError>
    ensures { OnOk result (cells.new ≡ cells.old ++ spec.cell rail text.now ∷ []) }
{
    let text = Items::from_slice(alloc, text)?;
    cells.push(Cell { rail, text })
}

/// Puts a reason behind other lines.
fn put_reason_note(
    alloc: Global,
    cells: &mut Items<Cell>,
    frame: &Frame,
    rail: char,
    word: &str,
    edge: Edge,
) -> Result<(), AllocError>
    ensures { OnOk result (cells.new ≡ cells.old ++ spec.reason_note frame.now rail word.now edge) }
{
    let mut text = Items::new(alloc);
    put(&mut text, word)?;
    put_reason(&mut text, frame.names.as_slice(), edge)?;
    put_note(alloc, cells, frame, rail, 2, text.as_slice())
}

fn put_reason_notes(
    alloc: Global,
    cells: &mut Items<Cell>,
    frame: &Frame,
    rail: char,
    word: &str,
    edges: &[Edge],
) -> Result<(), AllocError>
    ensures { OnOk result (cells.new ≡ cells.old ++ flat_map (spec.reason_note frame.now rail word.now) edges.now) }
{
    for edge in edges {
        put_reason_note(alloc, cells, frame, rail, word, *edge)?;
    }
    Ok(())
}

/// Puts what a session wants, and each reason why it has it not, behind other lines.
fn put_want_notes(
    alloc: Global,
    cells: &mut Items<Cell>,
    frame: &Frame,
    rail: char,
    word: &str,
    want: &Want,
) -> Result<(), AllocError>
    ensures { OnOk result (cells.new ≡ cells.old ++ spec.want_notes frame.now rail word.now want.now) }
{
    let mut text = Items::new(alloc);
    put(&mut text, word)?;
    put_want(alloc, &mut text, frame.tables.as_slice(), want)?;
    put_note(alloc, cells, frame, rail, 2, text.as_slice())?;
    put_reason_notes(alloc, cells, frame, rail, "", want.edges.as_slice())
}

/// Two parts with a blank between them.
fn joined(alloc: Global, first: &[char], second: &[char]) -> Result<Items<char>, AllocError>
    ensures { IfOk result (λ both. both ≡ spec.joined first.now second.now) }
{
    let mut both = Items::new(alloc);
    put_line(&mut both, first)?;
    put(&mut both, " ")?;
    put_line(&mut both, second)?;
    Ok(both)
}

/// Puts two parts behind other lines: on one line where they fit, else the second one beneath.
fn put_joined(
    alloc: Global,
    cells: &mut Items<Cell>,
    frame: &Frame,
    rail: char,
    first: &[char],
    second: &[char],
) -> Result<(), AllocError>
    ensures { OnOk result (cells.new ≡ cells.old ++ spec.joined_notes frame.now rail first.now second.now) }
{
    let both = joined(alloc, first, second)?;
    if both.len() <= width(frame).saturating_sub(2) {
        return put_note(alloc, cells, frame, rail, 2, both.as_slice());
    }
    put_note(alloc, cells, frame, rail, 2, first)?;
    put_note(alloc, cells, frame, rail, 4, second)
}

/// Puts an edge of a ring behind other lines.
fn put_hop_notes(
    alloc: Global,
    cells: &mut Items<Cell>,
    frame: &Frame,
    rail: char,
    hop: &Hop,
) -> Result<(), AllocError>
    ensures { OnOk result (cells.new ≡ cells.old ++ spec.hop_notes frame.now rail hop.now) }
{
    let mut wants = Items::new(alloc);
    put_hop(
        alloc,
        &mut wants,
        frame.names.as_slice(),
        frame.tables.as_slice(),
        hop,
    )?;
    let mut reason = Items::new(alloc);
    put_reason(&mut reason, frame.names.as_slice(), hop.edge)?;
    put_joined(
        alloc,
        cells,
        frame,
        rail,
        wants.as_slice(),
        reason.as_slice(),
    )
}

/// Puts the edges of a ring behind other lines.
fn put_hops(
    alloc: Global,
    cells: &mut Items<Cell>,
    frame: &Frame,
    rail: char,
    hops: &[Hop],
) -> Result<(), AllocError>
    ensures { OnOk result (cells.new ≡ cells.old ++ flat_map (spec.hop_notes frame.now rail) hops.now) }
{
    for hop in hops {
        put_hop_notes(alloc, cells, frame, rail, hop)?;
    }
    Ok(())
}

/// Puts a ring, and each edge of it, behind other lines.
fn put_ring_notes(
    alloc: Global,
    cells: &mut Items<Cell>,
    frame: &Frame,
    rail: char,
    session: u8,
    hops: &[Hop],
) -> Result<(), AllocError>
    ensures { OnOk result (cells.new ≡ cells.old ++ spec.ring_notes frame.now rail session hops.now) }
{
    let mut text = Items::new(alloc);
    put_ring(&mut text, frame.names.as_slice(), session, hops)?;
    put_note(alloc, cells, frame, rail, 2, text.as_slice())?;
    put_hops(alloc, cells, frame, rail, hops)
}

/// Puts why a request was refused behind other lines.
fn put_fault_notes(
    alloc: Global,
    cells: &mut Items<Cell>,
    frame: &Frame,
    session: u8,
    ending: &Ending,
) -> Result<(), AllocError>
    ensures { OnOk result (cells.new ≡ cells.old ++ spec.fault_notes frame.now session ending.now) }
{
    match ending {
        Ending::Ended => Ok(()),
        Ending::Awaits(_) => Ok(()),
        Ending::Loses(hops) => put_ring_notes(alloc, cells, frame, '!', session, hops.as_slice()),
        Ending::Lacks(want) => put_want_notes(alloc, cells, frame, '!', "", want),
    }
}

/// Puts why a session waits behind other lines.
fn put_wait_notes(
    alloc: Global,
    cells: &mut Items<Cell>,
    frame: &Frame,
    word: &str,
    ending: &Ending,
) -> Result<(), AllocError>
    ensures { OnOk result (cells.new ≡ cells.old ++ spec.wait_notes frame.now word.now ending.now) }
{
    match ending {
        Ending::Ended => Ok(()),
        Ending::Awaits(want) => put_want_notes(alloc, cells, frame, ':', word, want),
        Ending::Loses(_) => Ok(()),
        Ending::Lacks(_) => Ok(()),
    }
}

/// What an event is to whom reads a lane.
fn tone(event: &Event) -> Tone
    ensures { result ≡ spec.tone event.now }
{
    match event {
        Event::Sent(_) | Event::Done => Tone::Untold,
        Event::Failed(_) => Tone::Fails,
        Event::Waiting => Tone::Waits,
        Event::NotSent(_) => Tone::Skips,
        Event::Row(_)
        | Event::Rows(_)
        | Event::Inserted(_)
        | Event::Updated(_)
        | Event::Deleted(_)
        | Event::Began
        | Event::Committed
        | Event::RolledBack
        | Event::Locked
        | Event::Set
        | Event::Warned(_)
        | Event::Resumed => Tone::Plain,
    }
}

/// Puts the words of an event, and why it came to it, behind other lines.
fn put_toned(
    alloc: Global,
    cells: &mut Items<Cell>,
    frame: &Frame,
    moment: &Moment,
    tone: Tone,
    words: &[char],
) -> Result<(), AllocError>
    ensures { OnOk result (cells.new ≡ cells.old ++ spec.toned_notes frame.now moment.now.session moment.now.ending tone words.now) }
{
    match tone {
        Tone::Untold => Ok(()),
        Tone::Plain => put_note(alloc, cells, frame, '|', 0, words),
        Tone::Fails => {
            put_note(alloc, cells, frame, '!', 0, words)?;
            put_fault_notes(alloc, cells, frame, moment.session, &moment.ending)
        }
        Tone::Waits => {
            put_note(alloc, cells, frame, ':', 0, words)?;
            put_wait_notes(alloc, cells, frame, "", &moment.ending)
        }
        Tone::Skips => {
            put_note(alloc, cells, frame, ':', 0, words)?;
            put_wait_notes(alloc, cells, frame, "still ", &moment.ending)
        }
    }
}

/// The words of an event, as they are shown, where these are the names of the steps. It fails for want of memory alone.
pub fn words_of(alloc: Global, steps: &[Text], event: &Event) -> Result<Items<char>, AllocError>
    ensures { IfOk result (λ words. words ≡ spec.words steps.now event.now) }
{
    let mut text = String::new(alloc);
    push_event(&mut text, steps, event)?;
    let mut words = Items::new(alloc);
    put_shown(&mut words, text.as_str())?;
    Ok(words)
}

/// Puts an event of a moment, and why it came to it, behind other lines.
fn put_event(
    alloc: Global,
    cells: &mut Items<Cell>,
    frame: &Frame,
    steps: &[Text],
    moment: &Moment,
    event: &Event,
) -> Result<(), AllocError>
    ensures { OnOk result (cells.new ≡ cells.old ++ spec.event_notes frame.now steps.now moment.now event.now) }
{
    let words = words_of(alloc, steps, event)?;
    put_toned(alloc, cells, frame, moment, tone(event), words.as_slice())
}

fn put_events(
    alloc: Global,
    cells: &mut Items<Cell>,
    frame: &Frame,
    steps: &[Text],
    moment: &Moment,
    events: &[Event],
) -> Result<(), AllocError>
    ensures { OnOk result (cells.new ≡ cells.old ++ flat_map (spec.event_notes frame.now steps.now moment.now) events.now) }
{
    for event in events {
        put_event(alloc, cells, frame, steps, moment, event)?;
    }
    Ok(())
}

fn done_rail(status: Status) -> char
    ensures { result ≡ spec.done_rail status }
{
    match status {
        Status::Outside | Status::InBlock(_) => '|',
        Status::Broken => '!',
    }
}

/// Puts that a step is done where nothing else is told.
fn put_done(alloc: Global, cells: &mut Items<Cell>, status: Status) -> Result<(), AllocError>
    ensures { OnOk result (cells.new ≡ spec.or_done status cells.old) }
{
    match cells.as_slice() {
        [] => put_word(alloc, cells, done_rail(status), "done"),
        [_, ..] => Ok(()),
    }
}

fn put_word(
    alloc: Global,
    cells: &mut Items<Cell>,
    rail: char,
    word: &str,
) -> Result<(), AllocError>
    ensures { OnOk result (cells.new ≡ cells.old ++ spec.cell rail word.now ∷ []) }
{
    let mut text = Items::new(alloc);
    put(&mut text, word)?;
    cells.push(Cell { rail, text })
}

/// What a moment tells its session.
pub(crate) fn own_notes(
    alloc: Global,
    frame: &Frame,
    steps: &[Text],
    moment: &Moment,
) -> Result<Items<Cell>, AllocError>
    ensures { IfOk result (λ cells. cells ≡ spec.own_notes frame.now steps.now moment.now) }
{
    let mut cells = Items::new(alloc);
    put_events(
        alloc,
        &mut cells,
        frame,
        steps,
        moment,
        moment.events.events(),
    )?;
    put_done(alloc, &mut cells, moment.status)?;
    Ok(cells)
}

fn put_still(
    alloc: Global,
    cells: &mut Items<Cell>,
    frame: &Frame,
    session: usize,
    rail: char,
    still: &Still,
) -> Result<(), AllocError>
    ensures { OnOk result (cells.new ≡ cells.old ++ spec.still_notes frame.now session rail still.now) }
{
    if usize::from(still.session) != session {
        return Ok(());
    }
    put_reason_notes(alloc, cells, frame, rail, "now ", still.edges.as_slice())
}

/// What is told of a session, whose rail is so, that goes on waiting.
fn still_notes(
    alloc: Global,
    frame: &Frame,
    session: usize,
    rail: char,
    stills: &[Still],
) -> Result<Items<Cell>, AllocError>
    ensures { IfOk result (λ cells. cells ≡ flat_map (spec.still_notes frame.now session rail) stills.now) }
{
    let mut cells = Items::new(alloc);
    for still in stills {
        put_still(alloc, &mut cells, frame, session, rail, still)?;
    }
    Ok(cells)
}

fn put_stale(
    alloc: Global,
    cells: &mut Items<Cell>,
    frame: &Frame,
    steps: &[Text],
    writer: usize,
    session: usize,
    rail: char,
    stale: &Stale,
) -> Result<(), AllocError>
    ensures { OnOk result (cells.new ≡ cells.old ++ spec.stale_notes frame.now steps.now writer session rail stale.now) }
{
    if usize::from(stale.session) != session {
        return Ok(());
    }
    let text = stale_text(alloc, frame, steps, writer, stale)?;
    put_note(alloc, cells, frame, rail, 2, text.as_slice())
}

/// Puts what is told of a session, whose rail is so, and its reads that another one made stale, behind other lines.
fn put_stales(
    alloc: Global,
    cells: &mut Items<Cell>,
    frame: &Frame,
    steps: &[Text],
    writer: usize,
    session: usize,
    rail: char,
    stales: &[Stale],
) -> Result<(), AllocError>
    ensures { OnOk result (cells.new ≡ cells.old ++ flat_map (spec.stale_notes frame.now steps.now writer session rail) stales.now) }
{
    for stale in stales {
        put_stale(alloc, cells, frame, steps, writer, session, rail, stale)?;
    }
    Ok(())
}

/// What a moment of another session tells of this one, whose rail is so.
pub(crate) fn other_notes(
    alloc: Global,
    frame: &Frame,
    steps: &[Text],
    moment: &Moment,
    session: usize,
    rail: char,
) -> Result<Items<Cell>, AllocError>
    ensures { IfOk result (λ cells. cells ≡ (spec.other_lane frame.now steps.now moment.now session rail).lines) }
{
    let mut cells = still_notes(alloc, frame, session, rail, moment.still.as_slice())?;
    put_stales(
        alloc,
        &mut cells,
        frame,
        steps,
        usize::from(moment.session),
        session,
        rail,
        moment.stale.as_slice(),
    )?;
    Ok(cells)
}
