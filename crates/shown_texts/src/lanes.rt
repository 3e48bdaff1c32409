//! The lanes beside each other.

ghost use Rattle.std.specs.Prelude.{◌≡◌, ◌++◌, ◌∷◌, [], ℕ, IfOk, OnOk, flat_map, map, set};
ghost use Rattle.shown_texts.specs.Lanes as spec;

use crate::characters::{put, put_line, put_padded};
use crate::frame::Frame;
use crate::lane::{Cell, Lane, LaneRow};
use crate::names::name_at;
use crate::notes::{other_notes, own_notes};
use line_moments::{Begun, Ending, Manner, Moment, Shown};
use lock_modes::Text;
use machine_model::Status;
use sqlite_items::Items;
use std::alloc::{AllocError, Global};

/// The rail of a session that does not wait.
fn rail_of(status: Status) -> char
    ensures { result ≡ spec.rail_of status }
{
    match status {
        Status::Outside => ' ',
        Status::InBlock(_) => '|',
        Status::Broken => '!',
    }
}

/// The rail of a moment's session behind it.
fn rail_behind(moment: &Moment) -> char
    ensures { result ≡ spec.rail_behind moment.now }
{
    match &moment.ending {
        Ending::Awaits(_) => ':',
        Ending::Ended | Ending::Loses(_) | Ending::Lacks(_) => rail_of(moment.status),
    }
}

/// A session's lane beside a moment, before which its rail is so.
fn lane(
    alloc: Global,
    frame: &Frame,
    steps: &[Text],
    moment: &Moment,
    session: usize,
    rail: char,
) -> Result<Lane, AllocError>
    ensures { IfOk result (λ lane. lane ≡ spec.lane frame.now steps.now moment.now session rail) }
{
    if usize::from(moment.session) == session {
        return own_lane(alloc, frame, steps, moment);
    }
    let lines = other_notes(alloc, frame, steps, moment, session, rail)?;
    Ok(Lane { lines, below: rail })
}

fn own_lane(
    alloc: Global,
    frame: &Frame,
    steps: &[Text],
    moment: &Moment,
) -> Result<Lane, AllocError>
    ensures { IfOk result (λ lane. lane ≡ spec.own_lane frame.now steps.now moment.now) }
{
    let lines = own_notes(alloc, frame, steps, moment)?;
    Ok(Lane {
        lines,
        below: rail_behind(moment),
    })
}

/// The lanes beside a moment, before which the rails are so.
fn lanes_of(
    alloc: Global,
    frame: &Frame,
    steps: &[Text],
    moment: &Moment,
    rails: &[char],
) -> Result<Items<Lane>, AllocError>
    ensures { IfOk result (λ lanes. lanes ≡ spec.lanes_from frame.now steps.now moment.now 0 rails.now) }
{
    let mut lanes = Items::new(alloc);
    for session in 0..rails.len() {
        lanes.push(lane(alloc, frame, steps, moment, session, rails[session])?)?;
    }
    Ok(lanes)
}

/// How many lines the longest lane has.
fn height(lanes: &[Lane]) -> usize
    ensures { result ≡ spec.height lanes.now }
{
    let mut most = 0;
    for lane in lanes {
        most = most.max(lane.lines.len());
    }
    most
}

/// A copy of what stands in a lane so many rows down.
fn cell_at(alloc: Global, lane: &Lane, row: usize) -> Result<Cell, AllocError>
    ensures { IfOk result (λ cell. cell ≡ spec.cell_at row lane.now) }
{
    match lane.lines.as_slice().get(row) {
        Some(cell) => copied(alloc, cell),
        None => Ok(Cell {
            rail: lane.below,
            text: Items::new(alloc),
        }),
    }
}

fn copied(alloc: Global, cell: &Cell) -> Result<Cell, AllocError>
    ensures { IfOk result (λ copy. copy ≡ cell.now) }
{
    let text = Items::from_slice(alloc, cell.text.as_slice())?;
    Ok(Cell {
        rail: cell.rail,
        text,
    })
}

/// What stands in the lanes so many rows down.
fn cells_at(alloc: Global, lanes: &[Lane], row: usize) -> Result<Items<Cell>, AllocError>
    ensures { IfOk result (λ cells. cells ≡ map (spec.cell_at row) lanes.now) }
{
    let mut cells = Items::new(alloc);
    for lane in lanes {
        cells.push(cell_at(alloc, lane, row)?)?;
    }
    Ok(cells)
}

/// At the left something stands in the first row alone.
fn left_at(left: &[char], row: usize) -> &[char]
    ensures { result.now ≡ spec.left_at left.now row }
{
    if row == 0 { left } else { &[] }
}

fn lane_row(alloc: Global, left: &[char], lanes: &[Lane], row: usize) -> Result<LaneRow, AllocError>
    ensures { IfOk result (λ made. made ≡ spec.lane_row left.now lanes.now row) }
{
    let cells = cells_at(alloc, lanes, row)?;
    let left = Items::from_slice(alloc, left)?;
    Ok(LaneRow { left, cells })
}

/// Puts the rows of lanes behind others.
fn put_rows(
    alloc: Global,
    rows: &mut Items<LaneRow>,
    left: &[char],
    lanes: &[Lane],
) -> Result<(), AllocError>
    ensures { OnOk result (rows.new ≡ rows.old ++ spec.rows_of left.now lanes.now) }
{
    for row in 0..height(lanes) {
        rows.push(lane_row(alloc, left_at(left, row), lanes, row)?)?;
    }
    Ok(())
}

/// The name of a step as it stands at the left.
fn step_at(steps: &[Items<char>], step: Option<u8>) -> &[char]
    ensures { result.now ≡ spec.step_at steps.now step }
{
    match step {
        None => &[],
        Some(number) => name_at(steps, usize::from(number)),
    }
}

/// What stands at the left of a moment.
fn left_of<'a>(frame: &'a Frame, moment: &Moment) -> &'a [char]
    ensures { result.now ≡ spec.left_by frame.now.steps moment.now.manner moment.now.step }
{
    match moment.manner {
        Manner::IsSent | Manner::IsNotSent => step_at(frame.steps.as_slice(), moment.step),
        Manner::IsResumed => &[],
    }
}

/// Puts the rows of a moment, before which the rails are so, behind others.
fn put_moment(
    alloc: Global,
    rows: &mut Items<LaneRow>,
    frame: &Frame,
    steps: &[Text],
    rails: &[char],
    moment: &Moment,
) -> Result<(), AllocError>
    ensures { OnOk result (rows.new ≡ rows.old ++ spec.moment_rows frame.now steps.now rails.now moment.now) }
{
    let lanes = lanes_of(alloc, frame, steps, moment, rails)?;
    put_rows(alloc, rows, left_of(frame, moment), lanes.as_slice())
}

/// Sets a session's rail, if it has one.
fn set_rail(rails: &mut Items<char>, session: usize, rail: char)
    ensures { rails.new ≡ set rails.old session rail }
{
    if session < rails.len() {
        rails.set(session, rail);
    }
}

/// Puts the rows of moments, before which the rails are so, behind others.
fn put_moments(
    alloc: Global,
    rows: &mut Items<LaneRow>,
    frame: &Frame,
    steps: &[Text],
    rails: &mut Items<char>,
    moments: &[Moment],
) -> Result<(), AllocError>
    ensures { OnOk result (rows.new ≡ rows.old ++ spec.all_rows frame.now steps.now rails.old moments.now) }
{
    for moment in moments {
        put_moment(alloc, rows, frame, steps, rails.as_slice(), moment)?;
        set_rail(rails, usize::from(moment.session), rail_behind(moment));
    }
    Ok(())
}

/// The rails before the first moment.
fn begun_rails(alloc: Global, begun: &[Begun]) -> Result<Items<char>, AllocError>
    ensures { IfOk result (λ rails. rails ≡ map spec.begun_rail begun.now) }
{
    let mut rails = Items::new(alloc);
    for one in begun {
        rails.push(rail_of(one.status))?;
    }
    Ok(rails)
}

/// The rows of a line's moments.
pub(crate) fn rows(
    alloc: Global,
    frame: &Frame,
    steps: &[Text],
    shown: &Shown,
) -> Result<Items<LaneRow>, AllocError>
    ensures { IfOk result (λ rows. rows ≡ spec.rows frame.now steps.now shown.now) }
{
    let mut rails = begun_rails(alloc, shown.begun.as_slice())?;
    let mut rows = Items::new(alloc);
    put_moments(
        alloc,
        &mut rows,
        frame,
        steps,
        &mut rails,
        shown.moments.as_slice(),
    )?;
    Ok(rows)
}

/// Puts a line of a lane behind a line.
fn put_cell(
    alloc: Global,
    line: &mut Items<char>,
    frame: &Frame,
    cell: &Cell,
) -> Result<(), AllocError>
    ensures { OnOk result (line.new ≡ line.old ++ spec.cell_text frame.now cell.now) }
{
    let mut text = Items::new(alloc);
    text.push(cell.rail)?;
    text.push(' ')?;
    put_line(&mut text, cell.text.as_slice())?;
    put_padded(line, frame.column, text.as_slice())
}

fn put_cells(
    alloc: Global,
    line: &mut Items<char>,
    frame: &Frame,
    cells: &[Cell],
) -> Result<(), AllocError>
    ensures { OnOk result (line.new ≡ line.old ++ flat_map (spec.cell_text frame.now) cells.now) }
{
    for cell in cells {
        put_cell(alloc, line, frame, cell)?;
    }
    Ok(())
}

/// The line of a row.
pub(crate) fn row_line(
    alloc: Global,
    frame: &Frame,
    row: &LaneRow,
) -> Result<Items<char>, AllocError>
    ensures { IfOk result (λ line. line ≡ spec.row_text frame.now row.now) }
{
    let mut line = Items::new(alloc);
    put_padded(&mut line, frame.left, row.left.as_slice())?;
    put(&mut line, " ")?;
    put_cells(alloc, &mut line, frame, row.cells.as_slice())?;
    Ok(line)
}
