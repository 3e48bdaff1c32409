//! What a world shows behind a line.

ghost use Rattle.std.specs.Prelude.{◌≡◌, ◌<◌, map, false, slice_get, Some, IfOk, OnOk};
ghost use Rattle.machine_model.specs.World.{outcome_of};
ghost use Rattle.row_tables.specs.Layers.{rows_of};
ghost use Rattle.line_moments.specs.Left.{left_in, standing_of, standings};
ghost use Rattle.order_classes.specs.Shows.{rest_of, seen, shows_in};
ghost use Rattle.world_shows.specs.Parts.{at_zero, rest_by};

use binding_model::Table;
use finite_maps::Fork;
use line_moments::TableRows;
use lock_modes::Value;
use machine_model::Status;
use marked_worlds::MarkedWorld;
use order_classes::{Rest, Shows};
use session_steps::SendError;
use sqlite_items::Items;
use std::alloc::{AllocError, Global};

/// What the world shows: what its sessions were told, the rows that are left, and how the sessions stand. A spent world shows nothing.
pub fn shows_of(
    alloc: Global,
    world: &mut MarkedWorld<'_>,
    tables: &[Table],
) -> Result<Shows, SendError>
    ensures shows { IfOk result (λ shows. shows ≡ shows_in tables.now world.old.file.run.sessions world.old.world) }
    ensures whole { OnOk result (world.old.spent ≡ false) }
    ensures same { world.new ≡ record world.old { told = world.new.told } }
{
    let number = world.outcome()?;
    let shows = shows_told(alloc, world, number, tables)?;
    Ok(shows)
}

/// What a world shows whose outcome has this number.
fn shows_told(
    alloc: Global,
    world: &MarkedWorld<'_>,
    number: usize,
    tables: &[Table],
) -> Result<Shows, AllocError>
    requires whole { world.now.spent ≡ false }
    requires told { slice_get world.now.told number ≡ Some (outcome_of world.now.file.run.sessions world.now.world) }
    ensures { IfOk result (λ shows. shows ≡ shows_in tables.now world.now.file.run.sessions world.now.world) }
{
    let told = world.told(number).fork()?;
    let left = left_behind(alloc, world, tables)?;
    let rests = rests_behind(alloc, world)?;
    Ok(Shows { told, left, rests })
}

/// What is seen of the rows that are left.
fn left_behind(
    alloc: Global,
    world: &MarkedWorld<'_>,
    tables: &[Table],
) -> Result<Items<TableRows>, AllocError>
    requires { world.now.spent ≡ false }
    ensures { IfOk result (λ left. left ≡ map seen (left_in tables.now world.now.world)) }
{
    let mut all = Items::new(alloc);
    for number in 0..tables.len() {
        let rows = seen_in(alloc, world, &tables[number], number)?;
        all.push(rows)?;
    }
    Ok(all)
}

/// The rows of the table with this number, as its readers see them.
fn seen_in(
    alloc: Global,
    world: &MarkedWorld<'_>,
    table: &Table,
    number: usize,
) -> Result<TableRows, AllocError>
    requires { world.now.spent ≡ false }
    ensures { IfOk result (λ rows. rows ≡ seen (record { table = table.now; rows = rows_of number world.now.world.rows })) }
{
    // No file has room for so many tables.
    let Ok(number) = u16::try_from(number) else {
        return Err(AllocError);
    };
    match table.key() {
        Some(_) => rows_behind(alloc, world, number),
        None => unnumbered(alloc, world, number),
    }
}

/// The rows of a table in the order of their keys.
fn rows_behind(alloc: Global, world: &MarkedWorld<'_>, table: u16) -> Result<TableRows, AllocError>
    requires { world.now.spent ≡ false }
    ensures { IfOk result (λ rows. rows ≡ rows_of table world.now.world.rows) }
{
    let mut rows = Vec::new(alloc);
    for (key, row) in world.committed(table) {
        let key = key.fork()?;
        let row = row.fork()?;
        rows.push((key, row))?;
    }
    let seen = TableRows::from_rows(rows)?;
    Ok(seen)
}

/// The rows of a table, each at 0.
fn unnumbered(alloc: Global, world: &MarkedWorld<'_>, table: u16) -> Result<TableRows, AllocError>
    requires { world.now.spent ≡ false }
    ensures { IfOk result (λ rows. rows ≡ map at_zero (rows_of table world.now.world.rows)) }
{
    let mut rows = Vec::new(alloc);
    for (_key, row) in world.committed(table) {
        let row = row.fork()?;
        rows.push((Value::Int(0), row))?;
    }
    let seen = TableRows::from_rows(rows)?;
    Ok(seen)
}

/// How sessions stand, in their order.
fn rests_behind(alloc: Global, world: &MarkedWorld<'_>) -> Result<Items<Rest>, AllocError>
    requires { world.now.spent ≡ false }
    ensures { IfOk result (λ rests. rests ≡ map rest_of (standings world.now.file.run.sessions world.now.world)) }
{
    let mut rests = Items::new(alloc);
    for session in 0..world.spec().sessions() {
        rests.push(rest_of(world, session))?;
    }
    Ok(rests)
}

/// How a session stands.
fn rest_of(world: &MarkedWorld<'_>, session: u8) -> Rest
    requires whole { world.now.spent ≡ false }
    requires session { session < world.now.file.run.sessions }
    ensures { result ≡ rest_of (standing_of world.now.world session) }
{
    if world.waits(session) {
        return Rest::StillWaits;
    }
    rest_outside(world.status(session))
}

/// How a session stands that does not wait.
fn rest_outside(status: Status) -> Rest
    ensures { result ≡ rest_by status }
{
    match status {
        Status::Outside => Rest::HasEnded,
        Status::InBlock(_) => Rest::IsOpen,
        Status::Broken => Rest::HasFailed,
    }
}
