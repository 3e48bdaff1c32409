//! The seats of a new board.

ghost use Rattle.std.specs.Prelude.{◌≡◌, ◌-◌, ◌<◌, ◌≤◌, [], vec_len, IfOk};
ghost use Rattle.shard_board.specs.Claiming.{blank_view, blank_parts};
ghost use Rattle.shard_board.specs.Shown.{shown_board};
ghost use Rattle.shard_board.specs.Changes.{IsRowOf, fresh_seat};

use crate::error::MAX_SHARDS;
use crate::plays::Give;
use crate::rule::{Place, Plan, Words};
use crate::seat::Seat;
use std::alloc::{AllocError, Global};

/// A seat of this number in a place where nothing is known yet, with room for all that it will keep.
fn seated(alloc: Global, number: u8, plan: &Plan, place: Place) -> Result<Seat, AllocError>
    requires few { plan.now.shards ≤ MAX_SHARDS }
    requires blank { place.me ≡ (blank_view plan.now number [], []) }
    ensures { IfOk result (λ s. s ≡ fresh_seat (shown_board place.table_id plan.now) number) }
{
    let marks = vec![in alloc; false; plan.shards as usize]?;
    Ok(Seat {
        number,
        turns: 0,
        refused: false,
        marks,
        place,
    })
}

/// Splits all other places from the first one, and gives each a seat.
pub(crate) fn place_all(
    alloc: Global,
    table: &Words,
    mut first: Place,
    plan: &Plan,
) -> Result<Vec<Seat>, AllocError>
    requires table { (first.table_id ≡ table.now.shared.table_id) × (0 < table.now.shared.table_id.words) }
    requires few { (plan.now.shards ≤ MAX_SHARDS) × (0 < plan.now.seats) }
    requires first { first.me ≡ (blank_view plan.now (plan.now.seats - 1) (blank_parts 0 (plan.now.seats - 1)), []) }
    ensures many { IfOk result (λ row. vec_len row ≡ plan.now.seats) }
    ensures fresh { IfOk result (λ row. IsRowOf (shown_board table.now.shared.table_id plan.now) row.items) }
{
    let last = plan.seats - 1;
    let mut row = Vec::with_capacity(alloc, usize::from(plan.seats))?;
    for number in 0..last {
        let place = table.shared.split_seat::<Give>(&mut first);
        row.push(seated(alloc, number, plan, place)?)?;
    }
    row.push(seated(alloc, last, plan, first)?)?;
    Ok(row)
}
