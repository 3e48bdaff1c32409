//! The classes of the orders that states tell of.

ghost use Rattle.std.specs.Prelude.{◌≡◌, length, All, IfOk, OnOk};
ghost use Rattle.spec_classes.specs.Meant.{AreMeant, run_by};
ghost use Rattle.spec_classes.specs.Showing.{IsAtStart};
ghost use Rattle.spec_classes.specs.Tallies.{AreClassesBy, AreTellable, AreToldBy, IsFound, IsToldBy};

use crate::classes::OrderClass;
use crate::leading::order_at;
use crate::orders::Orders;
use crate::tallies::{Tally, in_turn, tallies_of};
use bound_specs::Spec;
use different_shows::Different;
use marked_worlds::MarkedWorld;
use order_classes::Shows;
use schedule_counts::FinalState;
use session_steps::SendError;
use std::alloc::Global;

/// A class of each number that a state shows, in the order of their first ranks.
pub(crate) fn told_classes(
    alloc: Global,
    world: &mut MarkedWorld<'_>,
    spec: &Spec,
    orders: Orders<'_>,
    shows: &Different,
    states: &[FinalState],
) -> Result<Vec<OrderClass>, SendError>
    requires at { IsAtStart spec.now world.old }
    requires meant { AreMeant spec.now.run orders }
    requires tellable { AreTellable orders.kind (run_by spec.now.run orders) (length shows.now) states.now }
    ensures { IfOk result (λ classes. AreClassesBy orders.entry.kind (run_by spec.now.run orders.entry) shows.now states.now classes.items) }
{
    let shown = shows.shows();
    // No memory has room for so many.
    let Ok(numbers) = u32::try_from(shown.len()) else {
        return Err(SendError::NoMemory);
    };
    let tallies = tallies_of(alloc, numbers, states)?;
    let turn = in_turn(alloc, &tallies)?;
    classes_by(alloc, world, spec, orders, shown, &turn)
}

/// A class of each of these tallies.
fn classes_by(
    alloc: Global,
    world: &mut MarkedWorld<'_>,
    spec: &Spec,
    orders: Orders<'_>,
    shown: &[Shows],
    tallies: &[Tally],
) -> Result<Vec<OrderClass>, SendError>
    requires at { IsAtStart spec.now world.old }
    requires meant { AreMeant spec.now.run orders }
    requires found { All (IsFound orders.kind (run_by spec.now.run orders) shown.now) tallies.now }
    ensures { IfOk result (λ classes. AreToldBy orders.entry.kind (run_by spec.now.run orders.entry) shown.now tallies.now classes.items) }
{
    let mut classes = Vec::new(alloc);
    for tally in tallies {
        classes.reserve(1)?;
        let class = class_of(alloc, world, spec, orders, shown, *tally)?;
        classes.push_reserved(class);
    }
    Ok(classes)
}

/// The class of a tally.
fn class_of(
    alloc: Global,
    world: &mut MarkedWorld<'_>,
    spec: &Spec,
    orders: Orders<'_>,
    shown: &[Shows],
    tally: Tally,
) -> Result<OrderClass, SendError>
    requires at { IsAtStart spec.now world.old }
    requires meant { AreMeant spec.now.run orders }
    requires found { IsFound orders.kind (run_by spec.now.run orders) shown.now tally }
    ensures class { IfOk result (IsToldBy orders.entry.kind (run_by spec.now.run orders.entry) shown.now tally) }
    ensures back { OnOk result (IsAtStart spec.now world.new) }
{
    let line = order_at(world, spec, orders, tally.first)?;
    let shows = shown[tally.number as usize].copied(alloc)?;
    Ok(OrderClass {
        shows,
        count: tally.count,
        first: tally.first,
        line,
    })
}
