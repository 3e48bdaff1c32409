//! Orders in classes.

ghost use Rattle.std.specs.Prelude.{◌≡◌, ◌≢◌, ◌<◌, ◌^◌, ℕ, [], All, IfOk, IsErrOf, length};
ghost use Rattle.bound_specs.specs.Spec.{ranks as count_of};
ghost use Rattle.machine_model.specs.World.{World};
ghost use Rattle.machine_model.specs.Start.{Started, start};
ghost use Rattle.session_steps.specs.Refused.{IsRefusedBy};
ghost use Rattle.session_steps.specs.declared.error.StartError.{StartError};
ghost use Rattle.schedule_counts.specs.declared.counting.StatesError.TheVariants.{Start, TooMany};
ghost use Rattle.schedule_counts.specs.Classes.{AreClasses};
ghost use Rattle.schedule_counts.specs.States.{AreFinalStates};
ghost use Rattle.spec_classes.specs.Classes.{AreClassesOf, drawn};
ghost use Rattle.spec_classes.specs.Showing.{IsAtStart};

use crate::lines::line_states;
use crate::orders::Orders;
use crate::start::started;
use crate::telling::told_classes;
use binding_model::Table;
use bound_specs::{Line, Spec};
use marked_worlds::MarkedWorld;
use order_classes::Shows;
use schedule_counts::{FinalStates, StatesError, Watch, final_states};
use session_steps::SendError;
use spec_schedules::{Kind, each_order_has_a_rank, ranks_are_unique};
use std::alloc::{AllocError, Global};

/// A class of orders: all those that show the same.
pub struct OrderClass {
    pub shows: Shows,
    /// How many orders show it, 1 at least.
    pub count: u64,
    /// The least rank of these orders.
    pub first: u64,
    /// The steps of the order of that rank.
    pub line: Line,
}

// Written out and not derived, so that who owns one calls this and does not let its parts go one by one.
impl Drop for OrderClass {
    fn drop(self) {
        let OrderClass {
            shows: _shows,
            count: _,
            first: _,
            line: _line,
        } = self;
    }
}

/// The orders of this kind of a spec with these tables, in classes in the order of their first ranks. Of a spec with permutation lines these are the orders.
/// At most `room` bytes are taken by the different states that are noted, and by classes.
pub fn classes_of<W: Watch>(
    alloc: Global,
    spec: &Spec,
    tables: &[Table],
    kind: Kind,
    room: usize,
    watch: &W,
) -> Result<Vec<OrderClass>, StatesError>
    ensures classes { IfOk result (λ classes. AreClassesOf kind tables.now spec.now.run classes.items) }
    ensures starts { IfOk result (λ _. (w : World) × (start spec.now.run ≡ Started w)) }
    ensures many { (noted : ℕ) → IsErrOf result (TooMany noted) → (spec.now.run.lines ≡ []) × ((w : World) × (start spec.now.run ≡ Started w)) }
    ensures refused { (error : StartError) → IsErrOf result (StatesError.Start error) → IsRefusedBy error (start spec.now.run) }
{
    let mut world = match started(alloc, spec) {
        Ok(world) => world,
        Err(error) => return Err(error),
    };
    if spec.has_lines() {
        return match line_classes(alloc, &mut world, spec, tables, kind, room) {
            Ok(classes) => Ok(classes),
            Err(_) => Err(StatesError::Memory),
        };
    }
    let found = match final_states(alloc, spec, tables, kind, room, watch) {
        Ok(found) => found,
        Err(error) => return Err(error),
    };
    match word_classes(alloc, &mut world, spec, tables, kind, &found) {
        Ok(classes) => Ok(classes),
        Err(_) => Err(StatesError::Memory),
    }
}

/// The orders of these ranks of a spec in classes, each run by itself: the rank of an order is its place among them. A rank that stands there twice counts twice.
/// Classes that take more than `room` bytes are refused as if memory had run out.
pub fn drawn_classes(
    alloc: Global,
    spec: &Spec,
    tables: &[Table],
    kind: Kind,
    ranks: &[u64],
    room: usize,
) -> Result<Vec<OrderClass>, StatesError>
    requires inside { All (λ r. r < count_of spec.now.run) ranks.now }
    requires some { ranks.now ≢ [] }
    requires few { length ranks.now < 2 ^ 63 }
    ensures classes { IfOk result (λ classes. AreClassesOf kind tables.now (drawn spec.now.run ranks.now) classes.items) }
    ensures starts { IfOk result (λ _. (w : World) × (start spec.now.run ≡ Started w)) }
    ensures few { (noted : ℕ) → IsErrOf result (TooMany noted) → ⊥ }
    ensures refused { (error : StartError) → IsErrOf result (StatesError.Start error) → IsRefusedBy error (start spec.now.run) }
{
    let mut world = match started(alloc, spec) {
        Ok(world) => world,
        Err(error) => return Err(error),
    };
    match rank_classes(alloc, &mut world, spec, tables, kind, ranks, room) {
        Ok(classes) => Ok(classes),
        Err(_) => Err(StatesError::Memory),
    }
}

/// The classes of the lines of a spec.
fn line_classes(
    alloc: Global,
    world: &mut MarkedWorld<'_>,
    spec: &Spec,
    tables: &[Table],
    kind: Kind,
    room: usize,
) -> Result<Vec<OrderClass>, SendError>
    requires at { IsAtStart spec.now world.old }
    requires lines { spec.now.run.lines ≢ [] }
    ensures { IfOk result (λ classes. AreClassesOf kind tables.now spec.now.run classes.items) }
{
    spec.ready();
    let ranks = line_ranks(alloc, spec)?;
    rank_classes(alloc, world, spec, tables, kind, &ranks, room)
}

/// The ranks of the permutation lines of a spec.
fn line_ranks(alloc: Global, spec: &Spec) -> Result<Vec<u64>, AllocError>
    requires { spec.now.run.lines ≢ [] }
    ensures inside { IfOk result (λ ranks. All (λ r. r < count_of spec.now.run) ranks.items) }
    ensures all { IfOk result (λ ranks. drawn spec.now.run ranks.items ≡ spec.now.run) }
{
    let mut ranks = Vec::new(alloc);
    for rank in 0..spec.ranks() {
        ranks.push(rank)?;
    }
    Ok(ranks)
}

/// The classes of the orders of ranks.
fn rank_classes(
    alloc: Global,
    world: &mut MarkedWorld<'_>,
    spec: &Spec,
    tables: &[Table],
    kind: Kind,
    ranks: &[u64],
    room: usize,
) -> Result<Vec<OrderClass>, SendError>
    requires at { IsAtStart spec.now world.old }
    requires inside { All (λ r. r < count_of spec.now.run) ranks.now }
    requires some { ranks.now ≢ [] }
    requires few { length ranks.now < 2 ^ 63 }
    ensures { IfOk result (λ classes. AreClassesOf kind tables.now (drawn spec.now.run ranks.now) classes.items) }
{
    let found = line_states(alloc, world, spec, tables, ranks, room)?;
    found.shows.known();
    ranks_are_unique();
    let orders = Orders {
        kind,
        ranks: Some(ranks),
    };
    told_classes(alloc, world, spec, orders, &found.shows, &found.states)
}

/// The classes of orders by the states in which they end.
fn word_classes(
    alloc: Global,
    world: &mut MarkedWorld<'_>,
    spec: &Spec,
    tables: &[Table],
    kind: Kind,
    found: &FinalStates,
) -> Result<Vec<OrderClass>, SendError>
    requires at { IsAtStart spec.now world.old }
    requires words { spec.now.run.lines ≡ [] }
    requires counted { (w : World) × (start spec.now.run ≡ Started w) × AreFinalStates kind tables.now spec.now.run w found.now.shows found.now.states.items × AreClasses kind tables.now spec.now.run w found.now.shows found.now.states.items }
    ensures { IfOk result (λ classes. AreClassesOf kind tables.now spec.now.run classes.items) }
{
    spec.ready();
    found.shows.known();
    each_order_has_a_rank();
    ranks_are_unique();
    let orders = Orders { kind, ranks: None };
    told_classes(alloc, world, spec, orders, &found.shows, &found.states)
}
