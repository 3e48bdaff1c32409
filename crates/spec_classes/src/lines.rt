//! What the orders of ranks show, each run by itself.

ghost use mathlib.Core.List.{IsPrefix};
ghost use Rattle.std.specs.Prelude.{◌≡◌, ◌<◌, All, length, IfOk, OnOk, Some, slice_get};
ghost use Rattle.bound_specs.specs.Spec.{ranks as count_of};
ghost use Rattle.spec_schedules.specs.declared.kind.Kind.{Kind};
ghost use Rattle.spec_classes.specs.Classes.{drawn};
ghost use Rattle.spec_classes.specs.Showing.{IsAtStart};
ghost use Rattle.spec_classes.specs.Told.{AreOfLines, IsOfLine};

use crate::showing::{shown_by, within};
use binding_model::Table;
use bound_specs::Spec;
use different_shows::Different;
use marked_worlds::MarkedWorld;
use schedule_counts::FinalState;
use session_steps::SendError;
use std::alloc::Global;

/// What the orders of ranks show, each in a state of its own, with the numbers that the shown have.
pub(crate) struct LineStates {
    pub shows: Different,
    pub states: Vec<FinalState>,
}

// Written out and not derived, so that who owns one calls this and does not let its parts go one by one.
impl Drop for LineStates {
    fn drop(self) {
        let LineStates {
            shows: _shows,
            states: _states,
        } = self;
    }
}

/// Runs the orders of these ranks, if their classes take no more than `room` bytes.
pub(crate) fn line_states(
    alloc: Global,
    world: &mut MarkedWorld<'_>,
    spec: &Spec,
    tables: &[Table],
    ranks: &[u64],
    room: usize,
) -> Result<LineStates, SendError>
    requires at { IsAtStart spec.now world.old }
    requires inside { All (λ r. r < count_of spec.now.run) ranks.now }
    ensures states { (kind : Kind) → IfOk result (λ found. AreOfLines tables.now (drawn spec.now.run ranks.now) kind found.shows (length ranks.now) found.states.items) }
    ensures back { OnOk result (IsAtStart spec.now world.new) }
{
    let mut shows = Different::new(alloc);
    let mut states = Vec::new(alloc);
    for place in 0..ranks.len() {
        states.reserve(1)?;
        let state = line_state(alloc, world, spec, tables, ranks, place, &mut shows)?;
        states.push_reserved(state);
        within(room, &shows)?;
    }
    Ok(LineStates { shows, states })
}

/// Runs the order of the rank at a place.
fn line_state(
    alloc: Global,
    world: &mut MarkedWorld<'_>,
    spec: &Spec,
    tables: &[Table],
    ranks: &[u64],
    place: usize,
    shows: &mut Different,
) -> Result<FinalState, SendError>
    requires at { IsAtStart spec.now world.old }
    requires inside { All (λ r. r < count_of spec.now.run) ranks.now }
    requires place { place < length ranks.now }
    ensures state { (kind : Kind) → IfOk result (IsOfLine tables.now (drawn spec.now.run ranks.now) kind shows.new place) }
    ensures more { IsPrefix shows.old shows.new }
    ensures back { OnOk result (IsAtStart spec.now world.new) }
{
    let Some(line) = spec.line(ranks[place]) else {
        unreachable!()
    };
    let shown = shown_by(alloc, world, spec, tables, line.as_slice())?;
    let number = shows.number(&shown)?;
    Ok(FinalState {
        state: place,
        shows: number,
        count: 1,
        first: place as u64,
    })
}
