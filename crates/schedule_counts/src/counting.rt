//! The states in which the orders of a spec end, counted.

ghost use Rattle.std.specs.Prelude.{◌≡◌, ◌<◌, ◌≤◌, ◌^◌, [], IfOk, IsErrOf};
ghost use Rattle.bound_specs.specs.Spec.{queues_of};
ghost use Rattle.session_steps.specs.Refused.{IsRefusedBy};
ghost use Rattle.session_steps.specs.declared.error.StartError.{StartError};
ghost use Rattle.spec_schedules.specs.Schedules.{permutations};
ghost use Rattle.spec_schedules.specs.Points.{start_point};
ghost use Rattle.schedule_counts.specs.declared.counting.StatesError.TheVariants.{Memory, Start};
ghost use Rattle.machine_model.specs.World.{World};
ghost use Rattle.machine_model.specs.Start.{Started, start};
ghost use Rattle.schedule_counts.specs.Classes.{AreClasses};
ghost use Rattle.schedule_counts.specs.States.{AreFinalStates, AreOver, AreStatesOf, IsOverAt, IsStateOf, error_of};

use crate::laws::sums_are_exact;
use crate::place::Place;
use crate::search::Search;
use crate::watch::{Watch, Watched};
use binding_model::Table;
use bound_specs::Spec;
use different_shows::Different;
use marked_worlds::MarkedWorld;
use numbered_specs::SpecNumbers;
use path_counts::CountError;
use session_steps::StartError;
use spec_schedules::{Kind, no_order_leads_back, orders_are_few, orders_are_words};
use std::alloc::{AllocError, Global};
use std::sync::Arc;
use world_graph::{ExploreError, Final, ScheduleError, finals};

/// A state in which orders end: no further step may come.
#[derive(Clone, Copy, Debug)]
pub struct FinalState {
    /// Its number among the states that were noted.
    pub state: usize,
    /// The number of what it shows.
    pub shows: u32,
    /// How many orders end in it, 1 at least. All counts of a spec have a sum below 2^63.
    pub count: u64,
    /// The least rank of these orders: the rank of an order is that of the least permutation that begins with it.
    pub first: u64,
}

/// The states in which the orders of a spec end, with what they show.
pub struct FinalStates {
    /// What the states show, each once, in the order of numbers.
    pub shows: Different,
    pub states: Vec<FinalState>,
}

// Written out and not derived, so that who owns one calls this and does not let its parts go one by one.
impl Drop for FinalStates {
    fn drop(self) {
        let FinalStates {
            shows: _shows,
            states: _states,
        } = self;
    }
}

/// Why the states are not counted.
#[derive(Clone, Copy, Debug)]
pub enum StatesError {
    /// The spec does not start.
    Start(StartError),
    /// There is no room for more than so many states, which were noted.
    TooMany(u64),
    /// Out of memory.
    Memory,
}

impl From<AllocError> for StatesError {
    ghost from_gives = { λ _ e. e ≡ Memory };

    fn from(_error: AllocError) -> StatesError {
        StatesError::Memory
    }
}

impl From<StartError> for StatesError {
    ghost from_gives = { λ x e. e ≡ Start x };

    fn from(error: StartError) -> StatesError {
        StatesError::Start(error)
    }
}

/// So many worlds have numbers.
const MOST_WORLDS: usize = 0xffff_ffff;

/// Counts the orders of a spec without permutation lines, with these tables, by the states in which they end. Worlds are noted while those that were noted take
/// fewer bytes than `room`, together with what their classes will take.
pub fn final_states<'a, W: Watch>(
    alloc: Global,
    spec: &'a Spec,
    tables: &'a [Table],
    kind: Kind,
    room: usize,
    watch: &'a W,
) -> Result<FinalStates, StatesError>
    requires { spec.now.run.lines ≡ [] }
    ensures counted { IfOk result (λ found. (w : World) × (start spec.now.run ≡ Started w) × AreFinalStates kind tables.now spec.now.run w found.shows found.states.items × AreClasses kind tables.now spec.now.run w found.shows found.states.items) }
    ensures refused { (error : StartError) → IsErrOf result (StatesError.Start error) → IsRefusedBy error (start spec.now.run) }
{
    let search = started(alloc, spec, tables, kind, room)?;
    let mut watched = Watched {
        search,
        watch,
        steps: 0,
    };
    no_order_leads_back();
    orders_are_few();
    orders_are_words();
    sums_are_exact();
    let counted = finals(alloc, &mut watched, MOST_WORLDS);
    watch.ended();
    match counted {
        Ok(finals) => Ok(found(alloc, watched.search, finals.as_slice())?),
        Err(error) => {
            let search = &watched.search;
            Err(states_error(error, search.is_full(), search.noted()))
        }
    }
}

/// The search at the start of a spec.
fn started<'a>(
    alloc: Global,
    spec: &'a Spec,
    tables: &'a [Table],
    kind: Kind,
    room: usize,
) -> Result<Search<'a>, StatesError>
    requires { spec.now.run.lines ≡ [] }
    ensures point { IfOk result (λ search. (w : World) × (start spec.now.run ≡ Started w) × (search.point ≡ start_point kind spec.now.run w)) }
    ensures file { IfOk result (λ search. search.file ≡ spec.now) }
    ensures tables { IfOk result (λ search. search.tables ≡ tables.now) }
    ensures few { IfOk result (λ search. permutations (queues_of spec.now.run) < 2 ^ 63) }
    ensures sessions { spec.now.run.sessions ≤ 8 }
    ensures refused { (error : StartError) → IsErrOf result (StatesError.Start error) → IsRefusedBy error (start spec.now.run) }
{
    let _sessions = spec.sessions(); // for the proof
    let Some(shape) = spec.shape() else {
        return Err(StatesError::Memory);
    };
    let _words = shape.count(); // for the proof
    let numbers = SpecNumbers::of_spec(alloc, spec)?;
    let numbers = shared(alloc, numbers)?;
    let machine = MarkedWorld::start(alloc, spec, numbers)?;
    Ok(Search {
        alloc,
        machine,
        tables,
        kind,
        place: Place::start(spec, shape),
        marks: Vec::new(alloc),
        noted: Vec::new(alloc),
        shown: Different::new(alloc),
        room,
    })
}

fn shared(alloc: Global, numbers: SpecNumbers) -> Result<Arc<SpecNumbers>, AllocError>
    ensures { IfOk result (λ shared. shared.value ≡ numbers) }
{
    Ok(Arc::new(alloc, numbers)?)
}

/// The states of final nodes, and what they show.
fn found(alloc: Global, search: Search<'_>, finals: &[Final]) -> Result<FinalStates, AllocError>
    requires { AreOver search.seen finals.now }
    ensures { IfOk result (λ found. AreStatesOf search.entry.tables search.entry.seen found.shows finals.now found.states.items) }
{
    let states = states_of(alloc, &search, finals)?;
    Ok(FinalStates {
        shows: search.shown,
        states,
    })
}

/// The states of final nodes.
fn states_of(
    alloc: Global,
    search: &Search<'_>,
    finals: &[Final],
) -> Result<Vec<FinalState>, AllocError>
    requires { AreOver search.now.seen finals.now }
    ensures { IfOk result (λ states. AreStatesOf search.now.tables search.now.seen search.now.shown finals.now states.items) }
{
    let mut states = Vec::new(alloc);
    for place in 0..finals.len() {
        states.push(state_of(search, finals[place]))?;
    }
    Ok(states)
}

/// The state of a final node.
fn state_of(search: &Search<'_>, end: Final) -> FinalState
    requires { IsOverAt search.now.seen end }
    ensures { IsStateOf search.now.tables search.now.seen search.now.shown end result }
{
    let shows = search.shows_at(end.node).unwrap();
    FinalState {
        state: end.node,
        shows,
        count: end.count,
        first: end.least,
    }
}

/// Why there are no states, where so many worlds were noted. No world leads back to itself, and all numbers fit.
fn states_error(error: ScheduleError, is_full: bool, noted: u64) -> StatesError
    requires circle { error ≡ ScheduleError.Explore ExploreError.Circle → ⊥ }
    requires large { error ≡ ScheduleError.Count CountError.TooLarge → ⊥ }
    ensures { result ≡ error_of error is_full noted }
{
    match error {
        ScheduleError::Explore(ExploreError::TooMany) => StatesError::TooMany(noted),
        ScheduleError::Explore(ExploreError::Refusal) if is_full => StatesError::TooMany(noted),
        ScheduleError::Explore(ExploreError::Circle) | ScheduleError::Count(CountError::TooLarge) =>
            { unreachable!() }
        _ => StatesError::Memory,
    }
}
