//! What is counted of each number of what states show.

ghost use Rattle.std.specs.Prelude.{◌≡◌, ◌+◌, ◌<◌, ◌^◌, [], IfOk};
ghost use Rattle.std.specs.List.{filter};
ghost use Rattle.schedule_counts.specs.Classes.{total_count};
ghost use Rattle.spec_classes.specs.Tallies.{AreCountable, AreInTurn, AreTallies, is_counted, joined};

use schedule_counts::FinalState;
use std::alloc::{AllocError, Global};

/// How many orders show what a number says, and the least of their ranks.
#[derive(Clone, Copy)]
pub(crate) struct Tally {
    pub number: u32,
    pub count: u64,
    pub first: u64,
}

/// The tally of each number below, of which those that count nothing have no first rank.
pub(crate) fn tallies_of(
    alloc: Global,
    numbers: u32,
    states: &[FinalState],
) -> Result<Vec<Tally>, AllocError>
    requires countable { AreCountable numbers states.now }
    requires few { total_count states.now < 2 ^ 63 }
    ensures { IfOk result (λ tallies. AreTallies numbers states.now tallies.items) }
{
    let mut tallies = empty_tallies(alloc, numbers)?;
    for state in states {
        let tally = &mut tallies[state.shows as usize];
        *tally = joined(*tally, *state);
    }
    Ok(tallies)
}

/// A tally of each number, with nothing in it.
fn empty_tallies(alloc: Global, numbers: u32) -> Result<Vec<Tally>, AllocError>
    ensures { IfOk result (λ tallies. AreTallies numbers [] tallies.items) }
{
    let mut tallies = Vec::new(alloc);
    for number in 0..numbers {
        tallies.push(Tally {
            number,
            count: 0,
            first: 0,
        })?;
    }
    Ok(tallies)
}

/// The tally with the orders of one state more.
fn joined(tally: Tally, state: FinalState) -> Tally
    requires { tally.count + state.count < 2 ^ 63 }
    ensures { result ≡ joined tally state }
{
    let first = if tally.count == 0 || state.first < tally.first {
        state.first
    } else {
        tally.first
    };
    Tally {
        number: tally.number,
        count: tally.count + state.count,
        first,
    }
}

/// The tallies that count something, in the order of their first ranks.
pub(crate) fn in_turn(alloc: Global, tallies: &[Tally]) -> Result<Vec<Tally>, AllocError>
    ensures { IfOk result (λ some. AreInTurn tallies.now some.items) }
{
    let mut some = counted(alloc, tallies)?;
    some.sort_unstable_by_key(|tally: &Tally| tally.first);
    Ok(some)
}

/// The tallies that count something.
fn counted(alloc: Global, tallies: &[Tally]) -> Result<Vec<Tally>, AllocError>
    ensures { IfOk result (λ some. some.items ≡ filter is_counted tallies.now) }
{
    let mut some = Vec::new(alloc);
    for tally in tallies {
        if 0 < tally.count {
            some.push(*tally)?;
        }
    }
    Ok(some)
}
