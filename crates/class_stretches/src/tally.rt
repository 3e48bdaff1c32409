//! The ranks of a class, counted.

ghost use Rattle.std.specs.Prelude.{◌≡◌, ◌<◌, ◌≤◌, [], IfOk, OnOk, length};
ghost use Rattle.class_stretches.specs.Stretches.{AreStretches, MayCome};
ghost use Rattle.class_stretches.specs.Counting.{with_ranks, counted, counted_all, AreBelow, HasOrder};

use crate::stretch::Stretch;
use std::alloc::{AllocError, Global};

/// What is told of a class.
#[derive(Clone, Copy)]
pub struct Tally {
    /// Its least rank.
    pub least: u64,
    /// How many ranks it has.
    pub count: u64,
}

/// The tallies of the classes in the order of their numbers.
pub(crate) fn tallies_of(alloc: Global, list: &[Stretch]) -> Result<Vec<Tally>, AllocError>
    requires stretches { AreStretches 0 list.now }
    requires order { HasOrder list.now }
    ensures { IfOk result (λ tallies. tallies.items ≡ counted_all [] 0 list.now) }
{
    let mut tallies = Vec::new(alloc);
    let mut low = 0;
    for stretch in list {
        count(&mut tallies, low, stretch)?;
        low = stretch.end;
    }
    Ok(tallies)
}

/// Counts the ranks of a stretch that begins here to its class, if that is known.
pub(crate) fn count(tallies: &mut Vec<Tally>, low: u64, stretch: &Stretch) -> Result<(), AllocError>
    requires some { low < stretch.now.end }
    requires class { MayCome (length tallies.old.items) stretch.now.class }
    requires below { AreBelow low tallies.old.items }
    ensures { OnOk result (tallies.new.items ≡ counted tallies.old.items low stretch.now) }
{
    match stretch.class {
        None => Ok(()),
        Some(class) => add(tallies, class, low, stretch.end),
    }
}

/// Counts ranks to a class, the next one or one that is there.
fn add(tallies: &mut Vec<Tally>, class: u32, low: u64, end: u64) -> Result<(), AllocError>
    requires some { low < end }
    requires class { class ≤ length tallies.old.items }
    requires below { AreBelow low tallies.old.items }
    ensures { OnOk result (tallies.new.items ≡ with_ranks tallies.old.items class low end) }
{
    let place = class as usize;
    let count = end - low;
    if place < tallies.len() {
        let tally = &mut tallies[place];
        tally.count += count;
        return Ok(());
    }
    tallies.push(Tally { least: low, count })?;
    Ok(())
}
