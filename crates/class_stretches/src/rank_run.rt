//! One run of ranks.

ghost use Rattle.std.specs.Prelude.{◌≡◌, ◌≤◌, [], ◌∷◌, ◌++◌, IfOk, OnOk, length, map};
ghost use Rattle.class_stretches.specs.Stretches.{AreInOrder, AreRunsBy, MayCome, runs_with, run_of};
ghost use Rattle.class_stretches.specs.Counting.{with_run, with_runs};

use crate::list::is_same;
use crate::stretch::Stretch;
use sqlite_items::Items;
use std::alloc::{AllocError, Global};

/// The ranks from the first up to but not the end.
#[derive(Clone, Copy)]
pub struct RankRun {
    /// The first rank.
    pub first: u64,
    /// The rank behind the last one.
    pub end: u64,
}

/// The runs of the ranks of a class, or of those of no known class.
pub(crate) fn runs_in(
    alloc: Global,
    list: &[Stretch],
    class: Option<u32>,
) -> Result<Vec<RankRun>, AllocError>
    ensures { IfOk result (λ runs. map run_of runs.items ≡ runs_with class 0 list.now) }
{
    let mut runs = Vec::new(alloc);
    let mut low = 0;
    for stretch in list {
        push_run(&mut runs, class, low, stretch)?;
        low = stretch.end;
    }
    Ok(runs)
}

/// Adds the run of a stretch that begins here, if it is of this class.
fn push_run(
    runs: &mut Vec<RankRun>,
    class: Option<u32>,
    low: u64,
    stretch: &Stretch,
) -> Result<(), AllocError>
    ensures { OnOk result (map run_of runs.new.items ≡ map run_of runs.old.items ++ runs_with class low (stretch.now ∷ [])) }
{
    if is_same(class, stretch.class) {
        runs.push(RankRun {
            first: low,
            end: stretch.end,
        })?;
    }
    Ok(())
}

/// The runs of the ranks of each of so many classes, in the order of their numbers, in one pass.
pub(crate) fn runs_by(
    alloc: Global,
    list: &[Stretch],
    classes: u32,
) -> Result<Vec<Items<RankRun>>, AllocError>
    requires { AreInOrder 0 list.now classes }
    ensures { IfOk result (λ runs. AreRunsBy list.now classes runs.items) }
{
    let mut all = Vec::with_capacity(alloc, classes as usize)?;
    let mut low = 0;
    for stretch in list {
        put_run(alloc, &mut all, low, stretch)?;
        low = stretch.end;
    }
    Ok(all)
}

/// Puts the run of a stretch that begins here to its class, if that is known.
fn put_run(
    alloc: Global,
    all: &mut Vec<Items<RankRun>>,
    low: u64,
    stretch: &Stretch,
) -> Result<(), AllocError>
    requires { MayCome (length all.old.items) stretch.now.class }
    ensures { OnOk result (all.new.items ≡ with_runs all.old.items low stretch.now) }
{
    let run = RankRun {
        first: low,
        end: stretch.end,
    };
    match stretch.class {
        None => Ok(()),
        Some(class) => put_to(alloc, all, class, run),
    }
}

/// Puts a run to a class, the next one or one that is there.
fn put_to(
    alloc: Global,
    all: &mut Vec<Items<RankRun>>,
    class: u32,
    run: RankRun,
) -> Result<(), AllocError>
    requires { class ≤ length all.old.items }
    ensures { OnOk result (all.new.items ≡ with_run all.old.items class run) }
{
    let place = class as usize;
    if place < all.len() {
        all[place].push(run)?;
        return Ok(());
    }
    all.push(Items::from_slice(alloc, &[run])?)?;
    Ok(())
}
