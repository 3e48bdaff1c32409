//! The runs of two books as those of one.

ghost use Rattle.std.specs.Prelude.{◌≡◌, IfOk, length, map, ◌≤◌, ◌<◌, true, false};
ghost use Rattle.fact_books.specs.Runs.{AddsAll, KeepsAllSound, KeepsAllFrom, firsts, IsRising, AllSound, LeftIsNext, RightIsNext, renamed};

use crate::run::{Run, Tag, add_run};
use rank_facts::MAX_PLACES;
use std::alloc::{AllocError, Global};

/// Where the last run of each tag went, so that a run can grow there. No fact depends on its answers.
#[derive(Drop)]
struct Hints {
    ran: Vec<usize>,
    swap: [usize; MAX_PLACES],
}

impl Hints {
    fn of(&self, tag: Tag) -> usize {
        match tag {
            Tag::Ran(n) if (n as usize) < self.ran.len() => self.ran[n as usize],
            Tag::Ran(_) => 0,
            Tag::Swap(k) => self.swap[k as usize],
        }
    }

    fn note(&mut self, tag: Tag, at: usize) {
        match tag {
            Tag::Ran(n) => {
                if (n as usize) < self.ran.len() {
                    self.ran[n as usize] = at;
                }
            }
            Tag::Swap(k) => self.swap[k as usize] = at,
        }
    }
}

fn is_left_next(left: &[Run], i: usize, right: &[Run], j: usize) -> bool
    requires left_bound { i ≤ length left.now }
    requires right_bound { j ≤ length right.now }
    ensures yes { result ≡ true → LeftIsNext left.now i right.now j }
    ensures no { result ≡ false → i < length left.now → RightIsNext left.now i right.now j }
{
    if i == left.len() {
        return false;
    }
    if j == right.len() {
        return true;
    }
    left[i].first <= right[j].first
}

/// The runs of both, which name outcomes of one table of so many, by one pass; those with equal tags grow together.
pub(crate) fn merge(
    alloc: Global,
    outcomes: usize,
    left: &[Run],
    right: &[Run],
) -> Result<Vec<Run>, AllocError>
    requires left_rising { IsRising (firsts left.now) }
    requires right_rising { IsRising (firsts right.now) }
    ensures facts { IfOk result (λ runs. AddsAll left.now right.now runs.items) }
    ensures rising { IfOk result (λ runs. IsRising (firsts runs.items)) }
    ensures sound { IfOk result (λ runs. KeepsAllSound left.now right.now runs.items) }
    ensures low { IfOk result (λ runs. KeepsAllFrom left.now right.now runs.items) }
{
    let mut hints = Hints {
        ran: vec![in alloc; usize::MAX; outcomes]?,
        swap: [usize::MAX; MAX_PLACES],
    };
    let mut out = Vec::new(alloc);
    let mut i = 0;
    let mut j = 0;
    'runs: loop {
        let run = if is_left_next(left, i, right, j) {
            let run = left[i];
            i += 1;
            run
        } else if j < right.len() {
            let run = right[j];
            j += 1;
            run
        } else {
            return Ok(out);
        };
        let at = add_run(&mut out, hints.of(run.tag), run)?;
        hints.note(run.tag, at);
    }
}

/// The runs with other numbers for their outcomes: at the place of each number stands the one that it becomes.
pub fn renumber(alloc: Global, numbers: &[u32], runs: &[Run]) -> Result<Vec<Run>, AllocError>
    requires sound { AllSound (length numbers.now) runs.now }
    ensures { IfOk result (λ v. v.items ≡ map (renamed numbers.now) runs.now) }
{
    let mut out = Vec::with_capacity(alloc, runs.len())?;
    for run in runs {
        let tag = match run.tag {
            Tag::Ran(n) => Tag::Ran(numbers[n as usize]),
            Tag::Swap(k) => Tag::Swap(k),
        };
        out.push(Run {
            first: run.first,
            end: run.end,
            tag,
        })?;
    }
    Ok(out)
}
