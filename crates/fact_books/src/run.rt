//! Runs of ranks that have one fact.

ghost use Rattle.std.specs.Prelude.{◌≡◌, ◌↔◌, ℕ, OnOk, OnErr, IsTrue, false};
ghost use Rattle.fact_books.specs.Runs.{Adds, KeepsSound, KeepsFrom, firsts, IsRising, AllTo};

use std::alloc::AllocError;

/// What a run says of each of its ranks: the outcome with this number in a table, or a swap at this place. The outcome's number has 32 bits, to keep
/// runs small: a book may have millions.
#[derive(Clone, Copy, Drop)]
pub enum Tag {
    Ran(u32),
    Swap(u8),
}

impl Tag {
    pub(crate) fn is_swap(&self) -> bool
        ensures { (result ≡ false) → (n : ℕ) × (self.now ≡ Tag.Ran n) }
    {
        match self {
            Tag::Ran(_) => false,
            Tag::Swap(_) => true,
        }
    }

    /// Whether the tags are equal.
    pub fn is(self, other: Tag) -> bool
        ensures { IsTrue result ↔ (self ≡ other) }
    {
        match (self, other) {
            (Tag::Ran(n), Tag::Ran(m)) => n == m,
            (Tag::Swap(k), Tag::Swap(l)) => k == l,
            _ => false,
        }
    }
}

/// Says the same of each rank from `first` up to but not `end`.
#[derive(Clone, Copy, Drop)]
pub struct Run {
    pub first: u64,
    pub end: u64,
    pub tag: Tag,
}

/// Adds a run that does not begin before any one there, and answers a hint for the next one: where it went. Where the hint leads to a run with the
/// same tag that it overlaps or touches, that one grows; whatever the hint is, the runs say the right facts.
pub(crate) fn add_run(runs: &mut Vec<Run>, hint: usize, run: Run) -> Result<usize, AllocError>
    requires rising { IsRising (firsts runs.old.items) }
    requires low { AllTo run.first (firsts runs.old.items) }
    ensures facts { OnOk result (Adds runs.old.items run runs.new.items) }
    ensures rising { OnOk result (IsRising (firsts runs.new.items)) }
    ensures low { OnOk result (AllTo run.first (firsts runs.new.items)) }
    ensures sound { OnOk result (KeepsSound runs.old.items run runs.new.items) }
    ensures from { OnOk result (KeepsFrom runs.old.items run runs.new.items) }
    ensures err { OnErr result (runs.new.items ≡ runs.old.items) }
{
    if hint < runs.len() {
        let old = runs[hint];
        if old.tag.is(run.tag) && old.first <= run.first && run.first <= old.end {
            let grown = Run {
                first: old.first,
                end: old.end.max(run.end),
                tag: old.tag,
            };
            runs[hint] = grown;
            return Ok(hint);
        }
    }
    let at = runs.len();
    runs.push(run)?;
    Ok(at)
}
