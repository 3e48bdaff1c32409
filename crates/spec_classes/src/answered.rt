//! What the orders of sessions answer that were run.

ghost use Rattle.std.specs.Prelude.{◌≡◌, ℕ, [], true, None, Some};
ghost use Rattle.std.specs.BTreeMap.{get};
ghost use Rattle.std.specs.Ordering.{nat_cmp};
ghost use Rattle.spec_classes.specs.Serial.{IsNoted};

use different_shows::Different;
use perm_ranks::MAX_SESSIONS;
use std::alloc::Global;
use std::collections::BTreeMap;

/// How often each session is still to be run: once, or no more.
pub(crate) type Left = [u8; MAX_SESSIONS];

/// What the orders answer that were run, and from where all orders of the sessions that are left were run.
#[derive(Drop)]
pub(crate) struct Answered {
    pub(crate) answers: Different,
    /// By the number of a world, the sessions that were left there.
    pub(crate) walked: BTreeMap<usize, Left>,
}

impl Answered {
    /// Nothing was run.
    pub(crate) fn new(alloc: Global) -> Answered
        ensures answers { result.answers ≡ [] }
        ensures walked { (n : ℕ) → get nat_cmp result.walked n ≡ None }
    {
        Answered {
            answers: Different::new(alloc),
            walked: BTreeMap::new(alloc),
        }
    }

    /// Whether these orders were run from the world with this number. Where it has none nothing is known.
    pub(crate) fn has(&self, number: Option<usize>, left: Left) -> bool
        ensures { result ≡ true → (n : ℕ) × (number ≡ Some n) × (get nat_cmp self.now.walked n ≡ Some left) }
    {
        let Some(number) = number else {
            return false;
        };
        match self.walked.get(&number) {
            Some(other) => *other == left,
            None => false,
        }
    }

    /// Notes that they were. Where there is no room for it nothing is noted, and they may be run again.
    pub(crate) fn note(&mut self, number: Option<usize>, left: Left)
        ensures answers { self.new.answers ≡ self.old.answers }
        ensures noted { IsNoted number left self.old.walked self.new.walked }
    {
        if let Some(number) = number {
            let _ = self.walked.insert(number, left);
        }
    }
}
