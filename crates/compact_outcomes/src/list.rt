//! Outcomes whose compact JSON texts stand in one piece of memory.

ghost use Rattle.std.specs.Prelude.{◌≡◌, ◌<◌, ◌-◌, ◌++◌, ◌∷◌, [], IfOk, IfSome, None, OnErr, OnOk, Some, length, slice_get, slice_index_or};
ghost use Rattle.compact_outcomes.specs.Pieces.{start_at};

use crate::text::CompactOutcome;
use std::alloc::{AllocError, Global};
use std::marker::Model;
use transcripts::Outcome;

/// Outcomes in an order, seen by contracts as their list. Their compact JSON texts stand one behind the other, so that an outcome takes
/// hardly more memory than its text.
pub struct CompactOutcomes {
    texts: Vec<u8>,
    /// Where each text ends.
    ends: Vec<usize>,
}

// Written out and not derived, so that who owns one calls this and does not let its parts go one by one.
impl Drop for CompactOutcomes {
    fn drop(self) {
        let CompactOutcomes {
            texts: _texts,
            ends: _ends,
        } = self;
    }
}

impl Model for CompactOutcomes {
    ghost use Rattle.std.specs.Prelude.{List};
    ghost use Rattle.events.specs.declared.event.Event.{Event};
    ghost use Rattle.compact_outcomes.specs.Pieces.{told_pieces, AreCompactOutcomes};

    ghost Value = { List (List (List Event)) };

    ghost view = { λ o. told_pieces o.texts.items o.ends.items };

    ghost invariant = { λ o. AreCompactOutcomes o.texts.items o.ends.items };
}

impl CompactOutcomes {
    /// No outcomes.
    pub fn new(alloc: Global) -> CompactOutcomes
        ensures { result ≡ [] }
    {
        CompactOutcomes {
            texts: Vec::new(alloc),
            ends: Vec::new(alloc),
        }
    }

    /// No outcomes, with room for so many whose texts have so many bytes in all. Contracts do not see the room.
    pub fn with_room(
        alloc: Global,
        outcomes: usize,
        bytes: usize,
    ) -> Result<CompactOutcomes, AllocError>
        ensures { IfOk result (λ made. made ≡ []) }
    {
        Ok(CompactOutcomes {
            texts: Vec::with_capacity(alloc, bytes)?,
            ends: Vec::with_capacity(alloc, outcomes)?,
        })
    }

    /// How many there are.
    pub fn len(&self) -> usize
        ensures { result ≡ length self.now }
    {
        self.ends.len()
    }

    /// The outcome at a place.
    pub fn get(&self, place: usize) -> CompactOutcome<'_>
        requires { place < length self.now }
        ensures { result ≡ slice_index_or self.now place [] }
    {
        let (start, end) = bounds(self.ends.as_slice(), place);
        CompactOutcome::of_text(&self.texts.as_slice()[start..end])
    }

    /// The last outcome, if there is one.
    pub fn last(&self) -> Option<CompactOutcome<'_>>
        ensures none { result ≡ None → self.now ≡ [] }
        ensures last { IfSome result (λ outcome. slice_get self.now (length self.now - 1) ≡ Some outcome) }
    {
        if self.len() == 0 {
            return None;
        }
        Some(self.get(self.len() - 1))
    }

    /// Puts an outcome behind the others.
    pub fn push(&mut self, outcome: &CompactOutcome<'_>) -> Result<(), AllocError>
        ensures ok { OnOk result (self.new ≡ self.old ++ outcome.now ∷ []) }
        ensures err { OnErr result (self.new ≡ self.old) }
    {
        outcome.known();
        self.ends.reserve(1)?;
        self.texts.extend_from_slice(outcome.as_bytes())?;
        self.ends.push_reserved(self.texts.len());
        Ok(())
    }

    /// All of them, by the texts that stand here.
    pub fn all(&self, alloc: Global) -> Result<Vec<CompactOutcome<'_>>, AllocError>
        ensures { IfOk result (λ outcomes. outcomes.items ≡ self.now) }
    {
        let mut outcomes = Vec::with_capacity(alloc, self.len())?;
        for place in 0..self.len() {
            outcomes.push(self.get(place))?;
        }
        Ok(outcomes)
    }

    /// What they tell.
    pub fn read(&self, alloc: Global) -> Result<Vec<Outcome>, AllocError>
        ensures { IfOk result (λ outcomes. outcomes.items ≡ self.now) }
    {
        let mut outcomes = Vec::with_capacity(alloc, self.len())?;
        for place in 0..self.len() {
            outcomes.push(self.get(place).read(alloc)?)?;
        }
        Ok(outcomes)
    }

    /// The same outcomes, with texts of their own.
    pub fn copied(&self, alloc: Global) -> Result<CompactOutcomes, AllocError>
        ensures { IfOk result (λ outcomes. outcomes ≡ self.now) }
    {
        let mut texts = Vec::with_capacity(alloc, self.texts.len())?;
        texts.extend_from_slice(self.texts.as_slice())?;
        let mut ends = Vec::with_capacity(alloc, self.ends.len())?;
        ends.extend_from_slice(self.ends.as_slice())?;
        Ok(CompactOutcomes { texts, ends })
    }
}

/// Where the text at a place starts and ends.
fn bounds(ends: &[usize], place: usize) -> (usize, usize)
    requires { place < length ends.now }
    ensures start { result.0 ≡ start_at 0 ends.now place }
    ensures end { result.1 ≡ slice_index_or ends.now place 0 }
{
    let start = if place == 0 { 0 } else { ends[place - 1] };
    (start, ends[place])
}
