//! Outcomes of a spec as a book's file has them.

ghost use Rattle.std.specs.Prelude.{◌≡◌, ◌++◌, ◌∷◌, [], IfOk, IsTrue, None, OnErr, Ok, false};
ghost use Rattle.transcripts.specs.Json.{outcome_data};
ghost use Rattle.book_format.specs.Reading.{IsListed, IsNextOutcome};

use super::outcomes::{is_outcome_of, stands_after};
use bound_specs::Spec;
use compact_outcomes::{CompactOutcome, CompactOutcomes, CompactText};
use std::alloc::{AllocError, Global};
use std::marker::Model;
use transcripts::Outcome;

/// Outcomes that runs of a spec may tell, for which levels are not asked for. They rise by their texts, and contracts see them as their list.
pub struct Listed<'a> {
    spec: &'a Spec,
    outcomes: CompactOutcomes,
}

// Written out and not derived, so that who owns one calls this and does not let its parts go one by one.
impl Drop for Listed<'_> {
    fn drop(self) {
        let Listed {
            spec: _,
            outcomes: _outcomes,
        } = self;
    }
}

impl<'a> Model for Listed<'a> {
    ghost use Rattle.std.specs.Prelude.{◌≡◌, List, None};
    ghost use Rattle.fact_books.specs.Entries.{Told};
    ghost use Rattle.book_format.specs.Reading.{IsListed};

    ghost Value = { List Told };

    ghost view = { λ l. l.outcomes };

    ghost invariant = { λ l. (l.spec.now.asked ≡ None) × IsListed l.spec.now.run l.outcomes };
}

impl<'a> Listed<'a> {
    /// No outcomes.
    pub fn new(alloc: Global, spec: &'a Spec) -> Listed<'a>
        requires unasked { spec.now.asked ≡ None }
        ensures { result ≡ [] }
    {
        Listed {
            spec,
            outcomes: CompactOutcomes::new(alloc),
        }
    }

    /// The spec and the outcomes.
    pub(crate) fn into_parts(self) -> (&'a Spec, CompactOutcomes)
        ensures unasked { result.0.now.asked ≡ None }
        ensures listed { IsListed result.0.now.run result.1 }
    {
        let Listed { spec, outcomes } = self;
        (spec, outcomes)
    }
}

impl Listed<'_> {
    /// Puts an outcome behind the others. False where no run of the spec may tell it, or its text does not come after theirs; then it is not put there.
    pub fn push(&mut self, alloc: Global, outcome: &Outcome) -> Result<bool, AllocError>
        ensures pushed { IfOk result (λ is. IsTrue is → self.new ≡ self.old ++ outcome.now ∷ []) }
        ensures refused { IfOk result (λ is. is ≡ false → self.new ≡ self.old) }
        ensures err { OnErr result (self.new ≡ self.old) }
    {
        let text = CompactText::of(alloc, outcome)?;
        if !is_next_outcome(self.spec, &self.outcomes, outcome, &text.as_outcome()) {
            return Ok(false);
        }
        self.outcomes.push(&text.as_outcome())?;
        Ok(true)
    }
}

/// Whether the value of an outcome, which is kept as this text, is read as that one behind others.
fn is_next_outcome(
    spec: &Spec,
    before: &CompactOutcomes,
    outcome: &Outcome,
    text: &CompactOutcome<'_>,
) -> bool
    requires { text.now ≡ outcome.now }
    ensures { IsTrue result → IsNextOutcome spec.now.run before.now (outcome_data text.now) (Ok text.now) }
{
    outcome.known();
    is_outcome_of(spec, outcome.sessions()) && stands_after(before, text)
}
