//! An outcome as its compact JSON text.

ghost use Rattle.std.specs.Prelude.{◌≡◌, ◌↔◌, IfOk, IsTrue, IsUtf8, Some};
ghost use Rattle.std.proofs.Common.{rules};
ghost use Rattle.std.specs.Ordering.{eq_by_cmp};
ghost use Rattle.std.specs.Cmp.{po, eq_by_cmp_equiv, partial_equiv_from_equiv};
ghost use Rattle.serde_json.specs.View.{view};
ghost use Rattle.serde_json.specs.Written.{compact_text};
ghost use Rattle.transcripts.specs.Compact.{bytes_cmp, outcome_json};
ghost use Rattle.transcripts.specs.Json.{outcome_data};
ghost use Rattle.transcripts.specs.Outcome.{OutcomeFits};
ghost use Rattle.compact_outcomes.specs.Told.{told_in, IsCompactOutcome};

use serde_json::Value as Json;
use std::alloc::{AllocError, Global};
use std::cmp::Ordering;
use std::hash::{FoldHasher, Hasher};
use std::marker::Model;
use transcripts::{Outcome, ValueError, outcome_of_value};

/// An outcome by its compact JSON text, which it borrows, seen by contracts as the list of its transcripts.
#[derive(Drop)]
pub struct CompactOutcome<'a> {
    text: &'a [u8],
}

impl<'a> Model for CompactOutcome<'a> {
    ghost use Rattle.std.specs.Prelude.{List};
    ghost use Rattle.events.specs.declared.event.Event.{Event};
    ghost use Rattle.compact_outcomes.specs.Told.{told_in, IsCompactOutcome};

    ghost Value = { List (List Event) };

    ghost view = { λ t. told_in t.text.now };

    ghost invariant = { λ t. IsCompactOutcome t.text.now };
}

impl<'a> CompactOutcome<'a> {
    /// The outcome of a text that is one's compact text.
    pub(crate) fn of_text(text: &'a [u8]) -> CompactOutcome<'a>
        requires { IsCompactOutcome text.now }
        ensures { result ≡ told_in text.now }
    {
        CompactOutcome { text }
    }

    /// The same outcome, by the same text.
    pub fn again(&self) -> CompactOutcome<'a>
        ensures { result ≡ self.now }
    {
        CompactOutcome { text: self.text }
    }
}

impl CompactOutcome<'_> {
    /// The outcome that the text tells. It fails for want of memory alone.
    pub fn read(&self, alloc: Global) -> Result<Outcome, AllocError>
        ensures { IfOk result (λ outcome. outcome ≡ self.now) }
    {
        self.known();
        let value = self.value(alloc)?;
        match outcome_of_value(alloc, &value) {
            Ok(outcome) => Ok(outcome),
            Err(ValueError::NoMemory) => Err(AllocError),
            Err(ValueError::BadField) => unreachable!(),
        }
    }

    /// The JSON value of the text.
    fn value(&self, alloc: Global) -> Result<Json, AllocError>
        ensures { IfOk result (λ value. view value ≡ outcome_data self.now) }
    {
        self.known();
        match Json::from_slice(alloc, self.as_bytes()) {
            Ok(value) => Ok(value),
            Err(error) => {
                if error.is_memory() {
                    return Err(AllocError);
                }
                unreachable!()
            }
        }
    }

    /// The bytes of the text.
    pub fn as_bytes(&self) -> &[u8]
        ensures json { result.now ≡ outcome_json self.now }
        ensures compact { result.now ≡ compact_text (outcome_data self.now) }
    {
        self.text
    }

    /// A number that equal outcomes share, and others seldom. Contracts do not see it: no more than time and sizes may rest on it.
    pub fn fingerprint(&self) -> u64 {
        let mut hasher = FoldHasher::default();
        hasher.write(self.text);
        hasher.finish()
    }

    /// What holds of every outcome that is kept so: its numbers have the widths of their types, and its text is UTF-8.
    pub fn known(&self)
        ensures fits { OutcomeFits self.now }
        ensures utf8 { IsUtf8 (compact_text (outcome_data self.now)) }
    {
        let _kept = &self.text; // for the proof
        let _text = self.as_bytes(); // for the proof
    }

    /// Whether the outcomes are one: each session is told the same.
    pub fn is_same(&self, other: &CompactOutcome<'_>) -> bool
        ensures { IsTrue result ↔ (self.now ≡ other.now) }
    {
        self.known();
        other.known();
        are_same(self.as_bytes(), other.as_bytes())
    }

    /// The order of the bytes of the texts.
    pub fn order(&self, other: &CompactOutcome<'_>) -> Ordering
        ensures { result ≡ bytes_cmp (outcome_json self.now) (outcome_json other.now) }
    {
        self.as_bytes().cmp(other.as_bytes())
    }
}

fn are_same(a: &[u8], b: &[u8]) -> bool
    ensures { IsTrue result ↔ (a.now ≡ b.now) }
{
    a == b
}

impl PartialEq for CompactOutcome<'_> {
    ghost use Rattle.transcripts.specs.Compact.{outcome_cmp, outcome_total};

    ghost eq = { eq_by_cmp outcome_cmp };

    ghost laws = { partial_equiv_from_equiv (eq_by_cmp_equiv outcome_total) };

    fn eq(&self, other: &Self) -> bool {
        self.cmp(other).is_eq()
    }
}

impl Eq for CompactOutcome<'_> {
    ghost use Rattle.transcripts.specs.Compact.{outcome_total};

    ghost laws = { eq_by_cmp_equiv outcome_total };
}

impl PartialOrd for CompactOutcome<'_> {
    ghost use Rattle.transcripts.specs.Compact.{outcome_cmp, outcome_total};

    ghost partial_cmp = { λ a b. Some (outcome_cmp a b) };

    ghost laws = { po outcome_total (λ a b. Prim.search rules) };

    fn partial_cmp(&self, other: &Self) -> Option<Ordering> {
        Some(self.cmp(other))
    }
}

/// Outcomes are in the order of the bytes of their texts, each of which tells its outcome.
impl Ord for CompactOutcome<'_> {
    ghost use Rattle.transcripts.specs.Compact.{outcome_cmp, outcome_total};

    ghost cmp = { outcome_cmp };

    ghost total = { outcome_total };

    ghost matches_partial_cmp = { Prim.search rules };

    ghost matches_eq = { Prim.search rules };

    fn cmp(&self, other: &Self) -> Ordering {
        self.order(other)
    }
}
