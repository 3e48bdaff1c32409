//! The compact JSON text of one outcome.

ghost use Rattle.std.specs.Prelude.{◌≡◌, IfOk, OnOk, string_bytes};
ghost use Rattle.transcripts.specs.Compact.{outcome_json};
ghost use Rattle.transcripts.specs.Outcome.{OutcomeFits};

use crate::compact::push_sessions;
use crate::text::CompactOutcome;
use std::alloc::{AllocError, Global};
use std::marker::Model;
use transcripts::Outcome;

/// Room for the text of an outcome of some sixty events without rows, so that few texts grow while they are made. It costs time alone.
const ROOM: usize = 1024;

/// The compact JSON text of an outcome, which it owns, seen by contracts as the list of the outcome's transcripts. A `CompactOutcome` borrows one.
pub struct CompactText {
    text: String,
}

// Written out and not derived, so that who owns one calls this and does not let its parts go one by one.
impl Drop for CompactText {
    fn drop(self) {
        let CompactText { text: _text } = self;
    }
}

impl Model for CompactText {
    ghost use Rattle.std.specs.Prelude.{List, string_bytes};
    ghost use Rattle.events.specs.declared.event.Event.{Event};
    ghost use Rattle.compact_outcomes.specs.Told.{told_in, IsCompactOutcome};

    ghost Value = { List (List Event) };

    ghost view = { λ t. told_in (string_bytes t.text) };

    ghost invariant = { λ t. IsCompactOutcome (string_bytes t.text) };
}

impl CompactText {
    /// The text of an outcome. It fails for want of memory alone.
    pub fn of(alloc: Global, outcome: &Outcome) -> Result<CompactText, AllocError>
        ensures { IfOk result (λ text. text ≡ outcome.now) }
    {
        outcome.known();
        let mut text = String::with_capacity(alloc, ROOM)?;
        make_text(outcome, &mut text)?;
        let _text = text.as_str(); // for the proof
        Ok(CompactText { text })
    }

    /// The outcome that the text tells.
    pub fn as_outcome(&self) -> CompactOutcome<'_>
        ensures { result ≡ self.now }
    {
        CompactOutcome::of_text(self.text.as_bytes())
    }
}

/// Makes a text that of an outcome.
fn make_text(outcome: &Outcome, text: &mut String) -> Result<(), AllocError>
    requires { OutcomeFits outcome.now }
    ensures { OnOk result (string_bytes text.new ≡ outcome_json outcome.now) }
{
    text.clear();
    push_sessions(outcome.sessions(), text)
}
