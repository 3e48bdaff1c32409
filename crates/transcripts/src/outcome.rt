ghost use Rattle.std.specs.Prelude.{◌≡◌, ◌↔◌, All, Some, IfOk, IsTrue};
ghost use Rattle.std.proofs.Common.{rules};
ghost use Rattle.std.specs.Ordering.{eq_by_cmp};
ghost use Rattle.std.specs.Cmp.{po, eq_by_cmp_equiv, partial_equiv_from_equiv};
ghost use Rattle.std.specs.declared.cmp.Ordering.TheVariants.{Equal};
ghost use Rattle.transcripts.specs.Compact.{bytes_cmp, outcome_json};
ghost use Rattle.events.specs.Fits.{CellFits, EventFits};
ghost use Rattle.transcripts.specs.Outcome.{OutcomeFits};

use crate::fingerprinting::print_of;
use crate::order::outcome_order;
use crate::same::are_same_sessions;
use events::{Event, Transcript};
use finite_maps::Fork;
use lock_modes::Value;
use std::alloc::{AllocError, Global};
use std::cmp::Ordering;
use std::marker::Model;
use std::sync::Arc;

/// What a run tells: a transcript for each session in order, seen by contracts as their list. A fork shares them and
/// copies none.
pub struct Outcome {
    sessions: Arc<Vec<Transcript>>,
    /// The number by which it is looked for, which is made once. Contracts do not see it.
    print: u64,
}

// Written out and not derived, so that who owns one calls this and does not let its parts go one by one.
impl Drop for Outcome {
    fn drop(self) {
        let Outcome {
            sessions: _sessions,
            print: _,
        } = self;
    }
}

impl Model for Outcome {
    ghost use Rattle.std.specs.Prelude.{List};
    ghost use Rattle.events.specs.declared.event.Event.{Event as Told};

    ghost Value = { List (List Told) };

    ghost view = { λ o. o.sessions.value.items };
}

impl Outcome {
    /// The outcome of these transcripts, one for each session in order. It fails for want of memory alone.
    pub fn new(alloc: Global, transcripts: Vec<Transcript>) -> Result<Outcome, AllocError>
        ensures { IfOk result (λ outcome. outcome ≡ transcripts.items) }
    {
        let print = print_of(transcripts.as_slice());
        Ok(Outcome {
            sessions: Arc::new(alloc, transcripts)?,
            print,
        })
    }

    /// A number that equal outcomes share, and others seldom.
    pub(crate) fn print(&self) -> u64 {
        self.print
    }

    /// What holds of every outcome: its numbers have the widths of their types.
    pub fn known(&self)
        ensures { OutcomeFits self.now }
    {
        for transcript in self.sessions() {
            known_transcript(transcript);
        }
    }

    /// Whether the outcomes are one: each session is told the same.
    pub fn is_same(&self, other: &Outcome) -> bool
        ensures { IsTrue result ↔ (self.now ≡ other.now) }
    {
        are_same_sessions(self.sessions(), other.sessions())
    }

    /// The order of the bytes of the outcomes' compact JSON texts, which are not made.
    pub fn order(&self, other: &Outcome) -> Ordering
        ensures texts { result ≡ bytes_cmp (outcome_json self.now) (outcome_json other.now) }
        ensures tells { result ≡ Equal → self.now ≡ other.now }
    {
        outcome_order(self.sessions(), other.sessions())
    }

    /// The transcripts in the order of the sessions.
    pub fn sessions(&self) -> &[Transcript]
        ensures { result.now ≡ self.now }
    {
        self.sessions.as_slice()
    }
}

impl PartialEq for Outcome {
    ghost use Rattle.transcripts.specs.Compact.{outcome_cmp, outcome_total};

    ghost eq = { eq_by_cmp outcome_cmp };

    ghost laws = { partial_equiv_from_equiv (eq_by_cmp_equiv outcome_total) };

    fn eq(&self, other: &Outcome) -> bool {
        self.cmp(other).is_eq()
    }
}

impl Eq for Outcome {
    ghost use Rattle.transcripts.specs.Compact.{outcome_total};

    ghost laws = { eq_by_cmp_equiv outcome_total };
}

impl PartialOrd for Outcome {
    ghost use Rattle.transcripts.specs.Compact.{outcome_cmp, outcome_total};

    ghost partial_cmp = { λ a b. Some (outcome_cmp a b) };

    ghost laws = { po outcome_total (λ a b. Prim.search rules) };

    fn partial_cmp(&self, other: &Outcome) -> Option<Ordering> {
        Some(self.cmp(other))
    }
}

/// Outcomes are in the order of the bytes of their compact JSON texts, each of which tells its outcome.
impl Ord for Outcome {
    ghost use Rattle.transcripts.specs.Compact.{outcome_cmp, outcome_total};

    ghost cmp = { outcome_cmp };

    ghost total = { outcome_total };

    ghost matches_partial_cmp = { Prim.search rules };

    ghost matches_eq = { Prim.search rules };

    fn cmp(&self, other: &Outcome) -> Ordering {
        self.order(other)
    }
}

impl Fork for Outcome {
    fn fork(&self) -> Result<Outcome, AllocError> {
        Ok(Outcome {
            sessions: self.sessions.clone()?,
            print: self.print,
        })
    }
}

fn known_transcript(transcript: &Transcript)
    ensures { All EventFits transcript.now }
{
    for event in transcript.events() {
        known_event(event);
    }
}

// Each number that is read is known to have the width of its type.
fn known_event(event: &Event)
    ensures { EventFits event.now }
{
    match event {
        Event::Row(row) => known_row(row.values()),
        Event::Sent(step) | Event::NotSent(step) => {
            let _step = *step; // for the proof
        }
        Event::Rows(count)
        | Event::Inserted(count)
        | Event::Updated(count)
        | Event::Deleted(count) => {
            let _count = *count; // for the proof
        }
        Event::Began
        | Event::Committed
        | Event::RolledBack
        | Event::Locked
        | Event::Set
        | Event::Warned(_)
        | Event::Failed(_)
        | Event::Waiting
        | Event::Resumed
        | Event::Done => {}
    }
}

fn known_row(values: &[Value])
    ensures { All CellFits values.now }
{
    for value in values {
        known_value(value);
    }
}

fn known_value(value: &Value)
    ensures { CellFits value.now }
{
    match value {
        Value::Int(number) => {
            let _number = *number; // for the proof
        }
        Value::Text(_) => {}
    }
}
