ghost use Rattle.std.specs.Prelude.{◌↔◌, All, IsTrue, length};
ghost use Rattle.events.specs.Fits.{HasStep};
ghost use Rattle.transcripts.specs.Names.{HasNames};

use crate::Outcome;
use events::{Event, Transcript};
use lock_modes::Text;

/// The names that an outcome is printed with.
#[derive(Clone, Copy)]
pub struct Names<'a> {
    /// The name of each session at its number, from 0.
    pub sessions: &'a [Text],
    /// The name of each step at its number, from 0, over all sessions.
    pub steps: &'a [Text],
}

impl Names<'_> {
    /// Whether there is a name for each session of the outcome, and for each step that its events
    /// name.
    pub fn fit(&self, outcome: &Outcome) -> bool
        ensures { IsTrue result ↔ HasNames self.now.sessions.now self.now.steps.now outcome.now }
    {
        if outcome.sessions().len() > self.sessions.len() {
            return false;
        }
        for transcript in outcome.sessions() {
            if !names_few(transcript, self.steps.len()) {
                return false;
            }
        }
        true
    }
}

// Whether each step that an event names is one of the first ones.
fn names_few(transcript: &Transcript, count: usize) -> bool
    ensures { IsTrue result ↔ All (HasStep count) transcript.now }
{
    for event in transcript.events() {
        if !names_one(event, count) {
            return false;
        }
    }
    true
}

fn names_one(event: &Event, count: usize) -> bool
    ensures { IsTrue result ↔ HasStep count event.now }
{
    match event {
        Event::Sent(step) | Event::NotSent(step) => (*step as usize) < count,
        Event::Row(_)
        | Event::Rows(_)
        | Event::Inserted(_)
        | Event::Updated(_)
        | Event::Deleted(_)
        | Event::Began
        | Event::Committed
        | Event::RolledBack
        | Event::Locked
        | Event::Set
        | Event::Warned(_)
        | Event::Failed(_)
        | Event::Waiting
        | Event::Resumed
        | Event::Done => true,
    }
}
