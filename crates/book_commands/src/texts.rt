//! The texts of a report's outcomes, which come again at many ranks: each is made once and kept.

ghost use Rattle.std.specs.Prelude.{◌≡◌, ◌<◌, ℕ, List, [], Some, IfOk, IfSome, length, slice_index_or};
ghost use Rattle.machine_model.specs.Outcome.{IsOutcomeOf};
ghost use Rattle.fact_books.specs.Entries.{Told};
ghost use Rattle.transcripts.specs.Counted.{Prints, failures_of};
ghost use Rattle.transcripts.specs.Text.{outcome_text};
ghost use Rattle.bound_specs.specs.Spec.{SpecFile};

use bound_specs::Spec;
use spec_commands::write_outcome;
use std::alloc::{AllocError, Global};
use std::io;
use std::io::Write;
use transcripts::{Counted, Outcome, WriteFault};

/// How many bytes of texts are kept; their room, which grows by doubling, may be twice as much. Outcomes that come again are few,
/// and take less. But a report may have a million different ones, and its text is never in memory as a whole.
const MAX_KEPT: usize = 64 * 1024 * 1024;

/// The texts of some of a report's outcomes, each at the outcome's number.
pub(crate) struct Texts {
    alloc: Global,
    places: Vec<Option<Vec<u8>>>,
    // How many bytes may still be kept.
    room: usize,
}

// Written out and not derived, so that who owns one calls this and does not let its parts go one by one.
impl Drop for Texts {
    fn drop(self) {
        let Texts {
            alloc: _alloc,
            places: _places,
            room: _room,
        } = self;
    }
}

impl Texts {
    ghost use Rattle.book_commands.specs.Texts.{AreTexts};

    /// A place for each of so many outcomes, and no text yet.
    pub(crate) fn new(alloc: Global, count: usize) -> Result<Texts, AllocError>
        ensures { IfOk result (λ texts. (file : SpecFile) (outcomes : List Told) → length outcomes ≡ count → AreTexts file outcomes texts) }
    {
        let mut places = Vec::with_capacity(alloc, count)?;
        for _ in 0..count {
            places.push_reserved(None);
        }
        Ok(Texts {
            alloc,
            places,
            room: MAX_KEPT,
        })
    }

    /// Writes the outcome with this number. Its text is made where it is the first time, and copied from then on.
    pub(crate) fn write<W: Write>(
        &mut self,
        spec: &Spec,
        outcomes: &[Outcome],
        number: usize,
        out: &mut Counted<W>,
    ) -> Result<(), WriteFault>
        requires inside { number < length outcomes.now }
        requires own { IsOutcomeOf spec.now.run (slice_index_or outcomes.now number []) }
        requires countable { failures_of out.old < u64.MAX }
        requires texts { AreTexts spec.now outcomes.now self.old }
        ensures written { Prints W.contents out.old out.new result (outcome_text spec.now.session_names spec.now.step_names (slice_index_or outcomes.now number [])) }
        ensures texts { AreTexts spec.now outcomes.now self.new }
    {
        self.keep(spec, outcomes, number);
        match &self.places[number] {
            Some(text) => out.write_all(text.as_slice()),
            None => write_outcome(spec, &outcomes[number], out),
        }
    }

    /// Makes the text of the outcome with this number, if there is none and there may be.
    fn keep(&mut self, spec: &Spec, outcomes: &[Outcome], number: usize)
        requires inside { number < length outcomes.now }
        requires own { IsOutcomeOf spec.now.run (slice_index_or outcomes.now number []) }
        requires texts { AreTexts spec.now outcomes.now self.old }
        ensures { AreTexts spec.now outcomes.now self.new }
    {
        if self.room > 0 && self.places[number].is_none() {
            let (text, room) = text_of(self.alloc, spec, &outcomes[number], self.room);
            self.places[number] = text;
            self.room = room;
        }
    }
}

/// A text, and how many bytes it may still grow by.
#[derive(Drop)]
struct Bounded {
    text: Vec<u8>,
    room: usize,
}

impl Write for Bounded {
    ghost contents = { λ bounded. Some bounded.text.items };

    fn write(&mut self, bytes: &[u8]) -> io::Result<usize> {
        if bytes.len() > self.room {
            return Err(io::Error::from(io::ErrorKind::OutOfMemory));
        }
        self.text.extend_from_slice(bytes)?;
        self.room -= bytes.len();
        Ok(bytes.len())
    }

    fn flush(&mut self) -> io::Result<()> {
        Ok(())
    }
}

/// The text of an outcome of the spec, and what it leaves of the room. Where the room is too small or memory is refused there is
/// no text, and no room for others: the next ones would be made in vain as well.
fn text_of(alloc: Global, spec: &Spec, outcome: &Outcome, room: usize) -> (Option<Vec<u8>>, usize)
    requires { IsOutcomeOf spec.now.run outcome.now }
    ensures { IfSome result.0 (λ text. text.items ≡ outcome_text spec.now.session_names spec.now.step_names outcome.now) }
{
    let mut out = Counted::new(Bounded {
        text: Vec::new(alloc),
        room,
    });
    match write_outcome(spec, outcome, &mut out) {
        Ok(()) => {
            let made = out.into_inner();
            (Some(made.text), made.room)
        }
        Err(_) => (None, 0),
    }
}
