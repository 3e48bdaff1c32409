//! How far the exploring of states is.

use range_progress::Pace;
use schedule_counts::Watch;
use std::alloc::{AllocError, Global};
use std::io::Write;
use std::sync::Mutex;
use std::time::{Clock, Duration, Instant};
use transcripts::{Counted, say};

/// How it is told how far the exploring of states is.
#[derive(Clone, Copy, Drop)]
pub enum Telling {
    /// Not at all.
    Silent,
    /// By a line now and then.
    Lines,
    /// By one line of a terminal that is written over.
    OneLine,
}

/// What was told, and where.
#[derive(Drop)]
struct Teller<'a, E> {
    err: &'a mut Counted<E>,
    pace: Pace,
    states: u64,
    steps: u64,
}

/// Tells how many states were noted and how many steps were sent, and how long that took, now and then and at the end. Where the clock cannot be read, or there
/// is no memory for a line, the line is left out, and a fault of the writer is told nowhere. Where no state was noted nothing is told.
#[derive(Drop)]
pub(crate) struct StatesProgress<'a, C, E> {
    clock: &'a C,
    alloc: Global,
    is_one_line: bool,
    began: Option<Instant>,
    teller: Mutex<Teller<'a, E>>,
}

impl<'a, C: Clock, E: Write> StatesProgress<'a, C, E> {
    /// No state was noted yet.
    pub(crate) fn new(
        clock: &'a C,
        alloc: Global,
        is_one_line: bool,
        err: &'a mut Counted<E>,
    ) -> Self {
        StatesProgress {
            clock,
            alloc,
            is_one_line,
            began: Instant::now(clock).ok(),
            teller: Mutex::new(Teller {
                err,
                pace: Pace::new(),
                states: 0,
                steps: 0,
            }),
        }
    }

    /// How long it is since the run began.
    fn elapsed(&self) -> Option<Duration> {
        let now = Instant::now(self.clock).ok()?;
        Some(now.duration_since(self.began?))
    }

    /// Tells how far it is, for the last time or not.
    fn tell(&self, teller: &mut Teller<'_, E>, elapsed: Duration, is_last: bool) {
        let line = Line {
            states: teller.states,
            steps: teller.steps,
            elapsed,
        };
        let (front, end) = ends(self.is_one_line, is_last);
        if let Ok(text) = line.text(self.alloc, front, end) {
            say(text.as_str(), teller.err);
        }
    }
}

impl<C: Clock, E: Write> Watch for StatesProgress<'_, C, E> {
    fn noted(&self, states: u64, steps: u64) {
        let Some(mut teller) = self.teller.try_lock() else {
            return;
        };
        teller.states = states;
        teller.steps = steps;
        let Some(elapsed) = self.elapsed() else {
            return;
        };
        if teller.pace.take(elapsed) {
            self.tell(&mut teller, elapsed, false);
        }
    }

    fn ended(&self) {
        let Some(mut teller) = self.teller.try_lock() else {
            return;
        };
        let Some(elapsed) = self.elapsed() else {
            return;
        };
        if teller.states > 0 {
            self.tell(&mut teller, elapsed, true);
        }
    }
}

/// What stands before a line and behind it. A line that is written over begins where the one before began, and takes away what is left of that.
fn ends(is_one_line: bool, is_last: bool) -> (&'static str, &'static str) {
    match (is_one_line, is_last) {
        (false, _) => ("", "\n"),
        (true, false) => ("\r", "\x1b[K"),
        (true, true) => ("\r", "\x1b[K\n"),
    }
}

/// How far it is.
#[derive(Clone, Copy, Drop)]
struct Line {
    states: u64,
    steps: u64,
    elapsed: Duration,
}

impl Line {
    fn text(&self, alloc: Global, front: &str, end: &str) -> Result<String, AllocError> {
        format!(in alloc;
            "{front}isofarm: {} states, {} steps, {}.{} seconds{end}",
            self.states,
            self.steps,
            self.elapsed.as_secs(),
            self.elapsed.subsec_nanos() / 100_000_000
        )
    }
}
