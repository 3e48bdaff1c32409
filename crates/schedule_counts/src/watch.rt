//! Who looks on while states are counted.

ghost use Rattle.std.specs.Prelude.{◌≡◌, false};

use crate::search::Search;
use world_graph::{Explored, Refused};

/// Looks on while states are counted, as to tell how far that is. Its calls return.
pub trait Watch {
    /// A world was numbered: so many states were noted by now, and so many steps sent.
    fn noted(&self, states: u64, steps: u64);

    /// No further one will be.
    fn ended(&self);
}

/// Nobody looks on.
#[derive(Clone, Copy)]
pub struct Unwatched;

impl Watch for Unwatched {
    fn noted(&self, _states: u64, _steps: u64) {}

    fn ended(&self) {}
}

/// A search on which someone looks.
#[derive(Drop)]
pub(crate) struct Watched<'a, W> {
    pub(crate) search: Search<'a>,
    pub(crate) watch: &'a W,
    /// How many steps were sent.
    pub(crate) steps: u64,
}

impl<W: Watch> Explored for Watched<'_, W> {
    ghost use Rattle.std.specs.Prelude.{List};
    ghost use Rattle.binding_model.specs.declared.tables.Table.{Table};
    ghost use Rattle.spec_schedules.specs.Points.{Point, point_rules};

    ghost World = { Point };

    ghost rules = { point_rules };

    ghost world = { λ w. w.search.point };

    ghost marked = { λ w. w.search.marked };

    ghost seen = { λ w. w.search.seen };

    ghost Fixed = { List Table };

    ghost fixed = { λ w. w.search.tables };

    ghost is_whole = { λ w. w.search.spent ≡ false };

    fn enabled(&self, letter: u8) -> bool {
        self.search.enabled(letter)
    }

    fn offset(&self, letter: u8) -> u64 {
        self.search.offset(letter)
    }

    fn step(&mut self, letter: u8) -> Result<(), Refused> {
        self.steps = self.steps.saturating_add(1);
        self.search.step(letter)
    }

    fn mark(&mut self) -> Result<(), Refused> {
        self.search.mark()
    }

    fn go_back(&mut self) {
        self.search.go_back();
    }

    fn number(&mut self) -> Result<u32, Refused> {
        let number = self.search.number()?;
        self.watch.noted(self.search.noted(), self.steps);
        Ok(number)
    }
}
