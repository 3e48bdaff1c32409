//! What may be wanted of the classes of a spec.

ghost use Rattle.std.specs.Prelude.{◌≡◌, IfOk};
ghost use Rattle.wanted_classes.specs.Filters.{filters_of, of_sample};

use bound_statements::Level;
use std::alloc::{AllocError, Global};

/// What an order may show, with sessions by their names.
#[derive(Clone, Copy, Drop)]
pub enum WantedTest<'a> {
    /// A session waits.
    Waits,
    /// A session is the victim of a deadlock.
    Deadlock,
    /// The session of this name is the victim of a deadlock.
    DeadlockOf(&'a str),
    /// A session fails with another error.
    Error,
    /// A step is not sent, since its session waits.
    NotSent,
    /// A session waits for ever.
    Stuck,
    /// It is an anomaly: every session succeeds, and yet no serial order gives this result.
    Anomaly,
}

/// Which orders are asked for: those that pass a test, or those that do not.
#[derive(Clone, Copy, Drop)]
pub struct WantedFilter<'a> {
    pub test: WantedTest<'a>,
    pub wanted: bool,
}

/// What is expected of orders: that a SELECT on their final rows returns one row, with these values.
#[derive(Drop)]
pub struct WantedExpectation<'a> {
    pub select: &'a str,
    /// The values of the row, in words.
    pub values: Vec<&'a str>,
}

/// As what the classes of a spec are written.
#[derive(Clone, Copy, Drop)]
pub enum WantedForm {
    Text,
    Json,
    /// A page that is opened in a browser.
    Html,
    /// The record that `test` keeps beside a spec and compares.
    Record,
}

/// The states of a spec may take so many megabytes where no other number is wanted.
pub const DEFAULT_MEMORY: u64 = 2_000;

/// Orders that are drawn from all permutations.
#[derive(Clone, Copy, Drop)]
pub struct WantedSample {
    /// How many are drawn, 1 at least. One may be drawn twice.
    pub orders: u32,
    /// The same seed draws the same orders.
    pub seed: u64,
}

/// What is wanted of the classes of a spec.
#[derive(Drop)]
pub struct WantedClasses<'a> {
    /// All permutations are counted, and not only the orders that clients can send.
    pub all_orders: bool,
    /// In place of all permutations these are run.
    pub sample: Option<WantedSample>,
    /// Orders are grouped by their result alone: by rows, counts, errors and final rows, whoever waited.
    pub by_result: bool,
    /// An order is asked for where it passes all of these.
    pub filters: Vec<WantedFilter<'a>>,
    /// These SELECTs are run on the final rows of each class.
    pub queries: Vec<&'a str>,
    /// This is expected of each order that is asked for.
    pub expectations: Vec<WantedExpectation<'a>>,
    /// The totals alone are told.
    pub brief: bool,
    /// With what each session receives in the first order of each class.
    pub outcomes: bool,
    /// With the final rows of each class.
    pub final_rows: bool,
    pub form: WantedForm,
    /// At this level; where none is wanted, at the one for which the file asks.
    pub level: Option<Level>,
    /// So many megabytes may be taken by states.
    pub memory: u64,
}

impl<'a> WantedClasses<'a> {
    /// The filters that are wanted; and behind them, of a sample, that each step is sent, unless all orders are wanted.
    pub fn all_filters(&self, alloc: Global) -> Result<Vec<WantedFilter<'a>>, AllocError>
        ensures { IfOk result (λ filters. filters.items ≡ filters_of self.now) }
    {
        let mut filters = Vec::new(alloc);
        filters.extend_from_slice(self.filters.as_slice())?;
        if let Some(filter) = of_sample(self.sample, self.all_orders) {
            filters.push(filter)?;
        }
        Ok(filters)
    }
}

/// What is asked of the orders of a sample beside what the filters ask that are wanted.
fn of_sample<'a>(sample: Option<WantedSample>, all_orders: bool) -> Option<WantedFilter<'a>>
    ensures { result ≡ of_sample sample all_orders }
{
    match sample {
        Some(_) if !all_orders => Some(WantedFilter {
            test: WantedTest::NotSent,
            wanted: false,
        }),
        _ => None,
    }
}

/// What is wanted of the classes of a spec at both levels.
#[derive(Clone, Copy, Drop)]
pub struct WantedLevels {
    /// The totals alone are told.
    pub brief: bool,
    /// With what each session receives in the first order of each result.
    pub outcomes: bool,
    /// With the final rows of each result.
    pub final_rows: bool,
    /// So many megabytes may be taken by states, and by what is kept of one level while the other one is explored.
    pub memory: u64,
}

/// What is wanted of the classes of what books tell.
#[derive(Clone, Copy, Drop)]
pub struct WantedOutcomes {
    /// The totals alone are told.
    pub brief: bool,
    /// With the ranks of each class.
    pub ranks: bool,
    /// With what each session receives in the first order of each class.
    pub outcomes: bool,
    /// As JSON, and not as text.
    pub json: bool,
}
