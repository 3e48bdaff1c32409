//! What may be wanted of the classes of a spec or of books, as words have it.
#![tactic(auto)]

mod wanted;

pub use wanted::{
    DEFAULT_MEMORY, WantedClasses, WantedExpectation, WantedFilter, WantedForm, WantedLevels,
    WantedOutcomes, WantedSample, WantedTest,
};
