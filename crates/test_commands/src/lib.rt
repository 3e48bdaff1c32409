//! Specs beside the accepted records of their classes.
#![tactic(auto)]

mod folder;
mod junit;
mod listing;
mod testing;

pub use folder::{Entry, Folder};
pub use junit::{Case, Ending, junit_text};
pub use listing::{MAX_SPECS, SpecsFault, specs_in};
pub use testing::{TestFault, Tested, Verdict, test_spec};
