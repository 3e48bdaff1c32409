//! Faults in words: the line that tells one, with its exit status; and of a spec file where it is, as people count, and what is wrong there.
#![tactic(auto)]

mod cut;
mod explain;
mod fault;
mod origins;
mod place;
mod sentences;

pub use explain::explained;
pub use fault::ProgramFault;
pub use place::{Place, place_of};
pub use sentences::{binding_sentence, file_sentence, text_sentence};

/// The characters of a line that is shown whole, at most.
pub const MAX_SHOWN: usize = 100;

/// The characters of a longer line that are shown on either side of a place, at most.
pub const MAX_BESIDE: usize = 48;
