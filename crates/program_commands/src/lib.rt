//! The farm as a library: what each command of the program does, over words, files and two writers.
#![tactic(auto)]

mod commands;
mod faults;
mod files;
mod one_spec;
mod side_by_side;
mod testing;

pub use book_commands::{FileReader, Opener, Watched};
pub use commands::{answer, run, tell_words_fault};
pub use fault_texts::ProgramFault;
pub use faults::fault_at;
pub use files::MAX_SPEC_READ;
pub use test_commands::{Entry, Folder};
