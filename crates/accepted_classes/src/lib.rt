//! The accepted record of a spec: taken apart, and compared with that of today.
#![tactic(auto)]

mod changes;
mod names;
mod record;
mod telling;

pub use changes::{Change, ChangedResults, Changes, compare_texts};
pub use names::{accepted_path, file_name};
pub use record::ReadResult;
pub use telling::changes_text;
