//! Books: a spec with its text and a finite set of facts of its ranks, kept as runs.
#![tactic(auto)]

mod about;
mod adding;
mod book;
mod builder;
mod error;
mod filling;
mod gaps;
mod index;
mod joining;
mod judging;
mod known;
mod laws;
mod leading;
mod merging;
mod parts;
mod recording;
mod reporting;
mod reports;
mod run;
mod sweep;
mod table;

pub use book::Book;
pub use builder::Builder;
pub use error::{JoinError, MAX_REPORTED, ReportError};
pub use gaps::{missing, missing_from};
pub use joining::{join, union};
pub use laws::{facts_decide_report, joins_are_unions};
pub use leading::{Lead, swap_lead};
pub use merging::renumber;
pub use recording::leads_along;
pub use reporting::report;
pub use reports::Report;
pub use run::{Run, Tag};
