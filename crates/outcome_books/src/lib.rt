//! The door of books: what is done with them stands in the rooms of this wing, and here under one name.
#![tactic(auto)]

pub use book_audit::{AuditError, audit, audit_plain};
pub use book_files::read_book;
pub use book_format::{BookError, WriteError, write_book};
pub use book_jobs::{Boxed, Job, make};
pub use fact_books::{Book, JoinError, Report, ReportError, join, missing, report};
pub use shard_books::of_shard;
