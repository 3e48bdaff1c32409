//! What is answered from book files: their join, which ranks they miss, the report, the audit and the judgement of a book, and whether it holds a
//! range.
#![tactic(auto)]

mod auditing;
mod finding;
mod holding;
mod joining;
mod judging;
mod missing;
mod nearest;
mod opener;
mod reporting;
mod texts;

pub use auditing::{AuditFault, audit_file};
pub use finding::Finding;
pub use holding::{HoldFault, Holding, hold_file};
pub use joining::{FileFault, JoinFault, join_files, joined_files};
pub use judging::{JudgeFault, NoReport, judge_files};
pub use missing::{MissingFault, MissingRanks, missing_files};
pub use opener::{FileReader, Opener, Watched};
pub use reporting::{ReportFault, ReportFileFault, report_file, write_report};
