//! Audits: each fact of a book is tested again.
#![tactic(auto)]

mod auditing;
mod comparing;
mod error;
mod finding;
mod ground;
mod pieces;
mod sharing;
mod source;
mod testing;

pub use auditing::{audit, audit_plain};
pub use error::AuditError;
