//! Outcomes as their compact JSON texts, for who keeps many of them.
#![tactic(auto)]

mod compact;
mod list;
mod own;
mod quoted;
mod text;

pub use list::CompactOutcomes;
pub use own::CompactText;
pub use quoted::string_text;
pub use text::CompactOutcome;
