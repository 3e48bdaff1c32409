//! What sessions were told, with marks to go back to, as numbers of lists that are there once: for who would else copy each transcript.
#![tactic(auto)]

mod logs;

pub use logs::MarkedLogs;
