//! Looks: what a SELECT sees of the rows that orders leave, and what is expected of it.
#![tactic(auto)]

mod fault;
mod laws;
mod look;
mod reading;
mod values;

pub use fault::LookFault;
pub use laws::{expectations_are_seen, looks_are_spelled, looks_see_lines};
pub use look::Look;
pub use reading::look_of;
pub use values::value_of;
