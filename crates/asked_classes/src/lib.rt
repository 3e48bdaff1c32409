//! What is asked of the classes of a spec: which orders, what is looked at and what is expected, from what is wanted in words.
#![tactic(auto)]

mod asking;
mod expectations;
mod fault;
mod filters;
mod looks;

pub use asking::{AskedClasses, asked_of};
pub use expectations::AskedExpectation;
pub use fault::AskedFault;
pub use looks::AskedLook;
