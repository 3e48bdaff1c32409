//! Numbers for what the statements of a spec lock: for who would else look a resource up by its table and key at each step.
#![tactic(auto)]

mod laws;
mod named;
mod numbering;
mod numbers;
mod request;

pub use laws::{numbers_are_apart, writes_are_known};
pub use numbers::SpecNumbers;
pub use request::{NumberedPlan, NumberedRequest, ResourceNumber, StepPlans};
