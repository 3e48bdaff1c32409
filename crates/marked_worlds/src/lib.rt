//! The sequential machine of a spec, with marks to go back to: for who would else fork a world before each step.
#![tactic(auto)]

mod asking;
mod members;
mod seen;
mod seen_stages;
mod stage;
mod told;
mod world;

pub use world::MarkedWorld;
