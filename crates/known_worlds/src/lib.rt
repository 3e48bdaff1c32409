//! A world of a spec that remembers which step led from which world to which, so that where this is known no machine runs; and lines of steps along
//! it, with a mark before each step, so that another line that begins alike goes on from where they part.
#![tactic(auto)]

mod follower;
mod front;
mod graph;
mod known_world;
mod late_world;
mod moves;
mod path;
mod places;
mod steps;

pub use known_world::KnownWorld;
pub use path::MarkedPath;
