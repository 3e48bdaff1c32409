//! A tree of lists of events, each of which is there once, so that a list is known by a number and is never copied.
#![tactic(auto)]

mod children;
mod node;
mod same;
mod tree;

pub use node::NodeId;
pub use same::Same;
pub use tree::EventTree;
