//! A page: an order of a spec, with what is shown of it and the names of what it tells of.

use line_moments::Shown;
use lock_modes::Text;
use spec_levels::Levels;

/// What is told of an order.
#[derive(Clone, Copy)]
pub struct Page<'a> {
    /// The spec file's name.
    pub name: &'a str,
    /// The order's rank.
    pub rank: u64,
    /// How many orders the spec has.
    pub orders: u64,
    /// Under which level the spec stands.
    pub levels: &'a Levels,
    /// The name of each session at its number, from 0.
    pub session_names: &'a [Text],
    /// The name of each step at its number, from 0, over all sessions.
    pub step_names: &'a [Text],
    /// The session of each step.
    pub step_sessions: &'a [u8],
    /// The statements of each step, on one line.
    pub statements: &'a [Text],
    /// The steps in the order in which they are sent.
    pub line: &'a [u8],
    /// What is shown of the order. The tables that it begins with are those of the spec, in their order.
    pub shown: &'a Shown,
}
