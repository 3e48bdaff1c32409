//! What is run.

use step_reducer::Shard;

/// The shards that are run of the spec of a text, and whether their facts are reduced.
///
/// Threads share the text and not the spec: that a bound statement may be looked at by several threads is not known, since conditions
/// hold conditions. Each shard is run over a spec that its own thread has bound.
#[derive(Clone, Copy)]
pub(crate) struct Plan<'a> {
    pub(crate) text: &'a str,
    pub(crate) shards: &'a [Shard],
    pub(crate) reduce: bool,
}
