//! What a run tells while it goes on.

/// What a run tells while it goes on: each worker calls it before it runs a shard, and after it delivered the shard's book. Workers are
/// numbered from 0 on, as shards are. Its calls return.
pub trait Gate {
    fn before(&self, worker: u8, shard: u32);

    fn after(&self, worker: u8, shard: u32);
}

/// A gate that holds nobody and notes nothing, for callers that need none.
#[derive(Clone, Copy)]
pub struct OpenGate;

impl Gate for OpenGate {
    fn before(&self, _worker: u8, _shard: u32) {}

    fn after(&self, _worker: u8, _shard: u32) {}
}
