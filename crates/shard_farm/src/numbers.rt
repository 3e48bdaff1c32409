//! Numbers of shards.

ghost use Rattle.std.specs.Prelude.{◌≡◌, ◌↔◌, true, []};

use std::marker::Model;

/// Numbers of shards, seen by contracts as their list.
#[derive(Drop)]
pub struct ShardNumbers {
    items: Vec<u32>,
}

impl Model for ShardNumbers {
    ghost use Rattle.std.specs.Prelude.{ℕ, List};

    ghost Value = { List ℕ };

    ghost view = { λ n. n.items.items };
}

impl ShardNumbers {
    pub(crate) fn from_vec(items: Vec<u32>) -> ShardNumbers
        ensures { result ≡ items.items }
    {
        ShardNumbers { items }
    }

    /// The numbers in order.
    pub fn as_slice(&self) -> &[u32]
        ensures { result.now ≡ self.now }
    {
        self.items.as_slice()
    }

    /// Whether there is none.
    pub fn is_empty(&self) -> bool
        ensures { (result ≡ true) ↔ (self.now ≡ []) }
    {
        self.items.is_empty()
    }
}
