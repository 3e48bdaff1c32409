//! Entries that versions share.

ghost use Rattle.std.specs.Prelude.{◌≡◌, IfOk};
ghost use Rattle.std.specs.Map.Iter.{deref_pair};

use finite_maps::Fork;
use std::alloc::{AllocError, Global};
use std::marker::Model;
use std::rc::Rc;

/// A key with its value, seen by contracts as the pair. Sharing it copies neither.
#[derive(Drop)]
pub struct Entry<K, V> {
    pair: Rc<(K, V)>,
}

impl<K, V> Model for Entry<K, V> {
    ghost Value = { K × V };

    ghost view = { λ e. e.pair.value };
}

impl<K, V> Entry<K, V> {
    pub fn key(&self) -> &K
        ensures { result.now ≡ self.now.0 }
    {
        &self.pair.0
    }

    pub fn pair(&self) -> (&K, &V)
        ensures { deref_pair result ≡ self.now }
    {
        (&self.pair.0, &self.pair.1)
    }

    pub fn value(&self) -> &V
        ensures { result.now ≡ self.now.1 }
    {
        &self.pair.1
    }
}

impl<K: Drop, V: Drop> Entry<K, V> {
    pub fn new(alloc: Global, key: K, value: V) -> Result<Entry<K, V>, AllocError>
        ensures { IfOk result (λ entry. entry ≡ (key, value)) }
    {
        Ok(Entry {
            pair: Rc::new(alloc, (key, value))?,
        })
    }

    /// The same entry once more.
    pub fn share(&self) -> Result<Entry<K, V>, AllocError>
        ensures { IfOk result (λ entry. entry ≡ self.now) }
    {
        Ok(Entry {
            pair: self.pair.clone()?,
        })
    }
}

impl<K: Fork, V: Drop> Entry<K, V> {
    /// The same key with another value.
    pub fn with_value(&self, alloc: Global, value: V) -> Result<Entry<K, V>, AllocError>
        ensures { IfOk result (λ entry. entry ≡ (self.now.0, value)) }
    {
        Entry::new(alloc, self.key().fork()?, value)
    }
}
