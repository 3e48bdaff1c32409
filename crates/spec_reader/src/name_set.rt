//! Sets of names, in which a name is found by a few comparisons.

ghost use Rattle.std.specs.Prelude.{◌≡◌, ◌∷◌, ◌++◌, [], OnOk};
ghost use Rattle.spec_reader.specs.Names.{is_among, HaveSame};

use std::alloc::{AllocError, Global};
use std::collections::BTreeSet;
use std::marker::Model;

/// A set of names, seen by contracts as their list in the order of their bytes.
#[derive(Drop)]
pub struct NameSet {
    names: BTreeSet<String>,
}

impl Model for NameSet {
    ghost use Rattle.std.specs.Prelude.{List, ℕ, map};
    ghost use Rattle.std.specs.String.{string_bytes};

    ghost Value = { List (List ℕ) };

    ghost view = { λ s. map string_bytes s.names.keys };
}

impl NameSet {
    pub fn new(alloc: Global) -> NameSet
        ensures { result ≡ [] }
    {
        NameSet {
            names: BTreeSet::new(alloc),
        }
    }

    pub fn has(&self, name: &str) -> bool
        ensures { result ≡ is_among name.now self.now }
    {
        self.names.contains(name)
    }

    #[tactic(auto, using(crate::proofs::NameSets::added))]
    pub fn add(&mut self, alloc: Global, name: &str) -> Result<(), AllocError>
        ensures { OnOk result (HaveSame (self.old ++ name.now ∷ []) self.new) }
    {
        self.names.insert(String::from_str(alloc, name)?)?;
        Ok(())
    }
}
