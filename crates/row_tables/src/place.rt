ghost use Rattle.std.specs.Prelude.{◌≡◌, Some};
ghost use Rattle.std.proofs.Common.{rules};
ghost use Rattle.std.specs.Ordering.{eq_by_cmp};
ghost use Rattle.std.specs.Cmp.{po, eq_by_cmp_equiv, partial_equiv_from_equiv};
ghost use Rattle.lock_modes.specs.RowPlace.{place_cmp, place_total};

use finite_maps::Fork;
use lock_modes::Value;
use std::alloc::AllocError;
use std::cmp::Ordering;
use std::marker::Model;

/// Where a row lies, seen by contracts as its table and its key.
#[derive(Drop)]
pub(crate) struct RowPlace {
    table: u16,
    key: Value,
}

impl Model for RowPlace {
    ghost use Rattle.lock_modes.specs.RowPlace.{RowPlace};

    ghost Value = { RowPlace };

    ghost view = { λ k. (k.table, k.key) };
}

impl RowPlace {
    pub fn new(table: u16, key: Value) -> RowPlace
        ensures { result ≡ (table, key) }
    {
        RowPlace { table, key }
    }

    pub fn table(&self) -> u16
        ensures { result ≡ self.now.0 }
    {
        self.table
    }

    pub fn key(&self) -> &Value
        ensures { result.now ≡ self.now.1 }
    {
        &self.key
    }

    /// The table and the key.
    pub fn into_parts(self) -> (u16, Value)
        ensures { result ≡ self }
    {
        (self.table, self.key)
    }
}

impl PartialEq for RowPlace {
    ghost eq = { eq_by_cmp place_cmp };

    ghost laws = { partial_equiv_from_equiv (eq_by_cmp_equiv place_total) };

    fn eq(&self, other: &RowPlace) -> bool {
        self.cmp(other).is_eq()
    }
}

impl Eq for RowPlace {
    ghost laws = { eq_by_cmp_equiv place_total };
}

impl PartialOrd for RowPlace {
    ghost partial_cmp = { λ a b. Some (place_cmp a b) };

    ghost laws = { po place_total (λ a b. Prim.search rules) };

    fn partial_cmp(&self, other: &RowPlace) -> Option<Ordering> {
        Some(self.cmp(other))
    }
}

impl Ord for RowPlace {
    ghost cmp = { place_cmp };

    ghost total = { place_total };

    ghost matches_partial_cmp = { Prim.search rules };

    ghost matches_eq = { Prim.search rules };

    fn cmp(&self, other: &RowPlace) -> Ordering {
        self.table.cmp(&other.table).then(self.key.cmp(&other.key))
    }
}

impl Fork for RowPlace {
    fn fork(&self) -> Result<RowPlace, AllocError> {
        Ok(RowPlace {
            table: self.table,
            key: self.key.fork()?,
        })
    }
}
