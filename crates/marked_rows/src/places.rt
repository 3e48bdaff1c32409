//! The places that were ever written, and which cell is that of a place.

ghost use Rattle.std.specs.Prelude.{◌≡◌, ℕ, ◌<◌, [], IfErr, IfOk, MatchOption, OnErr, OnOk, Some, length, map, slice_get};
ghost use Rattle.std.specs.List.{Contains};
ghost use Rattle.std.specs.List.Sorted.{IsStrictlySortedBy};
ghost use Rattle.std.specs.Vec.{vec_items};
ghost use Rattle.lock_modes.specs.Value.{value_cmp};
ghost use Rattle.lock_modes.specs.declared.value.Value.{Value as Key};
ghost use Rattle.marked_rows.specs.declared.places.KeyedCell.{KeyedCell as Keyed};
ghost use Rattle.marked_rows.specs.Places.{AllRise, HasMore, IsAbsent, IsGap, IsGrown, IsIndexOf, IsPlaceOf, key_cmp, keys_of, placed_from};

use finite_maps::Fork;
use lock_modes::Value;
use std::alloc::{AllocError, Global};
use std::cmp::Ordering;
use std::marker::Model;

/// A key of a table, and the number of its cell.
#[derive(Drop)]
pub(crate) struct KeyedCell {
    pub(crate) key: Value,
    pub(crate) cell: usize,
}

/// The places that were ever written. They become more, and stay where cells go back to a mark.
///
/// Contracts see each place with the number of its cell, and the number of the next one.
#[derive(Drop)]
pub(crate) struct Places {
    /// For each table its keys, in order.
    tables: Vec<Vec<KeyedCell>>,
    next: usize,
}

impl Model for Places {
    ghost use Rattle.std.specs.Prelude.{map};
    ghost use Rattle.std.specs.Vec.{vec_items};
    ghost use Rattle.marked_rows.specs.Places.{AllRise, Index, placed_from};

    ghost Value = { Index };

    ghost view = { λ p. record { entries = placed_from 0 (map vec_items p.tables.items); next = p.next } };

    ghost invariant = { λ p. AllRise (map vec_items p.tables.items) };
}

impl Places {
    /// No places.
    pub fn new(alloc: Global) -> Places
        ensures { result ≡ record { entries = []; next = 0 } }
    {
        Places {
            tables: Vec::new(alloc),
            next: 0,
        }
    }

    /// How many places were ever written.
    pub fn count(&self) -> usize
        ensures { result ≡ self.now.next }
    {
        self.next
    }

    /// The number of the cell for a key of a table, none where nothing was ever written.
    pub fn cell_of(&self, table: u16, key: &Value) -> Option<usize>
        ensures { MatchOption result (IsAbsent (table, key.now) self.now.entries) (IsPlaceOf self.now.entries (table, key.now)) }
    {
        let keys = self.table(table);
        match index_in(keys, key) {
            Ok(index) => Some(keys[index].cell),
            Err(_) => None,
        }
    }

    /// The keys of a table at which something was ever written, each with its cell.
    pub fn table(&self, table: u16) -> &[KeyedCell]
        ensures rise { IsStrictlySortedBy key_cmp result.now }
        ensures there { (index : ℕ) (e : Keyed) → slice_get result.now index ≡ Some e → IsPlaceOf self.now.entries (table, e.key) e.cell }
        ensures absent { (key : Key) → (Contains (keys_of result.now) key → ⊥) → IsAbsent (table, key) self.now.entries }
    {
        let table = table as usize;
        if table >= self.tables.len() {
            return &[];
        }
        self.tables[table].as_slice()
    }

    /// The keys of all tables at which something was ever written, in the order of the tables.
    pub fn tables(&self) -> &[Vec<KeyedCell>]
        ensures { placed_from 0 (map vec_items result.now) ≡ self.now.entries }
    {
        self.tables.as_slice()
    }

    /// The number of the cell for a key of a table, the next one where nothing was ever written. Without memory the place may be there already.
    pub fn number_of(&mut self, table: u16, key: &Value) -> Result<usize, AllocError>
        ensures known { IfOk result (IsPlaceOf self.new.entries (table, key.now)) }
        ensures grown { IsGrown (table, key.now) self.old self.new }
    {
        match self.cell_of(table, key) {
            Some(cell) => Ok(cell),
            None => self.add(table, key.fork()?),
        }
    }

    /// The number of the cell for a key of a table at which nothing was ever written.
    fn add(&mut self, table: u16, key: Value) -> Result<usize, AllocError>
        requires { IsAbsent (table, key) self.old.entries }
        ensures known { IfOk result (IsPlaceOf self.new.entries (table, key)) }
        ensures grown { IsGrown (table, key) self.old self.new }
    {
        let cell = self.next;
        // No memory has room for so many.
        if cell == usize::MAX {
            return Err(AllocError);
        }
        reach(&mut self.tables, table as usize)?;
        add_key(&mut self.tables, table as usize, key, cell)?;
        self.next = cell + 1;
        Ok(cell)
    }
}

/// Makes tables, without keys, up to this one.
fn reach(tables: &mut Vec<Vec<KeyedCell>>, table: usize) -> Result<(), AllocError>
    requires { AllRise (map vec_items tables.old.items) }
    ensures there { OnOk result (table < length tables.new.items) }
    ensures rise { AllRise (map vec_items tables.new.items) }
    ensures same { placed_from 0 (map vec_items tables.new.items) ≡ placed_from 0 (map vec_items tables.old.items) }
{
    let alloc = *tables.allocator();
    while tables.len() <= table {
        tables.push(Vec::new(alloc))?;
    }
    Ok(())
}

/// Adds a key, which is not there yet, to a table.
fn add_key(
    tables: &mut Vec<Vec<KeyedCell>>,
    table: usize,
    key: Value,
    cell: usize,
) -> Result<(), AllocError>
    requires there { table < length tables.old.items }
    requires rise { AllRise (map vec_items tables.old.items) }
    requires absent { IsAbsent (table, key) (placed_from 0 (map vec_items tables.old.items)) }
    ensures rise { AllRise (map vec_items tables.new.items) }
    ensures added { OnOk result (HasMore (table, key) cell (placed_from 0 (map vec_items tables.old.items)) (placed_from 0 (map vec_items tables.new.items))) }
    ensures refused { OnErr result (placed_from 0 (map vec_items tables.new.items) ≡ placed_from 0 (map vec_items tables.old.items)) }
{
    let keys = &mut tables[table];
    match index_in(keys.as_slice(), &key) {
        Ok(_) => unreachable!(),
        Err(index) => {
            keys.insert(index, KeyedCell { key, cell })?;
            Ok(())
        }
    }
}

/// The index of a key, or where it would stand.
fn index_in(keys: &[KeyedCell], key: &Value) -> Result<usize, usize>
    requires { IsStrictlySortedBy key_cmp keys.now }
    ensures found { IfOk result (IsIndexOf keys.now key.now) }
    ensures gap { IfErr result (IsGap keys.now key.now) }
{
    keys.binary_search_by(
        |other: &KeyedCell| -> Ordering
            ensures { result ≡ value_cmp other.now.key key.entry.now }
        { other.key.cmp(key) },
    )
}
