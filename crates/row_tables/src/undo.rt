//! What undoes the writes of each session.

ghost use Rattle.std.specs.Prelude.{◌≡◌, IfOk, OnOk, OnErr};
ghost use Rattle.std.specs.Option.{option_copied, unwrap_or};
ghost use Rattle.std.specs.Ordering.{nat_cmp};
ghost use Rattle.std.specs.BTreeMap.{insert_entry};
ghost use Rattle.finite_maps.specs.Map as map;
ghost use Rattle.lock_modes.specs.RowPlace.{place_cmp};
ghost use Rattle.row_tables.specs.Layers.{session_order};
ghost use Rattle.row_tables.specs.Overlay.{lay, laid};
ghost use Rattle.row_tables.specs.Undo.{noted, AreApart};

use crate::left::Left;
use crate::place::RowPlace;
use crate::rows::Rows;
use finite_maps::Fork;
use std::alloc::{AllocError, Global};
use std::collections::{BTreeMap, btree_map};
use std::marker::Model;
use version_tree::{Iter, VMap};

/// For each place where a session wrote, what stood there before its first write. Contracts see the finite map.
#[derive(Drop)]
pub(crate) struct UndoList {
    places: VMap<RowPlace, Left>,
}

impl Model for UndoList {
    ghost use Rattle.std.specs.Coded.{codes};
    ghost use Rattle.finite_maps.specs.Codes.{map_code};
    ghost use Rattle.finite_maps.specs.Map.{of_entries};
    ghost use Rattle.lock_modes.specs.RowPlace.{place_order};
    ghost use Rattle.lock_modes.specs.contracts.value.Value as value;
    ghost use Rattle.row_tables.specs.Overlay.{Overlay};

    ghost Value = { Overlay };

    ghost coded = { Prim.hlevel (codes, map_code, value.the_row.coded) };

    ghost view = { λ u. of_entries place_order u.places };
}

impl UndoList {
    /// No writes.
    pub fn new(alloc: Global) -> UndoList
        ensures { result ≡ map.empty }
    {
        UndoList {
            places: VMap::new(alloc),
        }
    }

    /// The places in order, each with what stood there.
    pub fn iter(&self) -> Iter<'_, RowPlace, Left>
        ensures { result ≡ map.entries self.now }
    {
        let _in_order = self.places.len(); // for the proof
        self.places.iter()
    }

    /// The list with what stands at a place, unless it has what stood there before.
    pub fn noting(&self, place: &RowPlace, rows: &Rows) -> Result<UndoList, AllocError>
        ensures { IfOk result (λ list. list ≡ noted place.now rows.now self.now) }
    {
        match self.places.get(place) {
            Some(_) => self.fork(),
            None => {
                let before = rows.left_at(place)?;
                let places = self.places.put(place.fork()?, before)?;
                Ok(UndoList { places })
            }
        }
    }

    /// The rows as they stood before the writes.
    pub fn restored(&self, rows: &Rows) -> Result<Rows, AllocError>
        ensures { IfOk result (λ before. before ≡ lay self.now rows.now) }
    {
        let mut restored = rows.fork()?;
        for (place, before) in self.iter() {
            restored = put_back(&restored, place, before)?;
        }
        Ok(restored)
    }
}

/// The rows as they stood before one of the writes.
fn put_back(rows: &Rows, place: &RowPlace, before: &Left) -> Result<Rows, AllocError>
    ensures { IfOk result (λ restored. restored ≡ laid place.now before.now rows.now) }
{
    let place = place.fork()?;
    let before = before.fork()?;
    rows.replaced(place, before)
}

impl Fork for UndoList {
    fn fork(&self) -> Result<UndoList, AllocError> {
        let places = self.places.fork()?;
        Ok(UndoList { places })
    }
}

/// The undo lists of the sessions that have writes of their own. Contracts see the finite map.
#[derive(Drop)]
pub(crate) struct UndoLists {
    lists: BTreeMap<u8, UndoList>,
    alloc: Global,
}

impl Model for UndoLists {
    ghost use Rattle.std.specs.Coded.{codes};
    ghost use Rattle.finite_maps.specs.Codes.{map_code};
    ghost use Rattle.finite_maps.specs.Map.{of_entries};
    ghost use Rattle.lock_modes.specs.contracts.value.Value as value;
    ghost use Rattle.row_tables.specs.Layers.{session_order};
    ghost use Rattle.row_tables.specs.Undo.{Lists};

    ghost Value = { Lists };

    ghost coded = { Prim.hlevel (codes, map_code, value.the_row.coded) };

    ghost view = { λ u. of_entries session_order u.lists.entries };
}

impl UndoLists {
    /// No session has written.
    pub fn new(alloc: Global) -> UndoLists
        ensures { result ≡ map.empty }
    {
        UndoLists {
            lists: BTreeMap::new(alloc),
            alloc,
        }
    }

    /// The sessions that have written, each with its list.
    pub fn iter(&self) -> btree_map::Iter<'_, u8, UndoList>
        ensures { map.of_entries session_order result ≡ self.now }
    {
        self.lists.iter()
    }

    pub fn get(&self, session: u8) -> Option<&UndoList>
        ensures { option_copied result ≡ map.get self.now session }
    {
        self.lists.get(&session)
    }

    /// A session's list with what stands at a place, unless it has what stood there before.
    pub fn noted(&self, session: u8, place: &RowPlace, rows: &Rows) -> Result<UndoList, AllocError>
        ensures { IfOk result (λ list. list ≡ noted place.now rows.now (unwrap_or (map.get self.now session) map.empty)) }
    {
        match self.get(session) {
            Some(list) => list.noting(place, rows),
            None => UndoList::new(self.alloc).noting(place, rows),
        }
    }

    pub fn put(&mut self, session: u8, list: UndoList) -> Result<(), AllocError>
        ensures ok { OnOk result (self.new ≡ map.insert self.old session list) }
        ensures err { OnErr result (self.new ≡ self.old) }
    {
        self.lists.insert(session, list)?;
        Ok(())
    }

    pub fn remove(&mut self, session: u8)
        ensures gone { self.new ≡ map.remove self.old session }
        // No two lists come to speak of one place.
        ensures apart { AreApart self.old → AreApart self.new }
    {
        self.lists.remove(&session);
    }
}

impl Fork for UndoLists {
    fn fork(&self) -> Result<UndoLists, AllocError> {
        let mut lists = BTreeMap::new(self.alloc);
        for (session, list) in self.lists.iter() {
            copy_into(&mut lists, *session, list)?;
        }
        let alloc = self.alloc;
        Ok(UndoLists { lists, alloc })
    }
}

/// Inserts an equal list.
fn copy_into(
    lists: &mut BTreeMap<u8, UndoList>,
    session: u8,
    list: &UndoList,
) -> Result<(), AllocError>
    ensures { OnOk result (lists.new.entries ≡ insert_entry nat_cmp lists.old.entries session list.now) }
{
    lists.insert(session, list.fork()?)?;
    Ok(())
}
