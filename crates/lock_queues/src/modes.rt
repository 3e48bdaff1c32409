ghost use Rattle.std.specs.Prelude.{◌≡◌, ◌++◌, map, IfOk, OnOk};
ghost use Rattle.finite_maps.specs.Map.{get, insert, empty, entries};
ghost use Rattle.std.specs.Option.{option_copied};
ghost use Rattle.std.specs.FinMap.Entries.{put};
ghost use Rattle.lock_modes.specs.Value.{value_cmp};
ghost use Rattle.lock_modes.specs.Resource.{resource_at, resource_order};
ghost use Rattle.lock_queues.specs.Records as records;
ghost use Rattle.lock_queues.specs.Records.{known_keys};
ghost use Rattle.lock_queues.specs.Tabulate.{tabulate};

use finite_maps::Fork;
use lock_modes::{Mode, Place, Resource, Value};
use std::alloc::{AllocError, Global};
use std::marker::Model;
use version_tree::VMap;

/// The modes that one session holds: by table, and there by key, so that a look-up takes no memory.
pub struct Modes {
    tables: VMap<u16, Mode>,
    rows: VMap<u16, VMap<Value, Mode>>,
}

// Written out and not derived, so that who owns one calls this and does not let its parts go one by one.
impl Drop for Modes {
    fn drop(self) {
        let Modes {
            tables: _tables,
            rows: _rows,
        } = self;
    }
}

impl Model for Modes {
    ghost use Rattle.std.specs.Coded.{codes};
    ghost use Rattle.finite_maps.specs.Codes.{map_code};
    ghost use Rattle.finite_maps.specs.Map.{Map};
    ghost use Rattle.lock_modes.specs.Resource.{resource_order};
    ghost use Rattle.lock_modes.specs.declared.mode.Mode.{Mode};
    ghost use Rattle.lock_modes.specs.contracts.resource.Resource as resource;
    ghost use Rattle.lock_queues.specs.Records.{modes_map};

    ghost Value = { Map resource_order Mode };

    ghost coded = { Prim.hlevel (codes, map_code, resource.the_row.coded) };

    ghost view = { λ m. modes_map m.tables m.rows };
}

impl Modes {
    /// No modes.
    pub fn new(alloc: Global) -> Modes
        ensures { result ≡ empty }
    {
        Modes {
            tables: VMap::new(alloc),
            rows: VMap::new(alloc),
        }
    }

    /// The mode that is held at a place.
    pub fn get(&self, place: Place<'_>) -> Option<Mode>
        ensures { result ≡ get self.now (resource_at place.entry) }
    {
        match place {
            Place::Table(table) => self.tables.get(&table).copied(),
            Place::Row(table, key) => match self.rows.get(&table) {
                None => None,
                Some(keys) => keys.get(key).copied(),
            },
        }
    }

    /// The modes with one more, or with another one at its place.
    pub fn put(&self, alloc: Global, place: Place<'_>, mode: Mode) -> Result<Modes, AllocError>
        ensures { IfOk result (λ modes. modes ≡ insert self.now (resource_at place.entry) mode) }
    {
        match place {
            Place::Table(table) => Ok(Modes {
                tables: self.tables.put(table, mode)?,
                rows: self.rows.fork()?,
            }),
            Place::Row(table, key) => {
                let keys = put_key(alloc, self.rows.get(&table), key, mode)?;
                Ok(Modes {
                    tables: self.tables.fork()?,
                    rows: self.rows.put(table, keys)?,
                })
            }
        }
    }

    /// What is held, in the order of resources. It fails for want of memory alone.
    pub fn list(&self, alloc: Global) -> Result<Vec<(Resource, Mode)>, AllocError>
        ensures { IfOk result (λ list. list.items ≡ entries self.now) }
    {
        let resources = resources_of(alloc, &self.tables, &self.rows)?;
        let sorted = self.sorted(alloc, resources)?;
        let list = listed(alloc, &sorted)?;
        Ok(list)
    }

    /// Those of these resources on which something is held, with the modes there, in the order of resources.
    fn sorted(
        &self,
        alloc: Global,
        mut resources: Vec<Resource>,
    ) -> Result<VMap<Resource, Mode>, AllocError>
        ensures { IfOk result (λ all. all ≡ entries (tabulate resource_order (get self.now) resources.items)) }
    {
        let mut all = VMap::new(alloc);
        'left: while let Some(resource) = resources.pop() {
            let mode = self.get(resource.place());
            all = with_mode(all, resource, mode)?;
        }
        Ok(all)
    }
}

/// The modes with that of a resource, if one is held there.
fn with_mode(
    all: VMap<Resource, Mode>,
    resource: Resource,
    mode: Option<Mode>,
) -> Result<VMap<Resource, Mode>, AllocError>
    ensures { IfOk result (λ more. more ≡ records.with_mode all resource mode) }
{
    match mode {
        None => Ok(all),
        Some(mode) => all.put(resource, mode),
    }
}

/// The resources that are known: the tables, and the keys of each.
fn resources_of(
    alloc: Global,
    tables: &VMap<u16, Mode>,
    rows: &VMap<u16, VMap<Value, Mode>>,
) -> Result<Vec<Resource>, AllocError>
    ensures { IfOk result (λ all. all.items ≡ records.resources_of tables.now rows.now) }
{
    let mut all = Vec::new(alloc);
    push_tables(tables, &mut all)?;
    push_rows(rows, &mut all)?;
    Ok(all)
}

fn push_tables(tables: &VMap<u16, Mode>, all: &mut Vec<Resource>) -> Result<(), AllocError>
    ensures { OnOk result (all.new.items ≡ all.old.items ++ map records.table_of tables.now) }
{
    for (table, _) in tables.iter() {
        all.push(Resource::Table(*table))?;
    }
    Ok(())
}

fn push_rows(rows: &VMap<u16, VMap<Value, Mode>>, all: &mut Vec<Resource>) -> Result<(), AllocError>
    ensures { OnOk result (all.new.items ≡ all.old.items ++ records.rows_of rows.now) }
{
    for (table, keys) in rows.iter() {
        push_keys(*table, keys, all)?;
    }
    Ok(())
}

fn push_keys(
    table: u16,
    keys: &VMap<Value, Mode>,
    all: &mut Vec<Resource>,
) -> Result<(), AllocError>
    ensures { OnOk result (all.new.items ≡ all.old.items ++ map (records.row_of table) keys.now) }
{
    for (key, _) in keys.iter() {
        let key = key.fork()?;
        all.push(Resource::Row(table, key))?;
    }
    Ok(())
}

fn listed(alloc: Global, all: &VMap<Resource, Mode>) -> Result<Vec<(Resource, Mode)>, AllocError>
    ensures { IfOk result (λ list. list.items ≡ all.now) }
{
    let mut list = Vec::new(alloc);
    for (resource, mode) in all.iter() {
        let resource = resource.fork()?;
        list.push((resource, *mode))?;
    }
    Ok(list)
}

/// The modes on the keys of a table, none for no table, with one more or another one.
fn put_key(
    alloc: Global,
    keys: Option<&VMap<Value, Mode>>,
    key: &Value,
    mode: Mode,
) -> Result<VMap<Value, Mode>, AllocError>
    ensures { IfOk result (λ more. more ≡ put value_cmp key.now mode (known_keys (option_copied keys.entry))) }
{
    match keys {
        Some(keys) => keys.put(key.fork()?, mode),
        None => VMap::new(alloc).put(key.fork()?, mode),
    }
}

impl Fork for Modes {
    fn fork(&self) -> Result<Modes, AllocError> {
        Ok(Modes {
            tables: self.tables.fork()?,
            rows: self.rows.fork()?,
        })
    }
}
