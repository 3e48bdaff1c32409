//! A SELECT that looks at the rows which an order leaves.

ghost use Rattle.std.specs.Prelude.{◌≡◌, [], get_or, IfOk};
ghost use Rattle.std.specs.Option.{option_copied};
ghost use Rattle.bound_statements.specs.Plan.{at_key};
ghost use Rattle.statement_evaluation.specs.Effect as effect;
ghost use Rattle.statement_evaluation.specs.Borrowed.{effect_at};
ghost use Rattle.class_looks.specs.Seeing.{told_by, entries_at, sees, SeesLines};

use bound_statements::{Bound, Condition};
use events::Event;
use line_moments::TableRows;
use lock_modes::{Row, Value};
use statement_evaluation::{Entries, Entry, Few, Given, holds, selected};
use std::alloc::{AllocError, Global};
use std::marker::Model;

/// A SELECT that is bound over the tables of a spec, seen by contracts as the statement.
#[derive(Drop)]
pub struct Look {
    statement: Bound,
}

impl Model for Look {
    ghost use Rattle.std.specs.Coded.{codes};
    ghost use Rattle.bound_statements.specs.contracts.statement.Bound as bound;
    ghost use Rattle.bound_statements.specs.declared.statement.Bound.{Bound};

    ghost Value = { Bound };

    ghost coded = { Prim.hlevel (codes, bound.the_row.coded) };

    ghost view = { λ l. l.statement };
}

impl Look {
    /// The look that a bound statement is.
    pub(crate) fn from_statement(statement: Bound) -> Look
        ensures { result ≡ statement }
    {
        Look { statement }
    }

    /// What the SELECT tells of rows left, which are those of each table by its number, in the order of their keys: each row and how
    /// many they are, or why it fails. It takes no locks, and no row is copied. It fails for want of memory alone.
    pub fn seen(&self, alloc: Global, left: &[TableRows]) -> Result<Vec<Event>, AllocError>
        ensures told { IfOk result (λ events. events.items ≡ told_by (sees self.now left.now)) }
        // So it is what the SELECT tells in the world behind each line that leaves these rows.
        ensures lines { IfOk result (λ events. SeesLines self.now left.now events.items) }
    {
        seen_by(alloc, &self.statement, left)
    }
}

/// What a SELECT tells of rows left, and nothing where the statement is none.
fn seen_by(alloc: Global, statement: &Bound, left: &[TableRows]) -> Result<Vec<Event>, AllocError>
    ensures { IfOk result (λ events. events.items ≡ told_by (sees statement.now left.now)) }
{
    match statement {
        Bound::Select(table, key, condition, order, output, _) => {
            let rows = rows_of(left, *table);
            let found = matching(alloc, *table, key.as_ref(), condition, rows)?;
            let given = selected(alloc, order.as_slice(), output, found)?;
            told(alloc, given)
        }
        _ => Ok(Vec::new(alloc)),
    }
}

/// The rows of the table with this number.
fn rows_of<'a>(left: &'a [TableRows], table: u16) -> &'a [(Value, Row)]
    ensures { result.now ≡ get_or left.now table [] }
{
    match left.get(table as usize) {
        Some(rows) => rows.as_slice(),
        None => &[],
    }
}

/// The rows that meet the condition, or none where it faults. Where a key is named only rows at that key are looked at.
fn matching<'a>(
    alloc: Global,
    table: u16,
    key: Option<&'a Value>,
    condition: &Condition,
    rows: &'a [(Value, Row)],
) -> Result<Option<Entries<'a>>, AllocError>
    ensures { IfOk result (λ found. found ≡ effect.matching condition.now (entries_at table (option_copied key.entry) rows.now)) }
{
    let mut found = Entries::new(alloc);
    for entry in rows {
        if !is_at(key, &entry.0) {
            continue;
        }
        let Some(passes) = holds(&entry.1, condition) else {
            return Ok(None);
        };
        found.push_if(passes, Entry::new(table, &entry.0, &entry.1))?;
    }
    Ok(Some(found))
}

/// Whether a row at this key is looked at.
fn is_at(key: Option<&Value>, at: &Value) -> bool
    ensures { result ≡ at_key (option_copied key.entry) at.now }
{
    match key {
        None => true,
        Some(key) => *key == *at,
    }
}

/// These events as a list.
fn listed(alloc: Global, events: Few<Event>) -> Result<Vec<Event>, AllocError>
    ensures { IfOk result (λ listed. listed.items ≡ events) }
{
    let (one, items) = events.into_parts();
    let Some(event) = one else {
        return Ok(items);
    };
    let mut listed = Vec::new(alloc);
    listed.push(event)?;
    Ok(listed)
}

/// The events of an effect, or the one that tells why it fails.
fn told(alloc: Global, given: Given) -> Result<Vec<Event>, AllocError>
    ensures { IfOk result (λ events. events.items ≡ told_by (effect_at given)) }
{
    match given {
        Given::Told(events, _writes) => listed(alloc, events),
        Given::Failed(fault) => {
            let mut events = Vec::new(alloc);
            events.push(Event::Failed(fault))?;
            Ok(events)
        }
    }
}
