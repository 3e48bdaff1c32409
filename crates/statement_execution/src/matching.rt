//! The rows that a statement looks at and that meet its condition.

ghost use Rattle.std.specs.Prelude.{◌≡◌, IfOk, Some};
ghost use Rattle.std.specs.Option.{option_copied};
ghost use Rattle.row_tables.specs.Layers.{sight, IsOnlyWriterAt};
ghost use Rattle.statement_evaluation.specs.Effect as spec;
ghost use Rattle.statement_execution.specs.Seen.{named, NamesAlone};

use crate::sights::Sight;
use bound_statements::Condition;
use lock_modes::Value;
use statement_evaluation::{Entries, Entry, holds};
use std::alloc::{AllocError, Global};

/// The rows of a table that meet the condition, in the order of their keys, or none where the condition faults. Where a key is
/// named the row at that key is the only one that is looked at.
pub(crate) fn matching<'a, S: Sight<'a>>(
    alloc: Global,
    rows: S,
    session: u8,
    table: u16,
    key: Option<&'a Value>,
    condition: &Condition,
) -> Result<Option<Entries<'a>>, AllocError>
    requires { NamesAlone session table (option_copied key) (S.layers rows) }
    ensures { IfOk result (λ found. found ≡ spec.matching condition.now (named table (option_copied key.entry) (sight session (S.layers rows)))) }
{
    match key {
        Some(key) => at_key(alloc, rows, session, table, key, condition),
        None => rows.matching_in(alloc, session, table, condition),
    }
}

fn at_key<'a, S: Sight<'a>>(
    alloc: Global,
    rows: S,
    session: u8,
    table: u16,
    key: &'a Value,
    condition: &Condition,
) -> Result<Option<Entries<'a>>, AllocError>
    requires { IsOnlyWriterAt session (table, key.now) (S.layers rows) }
    ensures { IfOk result (λ found. found ≡ spec.matching condition.now (named table (Some key.now) (sight session (S.layers rows)))) }
{
    let mut found = Entries::new(alloc);
    let Some(row) = rows.read(session, table, key) else {
        return Ok(Some(found));
    };
    let Some(passes) = holds(row, condition) else {
        return Ok(None);
    };
    found.push_if(passes, Entry::new(table, key, row))?;
    Ok(Some(found))
}
