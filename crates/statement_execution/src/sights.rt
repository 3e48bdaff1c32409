//! Rows as statements look at them.

ghost use Rattle.std.specs.Prelude.{◌≡◌, IfOk};
ghost use Rattle.std.specs.Option.{option_copied};
ghost use Rattle.finite_maps.specs.Map.{get};
ghost use Rattle.row_tables.specs.Layers.{Layers, sight, rows_of, IsOnlyWriterAt, IsOnlyWriterIn};
ghost use Rattle.statement_evaluation.specs.Effect as spec;
ghost use Rattle.statement_execution.specs.Seen.{in_table};

use bound_statements::Condition;
use lock_modes::{Row, Value};
use statement_evaluation::Entries;
use std::alloc::{AllocError, Global};

/// The rows that statements look at, borrowed from where they are kept.
///
/// Contracts see committed rows and for each session an overlay, however they are kept. Whatever is asked for a session, no other one may have a write
/// there that is neither kept nor undone.
pub trait Sight<'a>: Copy {
    // the rows as the definitions have them
    ghost layers: { Self → Layers };

    /// The row that a session sees at a key of a table.
    fn read(self, session: u8, table: u16, key: &Value) -> Option<&'a Row>
        requires { IsOnlyWriterAt session (table, key.now) (layers self) }
        ensures { option_copied result ≡ get (sight session (layers self)) (table, key.now) };

    /// The rows of a table that meet the condition, in the order of their keys, or none where the condition faults. It fails for want of memory alone.
    fn matching_in(
        self,
        alloc: Global,
        session: u8,
        table: u16,
        condition: &Condition,
    ) -> Result<Option<Entries<'a>>, AllocError>
        requires { IsOnlyWriterIn session table (layers self) }
        ensures { IfOk result (λ found. found ≡ spec.matching condition.now (in_table table (rows_of table (sight session (layers self))))) };

    /// One more than the greatest number that is a key of a table, or 1 where none is.
    fn next_number(self, session: u8, table: u16) -> u64
        requires { IsOnlyWriterIn session table (layers self) }
        ensures { result ≡ spec.next_number 1 (in_table table (rows_of table (sight session (layers self)))) };
}
