//! Why a text is no look.

use binding_model::BindError;
use sql_grammar::SqlError;

/// Why a text is no look. Each is tried before those below it, but want of memory, which may come at any of them.
#[derive(Clone, Copy)]
pub enum LookFault {
    /// It is no SQL of the subset, of this kind at this byte of it.
    Sql(SqlError),
    /// It is not one statement alone, or no SELECT.
    NotOneSelect,
    /// The SELECT does not bind over the tables. The byte is the first of the SELECT.
    Binding(BindError),
    /// Memory ran out.
    NoMemory,
}
