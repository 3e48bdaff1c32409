//! What written statements and declarations mean over the tables that are declared: the definitions of binding, and the types they speak of.
#![tactic(auto)]

mod error;
mod joint;
mod names;
mod tables;

pub use error::{BindError, BindErrorKind, BindStop, refused};
pub use joint::Joint;
pub use names::position;
pub use tables::{Column, ColumnType, Table, column_place, table_named, table_place, type_of};

/// The tables of a file, at most, by which their numbers are u16. A spec file has no room for so many.
pub const MAX_TABLES: usize = 65_536;

/// The columns of a table, at most, by which their numbers are u16. A spec file has no room for so many.
pub const MAX_COLUMNS: usize = 65_536;
