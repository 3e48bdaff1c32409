//! The door of SQL and of spec files that are bound: what stands in the rooms of this wing, under one name.
#![tactic(auto)]

pub use bound_specs::{Line, Spec};
pub use bound_statements::{Bound, lock_plan, nowait};
pub use spec_binding::{BindError, BindErrorKind, SpecFault, bind, spec_of};
pub use sql_grammar::{SqlError, SqlErrorKind, Statement};
pub use sql_reader::read_sql;
