//! From the text of a spec file to the spec that it binds to, or its first refusal.
#![tactic(auto)]

mod binding;
mod blocks;
mod laws;
mod shapes;
mod spec;

pub use binding::{bind, bind_at};
pub use binding_model::{BindError, BindErrorKind};
pub use blocks::setups;
pub use laws::{
    blocks_are_spelled, bound_files_fit, bound_statements_fit, files_ask_always, one_file,
    refusals_are_named,
};
pub use spec::{SpecFault, bound_again, spec_at, spec_of};
