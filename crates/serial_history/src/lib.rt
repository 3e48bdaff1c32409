//! The transactions of a line in the order of their commits, and their serial run.
#![tactic(auto)]

mod laws;

pub use laws::{
    commits_stay_in_order, histories_show, lines_are_serial, lines_have_heirs,
    locked_specs_are_whole, readings_keep_data, serializable_stays_whole, specs_are_serial,
    specs_have_heirs, specs_show,
};
