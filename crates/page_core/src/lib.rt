//! What a page in a browser calls: the bytes of a spec in, the bytes of an answer out. Each call is a function of C, which is there by its name in a
//! static library and in the module that is made of one.
//!
//! A call has a buffer of its caller for the text and an `End` for how it ended. It answers how many bytes its text has; of a text for which the
//! buffer has no room it writes nothing, and the caller asks again with more.
#![tactic(auto)]

mod checking;
mod classing;
mod counting;
mod ending;
mod names;
mod putting;
mod showing;

pub use checking::page_check;
pub use classing::page_classes;
pub use counting::page_ranks;
pub use ending::{
    ANSWERED, End, NO_MEMORY, NO_NAME, NO_RANK, NO_ROOM, NO_SPEC, NO_SQL, NO_START, UNBOUND,
};
pub use showing::page_show;
