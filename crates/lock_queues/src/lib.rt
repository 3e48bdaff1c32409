//! Who holds which lock mode, who waits for one, and whose wait would close a ring.
#![tactic(auto)]

mod answer;
mod held;
mod laws;
mod modes;
mod queue;
mod reason;
mod ring;
mod table;
mod told;
mod wait;
mod want;

pub use answer::{Answer, Taken};
pub use laws::{
    covered_modes_are_had, reasons_are_exact, rings_are_found, tables_stay_sound, tests_decide,
    waiters_reach,
};
pub use reason::{Edge, Reason};
pub use table::LockTable;
pub use told::Hop;
pub use wait::Wait;
pub use want::Want;
