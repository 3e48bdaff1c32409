//! The sequential machine as definitions: sessions, how a session goes, settling, sending, the start, and what every world keeps.
#![tactic(auto)]

mod laws;
mod reply;
mod status;

pub use laws::{
    levels_change_nothing, no_default_is_met, outcomes_are_own, rows_fit, send_keeps_sound,
    starts_sound, statuses_are_foreseen, waiters_reach, waits_are_rings, worlds_reached_are_sound,
};
pub use reply::Reply;
pub use status::Status;
