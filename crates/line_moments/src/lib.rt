//! The moments of a line: what each session does each time it goes on, why it waits or is refused a lock, and by which ring it loses a deadlock.
#![tactic(auto)]

mod laws;
mod moment;
mod reads;
mod shown;
mod stale;
mod table_rows;

pub use laws::{
    files_are_shown, keys_tell_rows, lacks_are_told, left_is_exact, locks_are_asked,
    moments_are_in_turn, moments_are_of_steps, moments_are_outcomes, moments_are_true,
    moments_hold, moments_lack, moments_lead, moments_lose, moments_tell, moments_wait,
    rings_are_told, shown_is_true, specs_moments_are_of_steps, standings_are_exact, steps_are_told,
    still_is_exact, still_waits_are_exact, waiters_go_on, wants_are_exact,
};
pub use moment::{Change, Ending, Manner, Moment, Refusal, Still};
pub use reads::{OpenRead, open_reads};
pub use shown::{Begun, Left, Shown, Standing};
pub use stale::{Stale, note_stale};
pub use table_rows::TableRows;
