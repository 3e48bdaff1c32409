//! Steps that do not meet, swaps of neighbouring steps, and what is true of the ranks of a spec.
#![tactic(auto)]

mod fact;
mod laws;
mod shard;

pub use fact::Fact;
pub use laws::{
    chains_end, facts_are_one, headline, leads_are_exchanges, letters_are_steps, lines_run,
    plans_open, quiet_is_mutual, quiet_steps_are_calm, quiet_steps_commute, steps_have_footprints,
    steps_have_footprints_until, swap_keeps_worlds, swaps_hold, swaps_lead_down,
};
pub use shard::{MAX_PLACES, MAX_RANKS, Shard};
