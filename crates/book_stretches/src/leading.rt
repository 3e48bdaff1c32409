//! Where the facts of a run lead.

ghost use Rattle.std.specs.Prelude.{◌<◌, ◌≤◌};
ghost use Rattle.rank_facts.specs.Swap.{leads_in};
ghost use Rattle.fact_books.specs.Sweep.{IsLead};

use bound_specs::Spec;
use fact_books::{Lead, Tag, swap_lead};

/// What a tag gives at a rank and at those behind it, up to the end that is answered too.
pub(crate) fn lead_of(spec: &Spec, tag: Tag, rank: u64, until: u64) -> (Lead, u64)
    requires { rank < until }
    ensures lead { IsLead (leads_in spec.now.run) rank result.1 tag result.0 }
    ensures some { rank < result.1 }
    ensures few { result.1 ≤ until }
{
    match tag {
        Tag::Ran(n) => (Lead::Value(n as usize), until),
        Tag::Swap(place) => match spec.shape() {
            Some(shape) => swap_lead(shape, place, rank, until),
            None => (Lead::Nowhere, until),
        },
    }
}
