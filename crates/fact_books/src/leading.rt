//! Where the swap of a run leads, for a whole block of ranks at once.

ghost use Rattle.std.specs.Prelude.{◌≡◌, ◌<◌, ◌≤◌, ℕ, List, Some, length};
ghost use Rattle.perm_ranks.specs.Words.{Word, total};
ghost use Rattle.perm_ranks.specs.Blocks.{HasRank, IsBlockOf};
ghost use Rattle.fact_books.specs.declared.run.Tag.TheVariants as tag;
ghost use Rattle.fact_books.specs.Sweep.{leads_of, IsLead};

use crate::run::Tag;
use perm_ranks::{Block, Shape, shared_block};

/// What a tag gives at ranks that follow one another: the outcome with a number, the values of as many ranks from another one on, or
/// nothing.
#[derive(Clone, Copy, Drop)]
pub enum Lead {
    Value(usize),
    From(u64),
    Nowhere,
}

/// What a tag gives at a rank and at those behind it, up to the end that is answered too.
pub(crate) fn lead_of(shape: &Option<Shape>, tag: Tag, rank: u64, until: u64) -> (Lead, u64)
    requires { rank < until }
    ensures lead { IsLead (leads_of shape.now) rank result.1 tag result.0 }
    ensures some { rank < result.1 }
    ensures few { result.1 ≤ until }
{
    match tag {
        Tag::Ran(n) => (Lead::Value(n as usize), until),
        Tag::Swap(place) => match shape {
            Some(shape) => swap_lead(shape, place, rank, until),
            None => (Lead::Nowhere, until),
        },
    }
}

/// Where the exchange at a place leads. All words that share the letters up to the one behind the place are exchanged alike, and stand
/// in one block.
pub fn swap_lead(shape: &Shape, place: u8, rank: u64, until: u64) -> (Lead, u64)
    requires { rank < until }
    ensures lead { IsLead (leads_of (Some shape.now)) rank result.1 (tag.Swap place) result.0 }
    ensures some { rank < result.1 }
    ensures few { result.1 ≤ until }
{
    let block = shape.block();
    if rank >= block.end() {
        return (Lead::Nowhere, until);
    }
    if place as u16 + 2 > block.letters_left() as u16 {
        return (Lead::Nowhere, until);
    }
    pair_lead(&shared_block(shape, rank, place), rank, until)
}

/// Where the exchange of the next two letters of the words of a block leads, of which the rank has one.
fn pair_lead(block: &Block, rank: u64, until: u64) -> (Lead, u64)
    requires some { rank < until }
    requires has { HasRank block.now rank }
    requires letters { 2 ≤ total block.now.left }
    ensures lead { (counts : List ℕ) (shared : Word) → IsBlockOf counts shared block.now
        → IsLead (leads_of (Some counts)) rank result.1 (tag.Swap (length shared)) result.0 }
    ensures some { rank < result.1 }
    ensures few { result.1 ≤ until }
{
    let (first, behind) = block.at(rank);
    let (second, inside) = behind.at(rank);
    let last = until.min(inside.end());
    if second >= first {
        return (Lead::Nowhere, last);
    }
    let other = block.narrowed(second).narrowed(first);
    (Lead::From(other.first() + (rank - inside.first())), last)
}
