//! Ranks that are drawn evenly, by a seed.

ghost use Rattle.std.specs.Prelude.{◌≡◌, ◌++◌, ◌<◌, ◌-◌, IfOk};
ghost use Rattle.spec_classes.specs.Drawing.{AreDrawn, drawn_by};

use rand_core::SeedableRng;
use rand_core::utils::NextWord;
use rand_xoshiro::SplitMix64;
use std::alloc::{AllocError, Global};

/// So many ranks below a bound, drawn by the words that a seed begins, in rising order. The same seed draws the same ranks, and one rank may be drawn twice.
pub fn drawn_ranks(alloc: Global, seed: u64, count: u64, bound: u64) -> Result<Vec<u64>, AllocError>
    requires { 0 < bound }
    ensures { IfOk result (λ ranks. AreDrawn seed count bound ranks.items) }
{
    let mut ranks = ranks_by(alloc, SplitMix64::seed_from_u64(seed), count, bound)?;
    ranks.sort_unstable_by_key(|rank: &u64| *rank);
    Ok(ranks)
}

/// So many ranks below a bound, in the order in which these words draw them.
fn ranks_by(
    alloc: Global,
    words: SplitMix64,
    count: u64,
    bound: u64,
) -> Result<Vec<u64>, AllocError>
    requires { 0 < bound }
    ensures { IfOk result (λ ranks. ranks.items ≡ drawn_by words bound count) }
{
    let mut words = words;
    let mut ranks = Vec::new(alloc);
    for _ in 0..count {
        ranks.push(words.next_word() % bound)?;
    }
    Ok(ranks)
}
