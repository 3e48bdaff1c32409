//! Blocks of words that share letters with a word.

ghost use Rattle.std.specs.Prelude.{◌<◌, ◌≤◌, length};
ghost use Rattle.perm_ranks.specs.Words.{all_words, total};
ghost use Rattle.perm_ranks.specs.Blocks.{IsSharedBlock};

use crate::blocks::Block;
use crate::shape::Shape;

/// The block of the words that share so many letters with the word of a rank.
pub fn shared_block(shape: &Shape, rank: u64, letters: u8) -> Block
    requires has { rank < length (all_words shape.now) }
    requires letters { letters ≤ total shape.now }
    ensures { IsSharedBlock shape.now rank letters result }
{
    let mut block = shape.block();
    for _letter in 0..letters {
        let (_letter, inside) = block.at(rank);
        block = inside;
    }
    block
}
