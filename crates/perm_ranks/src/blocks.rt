ghost use Rattle.std.specs.Prelude.{◌≡◌, ℕ, ◌<◌, ◌≤◌, ◌^◌, [], ◌∷◌, ◌++◌, List, length, slice_index};
ghost use Rattle.perm_ranks.specs.Words.{Word, total, all_words};
ghost use Rattle.perm_ranks.specs.Blocks as spec;
ghost use Rattle.perm_ranks.specs.Blocks.{end_of, narrowed, HasRank, IsBlockOf};
ghost use Rattle.perm_ranks.specs.declared.TheConstants.{MAX_STEPS};

use crate::counting::Letters;
use crate::shape::Shape;
use std::marker::Model;

/// The words of a shape that begin with the same letters. Their ranks follow one another.
#[derive(Drop)]
pub struct Block {
    left: Letters,
    first: u64,
}

impl Model for Block {
    ghost use Rattle.std.specs.Prelude.{◌<◌, ◌^◌, ◌+◌, length};
    ghost use Rattle.perm_ranks.specs.Words.{all_words};
    ghost use Rattle.perm_ranks.specs.Blocks as spec;

    ghost Value = { spec.Block };

    ghost view = { λ b. record { left = b.left; first = b.first } };

    ghost invariant = { λ b. b.first + length (all_words b.left) < 2 ^ 63 };
}

impl Shape {
    /// All words.
    pub fn block(&self) -> Block
        ensures whole { IsBlockOf self.now [] result }
        ensures all { result ≡ record { left = self.now; first = 0 } }
    {
        Block {
            left: self.letters.copy(),
            first: 0,
        }
    }
}

impl Block {
    /// The same block.
    pub fn copy(&self) -> Block
        ensures { result ≡ self.now }
    {
        Block {
            left: self.left.copy(),
            first: self.first,
        }
    }

    /// The rank of the first word.
    pub fn first(&self) -> u64
        ensures { result ≡ self.now.first }
    {
        self.first
    }

    /// The rank behind the last word.
    pub fn end(&self) -> u64
        ensures end { result ≡ end_of self.now }
        ensures some { self.now.first < result }
        ensures few { result < 2 ^ 63 }
    {
        self.first + self.left.words()
    }

    /// How many letters the words have behind those that they share.
    pub fn letters_left(&self) -> u8
        ensures all { result ≡ total self.now.left }
        ensures few { result ≤ MAX_STEPS }
    {
        self.left.steps()
    }

    /// How many sessions the shape has.
    pub fn sessions(&self) -> u8
        ensures { result ≡ length self.now.left }
    {
        self.left.sessions()
    }

    /// How many letters of this session the words have behind those that they share.
    pub fn left_of(&self, letter: u8) -> u8
        ensures { result ≡ slice_index self.now.left letter }
    {
        self.left.left_of(letter)
    }

    /// The letter with which the word of a rank goes on, and the words that share it too.
    pub fn at(&self, rank: u64) -> (u8, Block)
        requires some { 0 < total self.now.left }
        requires inside { HasRank self.now rank }
        ensures left { 0 < slice_index self.now.left result.0 }
        ensures narrowed { result.1 ≡ narrowed self.now result.0 }
        ensures inside { HasRank result.1 rank }
        // They are those words of a shape that begin with all these letters.
        ensures block { (counts : List ℕ) (shared : Word) → IsBlockOf counts shared self.now → IsBlockOf counts (shared ++ result.0 ∷ []) result.1 }
    {
        let (letter, inside) = self.left.letter_at(rank - self.first);
        let mut left = self.left.copy();
        left.take(letter);
        (
            letter,
            Block {
                left,
                first: rank - inside,
            },
        )
    }

    /// Those of the words that go on with this letter.
    pub fn narrowed(&self, letter: u8) -> Block
        requires { 0 < slice_index self.now.left letter }
        ensures narrowed { result ≡ narrowed self.now letter }
        // They are those words of a shape that begin with all these letters.
        ensures block { (counts : List ℕ) (shared : Word) → IsBlockOf counts shared self.now → IsBlockOf counts (shared ++ letter ∷ []) result }
    {
        let first = self.first + self.left.words_before(letter);
        let mut left = self.left.copy();
        left.take(letter);
        Block { left, first }
    }
}
