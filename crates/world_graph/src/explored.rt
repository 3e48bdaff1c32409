//! What can be explored.

ghost use Rattle.std.specs.Prelude.{◌≡◌, ◌<◌, ◌∷◌, ℕ, List, Some, true, IsTrue, IfOk, OnOk, slice_get, length};
ghost use Rattle.world_graph.specs.Worlds.{Rules, IsNoted};

/// How many letters there are: `0..LETTERS`.
pub const LETTERS: u8 = 8;

/// A step, a mark or a number was refused, for want of memory or of numbers.
#[derive(Clone, Copy, Debug)]
pub struct Refused;

/// A world that letters lead on to other worlds, and that goes back to marks.
///
/// Each world that is asked for its number is noted, and so has one. One world may be noted twice: it is then two nodes of a graph, each
/// with its share of the words. After an error nothing is said of the world.
pub trait Explored {
    /// What can be told apart.
    ghost World: { Type 0 };

    ghost rules: { Rules World };

    /// The world now.
    ghost world: { Self → World };

    /// The worlds at the marks that stand, the newest first.
    ghost marked: { Self → List World };

    /// The worlds that were noted, by their numbers.
    ghost seen: { Self → List World };

    /// What nothing changes.
    ghost Fixed: { Type 0 };

    ghost fixed: { Self → Fixed };

    /// It can be asked what is enabled: nothing was refused since it went back.
    ghost is_whole: { Self → Type 0 };

    /// Whether a letter is enabled.
    fn enabled(&self, letter: u8) -> bool
        requires whole { is_whole self.now }
        requires letter { letter < 8 }
        ensures { result ≡ rules.can (world self.now) letter };

    /// How much the letter adds to the rank of the words that lead here.
    fn offset(&self, letter: u8) -> u64
        requires whole { is_whole self.now }
        requires can { rules.can (world self.now) letter ≡ true }
        ensures { result ≡ rules.offset (world self.now) letter };

    /// Sends an enabled letter.
    fn step(&mut self, letter: u8) -> Result<(), Refused>
        requires whole { is_whole self.old }
        requires can { rules.can (world self.old) letter ≡ true }
        ensures whole { OnOk result (is_whole self.new) }
        ensures world { OnOk result (world self.new ≡ rules.next (world self.old) letter) }
        ensures marked { OnOk result (marked self.new ≡ marked self.old) }
        ensures seen { OnOk result (seen self.new ≡ seen self.old) }
        ensures fixed { OnOk result (fixed self.new ≡ fixed self.old) };

    /// Sets a mark.
    fn mark(&mut self) -> Result<(), Refused>
        ensures whole { OnOk result (is_whole self.new) }
        ensures world { OnOk result (world self.new ≡ world self.old) }
        ensures marked { OnOk result (marked self.new ≡ world self.old ∷ marked self.old) }
        ensures seen { OnOk result (seen self.new ≡ seen self.old) }
        ensures fixed { OnOk result (fixed self.new ≡ fixed self.old) };

    /// Goes back to the newest mark, and takes it away.
    fn go_back(&mut self)
        requires { 0 < length (marked self.old) }
        ensures whole { is_whole self.new }
        ensures marked { marked self.old ≡ world self.new ∷ marked self.new }
        ensures seen { seen self.new ≡ seen self.old }
        ensures fixed { fixed self.new ≡ fixed self.old };

    /// The number of the world. Where it is not found among those that were noted, it is noted behind them.
    fn number(&mut self) -> Result<u32, Refused>
        ensures whole { OnOk result (is_whole self.new) }
        ensures noted { IfOk result (λ number. IsNoted (seen self.old) (seen self.new) (world self.old) number) }
        ensures world { OnOk result (world self.new ≡ world self.old) }
        ensures marked { OnOk result (marked self.new ≡ marked self.old) }
        ensures fixed { OnOk result (fixed self.new ≡ fixed self.old) };
}
