//! Orders: by a number, or by the names of their steps.

ghost use Rattle.std.specs.Prelude.{◌≡◌, ℕ, IfSome, None, map};
ghost use Rattle.command_line.specs.Lines.{IsNumber, IsNumberAlone, IsWanted};

/// An order of a spec's steps.
#[derive(Drop)]
pub enum Wanted<'a> {
    /// That of the permutation with this number.
    Rank(u64),
    /// That in which the steps have these names.
    Names(Vec<&'a str>),
}

/// The order that some words are: one word alone that is a number is a rank, and all others are names.
pub(crate) fn wanted_of<'a>(words: Vec<&'a str>) -> Wanted<'a>
    ensures { IsWanted (map (λ w. w.now) words.entry.items) result }
{
    match number_alone(words.as_slice()) {
        Some(rank) => Wanted::Rank(rank),
        None => Wanted::Names(words),
    }
}

/// The number that the words are, where they are one word alone.
fn number_alone(words: &[&str]) -> Option<u64>
    ensures some { IfSome result (IsNumberAlone (map (λ w. w.now) words.now)) }
    ensures none { result ≡ None → (rank : ℕ) → IsNumberAlone (map (λ w. w.now) words.now) rank → ⊥ }
{
    match words {
        [word] => number_of(word),
        _ => None,
    }
}

/// The number that a word is.
fn number_of(word: &str) -> Option<u64>
    ensures some { IfSome result (IsNumber word.now) }
    ensures none { result ≡ None → (number : ℕ) → IsNumber word.now number → ⊥ }
{
    word.parse::<u64>().ok()
}
