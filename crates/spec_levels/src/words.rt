//! The words for levels.

ghost use Rattle.std.specs.Prelude.{◌≡◌};
ghost use Rattle.spec_levels.specs.Asking.{level_named};

use bound_statements::Level;

/// The level of a word; none of other words.
pub fn level_named(word: &str) -> Option<Level>
    ensures { result ≡ level_named word.now }
{
    match word {
        "serializable" => Some(Level::Serializable),
        "read-committed" => Some(Level::Committed),
        _ => None,
    }
}
