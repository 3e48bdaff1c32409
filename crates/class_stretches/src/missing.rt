//! Ranks that are in no known class.

ghost use Rattle.std.specs.Prelude.{◌≡◌, ◌+◌, ◌<◌, ◌≤◌, None, [], ◌∷◌};
ghost use Rattle.class_stretches.specs.Classes.{ranks_in};
ghost use Rattle.class_stretches.specs.Stretches.{AreStretches, first_of, runs_with};

use crate::list::is_same;
use crate::stretch::Stretch;

/// Ranks that are in no known class, one at least.
#[derive(Clone, Copy)]
pub struct Missing {
    /// How many there are.
    pub ranks: u64,
    /// The least of them.
    pub first: u64,
}

/// How many ranks are in no known class.
pub(crate) fn missing_in(list: &[Stretch]) -> u64
    requires { AreStretches 0 list.now }
    ensures { result ≡ ranks_in (runs_with None 0 list.now) }
{
    let mut missing = 0;
    let mut low = 0;
    for stretch in list {
        let end = stretch.end;
        missing += missing_of(low, stretch);
        low = end;
    }
    missing
}

/// The least rank that is in no known class.
pub(crate) fn first_missing_in(list: &[Stretch]) -> Option<u64>
    ensures { result ≡ first_of (runs_with None 0 list.now) }
{
    let mut low = 0;
    for stretch in list {
        if is_same(None, stretch.class) {
            return Some(low);
        }
        low = stretch.end;
    }
    None
}

/// How many ranks of a stretch that begins here are in no known class: all of them, or none.
fn missing_of(low: u64, stretch: &Stretch) -> u64
    requires { low < stretch.now.end }
    ensures missing { result ≡ ranks_in (runs_with None low (stretch.now ∷ [])) }
    ensures inside { low + result ≤ stretch.now.end }
{
    match stretch.class {
        None => stretch.end - low,
        Some(_) => 0,
    }
}
