//! How many workers run a range.

ghost use Rattle.std.specs.Prelude.{◌≡◌, ◌↔◌, ◌<◌, ◌≤◌, ◌⊎◌, None, IfSome};
ghost use Rattle.shard_board.specs.declared.error.TheConstants.{MAX_SEATS};

use crate::error::MAX_SEATS;
use std::marker::Model;

/// A number of workers, from 1 to 16, seen by contracts as that number.
#[derive(Drop)]
pub struct Workers {
    number: u8,
}

impl Model for Workers {
    ghost use Rattle.std.specs.Prelude.{ℕ, ◌≤◌};
    ghost use Rattle.shard_board.specs.declared.error.TheConstants.{MAX_SEATS};

    ghost Value = { ℕ };

    ghost view = { λ w. w.number };

    ghost invariant = { λ w. (1 ≤ w.number) × (w.number ≤ MAX_SEATS) };
}

impl Workers {
    /// So many workers, none where they are not 1 to 16.
    pub fn of(number: u8) -> Option<Workers>
        ensures many { IfSome result (λ workers. workers ≡ number) }
        ensures refused { (result ≡ None) ↔ ((number < 1) ⊎ (MAX_SEATS < number)) }
    {
        if number < 1 || number > MAX_SEATS {
            return None;
        }
        Some(Workers { number })
    }

    /// How many they are.
    pub fn number(&self) -> u8
        ensures number { result ≡ self.now }
        ensures few { (1 ≤ result) × (result ≤ MAX_SEATS) }
    {
        self.number
    }
}
