//! Paths, one at least.

ghost use Rattle.std.specs.Prelude.{◌≡◌, ◌↔◌, ◌<◌, [], None, IfSome, length};

use std::marker::Model;

/// One path or more, in their order, seen by contracts as their list.
#[derive(Drop)]
pub struct Paths<'a> {
    paths: Vec<&'a str>,
}

impl<'a> Model for Paths<'a> {
    ghost use Rattle.std.specs.Prelude.{ℕ, ◌<◌, List, length};
    ghost use Rattle.std.specs.Borrow.{Bor};

    ghost Value = { List (Bor (List ℕ)) };

    ghost view = { λ p. p.paths.items };

    ghost invariant = { λ p. 0 < length p.paths.items };
}

impl<'a> Paths<'a> {
    /// These paths, none where there are none.
    pub fn of(paths: Vec<&'a str>) -> Option<Paths<'a>>
        ensures paths { IfSome result (λ all. all ≡ paths.entry.items) }
        ensures none { (result ≡ None) ↔ (paths.entry.items ≡ []) }
    {
        if paths.is_empty() {
            return None;
        }
        Some(Paths { paths })
    }

    /// The paths in their order.
    pub fn as_slice(&self) -> &[&'a str]
        ensures all { result.now ≡ self.now }
        ensures some { 0 < length result.now }
    {
        self.paths.as_slice()
    }
}
