ghost use Rattle.std.specs.Prelude.{◌≡◌, ◌↔◌, IsTrue};

/// What lists are made of: values that tell whether they are the same.
pub trait Same: Drop {
    /// Whether these are one value, by all that contracts see of them.
    fn is_same(&self, other: &Self) -> bool
        ensures { IsTrue result ↔ self.now ≡ other.now };
}
