//! The name of a spec.

ghost use Rattle.std.specs.Prelude.{◌≡◌, IsUtf8, MatchOption};

/// The name of a spec, if it is UTF-8.
pub(crate) fn name_of(name: &[u8]) -> Option<&str>
    ensures { MatchOption result (¬ (IsUtf8 name.now)) (λ text. text.now ≡ name.now) }
{
    match str::from_utf8(name) {
        Ok(text) => Some(text),
        Err(_) => None,
    }
}
