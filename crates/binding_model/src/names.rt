//! Places of names in lists of names.

ghost use Rattle.std.specs.Prelude.{◌≡◌, ◌<◌, length, IfSome};
ghost use Rattle.binding_model.specs.Names.{place_in};

use lock_modes::Text;

/// Where a name stands first. Each is looked at in turn.
pub fn position(names: &[Text], name: &str) -> Option<usize>
    ensures number { result ≡ place_in name.now names.now }
    ensures within { IfSome result (λ n. n < length names.now) }
{
    names.iter().position(|other| name == other.as_str())
}
