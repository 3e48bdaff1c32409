//! What two lines begin with alike.

ghost use Rattle.std.specs.Prelude.{◌≡◌};
ghost use Rattle.known_worlds.specs.Fronts.{front};

/// With how many items the lists begin alike.
pub(crate) fn shared_front(old: &[u8], new: &[u8]) -> usize
    ensures { result ≡ front old.now new.now }
{
    let most = old.len().min(new.len());
    for place in 0..most {
        if old[place] != new[place] {
            return place;
        }
    }
    most
}
