//! Items by places.

ghost use Rattle.std.specs.Prelude.{◌≡◌, ◌⊎◌, ℕ, IfSome, None, Some, get_or};

/// The item at a place, if there is one.
#[inline(always)]
pub(crate) fn item_at<T: Copy>(items: &[Option<T>], place: usize) -> Option<T>
    ensures { result ≡ get_or items.now place None }
{
    match items.get(place) {
        Some(item) => *item,
        None => None,
    }
}

/// Puts an item at a place, and lets go of what was there. Where the list would have to grow and is refused, the item is not put.
pub(crate) fn put_at<T: Copy>(items: &mut Vec<Option<T>>, place: usize, item: T)
    ensures { (i : ℕ) → IfSome (get_or items.new.items i None) (λ x. (get_or items.old.items i None ≡ Some x) ⊎ (x ≡ item)) }
{
    grow_to(items, place);
    if place < items.len() {
        items[place] = Some(item);
    }
}

/// Adds blanks until there is an item at this place. Where that is refused nothing is added.
fn grow_to<T: Copy>(items: &mut Vec<Option<T>>, place: usize)
    ensures { (i : ℕ) → get_or items.new.items i None ≡ get_or items.old.items i None }
{
    let len = place.saturating_add(1);
    if items.len() < len {
        let _grown = items.resize(len, None);
    }
}
