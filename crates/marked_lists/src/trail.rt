//! What a marked list keeps of the items that are overwritten. These functions take its parts, since its invariant does not hold between them.

ghost use Rattle.std.specs.Prelude.{◌≡◌, ◌≤◌, ◌++◌, OnErr, OnOk, drop, length, take, All};
ghost use Rattle.marked_lists.specs.Trail.{IsInside, kept, kept_at, placed, undone};

use std::alloc::AllocError;

/// An item that was overwritten.
#[derive(Clone, Copy)]
pub(crate) struct Overwritten<T> {
    pub(crate) place: usize,
    pub(crate) before: T,
}

/// How long the list and its trail were when the mark was set.
#[derive(Clone, Copy)]
pub(crate) struct Mark {
    pub(crate) len: usize,
    pub(crate) trail_len: usize,
}

/// Puts a value in the place of an item, or at the end. What is overwritten is kept where a mark stands.
#[inline(always)]
pub(crate) fn put<T: Copy>(
    items: &mut Vec<T>,
    trail: &mut Vec<Overwritten<T>>,
    marks: &[Mark],
    place: usize,
    value: T,
) -> Result<(), AllocError>
    requires { place ≤ length items.old.items }
    ensures items { OnOk result (items.new.items ≡ placed items.old.items place value) }
    ensures trail { OnOk result (trail.new.items ≡ trail.old.items ++ kept_at marks.now place (drop place items.old.items)) }
    ensures refused { OnErr result ((items.new.items ≡ items.old.items) × (trail.new.items ≡ trail.old.items)) }
{
    if place == items.len() {
        items.push(value)?;
        return Ok(());
    }
    let before = items[place];
    keep(trail, marks, Overwritten { place, before })?;
    items[place] = value;
    Ok(())
}

/// Keeps what is about to be overwritten, where a mark stands.
#[inline(always)]
fn keep<T: Copy>(
    trail: &mut Vec<Overwritten<T>>,
    marks: &[Mark],
    write: Overwritten<T>,
) -> Result<(), AllocError>
    ensures trail { OnOk result (trail.new.items ≡ trail.old.items ++ kept marks.now write) }
    ensures refused { OnErr result (trail.new.items ≡ trail.old.items) }
{
    match marks {
        [] => Ok(()),
        [_, ..] => {
            trail.push(write)?;
            Ok(())
        }
    }
}

/// Undoes what the trail has behind its first `len` writes, the newest first, and lets go of it.
pub(crate) fn undo<T: Copy>(items: &mut Vec<T>, trail: &mut Vec<Overwritten<T>>, len: usize)
    requires len { len ≤ length trail.old.items }
    requires places { All (IsInside items.old.items) trail.old.items }
    ensures items { items.new.items ≡ undone (drop len trail.old.items) items.old.items }
    ensures trail { trail.new.items ≡ take len trail.old.items }
{
    while trail.len() > len {
        if let Some(write) = trail.pop() {
            items[write.place] = write.before;
        }
    }
}
