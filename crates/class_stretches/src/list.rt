//! A list of stretches: where a rank is in it, and how it grows.

ghost use Rattle.std.specs.Prelude.{◌≡◌, ℕ, ◌^◌, ◌<◌, ◌≤◌, None, OnOk, OnErr, IfSome, length};
ghost use Rattle.class_stretches.specs.Stretches.{AreStretches, IsStretchAt, class_at, end_of, same_class, with_class};
ghost use Rattle.class_stretches.specs.Growing.{end_at, pushed, goes_on};

use crate::stretch::Stretch;
use std::alloc::AllocError;

/// The rank behind the last one, or 0 where there is none.
pub(crate) fn end_of_list(list: &[Stretch]) -> u64
    ensures { result ≡ end_of list.now }
{
    match list {
        [] => 0,
        [.., last] => last.end,
    }
}

/// The class of a rank, where it has one that is known.
pub(crate) fn class_in(list: &[Stretch], rank: u64) -> Option<u32>
    requires { AreStretches 0 list.now }
    ensures { result ≡ class_at list.now rank }
{
    let place = place_of(list, rank);
    if place < list.len() {
        return list[place].class;
    }
    None
}

/// The stretch that a rank is in, where it is before the end.
pub(crate) fn stretch_in(list: &[Stretch], rank: u64) -> Option<Stretch>
    requires { AreStretches 0 list.now }
    ensures found { IfSome result (IsStretchAt list.now rank) }
    ensures past { result ≡ None → end_of list.now ≤ rank }
{
    let place = place_of(list, rank);
    if place < list.len() {
        return Some(list[place]);
    }
    None
}

/// The place of the first stretch that ends behind the rank, or the length of the list where there is none.
pub(crate) fn place_of(list: &[Stretch], rank: u64) -> usize
    requires { AreStretches 0 list.now }
    ensures inside { result ≤ length list.now }
    ensures before { (k : ℕ) → k < result → end_at list.now k ≤ rank }
    ensures behind { result < length list.now → rank < end_at list.now result }
{
    let mut low = 0;
    let mut high = list.len();
    while low < high {
        let middle = low + (high - low) / 2;
        if list[middle].end <= rank {
            low = middle + 1;
        } else {
            high = middle;
        }
    }
    low
}

/// Whether both are the same class, or neither is known.
pub(crate) fn is_same(a: Option<u32>, b: Option<u32>) -> bool
    ensures { result ≡ same_class a b }
{
    match a {
        None => match b {
            None => true,
            Some(_) => false,
        },
        Some(c) => match b {
            None => false,
            Some(d) => c == d,
        },
    }
}

/// Whether the last stretch is of this class.
fn is_last(list: &[Stretch], class: Option<u32>) -> bool
    ensures { result ≡ goes_on list.now class }
{
    match list {
        [] => false,
        [.., last] => is_same(last.class, class),
    }
}

/// Puts ranks of a class up to a new end behind the list. A last stretch of that class goes on.
pub(crate) fn put(list: &mut Vec<Stretch>, end: u64, class: Option<u32>) -> Result<(), AllocError>
    ensures ok { OnOk result (list.new.items ≡ pushed list.old.items end class) }
    ensures err { OnErr result (list.new.items ≡ list.old.items) }
{
    let stretch = Stretch { end, class };
    if is_last(list, class) {
        let last = list.len() - 1;
        list[last] = stretch;
        return Ok(());
    }
    list.push(stretch)?;
    Ok(())
}

/// How many classes there are with this one.
pub(crate) fn classes_with(classes: u32, class: Option<u32>) -> u32
    requires { with_class classes class < 2 ^ 32 }
    ensures { result ≡ with_class classes class }
{
    match class {
        None => classes,
        Some(number) => {
            if number == classes {
                return classes + 1;
            }
            classes
        }
    }
}
