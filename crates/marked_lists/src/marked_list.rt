ghost use Rattle.std.specs.Prelude.{◌≡◌, ◌+◌, ◌<◌, ◌∷◌, ◌++◌, [], Some, OnErr, OnOk, length, slice_get, slice_set, take};
ghost use Rattle.marked_lists.specs.Versions.{oldest};

use crate::trail::{Mark, Overwritten, put, undo};
use std::alloc::{AllocError, Global};
use std::marker::Model;

/// A list of plain values that goes back to marks.
///
/// Contracts see the list now, and the lists at the marks that stand, the newest first. Marks are counted from the oldest on.
///
/// No call takes more than a step, growth and going back aside. While a mark stands, each write keeps the value that it overwrites until the
/// list goes back to that mark, also where one place is written again and again; where none stands nothing is kept. A list that has become shorter
/// keeps its memory.
#[derive(Drop)]
pub struct MarkedList<T> {
    /// The list, and behind its end items that it had. They never become fewer, so that going back finds room for what was there.
    items: Vec<T>,
    /// How many of the items are the list.
    len: usize,
    /// What was overwritten while a mark stood, the newest last.
    trail: Vec<Overwritten<T>>,
    /// The marks that stand, the newest last.
    marks: Vec<Mark>,
}

impl<T> Model for MarkedList<T> {
    ghost use Rattle.std.specs.Prelude.{take};
    ghost use Rattle.marked_lists.specs.Versions.{Versions, versions_code};

    ghost Value = { Versions T };

    ghost coded = { versions_code T.code };

    ghost use Rattle.marked_lists.specs.Trail.{IsSound, lists_at};

    ghost view = { λ m. record {
      list = take m.len m.items.items;
      marked = lists_at m.items.items m.trail.items m.marks.items;
    } };

    ghost invariant = { λ m. IsSound m.items.items m.len m.trail.items m.marks.items };
}

impl<T: Copy> MarkedList<T> {
    /// An empty list without a mark. It takes no memory.
    pub fn new(alloc: Global) -> MarkedList<T>
        ensures { result ≡ record { list = []; marked = [] } }
    {
        MarkedList {
            items: Vec::new(alloc),
            len: 0,
            trail: Vec::new(alloc),
            marks: Vec::new(alloc),
        }
    }

    /// The number of items.
    pub fn len(&self) -> usize
        ensures { result ≡ length self.now.list }
    {
        self.len
    }

    /// The number of marks that stand.
    pub fn mark_count(&self) -> usize
        ensures { result ≡ length self.now.marked }
    {
        self.marks.len()
    }

    /// The items.
    pub fn as_slice(&self) -> &[T]
        ensures { result.now ≡ self.now.list }
    {
        &self.items.as_slice()[..self.len]
    }

    /// The item at a place.
    pub fn get(&self, place: usize) -> T
        requires { place < length self.now.list }
        ensures { slice_get self.now.list place ≡ Some result }
    {
        self.items[place]
    }

    /// Puts a value in the place of an item. It fails for want of memory alone, and then all stays as it was; where no mark stands it takes none.
    pub fn set(&mut self, place: usize, value: T) -> Result<(), AllocError>
        requires { place < length self.old.list }
        ensures set { OnOk result (self.new ≡ record self.old { list = slice_set self.old.list place value }) }
        ensures refused { OnErr result (self.new ≡ self.old) }
    {
        put(
            &mut self.items,
            &mut self.trail,
            self.marks.as_slice(),
            place,
            value,
        )?;
        Ok(())
    }

    /// Puts a value at the end. It fails for want of memory alone, and then all stays as it was.
    pub fn push(&mut self, value: T) -> Result<(), AllocError>
        ensures pushed { OnOk result (self.new ≡ record self.old { list = self.old.list ++ value ∷ [] }) }
        ensures refused { OnErr result (self.new ≡ self.old) }
    {
        put(
            &mut self.items,
            &mut self.trail,
            self.marks.as_slice(),
            self.len,
            value,
        )?;
        self.len += 1;
        Ok(())
    }

    /// Takes away what is behind the first `len` items, if there are more, in one step and without memory.
    pub fn truncate(&mut self, len: usize)
        ensures { self.new ≡ record self.old { list = take len self.old.list } }
    {
        self.len = self.len.min(len);
    }

    /// Sets a mark, to which the list can go back. It fails for want of memory alone, and then all stays as it was.
    pub fn mark(&mut self) -> Result<(), AllocError>
        ensures marked { OnOk result (self.new ≡ record self.old { marked = self.old.list ∷ self.old.marked }) }
        ensures refused { OnErr result (self.new ≡ self.old) }
    {
        let mark = Mark {
            len: self.len,
            trail_len: self.trail.len(),
        };
        self.marks.push(mark)?;
        Ok(())
    }

    /// Goes back to the newest mark, which is gone then. It takes no memory, and a step for each write since the mark.
    pub fn go_back(&mut self)
        requires { 0 < length self.old.marked }
        ensures { self.old.marked ≡ self.new.list ∷ self.new.marked }
    {
        let newest = self.mark_count() - 1;
        self.go_back_to(newest);
    }

    /// Goes back to the mark with this number, from 0 on. The marks before it stay; it and those behind it are gone. It takes no memory, and a
    /// step for each write since the mark.
    pub fn go_back_to(&mut self, number: usize)
        requires { number < length self.old.marked }
        ensures { oldest (number + 1) self.old.marked ≡ self.new.list ∷ self.new.marked }
    {
        let mark = self.marks[number];
        self.marks.truncate(number);
        undo(&mut self.items, &mut self.trail, mark.trail_len);
        self.len = mark.len;
    }
}
