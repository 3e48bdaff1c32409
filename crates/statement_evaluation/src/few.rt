//! Lists that take no memory where they have one item, as most of those have that a step makes.

ghost use Rattle.std.specs.Prelude.{◌≡◌, [], ◌∷◌, ◌++◌, MatchOption, OnErr, OnOk, length};

use std::alloc::{AllocError, Global};
use std::marker::Model;

/// How many items there is room for where a second one comes.
const FIRST_ROOM: usize = 8;

/// A list, seen by contracts as its items. One that was pushed alone takes no memory, which contracts do not see.
#[derive(Drop)]
pub struct Few<T> {
    /// An item that is kept alone.
    one: Option<T>,
    /// The items, where none is kept alone.
    items: Vec<T>,
}

impl<T> Model for Few<T> {
    ghost use Rattle.std.specs.Prelude.{List, ◌++◌, option_to_list};
    ghost use Rattle.statement_evaluation.specs.Few.{IsFew};

    ghost Value = { List T };

    ghost view = { λ f. option_to_list f.one ++ f.items.items };

    ghost invariant = { λ f. IsFew f.one f.items.items };
}

impl<T: Drop> Few<T> {
    /// No items.
    pub fn new(alloc: Global) -> Few<T>
        ensures { result ≡ [] }
    {
        Few {
            one: None,
            items: Vec::new(alloc),
        }
    }

    /// One item. It takes no memory.
    pub fn of_one(alloc: Global, item: T) -> Few<T>
        ensures { result ≡ item ∷ [] }
    {
        Few {
            one: Some(item),
            items: Vec::new(alloc),
        }
    }

    /// These items.
    pub fn of_items(items: Vec<T>) -> Few<T>
        ensures { result ≡ items.items }
    {
        Few { one: None, items }
    }

    /// Adds an item at the end. It fails for want of memory alone, and then the list stays as it was.
    #[inline(always)]
    pub fn push(&mut self, item: T) -> Result<(), AllocError>
        ensures pushed { OnOk result (self.new ≡ self.old ++ item ∷ []) }
        ensures refused { OnErr result (self.new ≡ self.old) }
    {
        if self.one.is_some() {
            return self.push_second(item);
        }
        if self.items.is_empty() {
            self.one = Some(item);
            return Ok(());
        }
        self.items.push(item)?;
        Ok(())
    }

    /// Adds an item behind one that is kept alone, and keeps both in a list.
    fn push_second(&mut self, item: T) -> Result<(), AllocError>
        ensures pushed { OnOk result (self.new ≡ self.old ++ item ∷ []) }
        ensures refused { OnErr result (self.new ≡ self.old) }
    {
        self.items.reserve(FIRST_ROOM)?;
        if let Some(first) = self.one.take() {
            self.items.push_reserved(first);
        }
        self.items.push_reserved(item);
        Ok(())
    }

    /// The item that is kept alone, or else all items in their order.
    pub fn parts(&self) -> (Option<&T>, &[T])
        ensures { MatchOption result.0 (self.now ≡ result.1.now) (λ item. self.now ≡ item.now ∷ []) }
    {
        (self.one.as_ref(), self.items.as_slice())
    }

    /// How many items there are.
    pub fn len(&self) -> usize
        ensures { result ≡ length self.now }
    {
        let (one, items) = self.parts();
        match one {
            Some(_) => 1,
            None => items.len(),
        }
    }

    /// The item that is kept alone, or else all items in their order, no longer in the list.
    pub fn into_parts(self) -> (Option<T>, Vec<T>)
        ensures { MatchOption result.0 (self ≡ result.1.items) (λ item. self ≡ item ∷ []) }
    {
        let Few { one, items } = self;
        (one, items)
    }
}
