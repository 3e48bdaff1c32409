//! What is shown, each once, under numbers.

ghost use Rattle.std.specs.Prelude.{◌≡◌, ◌++◌, ◌∷◌, [], Some, IfOk, OnErr, MatchOption, length, slice_get};
ghost use Rattle.lock_queues.specs.Reasons.{Among};
ghost use Rattle.different_shows.specs.Different.{AreDifferent, HasNumber};

use order_classes::Shows;
use row_tables::row_bytes;
use std::alloc::{AllocError, Global};
use std::collections::BTreeMap;
use std::marker::Model;

/// About so many bytes are taken by one that is shown beside its rows: it is held here twice, and three times more where classes are told.
const SHOWS_BYTES: usize = 2_048;

/// And so many by each of its rows beside the row itself, in a list that has room for up to twice its rows. Who leaves the same rows as another shares them.
const PLACE_BYTES: usize = 64;

/// What is shown, each once, in the order of numbers, seen by contracts as that list.
pub struct Different {
    alloc: Global,
    shows: Vec<Shows>,
    numbers: BTreeMap<Shows, u32>,
    /// For a number made of the rows that are left, the place of the newest one that had such rows of its own.
    leaving: BTreeMap<u64, usize>,
    bytes: usize,
}

// Written out and not derived, so that who owns one calls this and does not let its parts go one by one.
impl Drop for Different {
    fn drop(self) {
        let Different {
            alloc: _,
            shows: _shows,
            numbers: _numbers,
            leaving: _leaving,
            bytes: _,
        } = self;
    }
}

impl Model for Different {
    ghost use Rattle.std.specs.Prelude.{List};
    ghost use Rattle.order_classes.specs.declared.shows.Shows.{Shows as Shown};
    ghost use Rattle.different_shows.specs.Different.{AreNumbered};

    ghost Value = { List Shown };

    ghost view = { λ d. d.shows.items };

    ghost invariant = { λ d. AreNumbered d.shows.items d.numbers.entries };
}

impl Different {
    pub fn new(alloc: Global) -> Different
        ensures { result ≡ [] }
    {
        Different {
            alloc,
            shows: Vec::new(alloc),
            numbers: BTreeMap::new(alloc),
            leaving: BTreeMap::new(alloc),
            bytes: 0,
        }
    }

    /// About so many bytes are taken by classes of all of them while they are told.
    pub fn bytes(&self) -> usize {
        self.bytes
    }

    /// Each is there once.
    pub fn known(&self)
        ensures { AreDifferent self.now }
    {
        let _shows = &self.shows; // for the proof
    }

    /// All of them, in the order of numbers.
    pub fn shows(&self) -> &[Shows]
        ensures { result.now ≡ self.now }
    {
        self.shows.as_slice()
    }

    /// The number of what is shown, if it is there.
    pub fn find(&self, shows: &Shows) -> Option<u32>
        ensures { MatchOption result (Among shows.now self.now → ⊥) (λ n. slice_get self.now n ≡ Some shows.now) }
    {
        self.numbers.get(shows).copied()
    }

    /// The number of what is shown, which is added behind the others where it is not there.
    pub fn number(&mut self, shows: &Shows) -> Result<u32, AllocError>
        ensures ok { IfOk result (HasNumber self.old self.new shows.now) }
        ensures err { OnErr result (self.new ≡ self.old) }
    {
        if let Some(number) = self.find(shows) {
            return Ok(number);
        }
        let copy = self.shared(shows)?;
        self.add(copy)
    }

    /// Adds what is not there.
    fn add(&mut self, shows: Shows) -> Result<u32, AllocError>
        requires { Among shows self.old → ⊥ }
        ensures ok { IfOk result (λ n. (n ≡ length self.old) × (self.new ≡ self.old ++ shows ∷ [])) }
        ensures err { OnErr result (self.new ≡ self.old) }
    {
        // No memory has room for so many.
        let Ok(number) = u32::try_from(self.shows.len()) else {
            return Err(AllocError);
        };
        let key = shows.copied(self.alloc)?;
        self.shows.reserve(1)?;
        self.numbers.insert(key, number)?;
        self.shows.push_reserved(shows);
        Ok(number)
    }

    /// A copy of what is added next. It shares its rows with one that is there, if one leaves the same; else they are counted.
    fn shared(&mut self, shows: &Shows) -> Result<Shows, AllocError>
        ensures copy { IfOk result (λ copy. copy ≡ shows.now) }
        ensures same { self.new ≡ self.old }
    {
        self.bytes = self.bytes.saturating_add(SHOWS_BYTES);
        let print = shows.left_print();
        if let Some(other) = self.leaves(print) {
            if shows.leaves_as(other) {
                return shows.sharing(self.alloc, other);
            }
        }
        self.bytes = self.bytes.saturating_add(left_bytes(shows));
        self.leaving.insert(print, self.shows.len())?;
        shows.copied(self.alloc)
    }

    /// One that may leave the rows of which a number is made.
    fn leaves(&self, print: u64) -> Option<&Shows> {
        let number = self.leaving.get(&print)?;
        self.shows.get(*number)
    }
}

/// About how many bytes the rows take that are left.
fn left_bytes(shows: &Shows) -> usize {
    let mut bytes: usize = 0;
    for table in shows.left.as_slice() {
        for entry in table.as_slice() {
            let row = row_bytes(&entry.1).saturating_add(PLACE_BYTES);
            bytes = bytes.saturating_add(row);
        }
    }
    bytes
}
