//! Where outcomes are looked for in a table.

use std::alloc::{AllocError, Global};

/// Marks an empty slot. The outcome with this number is never found.
const EMPTY: u32 = u32::MAX;

/// How many slots are looked at for one outcome.
pub(crate) const LOOKS: usize = 32;

/// Numbers of outcomes in slots, each near the one that its fingerprint names: five to eight bytes an outcome. What it tells is looked up and
/// compared, so that nothing but time, the table's size and the number of an outcome that stands there twice depends on it.
#[derive(Drop)]
pub(crate) struct Index {
    slots: Vec<u32>,
}

impl Index {
    /// No numbers, and no room for one.
    pub(crate) fn new(alloc: Global) -> Index {
        Index {
            slots: Vec::new(alloc),
        }
    }

    /// Whether there is room for one more number than these.
    pub(crate) fn has_room(&self, numbers: usize) -> bool {
        numbers < self.slots.len() / 4 * 3
    }

    /// No numbers, with room for so many.
    pub(crate) fn with_room(alloc: Global, numbers: usize) -> Result<Index, AllocError> {
        let slots = (numbers / 3).saturating_add(1).saturating_mul(4);
        Ok(Index {
            slots: vec![in alloc; EMPTY; slots]?,
        })
    }

    /// Lets all numbers go, and makes room for more than so many.
    pub(crate) fn clear_for(&mut self, numbers: usize) -> Result<(), AllocError> {
        let alloc = *self.slots.allocator();
        // The old slots go before there are new ones.
        self.slots = Vec::new(alloc);
        self.slots = vec![in alloc; EMPTY; numbers.saturating_mul(2).saturating_add(16)]?;
        Ok(())
    }

    /// The number that is found near the slot of a fingerprint, after so many others.
    pub(crate) fn number(&self, print: u64, others: usize) -> Option<u32> {
        let number = *self.slots.get(self.slot(print, others)?)?;
        if number == EMPTY {
            return None;
        }
        Some(number)
    }

    /// Notes a number near the slot of a fingerprint, if one is free there.
    pub(crate) fn note(&mut self, print: u64, number: u32) {
        for others in 0..LOOKS {
            let Some(slot) = self.slot(print, others) else {
                return;
            };
            if slot < self.slots.len() && self.slots[slot] == EMPTY {
                self.slots[slot] = number;
                return;
            }
        }
    }

    /// The slot of a fingerprint, or one behind it. None where there are no slots, or too many were looked at.
    fn slot(&self, print: u64, others: usize) -> Option<usize> {
        let count = self.slots.len() as u64;
        if count == 0 || others >= LOOKS {
            return None;
        }
        Some((print.wrapping_add(others as u64) % count) as usize)
    }
}
