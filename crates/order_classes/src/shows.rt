//! What an order shows: what it tells each session, and what it leaves.

ghost use Rattle.std.specs.Prelude.{◌≡◌, Some, IfOk, true};
ghost use Rattle.std.proofs.Common.{rules};
ghost use Rattle.std.specs.Ordering.{eq_by_cmp};
ghost use Rattle.std.specs.Cmp.{po, eq_by_cmp_equiv, partial_equiv_from_equiv};

use crate::order::tables_order;
use finite_maps::Fork;
use line_moments::TableRows;
use sqlite_items::Items;
use std::alloc::{AllocError, Global};
use std::cmp::Ordering;
use std::hash::{FoldHasher, Hasher};
use transcripts::Outcome;

/// How a session stands at the end of an order.
#[derive(Clone, Copy, PartialEq, Eq, PartialOrd, Ord)]
pub enum Rest {
    /// It is in no transaction.
    HasEnded,
    /// It is in a transaction.
    IsOpen,
    /// It is in a block that has failed.
    HasFailed,
    /// It waits.
    StillWaits,
}

/// What an order shows.
pub struct Shows {
    /// What each session is told.
    pub told: Outcome,
    /// Of each declared table the committed rows with their keys, as readers see them: in the order of keys, or, where a table has no
    /// key, in the order in which they lie, each at 0.
    pub left: Items<TableRows>,
    /// How each session stands.
    pub rests: Items<Rest>,
}

// Written out and not derived, so that who owns one calls this and does not let its parts go one by one.
impl Drop for Shows {
    fn drop(self) {
        let Shows {
            told: _told,
            left: _left,
            rests: _rests,
        } = self;
    }
}

/// The same rows of the same tables, which are shared.
pub(crate) fn copied_tables(
    alloc: Global,
    tables: &[TableRows],
) -> Result<Items<TableRows>, AllocError>
    ensures { IfOk result (λ copies. copies ≡ tables.now) }
{
    let mut copies = Items::new(alloc);
    for rows in tables {
        let copy = rows.fork()?;
        copies.push(copy)?;
    }
    Ok(copies)
}

fn copied_rests(alloc: Global, rests: &[Rest]) -> Result<Items<Rest>, AllocError>
    ensures { IfOk result (λ copies. copies ≡ rests.now) }
{
    Items::from_slice(alloc, rests)
}

impl Shows {
    /// The same, with rows that are shared.
    pub fn copied(&self, alloc: Global) -> Result<Shows, AllocError>
        ensures { IfOk result (λ copy. copy ≡ self.now) }
    {
        self.sharing(alloc, self)
    }

    /// The same, with the rows that another one leaves, which are shared.
    pub fn sharing(&self, alloc: Global, other: &Shows) -> Result<Shows, AllocError>
        requires { other.now.left ≡ self.now.left }
        ensures { IfOk result (λ copy. copy ≡ self.now) }
    {
        let told = self.told.fork()?;
        let left = copied_tables(alloc, other.left.as_slice())?;
        let rests = copied_rests(alloc, self.rests.as_slice())?;
        Ok(Shows { told, left, rests })
    }

    /// Whether another one leaves the same rows.
    pub fn leaves_as(&self, other: &Shows) -> bool
        ensures { result ≡ true → other.now.left ≡ self.now.left }
    {
        tables_order(other.left.as_slice(), self.left.as_slice()).is_eq()
    }

    /// A number that is the same where the same rows are left, and seldom else.
    pub fn left_print(&self) -> u64 {
        let mut hasher = FoldHasher::default();
        for table in self.left.as_slice() {
            table.print(&mut hasher);
        }
        hasher.finish()
    }
}

impl PartialEq for Shows {
    ghost use Rattle.order_classes.specs.Order.{shows_cmp, shows_total};

    ghost eq = { eq_by_cmp shows_cmp };

    ghost laws = { partial_equiv_from_equiv (eq_by_cmp_equiv shows_total) };

    fn eq(&self, other: &Shows) -> bool {
        self.cmp(other).is_eq()
    }
}

impl Eq for Shows {
    ghost use Rattle.order_classes.specs.Order.{shows_total};

    ghost laws = { eq_by_cmp_equiv shows_total };
}

impl PartialOrd for Shows {
    ghost use Rattle.order_classes.specs.Order.{shows_cmp, shows_total};

    ghost partial_cmp = { λ a b. Some (shows_cmp a b) };

    ghost laws = { po shows_total (λ a b. Prim.search rules) };

    fn partial_cmp(&self, other: &Shows) -> Option<Ordering> {
        Some(self.cmp(other))
    }
}

/// By what is told, then by the rows that are left, and then by how sessions stand.
impl Ord for Shows {
    ghost use Rattle.order_classes.specs.Order.{shows_cmp, shows_total};

    ghost cmp = { shows_cmp };

    ghost total = { shows_total };

    ghost matches_partial_cmp = { Prim.search rules };

    ghost matches_eq = { Prim.search rules };

    fn cmp(&self, other: &Shows) -> Ordering {
        let told = self.told.cmp(&other.told);
        if told.is_ne() {
            return told;
        }
        let left = tables_order(self.left.as_slice(), other.left.as_slice());
        if left.is_ne() {
            return left;
        }
        self.rests.as_slice().cmp(&other.rests.as_slice())
    }
}
