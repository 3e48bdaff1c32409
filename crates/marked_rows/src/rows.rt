//! The rows of all tables, now and at marks.

ghost use Rattle.std.specs.Prelude.{◌≡◌, ◌<◌, ◌∷◌, [], length, IfOk, IsTrue, OnErr, OnOk};
ghost use Rattle.std.specs.Option.{option_copied};
ghost use Rattle.std.specs.FinMap.Entries.{find};
ghost use Rattle.finite_maps.specs.Entries.{IsInOrder};
ghost use Rattle.finite_maps.specs.Map.{get};
ghost use Rattle.lock_modes.specs.Value.{value_cmp};
ghost use Rattle.lock_modes.specs.declared.value.Value.{Value as Key};
ghost use Rattle.row_tables.specs.Layers.{IsOnlyWriterAt, kept, no_rows, rows_of, sight, undone, wrote};
ghost use Rattle.marked_rows.specs.Kept.{ended_layers};

use crate::cell::{Cell, Ending, Sight, Written};
use crate::cells::{reach, shown_in};
use crate::ending::{end, forget, note};
use crate::picture::RowsPicture;
use crate::places::Places;
use crate::pool::RowPool;
use crate::print::print_of;
use crate::scan::Scan;
use lock_modes::{Row, Value};
use marked_lists::MarkedList;
use std::alloc::{AllocError, Global};
use std::marker::Model;

/// The rows of all tables, with marks to go back to.
///
/// Contracts see committed rows with an overlay for each session now, and what they were at the marks that stand, the newest first. A call that takes
/// memory fails for want of it alone, and what was there at marks stays.
#[derive(Drop)]
pub struct MarkedRows {
    places: Places,
    /// What lies at places, by the numbers of their cells. A place whose cell is not there has no row.
    cells: MarkedList<Cell>,
    /// The rows that cells name, with more than are named still.
    rows: RowPool,
    /// Which session wrote at which cell, the newest last, with more than is neither kept nor undone. It is empty again where only one session
    /// wrote anything and that has ended, so that what setups have written is not gone through at each end of a transaction.
    written: MarkedList<Written>,
}

impl Model for MarkedRows {
    ghost use Rattle.std.specs.Coded.{codes};
    ghost use Rattle.finite_maps.specs.Codes.{map_code};
    ghost use Rattle.lock_modes.specs.contracts.value.Value as value;
    ghost use Rattle.marked_rows.specs.Cells.{MarkedRows as SeenRows};
    ghost use Rattle.marked_rows.specs.Kept.{IsKept, seen_rows};

    ghost Value = { SeenRows };

    ghost coded = { Prim.hlevel (codes, map_code, value.the_row.coded) };

    ghost view = { λ m. seen_rows m.places m.rows m.cells };

    ghost invariant = { λ m. IsKept m.places m.rows m.cells m.written };
}

impl MarkedRows {
    /// No rows, and no mark.
    pub fn new(alloc: Global) -> MarkedRows
        ensures { result ≡ record { now = no_rows; marked = [] } }
    {
        MarkedRows {
            places: Places::new(alloc),
            cells: MarkedList::new(alloc),
            rows: RowPool::new(alloc),
            written: MarkedList::new(alloc),
        }
    }

    /// The row that a session sees at a key of a table, whatever others have written and not kept.
    pub fn read(&self, session: u8, table: u16, key: &Value) -> Option<&Row>
        ensures { option_copied result ≡ get (sight session self.now.now) (table, key.now) }
    {
        let place = self.places.cell_of(table, key)?;
        let number = shown_in(self.cells.as_slice(), place, Sight::Own(session))?;
        Some(self.rows.get(number))
    }

    /// The rows of a table that a session sees, in the order of their keys, whatever others have written and not kept. It takes no memory.
    pub fn scan(&self, session: u8, table: u16) -> Scan<'_>
        ensures rows { result ≡ rows_of table (sight session self.now.now) }

        // Each row of the table comes once, in the order of the keys, and no row of another table comes.
        ensures in_order { IsInOrder value_cmp result }
        ensures each { (key : Key) → find value_cmp key result ≡ get (sight session self.now.now) (table, key) }
    {
        let keys = self.places.table(table);
        Scan::new(&self.rows, keys, self.cells.as_slice(), Sight::Own(session))
    }

    /// The committed rows of a table in the order of their keys, whatever sessions have written and not kept. It takes no memory.
    pub fn committed(&self, table: u16) -> Scan<'_>
        ensures { result ≡ rows_of table self.now.now.committed }
    {
        let keys = self.places.table(table);
        Scan::new(&self.rows, keys, self.cells.as_slice(), Sight::Committed)
    }

    /// A picture of the rows now. It fails for want of memory alone.
    pub fn picture(&self, alloc: Global) -> Result<RowsPicture, AllocError>
        ensures { IfOk result (λ picture. picture ≡ self.now.now) }
    {
        RowsPicture::new(alloc, &self.places, self.cells.as_slice(), &self.rows)
    }

    /// A number that is the same where the rows are the same, and seldom else. It takes no memory.
    pub fn print(&self) -> u64 {
        print_of(self.places.tables(), self.cells.as_slice(), &self.rows)
    }

    /// At how many places something was ever written, also where it was gone back from. A picture has as many cells, so this says what it costs.
    pub fn places(&self) -> usize {
        self.places.count()
    }

    /// About how many bytes the rows take that were written and not counted yet, also those that were written over or undone since. They are counted then.
    /// A picture that is taken now keeps them alive when the rows go back to a mark, so this belongs to what it costs. Counted are the rows, their values
    /// and the texts of these.
    pub fn count_written(&mut self) -> usize
        ensures { self.new ≡ self.old }
    {
        self.rows.count()
    }

    /// Whether the rows now are those of a picture. Where something was written at a new place since the picture was taken the answer is false. It takes
    /// no memory.
    pub fn is_pictured(&self, picture: &RowsPicture) -> bool
        ensures { IsTrue result → self.now.now ≡ picture.now }
    {
        picture.is_of(&self.places, self.cells.as_slice(), &self.rows)
    }

    /// Leaves a row, or none, at a key of a table, seen by the session alone until it keeps its writes. No other session may have a write there that
    /// is neither kept nor undone. Without memory everything stays as it was.
    pub fn write(
        &mut self,
        session: u8,
        table: u16,
        key: &Value,
        row: Option<Row>,
    ) -> Result<(), AllocError>
        requires { IsOnlyWriterAt session (table, key.now) self.old.now }
        ensures written { OnOk result (self.new ≡ record self.old { now = wrote session (table, key.now) row self.old.now }) }
        ensures refused { OnErr result (self.new ≡ self.old) }
    {
        let place = self.places.number_of(table, key)?;
        reach(&mut self.cells, place)?;
        let cell = self.cells.get(place);
        let number = self.rows.add(row)?;
        note(&mut self.written, &cell, session, place)?;
        self.cells.set(place, cell.with(session, number))
    }

    /// Drops what a session wrote. Where memory runs out the rows now are good for nothing more; what was at marks stays.
    pub fn undo(&mut self, session: u8) -> Result<(), AllocError>
        ensures undone { OnOk result (self.new ≡ record self.old { now = undone session self.old.now }) }
        ensures marked { self.new.marked ≡ self.old.marked }
    {
        self.end(session, Ending::Undo)
    }

    /// Makes what a session wrote committed. Where memory runs out the rows now are good for nothing more; what was at marks stays.
    pub fn keep(&mut self, session: u8) -> Result<(), AllocError>
        ensures kept { OnOk result (self.new ≡ record self.old { now = kept session self.old.now }) }
        ensures marked { self.new.marked ≡ self.old.marked }
    {
        self.end(session, Ending::Keep)
    }

    /// Ends what a session wrote.
    fn end(&mut self, session: u8, ending: Ending) -> Result<(), AllocError>
        ensures ended { OnOk result (self.new ≡ record self.old { now = ended_layers ending session self.old.now }) }
        ensures marked { self.new.marked ≡ self.old.marked }
    {
        end(&mut self.cells, self.written.as_slice(), session, ending)?;
        forget(&mut self.written, session);
        Ok(())
    }

    /// Sets a mark. Without memory everything stays as it was.
    pub fn mark(&mut self) -> Result<(), AllocError>
        ensures marked { OnOk result (self.new ≡ record self.old { marked = self.old.now ∷ self.old.marked }) }
        ensures refused { OnErr result (self.new ≡ self.old) }
    {
        self.rows.mark()?;
        if let Err(error) = self.cells.mark() {
            self.rows.go_back();
            return Err(error);
        }
        if let Err(error) = self.written.mark() {
            self.rows.go_back();
            self.cells.go_back();
            return Err(error);
        }
        Ok(())
    }

    /// Goes back to the newest mark, which is gone then. It takes no memory.
    pub fn go_back(&mut self)
        requires { 0 < length self.old.marked }
        ensures marked { self.old.marked ≡ self.new.now ∷ self.new.marked }
    {
        self.rows.go_back();
        self.cells.go_back();
        self.written.go_back();
    }
}
