//! Pictures of the modes that sessions hold.

ghost use Rattle.std.specs.Prelude.{◌≡◌, IfOk, Some, slice_get, true};
ghost use Rattle.marked_modes.specs.Held.{pictured, spread};

use crate::modes::MarkedModes;
use crate::row::ModeRow;
use std::alloc::{AllocError, Global};

/// The modes that sessions held when it was taken. It says nothing of the resources of another spec.
#[derive(Drop)]
pub struct ModesPicture {
    /// The rows in which somebody held something, in their order.
    pub(crate) held: Vec<HeldRow>,
    /// So many rows stood behind them.
    pub(crate) behind: usize,
}

/// A row in which somebody held something, with how many stood before it, behind the last such one.
#[derive(Clone, Copy)]
pub(crate) struct HeldRow {
    pub(crate) before: usize,
    pub(crate) row: ModeRow,
}

impl ModesPicture {
    /// On how many resources somebody held something.
    pub fn held(&self) -> usize {
        self.held.len()
    }
}

impl MarkedModes {
    /// A picture of the modes now. It fails for want of memory alone.
    pub fn picture(&self, alloc: Global) -> Result<ModesPicture, AllocError>
        ensures { IfOk result (λ picture. pictured self.now.resources picture ≡ self.now.now) }
    {
        picture_of(alloc, self.rows.as_slice())
    }

    /// Whether the modes now are those of a picture. Contracts promise what a yes means; a no costs time alone.
    pub fn is_pictured(&self, picture: &ModesPicture) -> bool
        ensures { result ≡ true → pictured self.now.resources picture.now ≡ self.now.now }
    {
        are_pictured(self.rows.as_slice(), picture)
    }
}

/// The picture of these rows.
fn picture_of(alloc: Global, rows: &[ModeRow]) -> Result<ModesPicture, AllocError>
    ensures { IfOk result (λ picture. spread picture.held.items picture.behind ≡ rows.now) }
{
    let mut held = Vec::new(alloc);
    let mut before = 0;
    for place in 0..rows.len() {
        let row = rows[place];
        if row.is_blank() {
            before += 1;
        } else {
            held.push(HeldRow { before, row })?;
            before = 0;
        }
    }
    Ok(ModesPicture {
        held,
        behind: before,
    })
}

/// Whether these rows are those of a picture.
fn are_pictured(rows: &[ModeRow], picture: &ModesPicture) -> bool
    ensures { result ≡ true → spread picture.now.held.items picture.now.behind ≡ rows.now }
{
    let held = picture.held.as_slice();
    let mut passed = 0;
    let mut before = 0;
    for place in 0..rows.len() {
        let row = rows[place];
        if row.is_blank() {
            before += 1;
        } else if is_at(held, passed, before, row) {
            passed += 1;
            before = 0;
        } else {
            return false;
        }
    }
    passed == held.len() && before == picture.behind
}

/// Whether this row, with so many before it, stands at a place.
fn is_at(held: &[HeldRow], place: usize, before: usize, row: ModeRow) -> bool
    ensures { result ≡ true → slice_get held.now place ≡ Some (record { before = before; row = row }) }
{
    match held.get(place) {
        Some(held) => held.before == before && held.row.is_same(&row),
        None => false,
    }
}
