//! What lies at one place.

ghost use Rattle.std.specs.Prelude.{◌≡◌, Some};
ghost use Rattle.marked_rows.specs.Cells.{blank, seen};
ghost use Rattle.marked_rows.specs.Kept.{ended, is_of};
ghost use Rattle.marked_rows.specs.Shown.{shown_of};

/// The committed row of a place, and what a session has left there of its own, if one has. Rows are numbers of the pool.
#[derive(Clone, Copy)]
pub(crate) struct Cell {
    pub(crate) committed: Option<usize>,
    pub(crate) left: Option<Left>,
}

/// What a session has left at a place: a row, or none. It alone sees that until it keeps it.
#[derive(Clone, Copy)]
pub(crate) struct Left {
    pub(crate) session: u8,
    pub(crate) row: Option<usize>,
}

/// That a session has written at the place of a cell. It may have kept or undone that since.
#[derive(Clone, Copy)]
pub(crate) struct Written {
    pub(crate) session: u8,
    pub(crate) cell: usize,
}

/// What becomes of the writes of a session.
#[derive(Clone, Copy)]
pub(crate) enum Ending {
    Keep,
    Undo,
}

/// Which row of a cell is shown.
#[derive(Clone, Copy)]
pub(crate) enum Sight {
    /// What this session has left there, else the committed one.
    Own(u8),
    /// The committed one, whatever was left there.
    Committed,
}

impl Cell {
    /// No row, and nothing written.
    pub fn new() -> Cell
        ensures { result ≡ blank }
    {
        Cell {
            committed: None,
            left: None,
        }
    }

    /// The row that a session sees: what it has left there, else the committed one.
    pub fn seen(&self, session: u8) -> Option<usize>
        ensures { result ≡ seen session self.now }
    {
        match self.left {
            Some(left) => {
                if left.session == session {
                    left.row
                } else {
                    self.committed
                }
            }
            None => self.committed,
        }
    }

    /// The row that is shown of the cell.
    pub fn shown(&self, sight: Sight) -> Option<usize>
        ensures { result ≡ shown_of sight self.now }
    {
        match sight {
            Sight::Own(session) => self.seen(session),
            Sight::Committed => self.committed,
        }
    }

    /// Whether the session has written there.
    pub fn is_of(&self, session: u8) -> bool
        ensures { result ≡ is_of session self.now }
    {
        match self.left {
            Some(left) => left.session == session,
            None => false,
        }
    }

    /// The cell with what a session leaves there, in the place of what was left.
    pub fn with(&self, session: u8, row: Option<usize>) -> Cell
        ensures { result ≡ record self.now { left = Some (record { session = session; row = row }) } }
    {
        Cell {
            committed: self.committed,
            left: Some(Left { session, row }),
        }
    }

    /// The cell behind the end of a session's writes.
    pub fn ended(&self, session: u8, ending: Ending) -> Cell
        ensures { result ≡ ended session ending self.now }
    {
        match self.left {
            None => *self,
            Some(left) => {
                if left.session != session {
                    return *self;
                }
                match ending {
                    Ending::Keep => Cell {
                        committed: left.row,
                        left: None,
                    },
                    Ending::Undo => Cell {
                        committed: self.committed,
                        left: None,
                    },
                }
            }
        }
    }
}
