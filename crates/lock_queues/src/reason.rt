use lock_modes::Mode;

/// Why a session is in the way of a wait.
#[derive(Clone, Copy, PartialEq, Eq)]
pub enum Reason {
    /// It holds this mode there, beside which the wanted one does not fit.
    Holds(Mode),
    /// Its wait stands ahead, and wants this mode.
    Ahead(Mode),
}

/// A session that is waited for, and why.
#[derive(Clone, Copy, PartialEq, Eq)]
pub struct Edge {
    pub session: u8,
    pub reason: Reason,
}
