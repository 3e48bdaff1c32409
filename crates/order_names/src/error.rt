/// Why an order has no rank. Places are counted from 0.
#[derive(Clone, Copy, PartialEq, Eq)]
pub enum OrderError {
    /// No step has the name at this place.
    UnknownStep(usize),
    /// The step at this place was sent before.
    Again(usize),
    /// Before the step at this place an earlier one of its session was not sent, which is due.
    OutOfTurn {
        /// The place.
        place: usize,
        /// The step that is due.
        due: u8,
    },
    /// This step is left out.
    LeftOut(u8),
    /// The spec has permutation lines, and this order is none of them.
    NoLine,
    /// Memory ran out.
    NoMemory,
}
