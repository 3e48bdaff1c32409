//! Why nothing is asked of the classes of a spec.

use class_looks::LookFault;

/// Why nothing is asked of the classes of a spec. It is that of the first part that can't be asked for, of filters, looks and expectations in
/// this order, but want of memory, which may come at any of them.
#[derive(Clone, Copy, Drop)]
pub enum AskedFault<'a> {
    /// A filter asks for a session of this name, which the spec does not have.
    UnknownSession(&'a str),
    /// A filter asks whether orders are anomalies, which is not told of a file with permutation lines.
    NotTold,
    /// This text is no SELECT over the tables of the spec.
    NoLook(&'a str, LookFault),
    /// This word is no value.
    NoValue(&'a str),
    /// Memory ran out.
    NoMemory,
}
