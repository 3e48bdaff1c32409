//! What is told on standard error.

use crate::Counted;
use std::io::Write;

/// Writes a text where faults are told, as far as that takes it: there is nowhere to tell a fault of that.
pub fn say<E: Write>(text: &str, err: &mut Counted<E>) {
    if err.failures() < u64::MAX {
        let _told = err.write_str(text);
    }
}
