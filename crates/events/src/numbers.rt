//! The numbers that stand for warnings and faults in JSON texts.

ghost use Rattle.std.specs.Prelude.{◌≡◌};
ghost use Rattle.events.specs.Numbers.{fault_number, warning_number};

use crate::event::{Fault, Warning};

/// The number that stands for a warning, 1 or 2 in the order of `Warning`.
pub fn warning_number(warning: Warning) -> u8
    ensures { result ≡ warning_number warning }
{
    match warning {
        Warning::InBlock => 1,
        Warning::NoBlock => 2,
    }
}

/// The number that stands for a fault, from 1 to 5 in the order of `Fault`.
pub fn fault_number(fault: Fault) -> u8
    ensures { result ≡ fault_number fault }
{
    match fault {
        Fault::Duplicate => 1,
        Fault::OutOfRange => 2,
        Fault::Deadlock => 3,
        Fault::Aborted => 4,
        Fault::Unavailable => 5,
    }
}
