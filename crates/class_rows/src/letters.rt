//! The letters of classes.

ghost use Rattle.std.specs.Prelude.{◌≡◌, ◌||◌};
ghost use Rattle.class_rows.specs.Pages.{has_r, letters_of};
ghost use Rattle.class_rows.specs.Telling.{either, either_r, has_letter};

use order_classes::{Letters, Shows};

/// What is counted: all classes, or those with a letter.
#[derive(Clone, Copy)]
pub(crate) enum Letter {
    All,
    Waits,
    Deadlock,
    Error,
    Unsent,
    Stuck,
    NotSerial,
}

/// The letters of what is shown, where it is known whether it answers as no serial order does, unless that is not told.
pub(crate) fn letters_of(shows: &Shows, not_serial: Option<bool>) -> Letters
    ensures { result ≡ letters_of shows.now not_serial }
{
    Letters {
        waits: shows.waits(),
        deadlock: shows.has_deadlock(),
        error: shows.has_error(),
        unsent: shows.is_unsent(),
        stuck: shows.is_stuck(),
        not_serial,
    }
}

/// What the one or the other of some orders shows.
pub(crate) fn either(a: Letters, b: Letters) -> Letters
    ensures { result ≡ either a b }
{
    Letters {
        waits: a.waits || b.waits,
        deadlock: a.deadlock || b.deadlock,
        error: a.error || b.error,
        unsent: a.unsent || b.unsent,
        stuck: a.stuck || b.stuck,
        not_serial: either_told(a.not_serial, b.not_serial),
    }
}

fn either_told(a: Option<bool>, b: Option<bool>) -> Option<bool>
    ensures { result ≡ either_r a b }
{
    match a {
        None => b,
        Some(p) => match b {
            None => Some(p),
            Some(q) => Some(p || q),
        },
    }
}

impl Letter {
    /// Whether letters have it.
    pub(crate) fn is_of(self, letters: Letters) -> bool
        ensures { result ≡ has_letter self letters }
    {
        match self {
            Letter::All => true,
            Letter::Waits => letters.waits,
            Letter::Deadlock => letters.deadlock,
            Letter::Error => letters.error,
            Letter::Unsent => letters.unsent,
            Letter::Stuck => letters.stuck,
            Letter::NotSerial => is_not_serial(letters),
        }
    }
}

fn is_not_serial(letters: Letters) -> bool
    ensures { result ≡ has_r letters }
{
    match letters.not_serial {
        Some(is_told) => is_told,
        None => false,
    }
}
