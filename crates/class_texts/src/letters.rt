//! What an order may show, by a letter each.

ghost use Rattle.std.specs.Prelude.{◌≡◌, IfOk, string_bytes};
ghost use Rattle.class_texts.specs.Letters as spec;

use crate::kind::ClassKind;
use order_classes::{Letters, Total, Totals};
use std::alloc::{AllocError, Global};

/// What an order may show.
#[derive(Clone, Copy)]
pub enum Letter {
    /// W: a session waits.
    Waits,
    /// D: a session is the victim of a deadlock.
    Deadlock,
    /// E: another error.
    Error,
    /// N: a step is not sent.
    Unsent,
    /// S: a session waits for ever.
    Stuck,
    /// R: an anomaly.
    NotSerial,
}

static OF_ALL: [Letter; 6] = [
    Letter::Waits,
    Letter::Deadlock,
    Letter::Error,
    Letter::Unsent,
    Letter::Stuck,
    Letter::NotSerial,
];

static OF_SENT: [Letter; 5] = [
    Letter::Waits,
    Letter::Deadlock,
    Letter::Error,
    Letter::Stuck,
    Letter::NotSerial,
];

static OF_RESULTS: [Letter; 4] = [
    Letter::Deadlock,
    Letter::Error,
    Letter::Stuck,
    Letter::NotSerial,
];

static OF_OUTCOMES: [Letter; 4] = [
    Letter::Waits,
    Letter::Deadlock,
    Letter::Error,
    Letter::Unsent,
];

/// The letters that have a place, in their order, where all permutations are counted or those orders alone that clients can send.
pub fn letters_of(by: ClassKind, all_orders: bool) -> &'static [Letter]
    ensures { result.now ≡ spec.letters_of by all_orders }
{
    match by {
        ClassKind::Shows => letters_of_all(all_orders),
        ClassKind::Answers => &OF_RESULTS,
        ClassKind::Outcomes => &OF_OUTCOMES,
    }
}

/// The letters of classes: a step is not sent only where all permutations are counted.
fn letters_of_all(all_orders: bool) -> &'static [Letter]
    ensures { result.now ≡ spec.letters_of_all all_orders }
{
    if all_orders { &OF_ALL } else { &OF_SENT }
}

impl Letter {
    /// The letter itself.
    pub fn sign(self) -> &'static str
        ensures { result.now ≡ spec.sign self }
    {
        match self {
            Letter::Waits => "W",
            Letter::Deadlock => "D",
            Letter::Error => "E",
            Letter::Unsent => "N",
            Letter::Stuck => "S",
            Letter::NotSerial => "R",
        }
    }

    pub(crate) fn meaning(self) -> &'static str
        ensures { result.now ≡ spec.meaning self }
    {
        match self {
            Letter::Waits => "a session waits",
            Letter::Deadlock => "a session is the victim of a deadlock",
            Letter::Error => "another error",
            Letter::Unsent => "a step is not sent: its session waits",
            Letter::Stuck => "a session waits for ever",
            Letter::NotSerial => "anomaly: no error, yet no serial order gives this result",
        }
    }

    /// How many orders and classes show it: none where it is not told.
    pub fn total(self, totals: Totals) -> Option<Total>
        ensures { result ≡ spec.total_of totals self }
    {
        match self {
            Letter::Waits => Some(totals.waits),
            Letter::Deadlock => Some(totals.deadlock),
            Letter::Error => Some(totals.error),
            Letter::Unsent => Some(totals.unsent),
            Letter::Stuck => Some(totals.stuck),
            Letter::NotSerial => totals.not_serial,
        }
    }

    fn is_in(self, letters: Letters) -> bool
        ensures { result ≡ spec.shows_letter letters self }
    {
        match self {
            Letter::Waits => letters.waits,
            Letter::Deadlock => letters.deadlock,
            Letter::Error => letters.error,
            Letter::Unsent => letters.unsent,
            Letter::Stuck => letters.stuck,
            Letter::NotSerial => letters.not_serial.unwrap_or(false),
        }
    }

    /// The letter where it is shown, and a dot in its place where it is not.
    fn sign_in(self, letters: Letters) -> &'static str
        ensures { result.now ≡ spec.sign_in letters self }
    {
        if self.is_in(letters) {
            self.sign()
        } else {
            "."
        }
    }
}

/// The letters that are shown, each in its place.
pub fn letters_text(
    alloc: Global,
    by: ClassKind,
    all_orders: bool,
    letters: Letters,
) -> Result<String, AllocError>
    ensures { IfOk result (λ text. string_bytes text ≡ spec.letters_text by all_orders letters) }
{
    let mut text = String::new(alloc);
    for letter in letters_of(by, all_orders) {
        text.push_str(letter.sign_in(letters))?;
    }
    Ok(text)
}
