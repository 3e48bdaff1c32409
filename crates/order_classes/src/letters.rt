//! The letters of what an order shows, and which orders are asked for.

ghost use Rattle.std.specs.Prelude.{◌≡◌, get_or, [], Some};
ghost use Rattle.std.specs.List.{list_any};
ghost use Rattle.order_classes.specs.Letters.{is_other_fault, is_waiting, letter_w, letter_d, letter_e, letter_n, letter_s, is_through, tells, tells_to, is_deadlock};
ghost use Rattle.order_classes.specs.Asked.{is_sign, loses, passes_test, passes_filter, pass_all};

use crate::shows::{Rest, Shows};
use events::{Event, Fault, Transcript};

/// What an order may show.
#[derive(Clone, Copy)]
pub enum Test {
    /// A session waits.
    Waits,
    /// The session with this number, or some session where none is named, loses a deadlock.
    Deadlock(Option<u8>),
    /// A session is told of another error of its own.
    Error,
    /// A step is not sent, since its session waits.
    Unsent,
    /// A session still waits at the end.
    Stuck,
    /// It is an anomaly: every session is through, and yet no serial order answers so.
    NotSerial,
}

/// Which orders are asked for: those that pass a test, or those that do not.
#[derive(Clone, Copy)]
pub struct Filter {
    pub test: Test,
    pub wanted: bool,
}

/// An event that a letter tells of.
#[derive(Clone, Copy)]
enum Sign {
    Wait,
    Deadlock,
    Error,
    Unsent,
}

impl Test {
    /// Whether what is shown passes, where it is known whether it is an anomaly.
    pub fn passes(self, shows: &Shows, is_not_serial: bool) -> bool
        ensures { result ≡ passes_test is_not_serial self shows.now }
    {
        match self {
            Test::Waits => shows.waits(),
            Test::Deadlock(session) => shows.loses(session),
            Test::Error => shows.has_error(),
            Test::Unsent => shows.is_unsent(),
            Test::Stuck => shows.is_stuck(),
            Test::NotSerial => is_not_serial,
        }
    }
}

impl Filter {
    /// Whether what is shown is asked for.
    pub fn passes(self, shows: &Shows, is_not_serial: bool) -> bool
        ensures { result ≡ passes_filter is_not_serial self shows.now }
    {
        let is_passed = self.test.passes(shows, is_not_serial);
        if self.wanted { is_passed } else { !is_passed }
    }
}

/// Whether what is shown passes all filters.
pub fn pass_all(filters: &[Filter], shows: &Shows, is_not_serial: bool) -> bool
    ensures { result ≡ pass_all is_not_serial filters.now shows.now }
{
    filters
        .iter()
        .all(|filter: &Filter| filter.passes(shows, is_not_serial))
}

impl Shows {
    /// A session waits.
    pub fn waits(&self) -> bool
        ensures { result ≡ letter_w self.now }
    {
        is_told(Sign::Wait, self.told.sessions())
    }

    /// The session with this number, or some session where none is named, loses a deadlock.
    pub fn loses(&self, session: Option<u8>) -> bool
        ensures { result ≡ loses session self.now }
    {
        match session {
            None => self.has_deadlock(),
            Some(session) => self.has_loser(session),
        }
    }

    /// A session loses a deadlock.
    pub fn has_deadlock(&self) -> bool
        ensures { result ≡ letter_d self.now }
    {
        is_told(Sign::Deadlock, self.told.sessions())
    }

    /// The session with this number loses a deadlock.
    fn has_loser(&self, session: u8) -> bool
        ensures { result ≡ tells_to session is_deadlock self.now }
    {
        let sessions = self.told.sessions();
        let session = session as usize;
        session < sessions.len() && is_told_to(Sign::Deadlock, sessions[session].events())
    }

    /// A session is told of an error of its own that is no deadlock.
    pub fn has_error(&self) -> bool
        ensures { result ≡ letter_e self.now }
    {
        is_told(Sign::Error, self.told.sessions())
    }

    /// A step is not sent.
    pub fn is_unsent(&self) -> bool
        ensures { result ≡ letter_n self.now }
    {
        is_told(Sign::Unsent, self.told.sessions())
    }

    /// Every session is through: each of its steps was sent, none waits at the end, and none was told a deadlock or another error of its own.
    pub fn is_through(&self) -> bool
        ensures { result ≡ is_through self.now }
    {
        !(self.has_deadlock() || self.has_error() || self.is_unsent() || self.is_stuck())
    }

    /// A session still waits at the end.
    pub fn is_stuck(&self) -> bool
        ensures { result ≡ letter_s self.now }
    {
        self.rests
            .as_slice()
            .iter()
            .any(|rest: &Rest| is_waiting(*rest))
    }
}

fn is_waiting(rest: Rest) -> bool
    ensures { result ≡ is_waiting rest }
{
    match rest {
        Rest::StillWaits => true,
        Rest::HasEnded | Rest::IsOpen | Rest::HasFailed => false,
    }
}

/// Whether some session is told of such an event.
fn is_told(sign: Sign, sessions: &[Transcript]) -> bool
    ensures { result ≡ list_any (list_any (is_sign sign)) sessions.now }
{
    sessions
        .iter()
        .any(|session: &Transcript| is_told_to(sign, session.events()))
}

fn is_told_to(sign: Sign, events: &[Event]) -> bool
    ensures { result ≡ list_any (is_sign sign) events.now }
{
    events.iter().any(|event: &Event| is_sign(sign, event))
}

fn is_sign(sign: Sign, event: &Event) -> bool
    ensures { result ≡ is_sign sign event.now }
{
    match sign {
        Sign::Wait => matches!(event, Event::Waiting),
        Sign::Deadlock => matches!(event, Event::Failed(Fault::Deadlock)),
        Sign::Error => is_error(event),
        Sign::Unsent => matches!(event, Event::NotSent(_)),
    }
}

fn is_error(event: &Event) -> bool
    ensures { result ≡ is_sign Sign.Error event.now }
{
    match event {
        Event::Failed(fault) => is_other_fault(*fault),
        _ => false,
    }
}

fn is_other_fault(fault: Fault) -> bool
    ensures { result ≡ is_other_fault fault }
{
    match fault {
        Fault::Duplicate | Fault::OutOfRange | Fault::Unavailable => true,
        Fault::Deadlock | Fault::Aborted => false,
    }
}
