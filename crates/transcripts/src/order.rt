//! The order of outcomes by the bytes of their compact JSON texts, told without making the texts.

ghost use Rattle.std.specs.Prelude.{◌≡◌, ◌<◌, ◌++◌, ◌∷◌, [], length};
ghost use Rattle.json.specs.Print.{escape_byte, escape_letter, quoted};
ghost use Rattle.transcripts.specs.Compact.{bytes_cmp, cell_json, event_json, first_written, outcome_json, array_json, second_written, session_json, whole_json};
ghost use Rattle.transcripts.specs.EventParts.{end_at, front_by};
ghost use Rattle.events.specs.Parts.{kind_of};

use events::{Event, Transcript};
use itoa::Buffer;
use lock_modes::Value;
use std::cmp::Ordering;

/// The order of two outcomes' texts, whose sessions these are.
pub fn outcome_order(a: &[Transcript], b: &[Transcript]) -> Ordering
    ensures { result ≡ bytes_cmp (outcome_json a.now) (outcome_json b.now) }
{
    let mut place = 0;
    while place < a.len() && place < b.len() {
        let order = session_order(a[place].events(), b[place].events());
        let order = order.then(end_at(place, a.len()).cmp(&end_at(place, b.len())));
        if order.is_ne() {
            return order;
        }
        place += 1;
    }
    b.len().cmp(&a.len())
}

fn session_order(a: &[Event], b: &[Event]) -> Ordering
    ensures { result ≡ bytes_cmp (session_json a.now) (session_json b.now) }
{
    let mut place = 0;
    while place < a.len() && place < b.len() {
        let order = event_order(&a[place], &b[place]);
        let order = order.then(end_at(place, a.len()).cmp(&end_at(place, b.len())));
        if order.is_ne() {
            return order;
        }
        place += 1;
    }
    b.len().cmp(&a.len())
}

fn row_order(a: &[Value], b: &[Value]) -> Ordering
    ensures { result ≡ bytes_cmp (array_json cell_json a.now) (array_json cell_json b.now) }
{
    let mut place = 0;
    while place < a.len() && place < b.len() {
        let order = cell_order(
            &a[place],
            end_at(place, a.len()),
            &b[place],
            end_at(place, b.len()),
        );
        if order.is_ne() {
            return order;
        }
        place += 1;
    }
    b.len().cmp(&a.len())
}

/// The byte behind the item at this place of so many.
fn end_at(place: usize, count: usize) -> u8
    requires { place < count }
    ensures { result ≡ end_at place count }
{
    if place + 1 == count { b']' } else { b',' }
}

/// The order of two events' texts: by what they begin with, then by the number, and then by the row.
fn event_order(a: &Event, b: &Event) -> Ordering
    ensures { result ≡ bytes_cmp (event_json a.now) (event_json b.now) }
{
    let fronts = front_order(a, b);
    if fronts.is_ne() {
        return fronts;
    }
    let numbers = number_order(a.number(), b.number());
    if numbers.is_ne() {
        return numbers;
    }
    row_order(a.values(), b.values())
}

/// The order of what two events' texts begin with. Where both are of one kind, no texts are compared.
fn front_order(a: &Event, b: &Event) -> Ordering
    ensures { result ≡ bytes_cmp (front_by (kind_of a.now)) (front_by (kind_of b.now)) }
{
    if a.kind() == b.kind() {
        return Ordering::Equal;
    }
    front(a).cmp(front(b))
}

/// What the text of an event begins with, up to a number or a row.
fn front(event: &Event) -> &'static str
    ensures { result.now ≡ front_by (kind_of event.now) }
{
    match event {
        Event::Sent(_) => "[\"sent\",",
        Event::Row(_) => "[\"row\",",
        Event::Rows(_) => "[\"rows\",",
        Event::Inserted(_) => "[\"inserted\",",
        Event::Updated(_) => "[\"updated\",",
        Event::Deleted(_) => "[\"deleted\",",
        Event::Began => "\"began\"",
        Event::Committed => "\"committed\"",
        Event::RolledBack => "\"rolledback\"",
        Event::Locked => "\"locked\"",
        Event::Set => "\"set\"",
        Event::Warned(_) => "[\"warned\",",
        Event::Failed(_) => "[\"failed\",",
        Event::Waiting => "\"waiting\"",
        Event::Resumed => "\"resumed\"",
        Event::Done => "\"done\"",
        Event::NotSent(_) => "[\"notsent\",",
    }
}

/// The order of two values' texts, each with the byte behind it.
fn cell_order(a: &Value, after_a: u8, b: &Value, after_b: u8) -> Ordering
    ensures { result ≡ bytes_cmp (cell_json a.now ++ after_a ∷ []) (cell_json b.now ++ after_b ∷ []) }
{
    match (a, b) {
        (Value::Int(a), Value::Int(b)) => integer_order(*a, after_a, *b, after_b),
        (Value::Text(a), Value::Text(b)) => {
            text_order(a.as_str(), b.as_str()).then(after_a.cmp(&after_b))
        }
        (Value::Int(_), Value::Text(_)) => Ordering::Greater,
        (Value::Text(_), Value::Int(_)) => Ordering::Less,
    }
}

/// The order of two integers' texts, each with the byte behind it. Equal ones have no text made of them.
fn integer_order(a: i64, after_a: u8, b: i64, after_b: u8) -> Ordering
    ensures { result ≡ bytes_cmp (cell_json (Value.Int a) ++ after_a ∷ []) (cell_json (Value.Int b) ++ after_b ∷ []) }
{
    if a == b {
        return after_a.cmp(&after_b);
    }
    let mut digits = Buffer::new();
    let mut others = Buffer::new();
    let a = digits.format(a).as_bytes();
    let b = others.format(b).as_bytes();
    ended_order(a, after_a, b, after_b)
}

/// The order of two numbers' digits, each with a closing bracket behind it. Equal ones have no text made of them.
fn number_order(a: u64, b: u64) -> Ordering
    ensures { result ≡ bytes_cmp (whole_json a ++ 93 ∷ []) (whole_json b ++ 93 ∷ []) }
{
    if a == b {
        return Ordering::Equal;
    }
    let mut digits = Buffer::new();
    let mut others = Buffer::new();
    let a = digits.format(a).as_bytes();
    let b = others.format(b).as_bytes();
    ended_order(a, b']', b, b']')
}

/// The order of two runs of bytes, each with the byte behind it.
fn ended_order(a: &[u8], after_a: u8, b: &[u8], after_b: u8) -> Ordering
    ensures { result ≡ bytes_cmp (a.now ++ after_a ∷ []) (b.now ++ after_b ∷ []) }
{
    let mut place = 0;
    while place < a.len() && place < b.len() {
        let order = a[place].cmp(&b[place]);
        if order.is_ne() {
            return order;
        }
        place += 1;
    }
    if place < b.len() {
        return after_a.cmp(&b[place]).then(Ordering::Less);
    }
    if place < a.len() {
        return a[place].cmp(&after_b).then(Ordering::Greater);
    }
    after_a.cmp(&after_b)
}

/// The order of two texts as strings in quotes.
fn text_order(a: &str, b: &str) -> Ordering
    ensures { result ≡ bytes_cmp (quoted a.now) (quoted b.now) }
{
    let a = a.as_bytes();
    let b = b.as_bytes();
    let mut place = 0;
    while place < a.len() && place < b.len() {
        let order = byte_order(a[place], b[place]);
        if order.is_ne() {
            return order;
        }
        place += 1;
    }
    if place < b.len() {
        return b'"'.cmp(&first_written(b[place]));
    }
    if place < a.len() {
        return first_written(a[place]).cmp(&b'"');
    }
    Ordering::Equal
}

/// The order of what stands in strings for two bytes.
#[tactic(auto, using(crate::proofs::Escapes::escaped_order))]
fn byte_order(a: u8, b: u8) -> Ordering
    ensures { result ≡ bytes_cmp (escape_byte a) (escape_byte b) }
{
    let firsts = first_written(a).cmp(&first_written(b));
    let seconds = second_written(a).cmp(&second_written(b));
    firsts.then(seconds).then(a.cmp(&b))
}

/// The first byte of what stands in a string for a byte.
fn first_written(byte: u8) -> u8
    ensures { result ≡ first_written byte }
{
    if letter(byte) > 0 || byte < 32 {
        b'\\'
    } else {
        byte
    }
}

/// The second byte of what stands in a string for a byte, or 0.
fn second_written(byte: u8) -> u8
    ensures { result ≡ second_written byte }
{
    let letter = letter(byte);
    if letter > 0 {
        letter
    } else if byte < 32 {
        b'u'
    } else {
        0
    }
}

/// The letter of a byte's short escape, or 0.
fn letter(byte: u8) -> u8
    ensures { result ≡ escape_letter byte }
{
    match byte {
        b'"' | b'\\' => byte,
        8 => b'b',
        12 => b'f',
        b'\n' => b'n',
        b'\r' => b'r',
        b'\t' => b't',
        _ => 0,
    }
}
