//! Quoted names: where they end, and what they stand for.

ghost use Rattle.std.specs.Prelude.{◌≡◌, ◌≤◌, ◌<◌, ◌+◌, ◌++◌, [], length, drop, not, ◌&&◌, ◌==◌, true, false, IfOk};
ghost use Rattle.std.specs.String.{string_bytes};
ghost use Rattle.spec_reader.specs.Quoted.{begins_quote, ends_quoted, stops, quoted_len, undoubled};

use byte_runs::{Class, after_first, run_of};
use std::alloc::{AllocError, Global};

fn begins_quote(bytes: &[u8]) -> bool
    ensures { result ≡ begins_quote bytes.now }
{
    matches!(bytes, [b'"', ..])
}

/// Whether a quote stands at this index.
pub fn has_quote_at(bytes: &[u8], index: usize) -> bool
    requires { index ≤ length bytes.now }
    ensures { result ≡ begins_quote (drop index bytes.now) }
{
    let (_, rest) = bytes.split_at(index);
    begins_quote(rest)
}

/// Whether a byte ends a quoted name: a line feed, or a quote without a second one behind it.
fn ends_quoted(b: u8, after: &[u8]) -> bool
    ensures { result ≡ ends_quoted b after.now }
{
    b == b'\n' || b == b'"' && !begins_quote(after)
}

/// Whether a quoted name stops before these bytes, of which the first may be the second of two quotes.
fn stops(second: bool, bytes: &[u8]) -> bool
    ensures { result ≡ stops second bytes.now }
{
    match bytes {
        [] => true,
        [b, after @ ..] => !second && ends_quoted(*b, after),
    }
}

/// Whether a byte within a quoted name is the first of two quotes.
fn begins_pair(second: bool, b: u8) -> bool
    ensures { result ≡ (not second && b == 34) }
{
    !second && b == b'"'
}

/// Whether a quoted name goes on with the byte at this index.
fn goes_on_at(second: bool, bytes: &[u8], index: usize) -> bool
    requires { index ≤ length bytes.now }
    ensures { result ≡ not (stops second (drop index bytes.now)) }
{
    let (_, rest) = bytes.split_at(index);
    !stops(second, rest)
}

/// How many bytes at the front are a quoted name's.
pub fn quoted_len(bytes: &[u8]) -> usize
    ensures value { result ≡ quoted_len false bytes.now }
    ensures within { result ≤ length bytes.now }
{
    let mut len = 0;
    let mut second = false;
    while len < bytes.len() && goes_on_at(second, bytes, len) {
        second = begins_pair(second, bytes[len]);
        len += 1;
    }
    len
}

/// What follows a quote, if there is one.
fn without_quote(text: &str) -> &str
    ensures value { undoubled false result.now ≡ undoubled true text.now }
    ensures shorter { length result.now < length text.now + 1 }
{
    if begins_quote(text.as_bytes()) {
        after_first(text)
    } else {
        text
    }
}

/// Adds the front that has no quote, and gives what follows.
fn push_unquoted<'a>(name: &mut String, text: &'a str) -> Result<&'a str, AllocError>
    ensures whole { IfOk result (λ rest. string_bytes name.new ++ undoubled false rest.now
        ≡ string_bytes name.old ++ undoubled false text.now) }
    ensures quote { IfOk result (λ rest. begins_quote rest.now ≡ false → rest.now ≡ []) }
    ensures shorter { IfOk result (λ rest. length rest.now < length text.now + 1) }
{
    let (plain, rest) = run_of(Class::DoubleQuoted, text);
    name.push_str(plain)?;
    Ok(rest)
}

/// Adds a quote for one or two of them at the front, and what follows up to the next one.
/// It gives what follows that.
fn push_quote<'a>(name: &mut String, text: &'a str) -> Result<&'a str, AllocError>
    requires { begins_quote text.now ≡ true }
    ensures whole { IfOk result (λ rest. string_bytes name.new ++ undoubled false rest.now
        ≡ string_bytes name.old ++ undoubled false text.now) }
    ensures quote { IfOk result (λ rest. begins_quote rest.now ≡ false → rest.now ≡ []) }
    ensures shorter { IfOk result (λ rest. length rest.now < length text.now) }
{
    name.push('"')?;
    push_unquoted(name, without_quote(after_first(text)))
}

/// The name that stands between quotes.
pub fn undoubled(alloc: Global, text: &str) -> Result<String, AllocError>
    ensures { IfOk result (λ name. string_bytes name ≡ undoubled false text.now) }
{
    let mut name = String::new(alloc);
    let mut rest = push_unquoted(&mut name, text)?;
    while begins_quote(rest.as_bytes()) {
        rest = push_quote(&mut name, rest)?;
    }
    Ok(name)
}
