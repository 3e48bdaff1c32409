//! Tokens as they stand on a line.

ghost use Rattle.std.specs.Prelude.{◌≡◌, ◌<◌, ◌+◌, ◌++◌, [], false, length, map, string_bytes, IfOk, OnOk};
ghost use Rattle.std.specs.List.{prefix_len};
ghost use Rattle.byte_runs.specs.Bytes.{is_white};
ghost use Rattle.spec_texts.specs.OneLine.{begins_white, is_dark, shown};

use byte_runs::after_first;
use std::alloc::AllocError;

/// Puts a token behind a line, with a blank for each white space in it.
pub(crate) fn push_shown(line: &mut String, token: &str) -> Result<(), AllocError>
    ensures { OnOk result (string_bytes line.new ≡ string_bytes line.old ++ map shown token.now) }
{
    let mut rest = push_dark(line, token)?;
    while begins_white(rest) {
        line.push_str(" ")?;
        rest = push_dark(line, after_first(rest))?;
    }
    Ok(())
}

/// Puts the front of a token that has no white space behind a line, and gives what follows.
fn push_dark<'a>(line: &mut String, token: &'a str) -> Result<&'a str, AllocError>
    ensures whole { IfOk result (λ rest. string_bytes line.new ++ map shown rest.now ≡ string_bytes line.old ++ map shown token.now) }
    ensures white { IfOk result (λ rest. begins_white rest.now ≡ false → rest.now ≡ []) }
    ensures shorter { IfOk result (λ rest. length rest.now < length token.now + 1) }
{
    let (dark, rest) = token.split_at(dark_len(token.as_bytes()));
    line.push_str(dark)?;
    Ok(rest)
}

/// How many bytes at the front are no white space.
fn dark_len(bytes: &[u8]) -> usize
    ensures { result ≡ prefix_len is_dark bytes.now }
{
    let mut n = 0;
    while n < bytes.len() && !is_white(bytes[n]) {
        n += 1;
    }
    n
}

fn begins_white(text: &str) -> bool
    ensures { result ≡ begins_white text.now }
{
    match text.as_bytes() {
        [first, ..] => is_white(*first),
        [] => false,
    }
}

fn is_white(b: u8) -> bool
    ensures { result ≡ is_white b }
{
    b == b' ' || b == b'\t' || b == b'\r' || b == b'\x0c' || b == b'\n'
}
