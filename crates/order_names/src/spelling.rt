//! Orders as a spec file writes them.

ghost use Rattle.std.specs.Prelude.{◌≡◌, ◌<◌, ◌+◌, ◌++◌, [], All, IfOk, OnOk, false, length, string_bytes};
ghost use Rattle.byte_runs.specs.Bytes.{begins_name};
ghost use Rattle.spec_reader.specs.Quoted.{begins_quote};
ghost use Rattle.order_names.specs.Spelling.{doubled, is_keyword, is_plain, names_of, order_text, separator, spelled};

use bound_specs::Spec;
use byte_runs::{Class, after_first, run_len, run_of};
use std::alloc::{AllocError, Global};

/// The names of these steps in their order, as a permutation line of a spec file has them, with a line feed behind the last.
pub fn order_text(alloc: Global, spec: &Spec, line: &[u8]) -> Result<String, AllocError>
    requires { All (λ k. k < length spec.now.run.steps) line.now }
    ensures { IfOk result (λ text. string_bytes text ≡ order_text (names_of spec.now line.now)) }
{
    let mut text = String::new(alloc);
    for place in 0..line.len() {
        push_name(&mut text, spec.step_name(line[place]))?;
        text.push_str(separator(place + 1 == line.len()))?;
    }
    Ok(text)
}

/// What stands behind a name.
fn separator(is_last: bool) -> &'static str
    ensures { result.now ≡ separator is_last }
{
    if is_last { "\n" } else { " " }
}

/// Puts a name behind a text as a spec file writes it, in quotes where it needs them. It fails for want of memory alone.
pub fn push_name(text: &mut String, name: &str) -> Result<(), AllocError>
    ensures { OnOk result (string_bytes text.new ≡ string_bytes text.old ++ spelled name.now) }
{
    if is_plain(name) {
        return text.push_str(name);
    }
    text.push_str("\"")?;
    push_doubled(text, name)?;
    text.push_str("\"")
}

/// Puts a text behind another one, with two quotes for each.
fn push_doubled(text: &mut String, name: &str) -> Result<(), AllocError>
    ensures { OnOk result (string_bytes text.new ≡ string_bytes text.old ++ doubled name.now) }
{
    let mut rest = push_unquoted(text, name)?;
    while begins_quote(rest) {
        text.push_str("\"\"")?;
        rest = push_unquoted(text, after_first(rest))?;
    }
    Ok(())
}

/// Puts the front of a name that has no quote behind a text, and gives what follows.
fn push_unquoted<'a>(text: &mut String, name: &'a str) -> Result<&'a str, AllocError>
    ensures whole { IfOk result (λ rest. string_bytes text.new ++ doubled rest.now ≡ string_bytes text.old ++ doubled name.now) }
    ensures quote { IfOk result (λ rest. begins_quote rest.now ≡ false → rest.now ≡ []) }
    ensures shorter { IfOk result (λ rest. length rest.now < length name.now + 1) }
{
    let (plain, rest) = run_of(Class::DoubleQuoted, name);
    text.push_str(plain)?;
    Ok(rest)
}

fn begins_quote(text: &str) -> bool
    ensures { result ≡ begins_quote text.now }
{
    matches!(text.as_bytes(), [b'"', ..])
}

/// Whether a name needs no quotes.
fn is_plain(name: &str) -> bool
    ensures { result ≡ is_plain name.now }
{
    let bytes = name.as_bytes();
    match bytes {
        [first, ..] => {
            begins_name(*first) && run_len(Class::Name, bytes) == bytes.len() && !is_keyword(name)
        }
        [] => false,
    }
}

/// Whether a plain name may begin with this byte.
fn begins_name(b: u8) -> bool
    ensures { result ≡ begins_name b }
{
    b.is_ascii_alphabetic() || b == b'_' || b >= 128
}

/// Whether a word is one of the grammar.
fn is_keyword(word: &str) -> bool
    ensures { result ≡ is_keyword word.now }
{
    matches!(
        word,
        "setup" | "teardown" | "session" | "step" | "permutation" | "notices"
    )
}
