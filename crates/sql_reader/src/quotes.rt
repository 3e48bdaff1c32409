//! What a text in quotes stands for.

ghost use Rattle.std.specs.Prelude.{◌≡◌, ◌≤◌, ◌<◌, ◌++◌, ◌∷◌, [], length, IfOk, MatchOption, string_bytes, true, false, Some};
ghost use Rattle.sql_grammar.specs.Lexing.{content, with_front, begins_quote, Pair};

use byte_runs::{Class, after_first, run_len};
use lock_modes::Text;
use std::alloc::{AllocError, Global};

fn begins_quote(bytes: &[u8]) -> bool
    ensures { result ≡ begins_quote bytes.now }
{
    matches!(bytes, [b'\'', ..])
}

/// Adds the front that has no quote, and gives what follows.
fn push_unquoted<'a>(to: &mut String, text: &'a str) -> Result<&'a str, AllocError>
    ensures whole { IfOk result (λ rest. with_front (string_bytes to.new) (content rest.now) ≡ with_front (string_bytes to.old) (content text.now)) }
    ensures quote { IfOk result (λ rest. begins_quote rest.now ≡ false → rest.now ≡ []) }
    ensures shorter { IfOk result (λ rest. length rest.now ≤ length text.now) }
{
    let (plain, rest) = text.split_at(run_len(Class::SingleQuoted, text.as_bytes()));
    to.push_str(plain)?;
    Ok(rest)
}

/// Adds a quote, and the front that has none. It gives what follows.
fn push_quote<'a>(to: &mut String, text: &'a str) -> Result<&'a str, AllocError>
    ensures whole { IfOk result (λ rest. with_front (string_bytes to.new) (content rest.now) ≡ with_front (string_bytes to.old) (with_front (39 ∷ []) (content text.now))) }
    ensures quote { IfOk result (λ rest. begins_quote rest.now ≡ false → rest.now ≡ []) }
    ensures shorter { IfOk result (λ rest. length rest.now ≤ length text.now) }
{
    to.push('\'')?;
    let rest = push_unquoted(to, text)?;
    Ok(rest)
}

/// What follows two quotes, if they stand first.
fn past_pair(text: &str) -> Option<&str>
    ensures { MatchOption result (begins_quote text.now ≡ true → content text.now ≡ Some []) (λ rest. Pair text.now rest.now) }
{
    if let [b'\'', b'\'', ..] = text.as_bytes() {
        Some(after_first(after_first(text)))
    } else {
        None
    }
}

/// What stands behind an opening quote up to the closing one, each doubled quote once, or `None` where no quote closes it.
pub(crate) fn unquoted(alloc: Global, text: &str) -> Result<Option<Text>, AllocError>
    ensures { IfOk result (λ inner. inner ≡ content text.now) }
{
    let mut inner = String::new(alloc);
    let mut rest = push_unquoted(&mut inner, text)?;
    'pairs: while let Some(after) = past_pair(rest) {
        rest = push_quote(&mut inner, after)?;
    }
    if begins_quote(rest.as_bytes()) {
        Ok(Some(Text::from_string(inner)))
    } else {
        Ok(None)
    }
}
