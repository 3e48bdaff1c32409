//! A text without what stands between its tokens, as the writer lays one out.

ghost use Rattle.std.specs.Prelude.{◌≡◌, ◌≢◌, [], IfSome};
ghost use Rattle.json.specs.Lex.{tokens};
ghost use Rattle.json.specs.Reads.{token_of};
ghost use Rattle.json.specs.Print.{IsPrintable};
ghost use Rattle.json.specs.declared.token.Token.TheVariants.{Bad};
ghost use Rattle.book_format.specs.Compacting.{AreAlike, IsCopied, TakesToken};

use json::{Reader, Scratch, Token, Writer};
use std::alloc::Global;

/// The same JSON text with nothing between its tokens, the shortest escapes, and a line feed behind it. None where memory is wanted, or
/// where something in the text is no token.
pub fn compacted(alloc: Global, text: &str) -> Option<Vec<u8>>
    ensures { IfSome result (λ compact. AreAlike text.now compact.items) }
{
    let mut scratch = Scratch::new(alloc);
    let out = Vec::with_capacity(alloc, text.len().checked_add(1)?).ok()?;
    finished(copied(text, &mut scratch, out)?, text)
}

/// All tokens of a text, written.
fn copied(text: &str, scratch: &mut Scratch, out: Vec<u8>) -> Option<Writer>
    requires { out.items ≡ [] }
    ensures { IfSome result (IsCopied (tokens text.now) []) }
{
    match Reader::new(text, scratch) {
        Ok(tokens) => copied_from(tokens, Writer::new(out)),
        Err(_) => None,
    }
}

/// All tokens that a reader gives, written by a writer that has none yet.
fn copied_from(mut tokens: Reader<'_>, mut writer: Writer) -> Option<Writer>
    requires before { writer.before ≡ [] }
    requires none { writer.tokens ≡ [] }
    ensures { IfSome result (IsCopied tokens.entry []) }
{
    while let Some(token) = tokens.next() {
        if !takes(&mut writer, token) {
            return None;
        }
    }
    Some(writer)
}

/// Writes a token, if it is one and there is memory.
fn takes(writer: &mut Writer, token: Token<'_>) -> bool
    requires { token ≢ Bad → IsPrintable (token_of token) }
    ensures { TakesToken writer.old writer.new (token_of token.entry) result }
{
    match token {
        Token::Bad => false,
        _ => writer.token(token).is_ok(),
    }
}

/// The bytes of a text whose tokens are all written, with a line feed.
fn finished(writer: Writer, text: &str) -> Option<Vec<u8>>
    requires { IsCopied (tokens text.now) [] writer }
    ensures { IfSome result (λ compact. AreAlike text.now compact.items) }
{
    let mut bytes = writer.into_inner();
    match bytes.push(b'\n') {
        Ok(()) => Some(bytes),
        Err(_) => None,
    }
}
