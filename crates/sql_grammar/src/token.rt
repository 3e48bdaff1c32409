//! Tokens, which borrow the text.

ghost use Rattle.std.specs.Prelude.{◌≡◌};
ghost use Rattle.sql_grammar.specs.Tokens.{Sign, End, is};
ghost use Rattle.sql_grammar.specs.Lexing.{view_token, key_of, other_of};

/// A token as it is written.
#[derive(Clone, Copy)]
pub enum Token<'a> {
    /// A reserved word, in any case.
    Key(&'a str),
    /// Another word, in any case: it may be a name.
    Word(&'a str),
    /// A sign, by its characters.
    Sign(&'a str),
    /// Digits, by their value, or by 2^63 + 1 where the value is more.
    Number(u64),
    /// What follows the opening quote of a text.
    Text(&'a str),
    /// The end of the block.
    End,
    /// No token begins here.
    NoToken,
    /// A text without its closing quote.
    NotClosed,
}

impl Token<'_> {
    /// Whether this is the reserved word, which is given in lower case.
    pub fn is_key(&self, word: &str) -> bool
        ensures { result ≡ is (key_of word.now) (view_token self.now) }
    {
        match self {
            Token::Key(text) => word.eq_ignore_ascii_case(text),
            _ => false,
        }
    }

    /// Whether this is the word, which is given in lower case and is not reserved.
    pub fn is_word(&self, word: &str) -> bool
        ensures { result ≡ is (other_of word.now) (view_token self.now) }
    {
        match self {
            Token::Word(text) => word.eq_ignore_ascii_case(text),
            _ => false,
        }
    }

    pub fn is_sign(&self, sign: &str) -> bool
        ensures { result ≡ is (Sign sign.now) (view_token self.now) }
    {
        match self {
            Token::Sign(text) => sign == *text,
            _ => false,
        }
    }

    pub fn is_end(&self) -> bool
        ensures { result ≡ is End (view_token self.now) }
    {
        matches!(self, Token::End)
    }
}

/// A token and its offset.
pub type Placed<'a> = byte_runs::Placed<Token<'a>>;
