//! Blanks, and texts without those at their ends.

ghost use Rattle.std.specs.Prelude.{◌≡◌};
ghost use Rattle.std.specs.List.{prefix_len, suffix_len};
ghost use Rattle.comment_lines.specs.Blanks.{is_blank, after_blanks, before_blanks, trimmed};

/// Whether a byte is a space, a tab, a carriage return or a line feed.
fn is_blank(byte: u8) -> bool
    ensures { result ≡ is_blank byte }
{
    byte == b' ' || byte == b'\t' || byte == b'\r' || byte == b'\n'
}

/// How many blanks stand in front.
fn blanks_in_front(bytes: &[u8]) -> usize
    ensures { result ≡ prefix_len is_blank bytes.now }
{
    let mut count = 0;
    while count < bytes.len() && is_blank(bytes[count]) {
        count += 1;
    }
    count
}

/// How many blanks stand at the end.
fn blanks_at_end(bytes: &[u8]) -> usize
    ensures { result ≡ suffix_len is_blank bytes.now }
{
    let mut end = bytes.len();
    while end > 0 && is_blank(bytes[end - 1]) {
        end -= 1;
    }
    bytes.len() - end
}

/// The text without the blanks in front.
pub fn after_blanks(text: &str) -> &str
    ensures { result.now ≡ after_blanks text.now }
{
    let (_, rest) = text.split_at(blanks_in_front(text.as_bytes()));
    rest
}

/// The text without the blanks at its end.
fn before_blanks(text: &str) -> &str
    ensures { result.now ≡ before_blanks text.now }
{
    let count = blanks_at_end(text.as_bytes());
    let (rest, _) = text.split_at(text.len() - count);
    rest
}

/// The text without the blanks at both its ends.
pub fn trimmed(text: &str) -> &str
    ensures { result.now ≡ trimmed text.now }
{
    before_blanks(after_blanks(text))
}
