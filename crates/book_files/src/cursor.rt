//! A place in the bytes of a file, for a reader whose answer is looked over afterwards: nothing is promised of what is read here.

/// What is left of the bytes.
#[derive(Drop)]
pub(crate) struct Cursor<'a> {
    rest: &'a [u8],
}

impl<'a> Cursor<'a> {
    /// All bytes are left.
    pub(crate) fn new(bytes: &'a [u8]) -> Cursor<'a> {
        Cursor { rest: bytes }
    }

    /// How many bytes are left.
    pub(crate) fn len(&self) -> usize {
        self.rest.len()
    }

    /// How often one byte comes before another one.
    pub(crate) fn count(&self, byte: u8, end: u8) -> usize {
        self.rest
            .iter()
            .take_while(|other| **other != end)
            .filter(|other| **other == byte)
            .count()
    }

    /// Goes past a word, if it is next.
    pub(crate) fn passes(&mut self, word: &[u8]) -> bool {
        match self.rest.strip_prefix(word) {
            Some(rest) => {
                self.rest = rest;
                true
            }
            None => false,
        }
    }

    /// The next digits as a number.
    pub(crate) fn number(&mut self) -> Option<u64> {
        let len = self.rest.iter().position(|byte| !byte.is_ascii_digit())?;
        let mut number: u64 = 0;
        for digit in self.cut(len) {
            number = number
                .checked_mul(10)?
                .checked_add(u64::from(digit.saturating_sub(b'0')))?;
        }
        Some(number)
    }

    /// The next bytes up to one that stands in no number.
    pub(crate) fn signed(&mut self) -> Option<&'a [u8]> {
        let len = self
            .rest
            .iter()
            .position(|byte| *byte != b'-' && !byte.is_ascii_digit())?;
        Some(self.cut(len))
    }

    /// The next bytes up to the quote that ends a text, and whether they stand for themselves. The quote that it begins with is passed.
    pub(crate) fn quoted(&mut self) -> Option<(&'a [u8], bool)> {
        let mut is_escaped = false;
        let mut is_plain = true;
        for (n, byte) in self.rest.iter().enumerate() {
            if is_escaped {
                is_escaped = false;
            } else if *byte == b'\\' {
                is_escaped = true;
                is_plain = false;
            } else if *byte == b'"' {
                return Some((self.cut(n), is_plain));
            }
        }
        None
    }

    /// The bytes up to where a word stands last.
    pub(crate) fn up_to_last(&mut self, word: &[u8]) -> Option<&'a [u8]> {
        let len = self.rest.len();
        for passed in 0..len {
            let place = len - 1 - passed;
            let (_, behind) = self.rest.split_at(place.min(self.rest.len()));
            if behind.starts_with(word) {
                return Some(self.cut(place));
            }
        }
        None
    }

    /// So many bytes, or those that are left.
    fn cut(&mut self, len: usize) -> &'a [u8] {
        let (front, rest) = self.rest.split_at(len.min(self.rest.len()));
        self.rest = rest;
        front
    }
}
