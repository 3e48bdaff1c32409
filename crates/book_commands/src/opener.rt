//! Files by their paths.

ghost use Rattle.std.specs.Prelude.{◌≡◌, ℕ, Bool, true, List, Option, Some, None, IfSome};

use std::io::{self, Read};

/// A reader of a file, which knows whether a read of it has failed.
pub trait FileReader: Read + Drop {
    // Whether a read of such a reader may fail.
    ghost may_fail: { Bool } = { true };

    /// Whether a read of it has failed.
    fn has_failed(&self) -> bool
        ensures { result ≡ true → may_fail ≡ true };
}

/// Opens files for reading.
pub trait Opener {
    type Reader: FileReader;

    // The bytes of the file at each path, where they are known.
    ghost bytes: { Self → List ℕ → Option (List ℕ) } = { λ _ _. None };

    /// A reader of the file at this path, none where it can't be opened. A file whose bytes are known is opened, and no read of it fails.
    fn open(&self, path: &str) -> Option<Self::Reader>
        ensures bytes { IfSome result (λ reader. IfSome (bytes self.now path.now) (λ known. Self.Reader.remaining reader ≡ Some known)) }
        ensures opened { result ≡ None → bytes self.now path.now ≡ None }
        ensures read { Self.Reader.may_fail ≡ true → bytes self.now path.now ≡ None };
}

/// A reader, and whether a read of it has failed.
#[derive(Drop)]
pub struct Watched<R> {
    reader: R,
    has_failed: bool,
}

impl<R: Read> Watched<R> {
    /// A reader of which no read has failed yet.
    pub fn new(reader: R) -> Watched<R> {
        Watched {
            reader,
            has_failed: false,
        }
    }
}

impl<R: Read> Read for Watched<R> {
    ghost remaining = { λ w. R.remaining w.reader };

    fn read(&mut self, buf: &mut [u8]) -> io::Result<usize> {
        match self.reader.read(buf) {
            Ok(count) => Ok(count),
            Err(error) => {
                self.has_failed = true;
                Err(error)
            }
        }
    }
}

impl<R: Read + Drop> FileReader for Watched<R> {
    fn has_failed(&self) -> bool {
        self.has_failed
    }
}
