ghost use Rattle.std.specs.Prelude.{◌≡◌, ◌+◌, ◌<◌, ◌≤◌, length, take, vec_len, IfErr, IfOk, IfSome};
ghost use Rattle.std.specs.Io.{ReadsAtMost};
ghost use Rattle.std.specs.Io.KnownBytes.{Consumes, Keeps, ReadConsumes};
ghost use Rattle.transcripts.specs.Counted.{inner_of, failures_of, written, unread, faults_of, read_faults_of, IsShortOf, LosesFront, Prints, Takes};

use std::alloc::{AllocError, Global};
use std::io;

// How many bytes are asked of a reader at most.
const CHUNK_LEN: usize = 4096;

/// A writer did not take what it was given.
#[derive(Clone, Copy, PartialEq, Eq)]
pub struct WriteFault;

/// A reader failed.
#[derive(Clone, Copy, PartialEq, Eq)]
pub struct ReadFault;

/// Why an input was not read.
#[derive(Clone, Copy, PartialEq, Eq)]
pub enum ReadError {
    /// The reader failed.
    Fault,
    /// There was no memory for what was read.
    NoMemory,
}

impl From<ReadFault> for ReadError {
    ghost use Rattle.transcripts.specs.declared.counted.ReadError.TheVariants.{Fault};

    ghost from_gives = { λ _ e. e ≡ Fault };

    fn from(_fault: ReadFault) -> ReadError {
        ReadError::Fault
    }
}

impl From<AllocError> for ReadError {
    ghost use Rattle.transcripts.specs.declared.counted.ReadError.TheVariants.{NoMemory};

    ghost from_gives = { λ _ e. e ≡ NoMemory };

    fn from(_error: AllocError) -> ReadError {
        ReadError::NoMemory
    }
}

/// A reader or writer, with the number of its calls that failed. A write of one byte or more
/// that takes nothing is one of these.
///
/// Each fault is one more failed call, so a caller that finds the number unchanged knows that
/// there was none. The number has to be below `u64::MAX` before a call.
#[derive(Drop)]
pub struct Counted<T> {
    inner: T,
    failures: u64,
}

impl<T> Counted<T> {
    /// A reader or writer of which no call has failed yet.
    pub fn new(inner: T) -> Counted<T>
        ensures inner { inner_of result ≡ inner }
        ensures failures { failures_of result ≡ 0 }
    {
        Counted { inner, failures: 0 }
    }

    /// The reader or writer itself.
    pub fn into_inner(self) -> T
        ensures { result ≡ inner_of self }
    {
        self.inner
    }

    /// How many calls have failed so far.
    pub fn failures(&self) -> u64
        ensures { result ≡ failures_of self.now }
    {
        self.failures
    }
}

impl<W: io::Write> Counted<W> {
    /// Writes the whole text, in as many calls as the writer needs. It stops at the first one
    /// that fails, and the writer then has a front of the text.
    pub fn write_all(&mut self, text: &[u8]) -> Result<(), WriteFault>
        requires { failures_of self.old < u64.MAX }
        ensures { Prints W.contents self.old self.new result text.now }
    {
        let mut done = 0;
        while done < text.len() {
            done += self.write(&text[done..])?;
        }
        Ok(())
    }

    /// `write_all` of a text's bytes.
    pub fn write_str(&mut self, text: &str) -> Result<(), WriteFault>
        requires { failures_of self.old < u64.MAX }
        ensures { Prints W.contents self.old self.new result text.now }
    {
        self.write_all(text.as_bytes())
    }

    /// Has the writer pass on what it holds back.
    pub fn flush(&mut self) -> Result<(), WriteFault>
        requires { failures_of self.old < u64.MAX }
        ensures bytes { Keeps (written W.contents self.old) (written W.contents self.new) }
        ensures failures { failures_of self.new ≡ failures_of self.old + faults_of result }
    {
        match self.inner.flush() {
            Ok(()) => Ok(()),
            Err(_) => {
                self.failures += 1;
                Err(WriteFault)
            }
        }
    }

    // One call, which takes a byte at least or is counted.
    fn write(&mut self, bytes: &[u8]) -> Result<usize, WriteFault>
        requires some { 0 < length bytes.now }
        requires countable { failures_of self.old < u64.MAX }
        ensures { Takes W.contents self.old self.new result bytes.now }
    {
        match self.inner.write(bytes) {
            Ok(taken) if taken > 0 => Ok(taken),
            _ => {
                self.failures += 1;
                Err(WriteFault)
            }
        }
    }
}

impl<R: io::Read> Counted<R> {
    /// Reads once, and says how many bytes now stand at the front of the buffer. Without room
    /// in the buffer they are none, and else none are the end of the input.
    pub fn read(&mut self, buf: &mut [u8]) -> Result<usize, ReadFault>
        requires { failures_of self.old < u64.MAX }
        ensures bound { ReadsAtMost result buf.new }
        ensures bytes { ReadConsumes (unread R.remaining self.old) (unread R.remaining self.new) result buf.new }
        ensures failures { failures_of self.new ≡ failures_of self.old + faults_of result }
    {
        match self.inner.read(buf) {
            Ok(count) => Ok(count),
            Err(_) => {
                self.failures += 1;
                Err(ReadFault)
            }
        }
    }

    /// Reads to the end of the input, or to `limit` bytes, whichever comes first. Any error of a
    /// read is a fault at once. After an error what was read is lost.
    pub fn read_up_to(&mut self, alloc: Global, limit: usize) -> Result<Vec<u8>, ReadError>
        requires { failures_of self.old < u64.MAX }
        ensures first { IfOk result (λ bytes. IfSome (unread R.remaining self.old) (λ all. bytes.items ≡ take limit all)) }
        ensures rest { IfOk result (λ bytes. Consumes (unread R.remaining self.old) (unread R.remaining self.new) bytes.items) }
        ensures short { IfOk result (λ bytes. vec_len bytes ≤ limit) }
        ensures taken { IfErr result (λ e. LosesFront (unread R.remaining self.old) (unread R.remaining self.new) (IsShortOf e limit)) }
        ensures failures { failures_of self.new ≡ failures_of self.old + read_faults_of result }
    {
        let mut bytes = Vec::new(alloc);
        let mut chunk = [0; CHUNK_LEN];
        while bytes.len() < limit {
            let room = CHUNK_LEN.min(limit - bytes.len());
            let count = self.read(&mut chunk[..room])?;
            if count == 0 {
                break;
            }
            bytes.extend_from_slice(&chunk[..count])?;
        }
        Ok(bytes)
    }
}
