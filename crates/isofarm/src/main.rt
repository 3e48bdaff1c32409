//! The program `isofarm`: hands the real world to the farm's library.
#![tactic(auto)]

mod folders;

use folders::{entries_at, put_at};
use program_commands::{Entry, FileReader, Folder, Opener, run, tell_words_fault};
use std::alloc::{AllocError, Global};
use std::env;
use std::fs::File;
use std::io::{self, BufWriter, IsTerminal, Read, Stdin, Write};
use std::process::ExitCode;
use std::sync::Wait;
use std::thread::Threads;
use std::time::Clock;
use transcripts::Counted;

/// The path of standard input.
const INPUT: &str = "-";

/// The files of the machine, and standard input.
#[derive(Drop)]
struct Disk<'a> {
    rt: &'a HostRuntime,
}

impl Opener for Disk<'_> {
    type Reader = OpenFile;

    fn open(&self, path: &str) -> Option<OpenFile> {
        let source = source_at(self.rt, path)?;
        Some(OpenFile {
            source,
            has_failed: false,
        })
    }
}

impl Folder for Disk<'_> {
    fn entries(&self, alloc: Global, path: &str) -> Result<Option<Vec<Entry>>, AllocError> {
        if path == INPUT {
            return Ok(None);
        }
        entries_at(self.rt, alloc, path)
    }

    fn put(&self, alloc: Global, path: &str, bytes: &[u8]) -> Result<bool, AllocError> {
        put_at(self.rt, alloc, path, bytes)
    }
}

fn source_at(rt: &HostRuntime, path: &str) -> Option<Source> {
    if path == INPUT {
        return Some(Source::Input(rt.stdin()));
    }
    match File::open(rt, path) {
        Ok(file) => Some(Source::File(file)),
        Err(_) => None,
    }
}

/// What is read: a file, or standard input.
#[derive(Drop)]
enum Source {
    File(File),
    Input(Stdin),
}

impl Read for Source {
    fn read(&mut self, buf: &mut [u8]) -> io::Result<usize> {
        match self {
            Source::File(file) => file.read(buf),
            Source::Input(input) => input.read(buf),
        }
    }
}

/// A source that is read, and whether a read of it has failed.
#[derive(Drop)]
struct OpenFile {
    source: Source,
    has_failed: bool,
}

impl Read for OpenFile {
    fn read(&mut self, buf: &mut [u8]) -> io::Result<usize> {
        match self.source.read(buf) {
            Ok(count) => Ok(count),
            Err(error) => {
                self.has_failed = true;
                Err(error)
            }
        }
    }
}

impl FileReader for OpenFile {
    fn has_failed(&self) -> bool {
        self.has_failed
    }
}

fn main(rt: HostRuntime) -> ExitCode {
    let err = rt.stderr();
    let is_terminal = err.is_terminal();
    let mut err = Counted::new(err);
    let out = BufWriter::new(rt.alloc(), rt.stdout());
    let disk = Disk { rt: &rt };
    let status = match words_of(&rt) {
        Ok(words) => status_of(&rt, rt.alloc(), &words, &disk, is_terminal, out, &mut err),
        Err(error) => tell_words_fault(&error, &mut err),
    };
    ExitCode::from(status)
}

fn words_of(rt: &HostRuntime) -> io::Result<Vec<String>> {
    Ok(env::args(rt)?.collect(rt.alloc())?)
}

fn status_of<R: Threads + Wait + Clock + Sync, W: Write + Drop, E: Write + Send>(
    rt: &R,
    alloc: Global,
    words: &[String],
    disk: &Disk<'_>,
    is_terminal: bool,
    out: io::Result<BufWriter<W>>,
    err: &mut Counted<E>,
) -> u8 {
    match out {
        Ok(out) => done(rt, alloc, words, disk, is_terminal, out, err),
        Err(error) => tell_words_fault(&error, err),
    }
}

fn done<R: Threads + Wait + Clock + Sync, W: Write + Drop, E: Write + Send>(
    rt: &R,
    alloc: Global,
    words: &[String],
    disk: &Disk<'_>,
    is_terminal: bool,
    out: BufWriter<W>,
    err: &mut Counted<E>,
) -> u8 {
    run(
        rt,
        alloc,
        words,
        disk,
        is_terminal,
        &mut Counted::new(out),
        err,
    )
}
