//! The audit of the book in a file.

ghost use Rattle.std.specs.Prelude.{◌≡◌, ◌<◌, IfOk};
ghost use Rattle.book_audit.specs.Audit.{IsAudit};
ghost use Rattle.transcripts.specs.Counted.{Prints, failures_of};
ghost use Rattle.book_commands.specs.Auditing.{IsAuditRun, answer_of, audit_text, finding_of};

use crate::finding::Finding;
use crate::joining::{FileFault, book_of_file};
use crate::opener::Opener;
use book_audit::{AuditError, audit};
use fact_books::Book;
use std::alloc::{AllocError, Global};
use std::io::Write;
use std::thread::Threads;
use transcripts::{Counted, WriteFault, write_count};

/// Why what an audit tells was not written. Each is tried before those below it, but for want of memory.
#[derive(Clone, Copy, PartialEq, Eq)]
pub enum AuditFault {
    /// The file gives no book.
    File(FileFault),
    /// Memory ran out.
    NoMemory,
    /// What the audit tells was not written; a front of it may be.
    Write(WriteFault),
}

/// Reads the book at a path, tests each of its facts again, and writes `true`, or the least rank with a false fact.
pub fn audit_file<R: Threads + Sync, O: Opener, W: Write>(
    threads: &R,
    alloc: Global,
    opener: &O,
    path: &str,
    out: &mut Counted<W>,
) -> Result<Finding, AuditFault>
    requires { failures_of out.old < u64.MAX }
    ensures { IsAuditRun (O.bytes opener.now path.now) W.contents out.old out.new result }
{
    let book = match book_of_file(alloc, opener, path) {
        Ok(book) => book,
        Err(fault) => return Err(AuditFault::File(fault)),
    };
    let Ok(least) = least_false(threads, alloc, &book) else {
        return Err(AuditFault::NoMemory);
    };
    match write_audit(least, out) {
        Ok(()) => Ok(finding_of(least)),
        Err(fault) => Err(AuditFault::Write(fault)),
    }
}

/// The least rank with a false fact, if there is one.
fn least_false<R: Threads + Sync>(
    threads: &R,
    alloc: Global,
    book: &Book,
) -> Result<Option<u64>, AllocError>
    ensures { IfOk result (λ least. IsAudit book.now (answer_of least)) }
{
    match audit(threads, alloc, book) {
        Ok(()) => Ok(None),
        Err(AuditError::False(rank)) => Ok(Some(rank)),
        Err(AuditError::NoMemory) => Err(AllocError),
    }
}

fn finding_of(least: Option<u64>) -> Finding
    ensures { result ≡ finding_of least }
{
    match least {
        None => Finding::Good,
        Some(_) => Finding::Bad,
    }
}

fn write_audit<W: Write>(least: Option<u64>, out: &mut Counted<W>) -> Result<(), WriteFault>
    requires { failures_of out.old < u64.MAX }
    ensures { Prints W.contents out.old out.new result (audit_text least) }
{
    match least {
        None => out.write_str("true\n"),
        Some(rank) => write_count("false at rank ", rank, out),
    }
}
