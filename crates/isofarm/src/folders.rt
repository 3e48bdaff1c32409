//! Folders of the machine, and files that are written whole or not at all.

use program_commands::Entry;
use std::alloc::{AllocError, Global};
use std::fs::{self, DirEntry, File};
use std::io::{self, ErrorKind, Write};

/// What a file is called while it is written, behind its own name.
const PART: &str = ".part";

/// What lies in the folder at a path, but for links to folders, and names that are no UTF-8. `None` where it is no folder, or is not read to its
/// end.
pub(crate) fn entries_at(
    rt: &HostRuntime,
    alloc: Global,
    path: &str,
) -> Result<Option<Vec<Entry>>, AllocError> {
    let listing = match fs::read_dir(rt, path) {
        Ok(listing) => listing,
        Err(error) => return unread(&error),
    };
    let mut entries = Vec::new(alloc);
    for entry in listing {
        match entry {
            Ok(entry) => {
                if !is_link_to_folder(rt, &entry) {
                    entries.push(entry_of(alloc, &entry)?)?;
                }
            }
            Err(error) => {
                if error.kind() != ErrorKind::InvalidFilename {
                    return unread(&error);
                }
            }
        }
    }
    Ok(Some(entries))
}

/// What is told of a folder that is not read. That there was no memory for a name is no reason to pass over it.
fn unread(error: &io::Error) -> Result<Option<Vec<Entry>>, AllocError> {
    if error.kind() == ErrorKind::OutOfMemory {
        return Err(AllocError);
    }
    Ok(None)
}

fn is_link_to_folder(rt: &HostRuntime, entry: &DirEntry) -> bool {
    let is_link = match entry.file_type() {
        Ok(kind) => kind.is_symlink(),
        Err(_) => false,
    };
    if !is_link {
        return false;
    }
    match fs::metadata(rt, entry.path()) {
        Ok(found) => found.is_dir(),
        Err(_) => false,
    }
}

fn entry_of(alloc: Global, entry: &DirEntry) -> Result<Entry, AllocError> {
    let mut name = String::new(alloc);
    name.push_str(entry.file_name())?;
    let is_folder = match entry.file_type() {
        Ok(kind) => kind.is_dir(),
        Err(_) => false,
    };
    Ok(Entry { name, is_folder })
}

/// Has the file at a path hold these bytes: a file beside it gets them, and then takes its name. Where that fails, what is there stays.
pub(crate) fn put_at(
    rt: &HostRuntime,
    alloc: Global,
    path: &str,
    bytes: &[u8],
) -> Result<bool, AllocError> {
    let mut part = String::new(alloc);
    part.push_str(path)?;
    part.push_str(PART)?;
    match replace(rt, part.as_str(), path, bytes) {
        Ok(()) => Ok(true),
        Err(_) => {
            let _removed = fs::remove_file(rt, part.as_str());
            Ok(false)
        }
    }
}

fn replace(rt: &HostRuntime, part: &str, path: &str, bytes: &[u8]) -> io::Result<()> {
    // What a run that was killed has left goes first. A link would have the bytes written to where it leads.
    let _removed = fs::remove_file(rt, part);
    let mut file = File::create_new(rt, part)?;
    file.write_all(bytes)?;
    fs::rename(rt, part, path)
}
