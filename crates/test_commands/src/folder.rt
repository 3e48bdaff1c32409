//! Folders, and files that are written.

ghost use Rattle.std.specs.Prelude.{◌≡◌, ◌⊎◌, IfOk, None};

use book_commands::Opener;
use std::alloc::{AllocError, Global};

/// What lies in a folder.
#[derive(Drop)]
pub struct Entry {
    /// Its name, without the path of the folder.
    pub name: String,
    /// Whether it is a folder itself, and no link to one.
    pub is_folder: bool,
}

/// Files and folders from which specs and accepted records are read, and to which accepted records are written.
pub trait Folder: Opener {
    /// What lies in the folder at a path, in any order; names that are no UTF-8 and links to folders are left out. `None` where it is no folder, or is
    /// not read to its end. A file whose bytes are known is no folder.
    fn entries(&self, alloc: Global, path: &str) -> Result<Option<Vec<Entry>>, AllocError>
        ensures { IfOk result (λ found. (found ≡ None) ⊎ (Self.bytes self.now path.now ≡ None)) };

    /// Has the file at a path hold these bytes and no others, or leaves what is there as it was. Whether it holds them.
    fn put(&self, alloc: Global, path: &str, bytes: &[u8]) -> Result<bool, AllocError>;
}
