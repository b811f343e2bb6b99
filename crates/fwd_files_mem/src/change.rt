//! Changes of files in memory.

ghost use Rattle.std.specs.Prelude.{◌≡◌, IfOk};

use fwd_base::{Bytes, Items, Memory};
use std::alloc::Global;

/// A change of a file in memory.
#[derive(Debug, Drop, PartialEq, Eq)]
pub enum FileChange {
    /// Appends the bytes to the file. It creates a missing file.
    Append { path: Bytes, bytes: Bytes },
    /// Truncates the file to `length` bytes. It doesn't create a missing file.
    Cut { path: Bytes, length: u64 },
}

/// Changes of files, in order.
pub type FileChanges = Items<FileChange>;

impl FileChange {
    /// Returns a copy of the change.
    pub fn try_clone(&self, alloc: Global) -> Result<FileChange, Memory>
        ensures { IfOk result (λ copy. copy ≡ self.now) }
    {
        Ok(match self {
            FileChange::Append { path, bytes } => FileChange::Append {
                path: path.try_clone(alloc)?,
                bytes: bytes.try_clone(alloc)?,
            },
            FileChange::Cut { path, length } => FileChange::Cut {
                path: path.try_clone(alloc)?,
                length: *length,
            },
        })
    }
}
