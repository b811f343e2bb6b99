//! The storage folder of a run, and its lock file.

use crate::file_name::LOCK;
use crate::shared::{Shared, fill_reserve};
use fwd_system::path_in;
use std::fs::{File, OpenOptions};
use std::io::{self, ErrorKind};
use std::os::unix::fs::OpenOptionsExt;

/// The permissions of files that the disk creates: for the owner alone.
pub const FILE_MODE: u32 = 0o600;

/// The permissions of folders that the disk creates: for the owner alone.
pub const FOLDER_MODE: u32 = 0o700;

/// How a run uses its storage folder.
#[derive(Clone, Copy, Debug, PartialEq, Eq)]
pub enum Access {
    /// It keeps chunks there: it creates the folder and locks it until it ends.
    Owner,
    /// It only looks: it creates nothing and takes no lock.
    Reader,
}

/// What the lock file can't be if the room for the reserve is missing.
const FILLED: &str = "filled with the 4194304 bytes of the reserve";

/// Opens a lock file, which it creates if it is missing, and locks it. Fails if another run has locked it.
fn lock_file(rt: &HostRuntime, path: &str) -> io::Result<File> {
    let mut how = OpenOptions::new();
    how.write(true).create(true).mode(FILE_MODE);
    let file = how.open(rt, path)?;
    file.try_lock()?;
    Ok(file)
}

/// Locks a folder until the end of the run, and fills its reserve. If only the room for it is missing, the
/// run begins with its inputs held back, so that it can deliver what is there.
pub fn own_folder(rt: &HostRuntime, shared: &Shared, folder: &str) -> io::Result<()> {
    let path = path_in(rt.alloc(), folder, LOCK)?;
    let file = lock_file(rt, path.as_str())?;
    if let Err(error) = fill_reserve(&file) {
        if !is_full(&error) {
            return Err(error);
        }
        shared.note_failure(FILLED, path.as_bytes(), &error);
    }
    shared.keep_lock(rt.alloc(), file)
}

/// Returns whether a write failed for want of room alone.
pub fn is_full(error: &io::Error) -> bool {
    let kind = error.kind();
    kind == ErrorKind::StorageFull || kind == ErrorKind::QuotaExceeded
}
