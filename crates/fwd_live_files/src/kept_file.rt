//! The search for a file in which an offset was kept, by its identity.

use crate::identities::KeptFile;
use crate::identity::identity_of;
use crate::stream_file::{Progress, StreamFile};
use fwd_system::folder_and_name;
use std::fs::{self, DirEntry};
use std::io;

/// Opens an entry of the folder, if it is the file. One that is shorter than the offset is another file,
/// which got the inode of one that was removed.
fn open_kept(rt: &HostRuntime, entry: &DirEntry, kept: KeptFile) -> io::Result<Option<StreamFile>> {
    let about = entry.metadata()?;
    if identity_of(&about) != kept.identity || !about.is_file() {
        return Ok(None);
    }
    let mut file = StreamFile::open(rt, entry.path().as_str(), Progress::Unread)?;
    if file.identity() == kept.identity && file.resume_at(kept.offset, about.len()) {
        Ok(Some(file))
    } else {
        Ok(None)
    }
}

/// Returns the file, if it is in the folder of a path.
pub fn find_kept(rt: &HostRuntime, path: &str, kept: KeptFile) -> io::Result<Option<StreamFile>> {
    let (folder, _) = folder_and_name(path);
    for entry in fs::read_dir(rt, folder)? {
        let Ok(entry) = entry else {
            continue;
        };
        if let Ok(Some(found)) = open_kept(rt, &entry, kept) {
            return Ok(Some(found));
        }
    }
    Ok(None)
}
