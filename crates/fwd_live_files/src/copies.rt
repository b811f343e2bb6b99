//! The copy of a file that was truncated, which has what stood unread in it.

use crate::identity::{ChangeTime, Identity, identity_of};
use crate::stream_file::StreamFile;
use fwd_system::folder_and_name;
use std::fs::{self, DirEntry, File};
use std::io;

/// Opens an entry of the folder, if it may be the copy: a file with more bytes than were read, that was not
/// changed before the last poll, and has the known bytes.
fn open_copy(
    rt: &HostRuntime,
    entry: &DirEntry,
    of: &StreamFile,
) -> io::Result<Option<(File, Identity)>> {
    let about = entry.metadata()?;
    let may_be = about.is_file() && of.offset() < about.len();
    if !may_be || ChangeTime::of(&about).is_before(of.change_time()) {
        return Ok(None);
    }
    let identity = identity_of(&about);
    if identity == of.identity() {
        return Ok(None);
    }
    let file = fs::open(rt, entry.path())?;
    if of.is_known_in(&file)? {
        Ok(Some((file, identity)))
    } else {
        Ok(None)
    }
}

/// Returns the copy of a file that was truncated: an entry of the same folder, whose name begins with the
/// file's.
pub fn find_copy(
    rt: &HostRuntime,
    path: &str,
    of: &StreamFile,
) -> io::Result<Option<(File, Identity)>> {
    let (folder, name) = folder_and_name(path);
    for entry in fs::read_dir(rt, folder)? {
        let Ok(entry) = entry else {
            continue;
        };
        if entry.file_name().starts_with(name)
            && let Ok(Some(found)) = open_copy(rt, &entry, of)
        {
            return Ok(Some(found));
        }
    }
    Ok(None)
}
