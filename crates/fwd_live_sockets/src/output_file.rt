//! Files of outputs, which take what is appended to them.

use fwd_system::{path_in, text};
use std::alloc::Global;
use std::fs::{File, OpenOptions};
use std::io;

/// Returns the file name for a tag: each byte other than an ASCII letter, digit, `.`, `-` or `_` becomes
/// `_`.
fn file_of_tag(alloc: Global, tag: &[u8]) -> io::Result<String> {
    let mut name = String::new(alloc);
    for byte in tag {
        let is_kept = byte.is_ascii_alphanumeric() || *byte == b'.' || *byte == b'-';
        name.push(if is_kept { char::from(*byte) } else { '_' })?;
    }
    Ok(name)
}

/// Opens a file of a folder for appending; without a name, the tag gives the name. The folder isn't created.
pub fn open_to_append(
    rt: &HostRuntime,
    folder: &[u8],
    name: Option<&[u8]>,
    tag: &[u8],
) -> io::Result<File> {
    let path = match name {
        Some(name) => path_in(rt.alloc(), text(folder)?, text(name)?)?,
        None => {
            let name = file_of_tag(rt.alloc(), tag)?;
            path_in(rt.alloc(), text(folder)?, name.as_str())?
        }
    };
    let mut how = OpenOptions::new();
    how.append(true).create(true);
    how.open(rt, path.as_str())
}
