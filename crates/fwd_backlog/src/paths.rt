//! The paths of streams and files.

ghost use Rattle.std.specs.Prelude.{◌≡◌, IfOk};
ghost use Rattle.fwd_backlog.specs.Listing.{folder_of, path_of};

use crate::listed_file::Listed;
use fwd_base::{Bytes, Memory};
use std::alloc::Global;

/// Returns the path of a stream's folder.
pub fn folder_of(alloc: Global, root: &[u8], stream: &[u8]) -> Result<Bytes, Memory>
    ensures { IfOk result (λ folder. folder ≡ folder_of root.now stream.now) }
{
    let mut folder = Bytes::from_slice(alloc, root)?;
    folder.push(b'/')?;
    folder.extend_from_slice(stream)?;
    Ok(folder)
}

/// Returns the path of a file.
pub fn path_of(alloc: Global, root: &[u8], file: &Listed) -> Result<Bytes, Memory>
    ensures { IfOk result (λ path. path ≡ path_of root.now file.now) }
{
    let mut path = folder_of(alloc, root, file.stream.as_slice())?;
    path.push(b'/')?;
    path.extend_from_slice(file.name.as_slice())?;
    Ok(path)
}
