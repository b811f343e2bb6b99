//! Names of files in a folder.

ghost use Rattle.std.specs.Prelude.{◌≡◌, ◌↔◌, List, ℕ, All, IfOk, IfSome};
ghost use Rattle.std.specs.List.{Contains};
ghost use Rattle.fwd_live.specs.FileNames.{complete_file_name};
ghost use Rattle.fwd_outside.specs.Disk.{IsFileName, IsListing};

use fwd_outside::{Bytes, Memory, Names};
use std::alloc::Global;

/// The suffix of a file that is being written before its rename. It doesn't count as a file yet.
pub const TEMPORARY: &str = ".tmp";

/// The name of the lock file of a storage folder, which doesn't count as a file.
pub const LOCK: &str = ".lock";

/// Returns the name of a complete file; `None` if it has a `/` or the suffix of an incomplete one, or is that
/// of a lock file.
pub fn complete_name(alloc: Global, name: &str) -> Result<Option<Bytes>, Memory>
    ensures name { IfOk result (λ found. IfSome found IsFileName) }
    ensures placed { IfOk result (λ found. found ≡ complete_file_name name.now) }
{
    let bytes = name.as_bytes();
    if bytes == LOCK.as_bytes() || bytes.ends_with(TEMPORARY.as_bytes()) || bytes.contains(&b'/') {
        return Ok(None);
    }
    Ok(Some(Bytes::from_slice(alloc, bytes)?))
}

/// Returns the names sorted, each once: these and no others.
pub fn listing(names: Vec<Bytes>) -> Result<Names, Memory>
    requires { All IsFileName names.items }
    ensures sorted { IfOk result IsListing }
    ensures same { IfOk result (λ listed. (name : List ℕ)
        → Contains listed name ↔ Contains names.items name) }
{
    let mut names = names;
    names.sort()?;
    names.dedup();
    Ok(Names::from_vec(names))
}
