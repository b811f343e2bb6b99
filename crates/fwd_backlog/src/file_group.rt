//! Reading of files one after another, in groups.

ghost use Rattle.std.specs.Prelude.{◌≡◌, ◌+◌, ◌≤◌, [], ◌∷◌, ◌++◌, length, IsTrue, IfOk, OnOk, IsErrOf};
ghost use Rattle.fwd_outside.specs.Cause.{HasCause};
ghost use Rattle.fwd_backlog.specs.declared.error.LoadErr.TheVariants.{DiskFailed};
ghost use Rattle.fwd_backlog.specs.LoadResult.{LoadReturns};
ghost use Rattle.fwd_backlog.specs.Listing.{path_of};
ghost use Rattle.fwd_backlog.specs.LoadProgram.{file_read, read_synced_program};
ghost use Rattle.fwd_backlog.specs.Groups.{ReadsGroup};

use crate::LoadErr;
use crate::file_read::FileRead;
use crate::listed_file::Listed;
use crate::paths::path_of;
use fwd_base::limits::{GROUP_BYTES, GROUP_FILES, LONGEST_FILE};
use fwd_base::{Bytes, Items, Memory};
use fwd_outside::Disk;
use std::alloc::Global;

/// Enough bytes to check a file: the longest valid file has one byte less.
const ENOUGH: u64 = LONGEST_FILE as u64 + 1;

fn read_synced<D: Disk>(alloc: Global, disk: &mut D, path: &[u8]) -> Result<Bytes, LoadErr>
    ensures calls { LoadReturns (D.call_log disk.old) (D.call_log disk.new) (read_synced_program path.now) result }
    ensures cause { HasCause (D.faults disk.old) (D.faults disk.new) (IsErrOf result DiskFailed) }
{
    // What is read must be what a crash leaves from here on.
    disk.sync(path)?;
    Ok(disk.read(alloc, path, 0, ENOUGH)?)
}

fn read_bytes<D: Disk>(
    alloc: Global,
    disk: &mut D,
    root: &[u8],
    file: &Listed,
) -> Result<Bytes, LoadErr>
    ensures calls { LoadReturns (D.call_log disk.old) (D.call_log disk.new) (read_synced_program (path_of root.now file.now)) result }
    ensures cause { HasCause (D.faults disk.old) (D.faults disk.new) (IsErrOf result DiskFailed) }
{
    let path = path_of(alloc, root, file)?;
    read_synced(alloc, disk, path.as_slice())
}

/// Appends a file with its bytes to `group`.
fn add_file(
    alloc: Global,
    file: &Listed,
    bytes: Bytes,
    group: &mut Items<FileRead>,
) -> Result<(), Memory>
    ensures { OnOk result (group.new ≡ group.old ++ file_read file.now bytes ∷ []) }
{
    let file = file.try_clone(alloc)?;
    group.push(FileRead { file, bytes })
}

/// Returns whether a group of `files` files with `bytes` bytes is full.
fn is_full(files: usize, bytes: u64) -> bool
    ensures { IsTrue result → 1 ≤ files + bytes }
{
    GROUP_FILES <= files || GROUP_BYTES <= bytes
}

/// Syncs and reads the files one after another, until the group is full: it has 4,096 files, or 268,435,456
/// bytes.
pub fn read_group<D: Disk>(
    alloc: Global,
    disk: &mut D,
    root: &[u8],
    files: &[Listed],
) -> Result<Items<FileRead>, LoadErr>
    ensures calls { ReadsGroup (D.call_log disk.old) (D.call_log disk.new) root.now files.now result }
    ensures some { 1 ≤ length files.now → IfOk result (λ group. 1 ≤ length group) }
    ensures cause { HasCause (D.faults disk.old) (D.faults disk.new) (IsErrOf result DiskFailed) }
{
    let mut group = Items::new(alloc);
    let mut size = 0u64;
    for file in files {
        if is_full(group.len(), size) {
            return Ok(group);
        }
        let bytes = read_bytes(alloc, disk, root, file)?;
        size = size.saturating_add(bytes.len() as u64);
        add_file(alloc, file, bytes, &mut group)?;
    }
    Ok(group)
}
