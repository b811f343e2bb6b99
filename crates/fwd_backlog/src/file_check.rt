//! Checking of files, in as many threads as there are processors.

ghost use Rattle.std.specs.Prelude.{◌≡◌, List, [], ◌++◌, IfOk, OnOk, IsErrOf};
ghost use Rattle.fwd_chunk.specs.declared.chunk.Found.{Found};
ghost use Rattle.std.specs.List.{AllZip};
ghost use Rattle.fwd_outside.specs.Cause.{HasCause};
ghost use Rattle.fwd_backlog.specs.declared.error.LoadErr.TheVariants.{DiskFailed};
ghost use Rattle.fwd_backlog.specs.LoadResult.{Loads};
ghost use Rattle.fwd_backlog.specs.LoadProgram.{read_files_program};
ghost use Rattle.fwd_backlog.specs.Groups.{IsChecked};

use crate::LoadErr;
use crate::file_group::read_group;
use crate::file_read::FileRead;
use crate::listed_file::Listed;
use fwd_base::{Bytes, Items, Memory};
use fwd_chunk::{Found, check_file};
use fwd_outside::{Disk, Gate};
use rayon::prelude::*;
use std::alloc::Global;
use std::thread::Threads;

/// Returns the description of a file that was read.
fn check(alloc: Global, read: &FileRead) -> Result<Found, Memory>
    ensures { IfOk result (IsChecked read.now) }
{
    Ok(Found {
        stream: Bytes::from_slice(alloc, read.file.stream.as_slice())?,
        name: Bytes::from_slice(alloc, read.file.name.as_slice())?,
        seen: check_file(alloc, read.bytes.as_slice())?,
    })
}

/// Returns the description of each file, in their order. It passes the gate directly before each check.
fn check_group<G: Gate>(
    rt: &(impl Threads + Sync),
    alloc: Global,
    group: &[FileRead],
    gate: &G,
) -> Result<Vec<Found>, Memory>
    ensures { IfOk result (λ found. AllZip IsChecked group.now found.items) }
{
    let found = group
        .par_iter()
        .enumerate()
        .with_min_len(1)
        .map(
            |file: (usize, &FileRead)| -> Result<Found, Memory>
                ensures { IfOk result (IsChecked file.entry.1.now) }
            {
                gate.pass(file.0 as u64);
                check(alloc, file.1)
            },
        )
        .collect::<Result<Vec<Found>, Memory>>(rt, alloc)??;
    Ok(found)
}

fn add_all(more: Vec<Found>, found: &mut Items<Found>) -> Result<(), Memory>
    ensures { OnOk result (found.new ≡ found.old ++ more.items) }
{
    for file in more {
        found.push(file)?;
    }
    Ok(())
}

/// Checks a group, and appends the descriptions of its files to `found`.
fn add_group<G: Gate>(
    rt: &(impl Threads + Sync),
    alloc: Global,
    group: &[FileRead],
    gate: &G,
    found: &mut Items<Found>,
) -> Result<(), Memory>
    ensures { OnOk result ((more : List Found) × AllZip IsChecked group.now more × (found.new ≡ found.old ++ more)) }
{
    let more = check_group(rt, alloc, group, gate)?;
    add_all(more, found)
}

/// Syncs and reads the files in order, in groups, and checks each group.
pub fn check_files<D: Disk, G: Gate>(
    rt: &(impl Threads + Sync),
    alloc: Global,
    disk: &mut D,
    root: &[u8],
    files: &[Listed],
    gate: &G,
) -> Result<Items<Found>, LoadErr>
    ensures calls { Loads (D.call_log disk.old) (D.call_log disk.new) (read_files_program root.now files.now []) (AllZip IsChecked) result }
    ensures cause { HasCause (D.faults disk.old) (D.faults disk.new) (IsErrOf result DiskFailed) }
{
    let mut found = Items::new(alloc);
    let mut at = 0;
    while at < files.len() {
        let group = read_group(alloc, disk, root, &files[at..])?;
        add_group(rt, alloc, group.as_slice(), gate, &mut found)?;
        at += group.len();
    }
    Ok(found)
}
