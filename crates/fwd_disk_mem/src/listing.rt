//! The names in a folder.

ghost use Rattle.std.specs.Prelude.{◌≡◌, ℕ, List, map, IfOk, OnOk, MatchOption, Contains};
ghost use Rattle.fwd_outside.specs.Disk.{IsListing};
ghost use Rattle.fwd_outside.specs.DiskStates.{IsUnder};
ghost use Rattle.fwd_disk_mem.specs.FileTable.{file_of};
ghost use Rattle.fwd_disk_mem.specs.Listing.{IsUpToSlash, Adds, AreNames};

use crate::content::Content;
use crate::file_table::FileTable;
use fwd_outside::{Bytes, Memory, Names};
use std::alloc::Global;
use std::collections::HashMap;
use std::str;

// Returns the bytes before the first `/`, or all bytes.
fn up_to_slash(bytes: &[u8]) -> &[u8]
    ensures { IsUpToSlash bytes.now result.now }
{
    for i in 0..bytes.len() {
        if bytes[i] == b'/' {
            return &bytes[..i];
        }
    }
    bytes
}

// Returns the name by which a folder has the file, if it is under the folder.
fn name_under<'a>(folder: &[u8], file: &'a [u8]) -> Option<&'a [u8]>
    ensures { MatchOption result ((name : List ℕ) → IsUnder folder.now name file.now → ⊥) (λ name. IsUnder folder.now name.now file.now × (Contains name.now 47 → ⊥)) }
{
    let n = folder.len();
    if file.len() <= n {
        return None;
    }
    if file[n] != b'/' {
        return None;
    }
    if &file[..n] != folder {
        return None;
    }
    Some(up_to_slash(&file[n + 1..]))
}

fn add_name(alloc: Global, names: &mut Vec<Bytes>, folder: &[u8], file: &[u8]) -> Result<(), Memory>
    ensures { OnOk result (Adds folder.now file.now names.old.items names.new.items) }
{
    match name_under(folder, file) {
        Some(name) => {
            if str::from_utf8(name).is_ok() {
                let name = Bytes::from_slice(alloc, name)?;
                names.push(name)?;
            }
        }
        None => {}
    }
    Ok(())
}

fn all_names(
    alloc: Global,
    files: &HashMap<Vec<u8>, Content>,
    folder: &[u8],
) -> Result<Vec<Bytes>, Memory>
    ensures { IfOk result (λ names. AreNames folder.now (map file_of files.now.entries) names.items) }
{
    let mut names = Vec::new(alloc);
    for (name, _) in files.iter() {
        add_name(alloc, &mut names, folder, name.as_slice())?;
    }
    Ok(names)
}

fn names_of(alloc: Global, all: &[Bytes]) -> Result<Names, Memory>
    ensures { IfOk result (λ names. names ≡ all.now) }
{
    let mut names = Names::new(alloc);
    for name in all {
        names.push(name.try_clone(alloc)?)?;
    }
    Ok(names)
}

/// Returns the names in a folder that are UTF-8, sorted, each once.
pub fn names_in(alloc: Global, files: &FileTable, folder: &[u8]) -> Result<Names, Memory>
    ensures listing { IfOk result IsListing }
    ensures names { IfOk result (λ names. AreNames folder.now files.now names) }
{
    let mut names = all_names(alloc, files.files(), folder)?;
    names.sort()?;
    names.dedup();
    names_of(alloc, &names)
}
