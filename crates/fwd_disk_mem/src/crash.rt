//! The disk after a crash, chosen by a pick.

ghost use Rattle.std.specs.Prelude.{◌≡◌, ◌++◌, ◌%◌, [], List, ℕ, if◌then◌else◌, false, Some, None, IfOk, OnOk};
ghost use Rattle.std.specs.Str.{bytes_eq};
ghost use Rattle.fwd_outside.specs.File.{content, IsPostCrash};
ghost use Rattle.fwd_disk_mem.specs.FileTable.{MemFile};
ghost use Rattle.fwd_disk_mem.specs.Entry.{files_of, is_on};
ghost use Rattle.fwd_disk_mem.specs.Images.{acted_file, file_at, picked, file_settings, preset_of};

use crate::MemDisk;
use crate::content::Content;
use crate::entry::{BoxedEntry, MemEntry, name_of};
use crate::image::{ImageFile, file_after};
use fwd_outside::Memory;
use std::alloc::Global;
use std::collections::HashMap;

// Removes and returns the file of a name; a missing file if no call was about it.
fn take_file(alloc: Global, files: &mut HashMap<Vec<u8>, ImageFile>, name: &[u8]) -> ImageFile
    ensures file { result ≡ file_at files.old.entries name.now }
    ensures others { (n : List ℕ) → bytes_eq name.now n ≡ false → file_at files.new.entries n ≡ file_at files.old.entries n }
{
    match files.remove(name) {
        Some(file) => file,
        None => ImageFile::absent(alloc),
    }
}

// Applies a call to its file.
fn apply_call(
    alloc: Global,
    pick: u64,
    files: &mut HashMap<Vec<u8>, ImageFile>,
    call: &MemEntry,
) -> Result<(), Memory>
    ensures { OnOk result ((n : List ℕ) → file_at files.new.entries n ≡ (if is_on call.now n then acted_file pick (file_at files.old.entries n) call.now else file_at files.old.entries n)) }
{
    let name = name_of(call);
    let file = take_file(alloc, files, name);
    let file = file_after(alloc, pick, file, call)?;
    let name = Vec::from_slice(alloc, name)?;
    files.insert(name, file)?;
    Ok(())
}

// Returns the files with their post-crash states after these calls.
fn images_after(
    alloc: Global,
    pick: u64,
    calls: &[BoxedEntry],
) -> Result<HashMap<Vec<u8>, ImageFile>, Memory>
    ensures { IfOk result (λ files. (name : List ℕ) → (file_at files.entries name).image ≡ picked pick calls.now name) }
{
    let mut files = HashMap::new(alloc);
    for call in calls {
        apply_call(alloc, pick, &mut files, call.entry())?;
    }
    Ok(files)
}

fn add_image(disk: &mut MemDisk, name: &[u8], image: &Option<Content>) -> Result<(), Memory>
    ensures { OnOk result (disk.new ≡ record disk.old { calls = disk.old.calls ++ preset_of name.now image.now }) }
{
    match image {
        Some(image) => disk.preset(name, image.as_slice()),
        None => Ok(()),
    }
}

// Returns the disk that has these post-crash states.
fn disk_of(alloc: Global, files: &HashMap<Vec<u8>, ImageFile>) -> Result<MemDisk, Memory>
    ensures presets { IfOk result (λ disk. (files : List MemFile) × (disk.calls ≡ file_settings files)) }
    ensures images { IfOk result (λ disk. (name : List ℕ) → content (files_of disk.calls name) ≡ (file_at files.now.entries name).image) }
    ensures faults { IfOk result (λ disk. disk.faults ≡ 0) }
    ensures mark { IfOk result (λ disk. disk.mark ≡ 0) }
{
    let mut disk = MemDisk::new(alloc);
    for (name, file) in files.iter() {
        add_image(&mut disk, name.as_slice(), &file.image)?;
    }
    Ok(disk)
}

/// Returns the disk after a crash that follows these calls.
pub fn disk_after_crash(alloc: Global, pick: u64, calls: &[BoxedEntry]) -> Result<MemDisk, Memory>
    ensures presets { IfOk result (λ disk. (files : List MemFile) × (disk.calls ≡ file_settings files)) }
    ensures picked { IfOk result (λ disk. (name : List ℕ) → content (files_of disk.calls name) ≡ picked pick calls.now name) }
    ensures faults { IfOk result (λ disk. disk.faults ≡ 0) }
    ensures mark { IfOk result (λ disk. disk.mark ≡ 0) }
{
    let files = images_after(alloc, pick, calls)?;
    disk_of(alloc, &files)
}
