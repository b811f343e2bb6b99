//! `Disk` on folders of the file system.

ghost use Rattle.std.specs.Prelude.{Some, [], ◌≡◌, IsErrOf};
ghost use Rattle.fwd_outside.specs.Cause.{HasCause};
ghost use Rattle.fwd_outside.specs.Disk.{DiskGiven, disk_outcome};
ghost use Rattle.fwd_outside.specs.declared.errors.DiskErr.TheVariants.{Failed};

use crate::disk_calls::DiskCalls;
use crate::folders::Folders;
use crate::shared::Shared;
use crate::storage_root::Access;
use fwd_outside::{Bytes, Disk, DiskErr, Names};
use std::alloc::Global;

/// Files by their paths, which survive a crash.
#[derive(Drop)]
pub struct FolderDisk<'a> {
    folders: Folders<'a>,
    faults: u64,
    calls: DiskCalls,
}

impl<'a> FolderDisk<'a> {
    /// Returns the disk with an empty log. The caller picks the initial files.
    pub fn new(rt: HostRuntime, shared: &'a Shared, access: Access) -> Self
        ghost given: { DiskGiven }
        ensures { (result.calls.given ≡ given) × (result.calls.entries ≡ []) }
    {
        FolderDisk {
            folders: Folders::new(rt, shared, access),
            faults: 0,
            calls: DiskCalls::new(),
        }
    }

    /// Returns what a call gave, or the failure, which it counts.
    fn result_of<T>(&mut self, answer: Option<T>) -> Result<T, DiskErr>
        ensures outcome { disk_outcome result ≡ Some answer }
        ensures cause { HasCause self.old.faults self.new.faults (IsErrOf result Failed) }
        ensures calls { self.new.calls ≡ self.old.calls }
    {
        match answer {
            Some(value) => Ok(value),
            None => {
                self.faults = self.faults.saturating_add(1);
                Err(DiskErr::Failed)
            }
        }
    }
}

impl<'a> Disk for FolderDisk<'a> {
    ghost faults = { λ disk. disk.faults };

    ghost call_log = { λ disk. Some (disk.calls.given, disk.calls.entries) };

    fn place(&mut self, name: &[u8], bytes: &[u8]) -> Result<(), DiskErr> {
        let placed = self.folders.place(name, bytes)?;
        self.calls = self.calls.then(&(name, bytes, placed));
        self.result_of(placed)
    }

    fn write_at(&mut self, name: &[u8], at: u64, bytes: &[u8]) -> Result<(), DiskErr> {
        let written = self.folders.write_at(name, at, bytes)?;
        self.calls = self.calls.then(&(name, at, bytes, written));
        self.result_of(written)
    }

    fn sync(&mut self, name: &[u8]) -> Result<(), DiskErr> {
        let synced = self.folders.sync(name)?;
        self.calls = self.calls.then(&(name, synced));
        self.result_of(synced)
    }

    fn remove(&mut self, name: &[u8]) -> Result<(), DiskErr> {
        let removed = self.folders.remove(name);
        self.calls = self.calls.then(&(name, removed));
        self.result_of(removed)
    }

    fn read(&mut self, alloc: Global, name: &[u8], at: u64, len: u64) -> Result<Bytes, DiskErr> {
        let read = self.folders.read(alloc, name, at, len)?;
        self.calls = self.calls.then(&(name, at, len, &read));
        self.result_of(read)
    }

    fn list(&mut self, alloc: Global, folder: &[u8]) -> Result<Names, DiskErr> {
        let listed = self.folders.list(alloc, folder)?;
        self.calls = self.calls.then(&(folder, &listed));
        self.result_of(listed)
    }
}
