//! The trait for a disk of named files, which a crash may strike at any point.

ghost use Rattle.std.specs.Prelude.{◌≡◌, ℕ, ◌≤◌, length, IfOk, IsErrOf};
ghost use Rattle.fwd_outside.specs.Log.{LogGrew, log_of_call};
ghost use Rattle.fwd_outside.specs.Cause.{HasCause};
ghost use Rattle.fwd_outside.specs.Disk.{DiskLog, Place, WriteAt, Sync, Remove, Read, ListNames, disk_outcome, IsListing};
ghost use Rattle.fwd_outside.specs.declared.errors.DiskErr.TheVariants.{Failed};

use crate::DiskErr;
use fwd_base::{Bytes, Names};
use std::alloc::Global;

/// A disk of named files. `fwd_outside` says which states a crash may leave.
pub trait Disk {
    /// The number of failed calls. The count saturates at 2^64 - 1.
    ghost faults: { Self → ℕ };

    /// The call log: the first files, and the calls so far with their answers, if the disk keeps one.
    ghost call_log: { Self → DiskLog };

    /// Creates a file atomically: a crash leaves it whole or not at all. The name must not exist and must
    /// not have been placed before, else nothing is promised of it.
    fn place(&mut self, name: &[u8], bytes: &[u8]) -> Result<(), DiskErr>
        ensures call_log { LogGrew (call_log self.old) (call_log self.new) (log_of_call (Place name.now bytes.now) (disk_outcome result)) }
        ensures cause { HasCause (faults self.old) (faults self.new) (IsErrOf result Failed) };

    /// Overwrites bytes from an offset on, and appends past the end. Until a sync, a crash may leave any
    /// bytes in that range.
    fn write_at(&mut self, name: &[u8], at: u64, bytes: &[u8]) -> Result<(), DiskErr>
        ensures call_log { LogGrew (call_log self.old) (call_log self.new) (log_of_call (WriteAt name.now at bytes.now) (disk_outcome result)) }
        ensures cause { HasCause (faults self.old) (faults self.new) (IsErrOf result Failed) };

    /// Makes a file durable: after it, a crash leaves what a read returns.
    fn sync(&mut self, name: &[u8]) -> Result<(), DiskErr>
        ensures call_log { LogGrew (call_log self.old) (call_log self.new) (log_of_call (Sync name.now) (disk_outcome result)) }
        ensures cause { HasCause (faults self.old) (faults self.new) (IsErrOf result Failed) };

    /// Removes a file.
    fn remove(&mut self, name: &[u8]) -> Result<(), DiskErr>
        ensures call_log { LogGrew (call_log self.old) (call_log self.new) (log_of_call (Remove name.now) (disk_outcome result)) }
        ensures cause { HasCause (faults self.old) (faults self.new) (IsErrOf result Failed) };

    /// Reads bytes of a file from an offset on, at most `len`, and fewer only at its end. Fails if there is
    /// no such file.
    fn read(&mut self, alloc: Global, name: &[u8], at: u64, len: u64) -> Result<Bytes, DiskErr>
        ensures call_log { LogGrew (call_log self.old) (call_log self.new) (log_of_call (Read name.now at len) (disk_outcome result)) }
        ensures cause { HasCause (faults self.old) (faults self.new) (IsErrOf result Failed) }
        ensures within { IfOk result (λ bytes. length bytes ≤ len) };

    /// Lists the UTF-8 names in a folder, sorted, each once and without `/`. The list is empty if there is
    /// no such folder.
    fn list(&mut self, alloc: Global, folder: &[u8]) -> Result<Names, DiskErr>
        ensures call_log { LogGrew (call_log self.old) (call_log self.new) (log_of_call (ListNames folder.now) (disk_outcome result)) }
        ensures cause { HasCause (faults self.old) (faults self.new) (IsErrOf result Failed) }
        ensures names { IfOk result IsListing };
}
