//! The disk that counts calls and failures.

ghost use Rattle.std.specs.Prelude.{◌≡◌, ◌<◌, OnOk, vec_len, vec_capacity};
ghost use Rattle.fwd_record.specs.Failures.{next_number};
ghost use Rattle.fwd_record.specs.Counting.{IsCounting, counting, log_of};

use crate::log_markers::{DiskRecord, DiskStart};
use fwd_base::{Bytes, Memory, Names};
use fwd_outside::{Calls, Disk, DiskErr};
use std::alloc::Global;
use std::marker::Model;

/// A disk that wraps another, passes each call on, and keeps the numbers of the calls that failed. Calls are
/// counted from 1, or from the number that `loaded` gives. The count stops at 2^64 - 1.
#[derive(Drop)]
pub struct CountedDisk<'a, D: Disk> {
    pub inner: &'a mut D,
    first: u64,
    next: u64,
    failed: Vec<u64>,
    start: Calls<(), DiskStart>,
    asked: Calls<(), DiskRecord>,
}

impl<'a, D: Disk> Model for CountedDisk<'a, D> {
    ghost use Rattle.fwd_record.specs.DiskStart.{first_of};
    ghost use Rattle.fwd_record.specs.Counting.{Counting, IsCounting};
    ghost use Rattle.fwd_record.specs.CountingCode.{counting_code};

    ghost Value = { Counting };

    ghost coded = { counting_code };

    ghost view = { λ c. record {
      name = c.inner.ghost_name;
      start = first_of c.start.entries;
      below = D.call_log c.inner.now;
      faults = D.faults c.inner.now;
      asked = c.asked.entries;
      first = c.first;
      next = c.next;
      failed = c.failed.items;
    } };

    ghost invariant = { λ c. IsCounting (record {
      name = c.inner.ghost_name;
      start = first_of c.start.entries;
      below = D.call_log c.inner.now;
      faults = D.faults c.inner.now;
      asked = c.asked.entries;
      first = c.first;
      next = c.next;
      failed = c.failed.items;
    }) };
}

impl<'a, D: Disk> CountedDisk<'a, D> {
    /// Puts a counted disk around a disk. Nothing was asked of it yet, and the first call has the number 1.
    pub fn new(alloc: Global, inner: &'a mut D) -> CountedDisk<'a, D>
        ensures { result ≡ counting inner.entry.ghost_name (D.call_log inner.old) (D.faults inner.old) 1 }
    {
        CountedDisk::counting_from(alloc, inner, 1)
    }

    /// Puts a counted disk around a disk. The first call has this number.
    fn counting_from(alloc: Global, inner: &'a mut D, first: u64) -> CountedDisk<'a, D>
        ensures { result ≡ counting inner.entry.ghost_name (D.call_log inner.old) (D.faults inner.old) first }
    {
        let start = Calls::new().then(&inner);
        CountedDisk {
            inner,
            first,
            next: first,
            failed: Vec::new(alloc),
            start,
            asked: Calls::new(),
        }
    }

    /// Starts to count anew, as if loading had taken this many calls: the next call has the number after
    /// them.
    pub fn loaded(self, alloc: Global, calls: u64) -> CountedDisk<'a, D>
        ensures { result ≡ counting self.entry.name self.entry.below self.entry.faults (next_number calls) }
    {
        let first = calls.saturating_add(1);
        CountedDisk::counting_from(alloc, self.inner, first)
    }

    /// Returns the numbers of the calls that failed.
    pub fn failed(&self) -> &[u64]
        ensures { result.now ≡ self.now.failed }
    {
        self.failed.as_slice()
    }

    /// Returns the disk below.
    pub fn into_inner(self) -> &'a mut D
        ensures name { result.ghost_name ≡ self.entry.name }
        ensures call_log { D.call_log result.now ≡ self.entry.below }
        ensures faults { D.faults result.now ≡ self.entry.faults }
    {
        self.inner
    }

    /// States that the calls are those of the disk below, and which of them failed. It does nothing.
    pub fn is_counting(&self)
        ensures { IsCounting self.now }
    {
        let _ = &self.next;
    }
}

impl<D: Disk> Disk for CountedDisk<'_, D> {
    ghost faults = { λ c. c.faults };

    ghost call_log = { log_of };

    fn place(&mut self, name: &[u8], bytes: &[u8]) -> Result<(), DiskErr> {
        reserve(&mut self.failed)?;
        match self.inner.place(name, bytes) {
            Ok(()) => {
                self.next = self.next.saturating_add(1);
                self.asked = self.asked.then(&(name, bytes, true));
                Ok(())
            }
            Err(DiskErr::Failed) => {
                self.failed.push_reserved(self.next);
                self.next = self.next.saturating_add(1);
                self.asked = self.asked.then(&(name, bytes, false));
                Err(DiskErr::Failed)
            }
            Err(DiskErr::Memory) => Err(DiskErr::Memory),
        }
    }

    fn write_at(&mut self, name: &[u8], at: u64, bytes: &[u8]) -> Result<(), DiskErr> {
        reserve(&mut self.failed)?;
        match self.inner.write_at(name, at, bytes) {
            Ok(()) => {
                self.next = self.next.saturating_add(1);
                self.asked = self.asked.then(&(name, at, bytes, true));
                Ok(())
            }
            Err(DiskErr::Failed) => {
                self.failed.push_reserved(self.next);
                self.next = self.next.saturating_add(1);
                self.asked = self.asked.then(&(name, at, bytes, false));
                Err(DiskErr::Failed)
            }
            Err(DiskErr::Memory) => Err(DiskErr::Memory),
        }
    }

    fn sync(&mut self, name: &[u8]) -> Result<(), DiskErr> {
        reserve(&mut self.failed)?;
        match self.inner.sync(name) {
            Ok(()) => {
                self.next = self.next.saturating_add(1);
                self.asked = self.asked.then(&(name, true));
                Ok(())
            }
            Err(DiskErr::Failed) => {
                self.failed.push_reserved(self.next);
                self.next = self.next.saturating_add(1);
                self.asked = self.asked.then(&(name, false));
                Err(DiskErr::Failed)
            }
            Err(DiskErr::Memory) => Err(DiskErr::Memory),
        }
    }

    fn remove(&mut self, name: &[u8]) -> Result<(), DiskErr> {
        reserve(&mut self.failed)?;
        match self.inner.remove(name) {
            Ok(()) => {
                self.next = self.next.saturating_add(1);
                self.asked = self.asked.then(&(name, true));
                Ok(())
            }
            Err(DiskErr::Failed) => {
                self.failed.push_reserved(self.next);
                self.next = self.next.saturating_add(1);
                self.asked = self.asked.then(&(name, false));
                Err(DiskErr::Failed)
            }
            Err(DiskErr::Memory) => Err(DiskErr::Memory),
        }
    }

    fn read(&mut self, alloc: Global, name: &[u8], at: u64, len: u64) -> Result<Bytes, DiskErr> {
        reserve(&mut self.failed)?;
        match self.inner.read(alloc, name, at, len) {
            Ok(bytes) => {
                self.next = self.next.saturating_add(1);
                self.asked = self.asked.then(&(name, at, len, &bytes));
                Ok(bytes)
            }
            Err(DiskErr::Failed) => {
                self.failed.push_reserved(self.next);
                self.next = self.next.saturating_add(1);
                self.asked = self.asked.then(&(name, at, len));
                Err(DiskErr::Failed)
            }
            Err(DiskErr::Memory) => Err(DiskErr::Memory),
        }
    }

    fn list(&mut self, alloc: Global, folder: &[u8]) -> Result<Names, DiskErr> {
        reserve(&mut self.failed)?;
        match self.inner.list(alloc, folder) {
            Ok(names) => {
                self.next = self.next.saturating_add(1);
                self.asked = self.asked.then(&(folder, &names));
                Ok(names)
            }
            Err(DiskErr::Failed) => {
                self.failed.push_reserved(self.next);
                self.next = self.next.saturating_add(1);
                self.asked = self.asked.then(&folder);
                Err(DiskErr::Failed)
            }
            Err(DiskErr::Memory) => Err(DiskErr::Memory),
        }
    }
}

/// Reserves memory for one more number.
fn reserve(failed: &mut Vec<u64>) -> Result<(), Memory>
    ensures same { failed.new.items ≡ failed.old.items }
    ensures room { OnOk result (vec_len failed.new < vec_capacity failed.new) }
{
    failed.reserve(1)?;
    Ok(())
}
