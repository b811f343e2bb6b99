//! The entries of the record of a disk in memory: its calls with their answers, and its settings.

ghost use Rattle.std.specs.Prelude.{◌≡◌, ◌++◌, ◌+◌, ◌==◌, ◌<◌, ◌^◌, [], ◌∷◌, length, if◌then◌else◌, IfOk, OnOk, OnErr};
ghost use Rattle.std.specs.List.{list_any};
ghost use Rattle.fwd_disk_mem.specs.declared.entry.MemEntry.TheVariants as mem_entry;
ghost use Rattle.fwd_disk_mem.specs.Entry.{Changes, is_call, named_by};

use crate::file_table::FileTable;
use fwd_outside::{Bytes, Memory, Names};
use std::alloc::Global;
use std::marker::Model;

/// A call with its arguments and its answer; or a setting: the bytes of a file, or the number of a call that
/// is to fail.
#[derive(Drop)]
pub enum MemEntry {
    Place(Bytes, Bytes, bool),
    WriteAt(Bytes, u64, Bytes, bool),
    Sync(Bytes, bool),
    Remove(Bytes, bool),
    Read(Bytes, u64, u64, Option<Bytes>),
    List(Bytes, Option<Names>),
    Preset(Bytes, Bytes),
    FailAt(u64),
}

/// A boxed call or setting: a list of them grows by moving pointers alone.
#[derive(Drop)]
pub struct BoxedEntry {
    entry: Box<MemEntry>,
}

impl Model for BoxedEntry {
    ghost use Rattle.fwd_disk_mem.specs.declared.entry.MemEntry.{MemEntry};

    ghost Value = { MemEntry };

    ghost view = { λ k. k.entry.value };
}

impl BoxedEntry {
    pub fn new(alloc: Global, entry: MemEntry) -> Result<Self, Memory>
        ensures { IfOk result (λ boxed. boxed ≡ entry) }
    {
        Ok(BoxedEntry {
            entry: Box::new(alloc, entry)?,
        })
    }

    pub fn entry(&self) -> &MemEntry
        ensures { result.now ≡ self.now }
    {
        &self.entry
    }
}

/// Applies a call to the bytes that reads see. `Err` leaves the files unchanged.
pub fn change(alloc: Global, files: &mut FileTable, call: &MemEntry) -> Result<(), Memory>
    ensures ok { OnOk result (Changes files.old files.new call.now) }
    ensures err { OnErr result (files.new ≡ files.old) }
{
    match call {
        MemEntry::Place(name, bytes, true) => files.put(alloc, name.as_slice(), bytes.as_slice()),
        MemEntry::WriteAt(name, at, bytes, ok) => {
            if *ok {
                files.write(name.as_slice(), *at as usize, bytes.as_slice())
            } else {
                Ok(())
            }
        }
        MemEntry::Remove(name, true) => {
            files.remove_file(name.as_slice());
            Ok(())
        }
        MemEntry::Preset(name, bytes) => files.put(alloc, name.as_slice(), bytes.as_slice()),
        MemEntry::Place(_, _, false) => Ok(()),
        MemEntry::Remove(_, false) => Ok(()),
        MemEntry::Sync(_, _) => Ok(()),
        MemEntry::Read(_, _, _, _) => Ok(()),
        MemEntry::List(_, _) => Ok(()),
        MemEntry::FailAt(_) => Ok(()),
    }
}

/// Returns 1 for a call, 0 for a setting.
pub fn calls_in(call: &MemEntry) -> u64
    ensures { result ≡ (if is_call call.now then 1 else 0) }
{
    match call {
        MemEntry::Preset(_, _) => 0,
        MemEntry::FailAt(_) => 0,
        MemEntry::Place(_, _, _) => 1,
        MemEntry::WriteAt(_, _, _, _) => 1,
        MemEntry::Sync(_, _) => 1,
        MemEntry::Remove(_, _) => 1,
        MemEntry::Read(_, _, _, _) => 1,
        MemEntry::List(_, _) => 1,
    }
}

/// Records a call, and applies it to the files. `Err` leaves the record and the files unchanged.
pub fn push_and_change(
    alloc: Global,
    calls: &mut Vec<BoxedEntry>,
    files: &mut FileTable,
    call: MemEntry,
) -> Result<(), Memory>
    ensures calls_ok { OnOk result (calls.new.items ≡ calls.old.items ++ call ∷ []) }
    ensures counted { OnOk result (length calls.new.items < 2 ^ 63) }
    ensures files_ok { OnOk result (Changes files.old files.new call) }
    ensures calls_err { OnErr result (calls.new.items ≡ calls.old.items) }
    ensures files_err { OnErr result (files.new ≡ files.old) }
{
    calls.push(BoxedEntry::new(alloc, call)?)?;
    let last = calls.len() - 1;
    match change(alloc, files, calls[last].entry()) {
        Ok(()) => Ok(()),
        Err(error) => {
            calls.pop();
            Err(error)
        }
    }
}

/// Records the number of a call that is to fail. `Err` leaves both lists unchanged.
pub fn push_number(
    alloc: Global,
    calls: &mut Vec<BoxedEntry>,
    fails: &mut Vec<u64>,
    number: u64,
) -> Result<(), Memory>
    ensures calls_ok { OnOk result (calls.new.items ≡ calls.old.items ++ mem_entry.FailAt number ∷ []) }
    ensures fails_ok { OnOk result (fails.new.items ≡ fails.old.items ++ number ∷ []) }
    ensures calls_err { OnErr result (calls.new.items ≡ calls.old.items) }
    ensures fails_err { OnErr result (fails.new.items ≡ fails.old.items) }
{
    calls.push(BoxedEntry::new(alloc, MemEntry::FailAt(number))?)?;
    match fails.push(number) {
        Ok(()) => Ok(()),
        Err(_) => {
            calls.pop();
            Err(Memory)
        }
    }
}

/// Returns whether the call after the first `made` calls is to fail.
pub fn is_to_fail(fails: &[u64], made: u64) -> bool
    ensures { result ≡ list_any (λ number. number == made + 1) fails.now }
{
    for number in fails {
        if *number > 0 && *number - 1 == made {
            return true;
        }
    }
    false
}

/// Returns the name that a call is about; the empty name if it is about no file.
pub fn name_of(call: &MemEntry) -> &[u8]
    ensures { result.now ≡ named_by call.now }
{
    match call {
        MemEntry::Place(name, _, _) => name.as_slice(),
        MemEntry::WriteAt(name, _, _, _) => name.as_slice(),
        MemEntry::Sync(name, _) => name.as_slice(),
        MemEntry::Remove(name, _) => name.as_slice(),
        MemEntry::Read(name, _, _, _) => name.as_slice(),
        MemEntry::List(name, _) => name.as_slice(),
        MemEntry::Preset(name, _) => name.as_slice(),
        MemEntry::FailAt(_) => &[],
    }
}
