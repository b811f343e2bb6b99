//! Followed files in memory.

ghost use Rattle.std.specs.Prelude.{◌≡◌, ℕ, ◌+◌, ◌≤◌, List, [], ◌∷◌, ◌++◌, if◌then◌else◌, length, drop, take, unwrap_or, IsTrue, IfOk, OnOk, OnErr, IsErrOf, Some};
ghost use Rattle.std.specs.Option.{option_map, option_copied};
ghost use Rattle.fwd_outside.specs.Log.{LogGrew, log_of_call};
ghost use Rattle.fwd_outside.specs.Cause.{HasCause};
ghost use Rattle.fwd_outside.specs.declared.errors.FileErr.TheVariants.{Failed};
ghost use Rattle.fwd_outside.specs.Files as files;
ghost use Rattle.fwd_outside.specs.Files.{FilesGiven, IsConsistentLog, found, outcome};
ghost use Rattle.fwd_files_mem.specs.declared.files.FilesNote.TheVariants as note;
ghost use Rattle.fwd_files_mem.specs.FilesAnswers.{IsPlayed};
ghost use Rattle.fwd_files_mem.specs.MemFiles.{Answered, HasContent, SameFiles, changed, entries_from, files_now, with_note, path_of, readable, told_of};

use crate::FileChange;
use fwd_base::{Bytes, Memory, clone_optional};
use fwd_outside::{FileErr, Files};
use std::alloc::Global;
use std::collections::{BTreeMap, BTreeSet};
use std::marker::Model;

/// An entry of the record of files in memory: a call with its answer, or a setting.
#[derive(Debug, Drop)]
pub enum FilesNote {
    /// A call for the length. `None` if it failed.
    Length {
        path: Bytes,
        length: Option<u64>,
    },
    /// A read. `None` if it failed.
    ReadAt {
        path: Bytes,
        at: u64,
        max: u64,
        bytes: Option<Bytes>,
    },
    /// The file of this path gets these bytes.
    Preset {
        path: Bytes,
        bytes: Bytes,
    },
    /// The call of this number fails. Calls are counted from 1.
    FailAt {
        call: u64,
    },
    /// A change.
    Change(FileChange),
}

/// Files in memory that record their calls. A read of a missing file fails.
#[derive(Debug, Drop)]
pub struct MemFiles {
    alloc: Global,
    given: BTreeMap<Bytes, Bytes>,
    current: BTreeMap<Bytes, Bytes>,
    notes: Vec<FilesNote>,
    calls: u64,
    fails: BTreeSet<u64>,
    faults: u64,
}

impl Model for MemFiles {
    ghost use Rattle.fwd_files_mem.specs.FilesState.{FilesState};

    ghost Value = { FilesState };

    ghost view = { λ m. record { given = m.given.entries; notes = m.notes.items; faults = m.faults } };

    ghost use Rattle.fwd_files_mem.specs.MemFiles.{IsKept};

    ghost invariant = { λ m. IsKept m.given.entries m.current.entries m.notes.items m.calls m.fails.keys };
}

impl MemFiles {
    /// Returns an empty set of files, without faults.
    pub fn new(alloc: Global) -> Self
        ensures { result ≡ record { given = []; notes = []; faults = 0 } }
    {
        MemFiles {
            alloc,
            given: BTreeMap::new(alloc),
            current: BTreeMap::new(alloc),
            notes: Vec::new(alloc),
            calls: 0,
            fails: BTreeSet::new(alloc),
            faults: 0,
        }
    }

    /// Some files with the same initial content give the answers that these gave.
    pub fn is_honest(&self)
        ensures { IsConsistentLog self.now.given (entries_from self.now.given self.now.notes) }
    {
        let _ = &self.alloc;
    }

    /// Each answer is a function of the files, the number of the call and the numbers that are to fail.
    pub fn is_played(&self)
        ensures { IsPlayed self.now.given [] (entries_from self.now.given self.now.notes) }
    {
        let _ = &self.alloc;
    }

    /// Gives the file of a path these bytes. `Err` leaves the files unchanged.
    pub fn preset(&mut self, path: &[u8], bytes: &[u8]) -> Result<(), Memory>
        ensures ok { OnOk result (self.new ≡ with_note self.old (note.Preset path.now bytes.now)) }
        ensures err { OnErr result (self.new ≡ self.old) }
    {
        let kept = FilesNote::Preset {
            path: Bytes::from_slice(self.alloc, path)?,
            bytes: Bytes::from_slice(self.alloc, bytes)?,
        };
        let path = Bytes::from_slice(self.alloc, path)?;
        let bytes = Bytes::from_slice(self.alloc, bytes)?;
        self.notes.push(kept)?;
        match put(&mut self.current, path, bytes) {
            Ok(()) => Ok(()),
            Err(memory) => {
                self.notes.pop();
                Err(memory)
            }
        }
    }

    /// Makes the call of this number fail. Calls are counted from 1. `Err` leaves the files unchanged.
    pub fn fail_at(&mut self, call: u64) -> Result<(), Memory>
        ensures ok { OnOk result (self.new ≡ with_note self.old (note.FailAt call)) }
        ensures err { OnErr result (self.new ≡ self.old) }
    {
        self.notes.reserve(1)?;
        self.fails.insert(call)?;
        self.notes.push_reserved(FilesNote::FailAt { call });
        Ok(())
    }

    /// Makes the change. `Err` leaves the files unchanged.
    pub fn apply(&mut self, change: &FileChange) -> Result<(), Memory>
        ensures ok { OnOk result (self.new ≡ with_note self.old (note.Change change.now)) }
        ensures err { OnErr result (self.new ≡ self.old) }
    {
        let kept = FilesNote::Change(change.try_clone(self.alloc)?);
        self.notes.push(kept)?;
        match apply_change(self.alloc, &mut self.current, change) {
            Ok(()) => Ok(()),
            Err(memory) => {
                self.notes.pop();
                Err(memory)
            }
        }
    }

    /// Returns the same files, without calls, faults and failures to come.
    pub fn renewed(&self, alloc: Global) -> Result<MemFiles, Memory>
        ensures same { IfOk result (λ files. SameFiles (files_now self.now.given self.now.notes) (files_now files.given files.notes)) }
        ensures notes { IfOk result (λ files. files.notes ≡ []) }
        ensures faults { IfOk result (λ files. files.faults ≡ 0) }
    {
        Ok(MemFiles {
            alloc,
            given: copy_of(alloc, &self.current)?,
            current: copy_of(alloc, &self.current)?,
            notes: Vec::new(alloc),
            calls: 0,
            fails: BTreeSet::new(alloc),
            faults: 0,
        })
    }

    /// Returns the bytes that the next call reads from; `None` if it fails.
    fn readable(&self, path: &Bytes) -> Option<&[u8]>
        ensures { option_copied result ≡ readable self.now path.now }
    {
        if self.fails.contains(&(self.calls + 1)) {
            return None;
        }
        content(&self.current, path)
    }
}

impl Files for MemFiles {
    ghost faults = { λ m. m.faults };

    ghost call_log = { told_of };

    fn length(&mut self, path: &[u8]) -> Result<u64, FileErr>
        ensures answer { Answered result (option_map length (readable self.old path.now)) (note.Length path.now) self.old self.new }
        ensures call_log { LogGrew (told_of self.old) (told_of self.new) (log_of_call (files.Length path.now) (outcome result)) }
        ensures cause { HasCause self.old.faults self.new.faults (IsErrOf result Failed) }
    {
        let path = Bytes::from_slice(self.alloc, path)?;
        let answer = length_of(self.readable(&path));
        self.notes.push(FilesNote::Length {
            path,
            length: answer,
        })?;
        self.calls += 1;
        match answer {
            Some(length) => Ok(length),
            None => {
                self.faults = self.faults.saturating_add(1);
                Err(FileErr::Failed)
            }
        }
    }

    fn read_at(&mut self, alloc: Global, path: &[u8], at: u64, max: u64) -> Result<Bytes, FileErr>
        ensures answer { Answered result (option_map (λ bytes. take max (drop at bytes)) (readable self.old path.now)) (note.ReadAt path.now at max) self.old self.new }
        ensures call_log { LogGrew (told_of self.old) (told_of self.new) (log_of_call (files.ReadAt path.now at max) (outcome result)) }
        ensures cause { HasCause self.old.faults self.new.faults (IsErrOf result Failed) }
        ensures within { IfOk result (λ bytes. length bytes ≤ max) }
    {
        let path = Bytes::from_slice(self.alloc, path)?;
        let answer = part_of(alloc, self.readable(&path), at, max)?;
        let bytes = clone_optional(self.alloc, &answer)?;
        self.notes.push(FilesNote::ReadAt {
            path,
            at,
            max,
            bytes,
        })?;
        self.calls += 1;
        match answer {
            Some(bytes) => Ok(bytes),
            None => {
                self.faults = self.faults.saturating_add(1);
                Err(FileErr::Failed)
            }
        }
    }
}

/// Returns a copy of the files.
fn copy_of(alloc: Global, files: &BTreeMap<Bytes, Bytes>) -> Result<BTreeMap<Bytes, Bytes>, Memory>
    ensures { IfOk result (λ copy. SameFiles files.now.entries copy.entries) }
{
    let mut copy = BTreeMap::new(alloc);
    let mut rest = files.iter();
    while let Some((path, bytes)) = rest.next_back() {
        copy.insert(path.try_clone(alloc)?, bytes.try_clone(alloc)?)?;
    }
    Ok(copy)
}

/// Returns the bytes of a file; `None` if there is none.
fn content<'a>(files: &'a BTreeMap<Bytes, Bytes>, path: &Bytes) -> Option<&'a [u8]>
    ensures { option_copied result ≡ found files.entry.now.entries path.now }
{
    match files.get(path) {
        Some(bytes) => Some(bytes.as_slice()),
        None => None,
    }
}

/// Returns the number of the bytes.
fn length_of(content: Option<&[u8]>) -> Option<u64>
    ensures { result ≡ option_map (λ bytes. length bytes) (option_copied content.entry) }
{
    match content {
        Some(bytes) => Some(bytes.len() as u64),
        None => None,
    }
}

/// Returns the bytes from an offset, at most `max` of them.
fn part_of(
    alloc: Global,
    content: Option<&[u8]>,
    at: u64,
    max: u64,
) -> Result<Option<Bytes>, Memory>
    ensures { IfOk result (λ part. part ≡ option_map (λ bytes. take max (drop at bytes)) (option_copied content.entry)) }
{
    let Some(bytes) = content else {
        return Ok(None);
    };
    let from = (bytes.len() as u64).min(at) as usize;
    let behind = &bytes[from..];
    let most = (behind.len() as u64).min(max) as usize;
    Ok(Some(Bytes::from_slice(alloc, &behind[..most])?))
}

/// Gives the file of a path these bytes.
fn put(files: &mut BTreeMap<Bytes, Bytes>, path: Bytes, bytes: Bytes) -> Result<(), Memory>
    ensures ok { OnOk result (HasContent path (Some bytes) files.old.entries files.new.entries) }
    ensures err { OnErr result (files.new.entries ≡ files.old.entries) }
{
    files.insert(path, bytes)?;
    Ok(())
}

/// Makes the change.
fn apply_change(
    alloc: Global,
    files: &mut BTreeMap<Bytes, Bytes>,
    change: &FileChange,
) -> Result<(), Memory>
    ensures ok { OnOk result (HasContent (path_of change.now) (changed change.now (found files.old.entries (path_of change.now))) files.old.entries files.new.entries) }
    ensures err { OnErr result (files.new.entries ≡ files.old.entries) }
{
    match change {
        FileChange::Append { path, bytes } => append(alloc, files, path, bytes.as_slice()),
        FileChange::Cut { path, length } => {
            cut(files, path, *length);
            Ok(())
        }
    }
}

/// Appends the bytes to those of the file.
fn append(
    alloc: Global,
    files: &mut BTreeMap<Bytes, Bytes>,
    path: &Bytes,
    bytes: &[u8],
) -> Result<(), Memory>
    ensures ok { OnOk result (HasContent path.now (Some (unwrap_or (found files.old.entries path.now) [] ++ bytes.now)) files.old.entries files.new.entries) }
    ensures err { OnErr result (files.new.entries ≡ files.old.entries) }
{
    match files.get_mut(path) {
        Some(content) => content.extend_from_slice(bytes)?,
        None => {
            let bytes = Bytes::from_slice(alloc, bytes)?;
            files.insert(path.try_clone(alloc)?, bytes)?;
        }
    }
    Ok(())
}

/// Truncates the file of a path, if it is longer than `length`.
fn cut(files: &mut BTreeMap<Bytes, Bytes>, path: &Bytes, length: u64)
    ensures { HasContent path.now (option_map (take length) (found files.old.entries path.now)) files.old.entries files.new.entries }
{
    if let Some(content) = files.get_mut(path) {
        content.truncate(length as usize);
    }
}
