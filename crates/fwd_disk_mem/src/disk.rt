ghost use Rattle.std.specs.Prelude.{◌≡◌, ◌++◌, ◌+◌, ◌^◌, ◌-◌, ◌≤◌, ◌%◌, ◌&&◌, min, [], ◌∷◌, List, ℕ, take, drop, length, not, is_some, if◌then◌else◌, Some, None, Option, OnOk, OnErr, IfOk, IsErrOf, MatchBool, Ok, Err};
ghost use Rattle.std.specs.List.{list_any};
ghost use Rattle.fwd_outside.specs.Cause.{HasCause};
ghost use Rattle.fwd_outside.specs.Log.{LogGrew, log_of_call};
ghost use Rattle.fwd_outside.specs.declared.errors.DiskErr.TheVariants as disk_err;
ghost use Rattle.fwd_outside.specs.File.{content, IsPostCrash};
ghost use Rattle.fwd_outside.specs.Disk.{IsListing, disk_outcome};
ghost use Rattle.fwd_outside.specs.Disk as outside;
ghost use Rattle.fwd_outside.specs.DiskStates.{IsPossibleLog, AreNamesIn};
ghost use Rattle.fwd_disk_mem.specs.declared.entry.MemEntry.TheVariants as mem_entry;
ghost use Rattle.fwd_disk_mem.specs.Entry.{entries_of, given, log_of, next_succeeds, files_of, can_write, AnswerIs, IsPlayed, IsNoNumber};
ghost use Rattle.fwd_disk_mem.specs.DiskState.{counted};
ghost use Rattle.fwd_disk_mem.specs.FileTable.{MemFile};
ghost use Rattle.fwd_disk_mem.specs.Images.{picked, file_settings, prefix_after_mark};

use crate::copies::{both, copy_of_names, part_of};
use crate::crash::disk_after_crash;
use crate::entry::{BoxedEntry, MemEntry, calls_in, is_to_fail, push_and_change, push_number};
use crate::file_table::FileTable;
use crate::image::prefix_until;
use crate::listing::names_in;
use fwd_base::clone_optional;
use fwd_outside::{Bytes, Disk, DiskErr, Memory, Names};
use std::alloc::Global;
use std::marker::Model;

/// A disk in memory. It records its calls and their answers, and answers each call by that record alone.
#[derive(Drop)]
pub struct MemDisk {
    alloc: Global,
    calls: Vec<BoxedEntry>,
    files: FileTable,
    fails: Vec<u64>,
    made: u64,
    faults: u64,
    mark: usize,
}

impl Model for MemDisk {
    ghost use Rattle.fwd_disk_mem.specs.DiskState.{Seen};

    ghost Value = { Seen };

    ghost view = { λ m. record { calls = m.calls.items; faults = m.faults; mark = m.mark } };

    ghost use Rattle.fwd_disk_mem.specs.Fields.{IsKept};

    ghost invariant = { λ m. IsKept m.calls.items m.files m.fails.items m.made };
}

impl MemDisk {
    /// Returns a disk without files and faults.
    pub fn new(alloc: Global) -> Self
        ensures calls { result.calls ≡ [] }
        ensures faults { result.faults ≡ 0 }
        ensures mark { result.mark ≡ 0 }
    {
        MemDisk {
            alloc,
            calls: Vec::new(alloc),
            files: FileTable::new(alloc),
            fails: Vec::new(alloc),
            made: 0,
            faults: 0,
            mark: 0,
        }
    }

    /// Gives a file these bytes, durably. It replaces a file of this name.
    pub fn preset(&mut self, name: &[u8], bytes: &[u8]) -> Result<(), Memory>
        ensures ok { OnOk result (self.new ≡ record self.old { calls = self.old.calls ++ mem_entry.Preset name.now bytes.now ∷ [] }) }
        ensures err { OnErr result (self.new ≡ self.old) }
    {
        let call = MemEntry::Preset(
            Bytes::from_slice(self.alloc, name)?,
            Bytes::from_slice(self.alloc, bytes)?,
        );
        self.note(call)
    }

    /// Makes the call of this number fail. Calls are counted from 1.
    pub fn fail_at(&mut self, call: u64) -> Result<(), Memory>
        ensures ok { OnOk result (self.new ≡ record self.old { calls = self.old.calls ++ mem_entry.FailAt call ∷ [] }) }
        ensures err { OnErr result (self.new ≡ self.old) }
    {
        push_number(self.alloc, &mut self.calls, &mut self.fails, call)
    }

    /// Marks the place from which `image` counts calls. The program doesn't use it (it asks `image_since`).
    pub fn mark(&mut self)
        ensures { self.new ≡ record self.old { mark = length self.old.calls } }
    {
        self.mark = self.calls.len();
    }

    /// Returns the disk after a crash that follows `calls` calls since the mark, or all calls if there were
    /// fewer.
    ///
    /// `pick` modulo 4 chooses the state. 0: writes since the last sync are lost, creations that aren't
    /// durable are absent, and removals that aren't durable didn't happen. 1: all of it took place. 2: as 1,
    /// with 5a in each byte that isn't durable. 3: as 1, but each byte that isn't durable at an even offset
    /// is as at the last sync, or 0 past that length.
    ///
    /// The returned disk is durable, has no calls, and no call of it is to fail. The program doesn't use
    /// `image` (it asks `image_since`): it is for callers that mark the place.
    pub fn image(&self, alloc: Global, calls: u64, pick: u64) -> Result<MemDisk, Memory>
        ensures fresh { IfOk result (λ image. ((files : List MemFile) × (image.calls ≡ file_settings files)) × (image.faults ≡ 0) × (image.mark ≡ 0)) }
        ensures picked { IfOk result (λ image. (name : List ℕ) → content (files_of image.calls name) ≡ picked (pick % 4) (prefix_after_mark self.now.mark calls self.now.calls) name) }
        ensures is_image { IfOk result (λ image. (name : List ℕ) → IsPostCrash (files_of (prefix_after_mark self.now.mark calls self.now.calls) name) (content (files_of image.calls name))) }
    {
        self.image_since(alloc, self.mark, calls, pick)
    }

    /// Returns the length of the record so far: calls and settings.
    pub fn record_len(&self) -> usize
        ensures { result ≡ length self.now.calls }
    {
        self.calls.len()
    }

    /// Returns the disk after a crash that follows `calls` calls since that length of the record, or all
    /// calls if there were fewer. It is what `image` returns with the mark there.
    pub fn image_since(
        &self,
        alloc: Global,
        since: usize,
        calls: u64,
        pick: u64,
    ) -> Result<MemDisk, Memory>
        ensures fresh { IfOk result (λ image. ((files : List MemFile) × (image.calls ≡ file_settings files)) × (image.faults ≡ 0) × (image.mark ≡ 0)) }
        ensures picked { IfOk result (λ image. (name : List ℕ) → content (files_of image.calls name) ≡ picked (pick % 4) (prefix_after_mark since calls self.now.calls) name) }
        ensures is_image { IfOk result (λ image. (name : List ℕ) → IsPostCrash (files_of (prefix_after_mark since calls self.now.calls) name) (content (files_of image.calls name))) }
    {
        disk_after_crash(alloc, pick % 4, prefix_until(&self.calls, since, calls))
    }

    /// For each sequence of calls, some disk gives the answers that this one gave.
    pub fn is_honest(&self)
        ensures { IsPossibleLog given (entries_of self.now.calls) }
    {
        let _ = &self.alloc;
    }

    /// Each answer is a function of the files, the number of the call and the numbers that are to fail.
    pub fn is_played(&self)
        ensures { IsPlayed [] self.now.calls }
    {
        let _ = &self.alloc;
    }

    // Returns whether the next call succeeds.
    fn next_succeeds(&self) -> bool
        ensures { result ≡ next_succeeds self.now.calls }
    {
        !is_to_fail(&self.fails, self.made)
    }

    // Records a call, and applies it to the files. `Err` leaves the disk unchanged.
    fn note(&mut self, call: MemEntry) -> Result<(), Memory>
        requires gives { AnswerIs self.old.calls call }
        requires no_number { IsNoNumber call }
        ensures ok { OnOk result (self.new ≡ record self.old { calls = self.old.calls ++ call ∷ [] }) }
        ensures err { OnErr result (self.new ≡ self.old) }
    {
        let counts = calls_in(&call);
        push_and_change(self.alloc, &mut self.calls, &mut self.files, call)?;
        self.made += counts;
        Ok(())
    }

    // Returns whether a file exists.
    fn has(&self, name: &[u8]) -> bool
        ensures { result ≡ (files_of self.now.calls name.now).there }
    {
        self.files.get(name).is_some()
    }

    // Returns whether a write at this offset is valid.
    fn may_write(&self, name: &[u8], at: u64) -> bool
        ensures { result ≡ can_write (files_of self.now.calls name.now) at }
    {
        match self.files.get(name) {
            Some(bytes) => at <= bytes.len() as u64,
            None => false,
        }
    }

    // Returns the answer of a successful read.
    fn part(
        &self,
        alloc: Global,
        next_succeeds: bool,
        name: &[u8],
        at: u64,
        len: u64,
    ) -> Result<Option<Bytes>, Memory>
        ensures { IfOk result (λ given. given ≡ (if next_succeeds && (files_of self.now.calls name.now).there then Some (take len (drop at (files_of self.now.calls name.now).bytes)) else None)) }
    {
        if !next_succeeds {
            return Ok(None);
        }
        match self.files.get(name) {
            Some(bytes) => Ok(Some(part_of(alloc, bytes, at, len)?)),
            None => Ok(None),
        }
    }

    // Returns the answer of a successful listing.
    fn names(
        &self,
        alloc: Global,
        next_succeeds: bool,
        folder: &[u8],
    ) -> Result<Option<Names>, Memory>
        ensures { IfOk result (λ given. MatchBool next_succeeds ((names : List (List ℕ)) × (given ≡ Some names) × IsListing names × AreNamesIn folder.now names (files_of self.now.calls)) (given ≡ None)) }
    {
        if !next_succeeds {
            return Ok(None);
        }
        Ok(Some(names_in(alloc, &self.files, folder)?))
    }

    // Counts a failure.
    fn failure(&mut self) -> DiskErr
        ensures calls { self.new.calls ≡ self.old.calls }
        ensures mark { self.new.mark ≡ self.old.mark }
        ensures result { result ≡ disk_err.Failed }
        ensures faults { self.new.faults ≡ min (self.old.faults + 1) (2 ^ 64 - 1) }
    {
        self.faults = self.faults.saturating_add(1);
        DiskErr::Failed
    }

    // Returns the answer of a call, and counts a failure.
    fn answer(&mut self, ok: bool) -> Result<(), DiskErr>
        ensures calls { self.new.calls ≡ self.old.calls }
        ensures mark { self.new.mark ≡ self.old.mark }
        ensures result { result ≡ (if ok then Ok tt else Err disk_err.Failed) }
        ensures faults { self.new.faults ≡ counted result self.old.faults }
    {
        if ok {
            return Ok(());
        }
        self.faults = self.faults.saturating_add(1);
        Err(DiskErr::Failed)
    }
}

impl Disk for MemDisk {
    ghost faults = { λ m. m.faults };

    ghost call_log = { λ m. log_of m.calls };

    fn place(&mut self, name: &[u8], bytes: &[u8]) -> Result<(), DiskErr>
        ensures call_log { LogGrew (log_of self.old.calls) (log_of self.new.calls) (log_of_call (outside.Place name.now bytes.now) (disk_outcome result)) }
        ensures cause { HasCause self.old.faults self.new.faults (IsErrOf result disk_err.Failed) }
        ensures faults { self.new.faults ≡ counted result self.old.faults }
        ensures mark { self.new.mark ≡ self.old.mark }
    {
        let ok = self.next_succeeds();
        let call = MemEntry::Place(
            Bytes::from_slice(self.alloc, name)?,
            Bytes::from_slice(self.alloc, bytes)?,
            ok,
        );
        self.note(call)?;
        self.answer(ok)
    }

    fn write_at(&mut self, name: &[u8], at: u64, bytes: &[u8]) -> Result<(), DiskErr>
        ensures call_log { LogGrew (log_of self.old.calls) (log_of self.new.calls) (log_of_call (outside.WriteAt name.now at bytes.now) (disk_outcome result)) }
        ensures cause { HasCause self.old.faults self.new.faults (IsErrOf result disk_err.Failed) }
        ensures faults { self.new.faults ≡ counted result self.old.faults }
        ensures mark { self.new.mark ≡ self.old.mark }
    {
        let next_succeeds = self.next_succeeds();
        let ok = both(next_succeeds, self.may_write(name, at));
        let call = MemEntry::WriteAt(
            Bytes::from_slice(self.alloc, name)?,
            at,
            Bytes::from_slice(self.alloc, bytes)?,
            ok,
        );
        self.note(call)?;
        self.answer(ok)
    }

    fn sync(&mut self, name: &[u8]) -> Result<(), DiskErr>
        ensures call_log { LogGrew (log_of self.old.calls) (log_of self.new.calls) (log_of_call (outside.Sync name.now) (disk_outcome result)) }
        ensures cause { HasCause self.old.faults self.new.faults (IsErrOf result disk_err.Failed) }
        ensures faults { self.new.faults ≡ counted result self.old.faults }
        ensures mark { self.new.mark ≡ self.old.mark }
    {
        let next_succeeds = self.next_succeeds();
        let ok = both(next_succeeds, self.has(name));
        let call = MemEntry::Sync(Bytes::from_slice(self.alloc, name)?, ok);
        self.note(call)?;
        self.answer(ok)
    }

    fn remove(&mut self, name: &[u8]) -> Result<(), DiskErr>
        ensures call_log { LogGrew (log_of self.old.calls) (log_of self.new.calls) (log_of_call (outside.Remove name.now) (disk_outcome result)) }
        ensures cause { HasCause self.old.faults self.new.faults (IsErrOf result disk_err.Failed) }
        ensures faults { self.new.faults ≡ counted result self.old.faults }
        ensures mark { self.new.mark ≡ self.old.mark }
    {
        let next_succeeds = self.next_succeeds();
        let ok = both(next_succeeds, self.has(name));
        let call = MemEntry::Remove(Bytes::from_slice(self.alloc, name)?, ok);
        self.note(call)?;
        self.answer(ok)
    }

    fn read(&mut self, alloc: Global, name: &[u8], at: u64, len: u64) -> Result<Bytes, DiskErr>
        ensures call_log { LogGrew (log_of self.old.calls) (log_of self.new.calls) (log_of_call (outside.Read name.now at len) (disk_outcome result)) }
        ensures cause { HasCause self.old.faults self.new.faults (IsErrOf result disk_err.Failed) }
        ensures within { IfOk result (λ bytes. length bytes ≤ len) }
        ensures faults { self.new.faults ≡ counted result self.old.faults }
        ensures mark { self.new.mark ≡ self.old.mark }
    {
        let next_succeeds = self.next_succeeds();
        let given = self.part(alloc, next_succeeds, name, at, len)?;
        let answer = clone_optional(alloc, &given)?;
        let call = MemEntry::Read(Bytes::from_slice(self.alloc, name)?, at, len, answer);
        self.note(call)?;
        match given {
            Some(bytes) => Ok(bytes),
            None => Err(self.failure()),
        }
    }

    fn list(&mut self, alloc: Global, folder: &[u8]) -> Result<Names, DiskErr>
        ensures call_log { LogGrew (log_of self.old.calls) (log_of self.new.calls) (log_of_call (outside.ListNames folder.now) (disk_outcome result)) }
        ensures cause { HasCause self.old.faults self.new.faults (IsErrOf result disk_err.Failed) }
        ensures names { IfOk result IsListing }
        ensures faults { self.new.faults ≡ counted result self.old.faults }
        ensures mark { self.new.mark ≡ self.old.mark }
    {
        let next_succeeds = self.next_succeeds();
        let given = self.names(alloc, next_succeeds, folder)?;
        let answer = copy_of_names(alloc, &given)?;
        let call = MemEntry::List(Bytes::from_slice(self.alloc, folder)?, answer);
        self.note(call)?;
        match given {
            Some(names) => Ok(names),
            None => Err(self.failure()),
        }
    }
}
