//! Files in folders: atomic create, write, sync, remove, read and list.

ghost use Rattle.std.specs.Prelude.{◌≤◌, All, IfOk, IfSome, length};
ghost use Rattle.fwd_outside.specs.Disk.{IsFileName, IsListing};

use crate::answer::answer_of;
use crate::disk_log::{log_failure, log_unlocked, ok_or_hold, ok_or_log};
use crate::file_name::{TEMPORARY, complete_name, listing};
use crate::open_files::OpenFiles;
use crate::shared::Shared;
use crate::storage_root::{Access, FILE_MODE, FOLDER_MODE, is_full, own_folder};
use fwd_live_files::{LAST_OFFSET, read_to};
use fwd_live_sockets::most_files;
use fwd_outside::{Bytes, Memory, Names};
use fwd_system::{folder_of, memory_error, text};
use std::alloc::Global;
use std::fs::{self, DirBuilder, DirEntry, File, OpenOptions};
use std::io::{self, ErrorKind, Write};
use std::os::unix::fs::{DirBuilderExt, FileExt, OpenOptionsExt};

/// How many files are kept open at most. With the folders they are fewer than the descriptors that the loop
/// reserves.
const MOST_FILES: usize = 32;

/// How many folders are kept open at most.
const MOST_FOLDERS: usize = 8;

/// Files by their paths. Those that were written or read last stay open, and so do their folders.
#[derive(Drop)]
pub struct Folders<'a> {
    rt: HostRuntime,
    shared: &'a Shared,
    access: Access,
    /// Whether the storage folder is locked. The first listing of a run is that of its storage folder.
    is_locked: bool,
    /// Files that are open for reading and writing.
    files: OpenFiles,
    /// Folders that are open, to be fsynced.
    folders: OpenFiles,
    /// Folders that were fsynced, so that a crash can't remove them.
    synced_folders: Vec<Bytes>,
    /// Files whose sync has failed. The system may have dropped the data that it couldn't write, so a
    /// later fsync may succeed without it.
    unsynced: Vec<Bytes>,
}

fn has_name(names: &[Bytes], name: &[u8]) -> bool {
    for known in names {
        if known.as_slice() == name {
            return true;
        }
    }
    false
}

/// Fsyncs a folder, so that a crash keeps its names as they are now.
fn sync_folder(rt: &HostRuntime, folder: &str) -> io::Result<()> {
    fs::open(rt, folder)?.sync_all()
}

/// Creates one folder, unless it exists, and fsyncs its parent. The parent of an existing one may be
/// unreadable: then this program didn't create the folder.
fn ensure_level(rt: &HostRuntime, level: &str) -> io::Result<()> {
    let mut how = DirBuilder::new();
    how.mode(FOLDER_MODE);
    match how.create(rt, level) {
        Ok(()) => sync_folder(rt, folder_of(level)),
        Err(error) if error.kind() == ErrorKind::AlreadyExists => {
            match sync_folder(rt, folder_of(level)) {
                Err(error) if error.kind() == ErrorKind::PermissionDenied => Ok(()),
                outcome => outcome,
            }
        }
        Err(error) => Err(error),
    }
}

/// Creates and fsyncs the level of a path that ends at `end`, if one does.
fn ensure_prefix(rt: &HostRuntime, path: &str, end: usize) -> io::Result<()> {
    match path.split_at_checked(end) {
        Some((level, rest)) if rest.is_empty() || rest.starts_with('/') => ensure_level(rt, level),
        Some((_, _)) => Ok(()),
        None => Ok(()),
    }
}

/// Creates a folder and its parents, and fsyncs all of them: a run that was killed may have created one
/// without an fsync.
fn ensure_folder(rt: &HostRuntime, folder: &str) -> io::Result<()> {
    if folder == "." || folder == "/" {
        return Ok(());
    }
    for end in 1..=folder.len() {
        ensure_prefix(rt, folder, end)?;
    }
    Ok(())
}

fn write_new(rt: &HostRuntime, part: &str, bytes: &[u8]) -> io::Result<File> {
    let mut how = OpenOptions::new();
    how.read(true).write(true).create(true).truncate(true);
    how.mode(FILE_MODE);
    let mut file = how.open(rt, part)?;
    file.write_all(bytes)?;
    file.sync_all()?;
    Ok(file)
}

/// Writes a file under a temporary name, fsyncs it and renames it.
fn rename_new(rt: &HostRuntime, path: &str, part: &str, bytes: &[u8]) -> io::Result<File> {
    let file = write_new(rt, part, bytes)?;
    fs::rename(rt, part, path)?;
    Ok(file)
}

/// Creates a file, which a crash may remove until its folder is fsynced. If that fails, removes the temporary
/// file.
fn create_or_clean_up(
    rt: &HostRuntime,
    name: &[u8],
    part: &[u8],
    bytes: &[u8],
) -> io::Result<File> {
    let path = text(name)?;
    let part = text(part)?;
    match rename_new(rt, path, part, bytes) {
        Ok(file) => Ok(file),
        Err(error) => {
            let _ = fs::remove_file(rt, part);
            Err(error)
        }
    }
}

fn open_file(rt: &HostRuntime, name: &[u8]) -> io::Result<File> {
    let mut how = OpenOptions::new();
    how.read(true).write(true);
    how.open(rt, text(name)?)
}

fn write_to(file: &File, at: u64, bytes: &[u8]) -> io::Result<()> {
    if at > LAST_OFFSET {
        return Err(io::Error::from(ErrorKind::InvalidInput));
    }
    file.write_all_at(bytes, at)
}

fn read_from(file: &File, alloc: Global, at: u64, len: u64) -> io::Result<Bytes>
    ensures { IfOk result (λ bytes. length bytes ≤ len) }
{
    if at > LAST_OFFSET {
        return Err(io::Error::from(ErrorKind::InvalidInput));
    }
    let there = file.metadata()?.len().saturating_sub(at);
    let mut part = Vec::new(alloc);
    part.resize(len.min(there) as usize, 0)?;
    let count = read_to(file, &mut part, at)?;
    part.truncate(count);
    Ok(Bytes::from_vec(part))
}

/// Returns the name of an entry; `None` if it isn't text, or isn't a complete file.
fn name_of(alloc: Global, entry: io::Result<DirEntry>) -> io::Result<Option<Bytes>>
    ensures { IfOk result (λ found. IfSome found IsFileName) }
{
    match entry {
        Ok(entry) => complete_name(alloc, entry.file_name()).map_err(memory_error),
        Err(error) if error.kind() == ErrorKind::InvalidFilename => Ok(None),
        Err(error) => Err(error),
    }
}

fn names_in(rt: &HostRuntime, alloc: Global, folder: &[u8]) -> io::Result<Vec<Bytes>>
    ensures { IfOk result (λ names. All IsFileName names.items) }
{
    let mut names = Vec::new(alloc);
    let entries = match fs::read_dir(rt, text(folder)?) {
        Ok(entries) => entries,
        Err(error) if error.kind() == ErrorKind::NotFound => return Ok(names),
        Err(error) if error.kind() == ErrorKind::NotADirectory => return Ok(names),
        Err(error) => return Err(error),
    };
    for entry in entries {
        if let Some(name) = name_of(alloc, entry)? {
            names.push(name)?;
        }
    }
    Ok(names)
}

/// Returns how many files, or folders, are kept open at most: one in 32 of the descriptors that the process
/// may have.
fn most_open(rt: &HostRuntime) -> usize {
    most_files(rt) / 8
}

impl<'a> Folders<'a> {
    pub fn new(rt: HostRuntime, shared: &'a Shared, access: Access) -> Self {
        let alloc = rt.alloc();
        let most = most_open(&rt);
        Folders {
            rt,
            shared,
            access,
            is_locked: false,
            files: OpenFiles::new(alloc, most.min(MOST_FILES)),
            folders: OpenFiles::new(alloc, most.min(MOST_FOLDERS)),
            synced_folders: Vec::new(alloc),
            unsynced: Vec::new(alloc),
        }
    }

    /// Creates and fsyncs the folder of a file, once.
    fn ensure_parent(&mut self, name: &[u8]) -> io::Result<()> {
        let folder = folder_of(text(name)?);
        if has_name(&self.synced_folders, folder.as_bytes()) {
            return Ok(());
        }
        ensure_folder(&self.rt, folder)?;
        if let Ok(folder) = Bytes::from_slice(self.rt.alloc(), folder.as_bytes()) {
            let _ = self.synced_folders.push(folder);
        }
        Ok(())
    }

    /// Fsyncs a folder, so that a crash keeps its names as they are now. The folder stays open. An fdatasync
    /// isn't enough: names needn't change the length of the folder.
    fn sync_names(&mut self, folder: &str) -> io::Result<()> {
        if let Some(open) = self.folders.get(folder.as_bytes()) {
            return open.sync_all();
        }
        let open = fs::open(&self.rt, folder)?;
        open.sync_all()?;
        if let Ok(name) = Bytes::from_slice(self.rt.alloc(), folder.as_bytes()) {
            let _ = self.folders.keep(name, open);
        }
        Ok(())
    }

    /// Creates a file in a folder that exists, and fsyncs the folder.
    fn place_file(&mut self, name: &[u8], part: &[u8], bytes: &[u8]) -> io::Result<File> {
        let file = create_or_clean_up(&self.rt, name, part, bytes)?;
        self.sync_names(folder_of(text(name)?))?;
        Ok(file)
    }

    /// Creates a file in its folder. If the folder was removed since, it is created again.
    fn place_in_folder(&mut self, name: &[u8], part: &[u8], bytes: &[u8]) -> io::Result<File> {
        self.ensure_parent(name)?;
        match self.place_file(name, part, bytes) {
            Err(error) if error.kind() == ErrorKind::NotFound => {
                self.synced_folders.clear();
                self.folders.clear();
                self.files.clear();
                self.ensure_parent(name)?;
                self.place_file(name, part, bytes)
            }
            outcome => outcome,
        }
    }

    /// Creates a file. If there is no room for it, it gets that of the reserve.
    fn place_with_reserve(&mut self, name: &[u8], part: &[u8], bytes: &[u8]) -> io::Result<File> {
        match self.place_in_folder(name, part, bytes) {
            Err(error) if is_full(&error) && self.shared.release("created", name, &error) => {
                self.place_in_folder(name, part, bytes)
            }
            outcome => outcome,
        }
    }

    /// Creates a file, and its folder if it is missing. Returns `None` if the system refuses.
    pub fn place(&mut self, name: &[u8], bytes: &[u8]) -> Result<Option<()>, Memory> {
        let mut part = Bytes::from_slice(self.rt.alloc(), name)?;
        part.extend_from_slice(TEMPORARY.as_bytes())?;
        let name = Bytes::from_slice(self.rt.alloc(), name)?;
        // What is open under this name won't be the file of the name any more.
        self.files.close(name.as_slice());
        let placed = self.place_with_reserve(name.as_slice(), part.as_slice(), bytes);
        match ok_or_hold(self.shared, "created", name.as_slice(), placed) {
            Some(file) => {
                // If there is no memory to keep it open, the next call on it opens it.
                let _ = self.files.keep(name, file);
                Ok(Some(()))
            }
            None => Ok(None),
        }
    }

    /// Opens a file for reading and writing, unless it is open. It stays open.
    fn ensure_open(&mut self, name: &[u8]) -> Result<io::Result<()>, Memory> {
        if self.files.contains(name) {
            return Ok(Ok(()));
        }
        let kept = Bytes::from_slice(self.rt.alloc(), name)?;
        match open_file(&self.rt, name) {
            Ok(file) => Ok(Ok(self.files.keep(kept, file)?)),
            Err(error) => Ok(Err(error)),
        }
    }

    /// Returns a file to write to. `None` if it can't be opened.
    fn open(&mut self, name: &[u8]) -> Result<Option<&File>, Memory> {
        let opened = self.ensure_open(name)?;
        match ok_or_hold(self.shared, "opened", name, opened) {
            Some(()) => Ok(self.files.get(name)),
            None => Ok(None),
        }
    }

    /// Writes from an offset on. If there is no room for it, it gets that of the reserve. Returns `None` if
    /// the system refuses.
    pub fn write_at(&mut self, name: &[u8], at: u64, bytes: &[u8]) -> Result<Option<()>, Memory> {
        let shared = self.shared;
        let Some(file) = self.open(name)? else {
            return Ok(None);
        };
        let written = match write_to(file, at, bytes) {
            Err(error) if is_full(&error) && shared.release("written", name, &error) => {
                write_to(file, at, bytes)
            }
            outcome => outcome,
        };
        Ok(ok_or_hold(shared, "written", name, written))
    }

    /// Syncs the bytes of a file and its length by fdatasync. The rest isn't needed to read them, and the
    /// file's name was synced when it was placed or listed. Returns `None` if the system refuses, now or at
    /// an earlier sync of this file.
    pub fn sync(&mut self, name: &[u8]) -> Result<Option<()>, Memory> {
        let shared = self.shared;
        if has_name(&self.unsynced, name) {
            shared.note_failure("synced", name, &"an earlier sync of it failed");
            return Ok(None);
        }
        let kept = Bytes::from_slice(self.rt.alloc(), name)?;
        self.unsynced.reserve(1)?;
        let Some(file) = self.open(name)? else {
            return Ok(None);
        };
        let answer = ok_or_hold(shared, "synced", name, file.sync_data());
        if answer.is_none() {
            self.unsynced.push(kept)?;
        }
        Ok(answer)
    }

    fn remove_file(&mut self, name: &[u8]) -> io::Result<()> {
        let path = text(name)?;
        fs::remove_file(&self.rt, path)?;
        self.sync_names(folder_of(path))
    }

    /// Removes a file. Returns `None` if the system refuses.
    pub fn remove(&mut self, name: &[u8]) -> Option<()> {
        self.files.close(name);
        let removed = self.remove_file(name);
        ok_or_log(&self.shared.journal, "removed", name, removed)
    }

    /// Reads a file from an offset on, by a handle of its own if it isn't open.
    fn read_file(&mut self, alloc: Global, name: &[u8], at: u64, len: u64) -> io::Result<Bytes>
        ensures { IfOk result (λ bytes. length bytes ≤ len) }
    {
        match self.files.get(name) {
            Some(file) => read_from(file, alloc, at, len),
            None => read_from(&fs::open(&self.rt, text(name)?)?, alloc, at, len),
        }
    }

    /// Reads from an offset on. The file stays open if it may be written too. Returns `None` if the system
    /// refuses.
    pub fn read(
        &mut self,
        alloc: Global,
        name: &[u8],
        at: u64,
        len: u64,
    ) -> Result<Option<Bytes>, Memory>
        ensures { IfOk result (λ answer. IfSome answer (λ bytes. length bytes ≤ len)) }
    {
        let _ = self.ensure_open(name)?;
        let outcome = self.read_file(alloc, name, at, len);
        log_failure(&self.shared.journal, "read", name, &outcome);
        answer_of(outcome)
    }

    /// Creates the storage folder and locks it, before the first listing of a run that owns it.
    fn lock(&mut self, folder: &[u8]) -> io::Result<()> {
        if self.is_locked || self.access == Access::Reader {
            return Ok(());
        }
        let folder = text(folder)?;
        ensure_folder(&self.rt, folder)?;
        own_folder(&self.rt, self.shared, folder)?;
        self.is_locked = true;
        Ok(())
    }

    /// Lists the names of the complete files in a folder. A run that owns the storage folder fsyncs the
    /// folder then, so that a crash keeps these files: a run that was killed may have left them without that.
    fn list_folder(&mut self, alloc: Global, folder: &[u8]) -> io::Result<Vec<Bytes>>
        ensures { IfOk result (λ names. All IsFileName names.items) }
    {
        let names = names_in(&self.rt, alloc, folder)?;
        if self.access == Access::Owner && !names.is_empty() {
            self.sync_names(text(folder)?)?;
        }
        Ok(names)
    }

    /// Lists the names of the complete files in a folder. Returns `None` if the system refuses, or another
    /// run has the storage folder.
    pub fn list(&mut self, alloc: Global, folder: &[u8]) -> Result<Option<Names>, Memory>
        ensures { IfOk result (λ answer. IfSome answer IsListing) }
    {
        let owned = self.lock(folder);
        log_unlocked(&self.shared.journal, folder, &owned);
        if answer_of(owned)?.is_none() {
            return Ok(None);
        }
        let outcome = self.list_folder(alloc, folder);
        log_failure(&self.shared.journal, "listed", folder, &outcome);
        match answer_of(outcome)? {
            Some(names) => Ok(Some(listing(names)?)),
            None => Ok(None),
        }
    }
}
