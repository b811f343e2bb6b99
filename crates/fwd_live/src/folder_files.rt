//! `Files` on the file system, for the files that the program follows.

ghost use Rattle.std.specs.Prelude.{Some, [], ◌≡◌, IsErrOf};
ghost use Rattle.fwd_outside.specs.Cause.{HasCause};
ghost use Rattle.fwd_outside.specs.Files.{FilesGiven, outcome};
ghost use Rattle.fwd_outside.specs.declared.errors.FileErr.TheVariants.{Failed};

use crate::answer::answer_of;
use crate::disk_log::log_unread;
use crate::files_calls::FilesCalls;
use crate::shared::Shared;
use fwd_base::limits::LONGEST_READ;
use fwd_live_files::{FollowedFiles, Identities};
use fwd_live_sockets::most_files;
use fwd_outside::{Bytes, FileErr, Files};
use std::alloc::Global;
use std::io;
use std::time::Duration;

/// For how many milliseconds another file with bytes has had a path before the one that was read to its end
/// is left.
const LINGER: u64 = 1_000;

/// Within how many milliseconds a file is read again that is being written.
const WRITTEN: u64 = 50;

/// Followed files and configuration files. What a path stands for is what `FollowedFiles` says. Before the loop is
/// started, a path that has no length, as a pipe, is read to its end when its length is asked for.
#[derive(Drop)]
pub struct FolderFiles<'a> {
    files: FollowedFiles<'a>,
    shared: &'a Shared,
    faults: u64,
    calls: FilesCalls,
}

impl<'a> FolderFiles<'a> {
    /// Returns the files with an empty log. A followed path goes on in the file that `identities` want for
    /// it. The caller picks the initial files.
    pub fn new(rt: HostRuntime, shared: &'a Shared, identities: &'a Identities) -> Self
        ghost given: { FilesGiven }
        ensures { (result.calls.given ≡ given) × (result.calls.entries ≡ []) }
    {
        let linger = Duration::from_millis(LINGER);
        FolderFiles {
            files: FollowedFiles::new(rt, identities, linger, most_files(&rt)),
            shared,
            faults: 0,
            calls: FilesCalls::new(),
        }
    }

    /// Returns the number of bytes that a read gives at most: none while the disk fails.
    fn most(&self) -> u64 {
        if self.shared.disk_failed.get() {
            0
        } else {
            LONGEST_READ
        }
    }

    /// Notes for the loop how many descriptors are held, and when the next reading is wanted after one that
    /// gave this many bytes: at once if they were as many as a read gives at most.
    fn share(&self, read: u64) {
        self.shared.held_files.set(self.files.handles());
        if LONGEST_READ <= read {
            self.shared.read_within.set(0);
        } else if 1 <= read {
            let within = self.shared.read_within.get().min(WRITTEN);
            self.shared.read_within.set(within);
        }
    }

    /// Returns what a call gave, or the failure, which it counts.
    fn result_of<T>(&mut self, answer: Option<T>) -> Result<T, FileErr>
        ensures outcome { outcome result ≡ Some answer }
        ensures cause { HasCause self.old.faults self.new.faults (IsErrOf result Failed) }
        ensures calls { self.new.calls ≡ self.old.calls }
    {
        match answer {
            Some(value) => Ok(value),
            None => {
                self.faults = self.faults.saturating_add(1);
                Err(FileErr::Failed)
            }
        }
    }
}

/// Returns the length of a path; of one that has none, once it was read to its end.
fn length_in(files: &mut FollowedFiles<'_>, is_started: bool, path: &[u8]) -> io::Result<u64> {
    if !is_started {
        files.read_stream(path)?;
    }
    files.length(path)
}

fn length_of(answer: &Option<Bytes>) -> u64 {
    match answer {
        Some(bytes) => bytes.len() as u64,
        None => 0,
    }
}

impl<'a> Files for FolderFiles<'a> {
    ghost faults = { λ files. files.faults };

    ghost call_log = { λ files. Some (files.calls.given, files.calls.entries) };

    fn length(&mut self, path: &[u8]) -> Result<u64, FileErr> {
        let outcome = length_in(&mut self.files, self.shared.is_started.get(), path);
        log_unread(&self.shared.journal, path, &outcome);
        let answer = answer_of(outcome)?;
        self.share(0);
        self.calls = self.calls.then(&(path, answer));
        self.result_of(answer)
    }

    fn read_at(&mut self, alloc: Global, path: &[u8], at: u64, max: u64) -> Result<Bytes, FileErr> {
        let most = self.most().min(max);
        let outcome = self.files.read_at(alloc, path, at, most);
        log_unread(&self.shared.journal, path, &outcome);
        let answer = answer_of(outcome)?;
        self.share(length_of(&answer));
        self.calls = self.calls.then(&(path, at, max, &answer));
        self.result_of(answer)
    }
}
