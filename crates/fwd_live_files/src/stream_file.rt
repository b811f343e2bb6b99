//! A file that stands for a path: how far it was read, and whether it was truncated.

ghost use Rattle.std.specs.Prelude.{◌+◌, ◌≤◌, ◌↔◌, IfOk, IsTrue, length};

use crate::identity::{ChangeTime, Identity, identity_of};
use crate::reading::{read_part, read_to};
use fwd_base::Bytes;
use std::alloc::Global;
use std::fs::{self, File};
use std::io;
use std::os::unix::fs::MetadataExt;
use std::time::{Duration, Instant};

/// So many bytes before the offset that was reached show whether a file that is longer now only grew, or was
/// truncated before it grew.
const KNOWN: usize = 64;

/// Where the next read may begin.
#[derive(Clone, Copy, Debug, PartialEq, Eq)]
pub enum Progress {
    /// Nothing was read: anywhere.
    Unread,
    /// At the beginning: until that was read, the length is given as 0.
    Restarted,
    /// At the offset that was reached.
    Reading,
}

/// The last line of what was read.
#[derive(Clone, Copy, Debug, PartialEq, Eq)]
enum LastLine {
    /// It has its line feed, or nothing was read.
    Ended,
    /// It is unfinished.
    Open,
    /// It is unfinished, and the next read at the end gives its line feed.
    Closing,
}

/// What a query of a file's length finds.
#[derive(Clone, Copy, Debug, PartialEq, Eq)]
pub enum Finding {
    /// More is there to be read: the length that is given.
    Length(u64),
    /// The file was read to its end: the length that is given, and whether the file has a name.
    End(u64, bool),
    /// The file was truncated since the last read.
    Truncated,
    /// The file system doesn't keep the file's identity.
    Unidentified,
}

/// An open file, with what was read of it. Its stream has the file's bytes, and a line feed after a last line
/// that was left unfinished.
#[derive(Drop)]
pub struct StreamFile {
    file: File,
    identity: Identity,
    change_time: ChangeTime,
    progress: Progress,
    /// The offset in the file up to which it was read.
    offset: u64,
    /// How many line feeds the stream has that the file hasn't.
    added: u64,
    last_line: LastLine,
    /// Whether the file is the copy of one that was truncated, so that it doesn't grow.
    is_copy: bool,
    /// Since when the file is at its end and has no name.
    nameless_since: Option<Instant>,
    /// The last bytes before the offset that was reached.
    before: Vec<u8>,
}

impl StreamFile {
    /// Opens the file that has a path now.
    pub fn open(rt: &HostRuntime, path: &str, progress: Progress) -> io::Result<StreamFile> {
        let file = fs::open(rt, path)?;
        let about = file.metadata()?;
        Ok(StreamFile {
            file,
            identity: identity_of(&about),
            change_time: ChangeTime::of(&about),
            progress,
            offset: 0,
            added: 0,
            last_line: LastLine::Ended,
            is_copy: false,
            nameless_since: None,
            before: Vec::new(rt.alloc()),
        })
    }

    pub fn identity(&self) -> Identity {
        self.identity
    }

    /// Returns when the file was last changed, as of the last query of its length.
    pub fn change_time(&self) -> ChangeTime {
        self.change_time
    }

    /// Returns the offset up to which the file was read.
    pub fn offset(&self) -> u64 {
        self.offset
    }

    /// Returns whether the file is left as soon as another one has its path.
    pub fn is_copy(&self) -> bool {
        self.is_copy
    }

    /// Returns whether a read at this position of the stream follows the last one.
    pub fn is_expected(&self, at: u64) -> bool {
        self.progress == Progress::Unread || at == self.offset.saturating_add(self.added)
    }

    /// Goes on at an offset that was kept, in a file that has this length. An offset that is one greater than
    /// the length counts a line feed that the stream had and the file hasn't. Returns false if it is greater
    /// than that.
    pub fn resume_at(&mut self, offset: u64, length: u64) -> bool
        ensures { IsTrue result ↔ (offset ≤ length + 1) }
    {
        self.added = offset.saturating_sub(length);
        self.added <= 1
    }

    /// Begins anew, at the beginning of the file.
    pub fn restart(&mut self) {
        self.progress = Progress::Restarted;
        self.offset = 0;
        self.added = 0;
        self.last_line = LastLine::Ended;
        self.before.clear();
    }

    /// Goes on in the copy of the file.
    pub fn go_on_in(&mut self, copy: File, identity: Identity) {
        self.file = copy;
        self.identity = identity;
        self.is_copy = true;
    }

    /// Returns whether the bytes of a file before the offset that was reached are those that were read there.
    pub fn is_known_in(&self, file: &File) -> io::Result<bool> {
        let mut again = [0u8; KNOWN];
        let count = self.before.len().min(KNOWN);
        let part = &mut again[..count];
        let read = read_to(file, part, self.offset.saturating_sub(count as u64))?;
        Ok(read == count && *part == *self.before.as_slice())
    }

    /// Returns whether the file, which has this length now, was truncated since the last read.
    fn is_truncated(&self, length: u64) -> io::Result<bool> {
        Ok(length < self.offset || (self.offset < length && !self.is_known_in(&self.file)?))
    }

    /// Asks for the length of the file.
    pub fn find(&mut self) -> io::Result<Finding> {
        let about = self.file.metadata()?;
        if identity_of(&about) != self.identity {
            return Ok(Finding::Unidentified);
        }
        if self.progress == Progress::Restarted {
            return Ok(Finding::Length(0));
        }
        let length = about.len();
        if self.is_truncated(length)? {
            return Ok(Finding::Truncated);
        }
        self.change_time = ChangeTime::of(&about);
        let stream_length = length.saturating_add(self.added);
        if self.offset < length {
            self.nameless_since = None;
            return Ok(Finding::Length(stream_length));
        }
        Ok(Finding::End(stream_length, about.nlink() != 0))
    }

    /// Returns whether the file has had no name for this long. Notes the time at the first call.
    pub fn was_removed(&mut self, rt: &HostRuntime, linger: Duration) -> bool {
        let Ok(now) = Instant::now(rt) else {
            return false;
        };
        match self.nameless_since {
            Some(since) => linger <= now.duration_since(since),
            None => {
                self.nameless_since = Some(now);
                false
            }
        }
    }

    /// Ends an unfinished last line: the next read at the end gives a line feed. Returns whether there is
    /// one.
    pub fn end_line(&mut self) -> bool {
        if self.last_line == LastLine::Ended {
            return false;
        }
        self.last_line = LastLine::Closing;
        true
    }

    /// Begins at an offset, with the bytes before it as known ones.
    fn begin(&mut self, alloc: Global, at: u64) -> io::Result<()> {
        let count = at.min(KNOWN as u64);
        let known = read_part(&self.file, alloc, at - count, count)?;
        self.before = known.into_vec();
        self.offset = at;
        Ok(())
    }

    /// Notes bytes that were read at an offset.
    fn note_read(&mut self, alloc: Global, at: u64, bytes: &[u8]) -> io::Result<()> {
        let kept = KNOWN.saturating_sub(bytes.len());
        let skipped = self.before.len().saturating_sub(kept);
        let mut known = Vec::new(alloc);
        known.extend_from_slice(&self.before[skipped..])?;
        known.extend_from_slice(&bytes[bytes.len().saturating_sub(KNOWN)..])?;
        self.before = known;
        self.offset = at.saturating_add(bytes.len() as u64);
        self.last_line = match bytes.last() {
            Some(b'\n') => LastLine::Ended,
            Some(_) => LastLine::Open,
            None => self.last_line,
        };
        Ok(())
    }

    /// Reads at most `max` bytes at the end of the file: the line feed of a line that is to be ended, or
    /// nothing.
    fn read_at_end(&mut self, alloc: Global, max: u64) -> io::Result<Bytes>
        ensures { IfOk result (λ bytes. length bytes ≤ max) }
    {
        let mut part = Vec::new(alloc);
        if self.last_line == LastLine::Closing && 1 <= max {
            part.push(b'\n')?;
            self.last_line = LastLine::Ended;
            self.added = self.added.saturating_add(1);
        }
        Ok(Bytes::from_vec(part))
    }

    /// Reads at most `max` bytes from a position of the stream on. No bytes mean the end.
    pub fn read_at(&mut self, alloc: Global, at: u64, max: u64) -> io::Result<Bytes>
        ensures { IfOk result (λ bytes. length bytes ≤ max) }
    {
        let from = at.saturating_sub(self.added);
        let bytes = read_part(&self.file, alloc, from, max)?;
        if self.progress == Progress::Unread {
            self.begin(alloc, from)?;
        }
        self.progress = Progress::Reading;
        if bytes.is_empty() {
            return self.read_at_end(alloc, max);
        }
        self.note_read(alloc, from, bytes.as_slice())?;
        Ok(bytes)
    }
}
