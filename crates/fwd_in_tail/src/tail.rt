//! The state of a followed file, and its polls.

ghost use Rattle.std.specs.Prelude.{◌≡◌, ◌-◌, ◌^◌, ◌≤◌, Some, None, [], IfOk, OnErr, IsErrOf, option_map};
ghost use Rattle.fwd_outside.specs.Cause.{HasCause};
ghost use Rattle.fwd_in_tail.specs.Followed.{Followed, from_place, is_cut, read_before, settled};
ghost use Rattle.fwd_in_tail.specs.Polls.{TailRepresents, IsNewTail, PollsAs, ReadsLines};
ghost use Rattle.fwd_in_tail.specs.declared.tail.TailErr.TheVariants.{FileFault};
ghost use Rattle.fwd_in_tail.specs.declared.tail.TailErr.TheVariants as tail_err;

use crate::rest_length::rest_after;
use fwd_base::limits::LONGEST_READ;
use fwd_base::{Bytes, Memory};
use fwd_frames::{Frames, Lines};
use fwd_outside::{FileErr, Files};
use std::alloc::Global;
use std::marker::Model;
use thiserror::Error;

/// Why a poll returned no lines.
#[derive(Clone, Copy, Debug, PartialEq, Eq, Error)]
pub enum TailErr {
    /// The file can't be read, or isn't there.
    #[error("the followed file can't be read")]
    FileFault,

    #[error("out of memory")]
    Memory,
}

impl From<FileErr> for TailErr {
    ghost use Rattle.fwd_in_tail.specs.Polls.{tail_err_of};

    ghost from_gives = { λ error e. e ≡ tail_err_of error };

    fn from(error: FileErr) -> Self {
        match error {
            FileErr::Failed => TailErr::FileFault,
            FileErr::Memory => TailErr::Memory,
        }
    }
}

impl From<Memory> for TailErr {
    ghost from_gives = { λ _ e. e ≡ tail_err.Memory };

    fn from(_: Memory) -> Self {
        TailErr::Memory
    }
}

/// A followed file, with the position up to which it was read.
#[derive(Debug, Drop)]
pub struct Tail {
    path: Bytes,
    from_head: bool,
    place: Option<u64>,
    frames: Frames,
    /// How many bytes were read after the last line feed.
    left: u64,
    alloc: Global,
}

impl Model for Tail {
    ghost use Rattle.fwd_in_tail.specs.Polls.{TailView};

    ghost Value = { TailView };

    ghost view = { λ t. record {
      path = t.path;
      from_head = t.from_head;
      place = t.place;
      kept = t.frames;
      left = t.left;
    } };
}

impl Tail {
    /// Follows the file at a path: from its beginning, or from its end at the first poll.
    pub fn new(alloc: Global, path: &[u8], from_head: bool) -> Result<Self, Memory>
        ensures { IfOk result (IsNewTail path.now from_head) }
    {
        Ok(Tail {
            path: Bytes::from_slice(alloc, path)?,
            from_head,
            place: None,
            frames: Frames::new(alloc),
            left: 0,
            alloc,
        })
    }

    /// Returns where the next read begins, in a file of this length.
    fn read_start(&self, long: u64) -> u64
        ensures { result ≡ from_place self.now.from_head long self.now.place }
    {
        match self.place {
            None if self.from_head => 0,
            None => long,
            Some(place) if long < place => 0,
            Some(place) => place,
        }
    }

    /// Returns whether the file was truncated, given its length.
    fn is_cut(&self, long: u64) -> bool
        ensures { result ≡ is_cut long self.now.place }
    {
        match self.place {
            None => false,
            Some(place) => long < place,
        }
    }

    /// Adds bytes that were read from a position, and returns the lines that end in them.
    fn append_read(&mut self, from: u64, bytes: &[u8]) -> Result<Lines, Memory>
        ensures lines { (f : Followed) → TailRepresents self.old f →
            ReadsLines self.old self.new from f.said bytes.now result }
        ensures err { OnErr result (self.new ≡ self.old) }
    {
        let lines = self.frames.feed(bytes)?;
        self.left = rest_after(self.left, bytes);
        self.place = Some(from.saturating_add(bytes.len() as u64));
        Ok(lines)
    }

    /// Adds bytes that were read from a position, with no rest before them, and returns the lines that end
    /// in them.
    fn restart_read(&mut self, from: u64, bytes: &[u8]) -> Result<Lines, Memory>
        ensures lines { ReadsLines self.old self.new from [] bytes.now result }
        ensures err { OnErr result (self.new ≡ self.old) }
    {
        let mut frames = Frames::new(self.alloc);
        let lines = frames.feed(bytes)?;
        self.frames = frames;
        self.left = rest_after(0, bytes);
        self.place = Some(from.saturating_add(bytes.len() as u64));
        Ok(lines)
    }

    /// Adds what was read of a file of this length.
    fn take_in(&mut self, long: u64, from: u64, bytes: &[u8]) -> Result<Lines, Memory>
        ensures lines { (f : Followed) → TailRepresents self.old f →
            ReadsLines self.old self.new from (read_before long f) bytes.now result }
        ensures err { OnErr result (self.new ≡ self.old) }
    {
        if self.is_cut(long) {
            self.restart_read(from, bytes)
        } else {
            self.append_read(from, bytes)
        }
    }

    /// Asks for the length of the file once, then reads once from the position reached before, and returns
    /// the lines that end in what was read. After an `Err` the position and the rest of a line are
    /// unchanged.
    pub fn poll<F: Files>(&mut self, files: &mut F) -> Result<Lines, TailErr>
        ensures polls { (f : Followed) → TailRepresents self.old f →
            PollsAs (F.call_log files.old) (F.call_log files.new) self.old self.new f result }
        ensures err { OnErr result (self.new ≡ self.old) }
        ensures cause { HasCause (F.faults files.old) (F.faults files.new) (IsErrOf result FileFault) }
    {
        let long = files.length(self.path.as_slice())?;
        let from = self.read_start(long);
        let bytes = files.read_at(self.alloc, self.path.as_slice(), from, LONGEST_READ)?;
        Ok(self.take_in(long, from, bytes.as_slice())?)
    }

    /// Returns the position after the last whole line that was read. `None` if no position was resumed and
    /// no poll was answered yet.
    pub fn settled(&self) -> Option<u64>
        ensures { (f : Followed) → TailRepresents self.now f → result ≡ settled f }
    {
        match self.place {
            None => None,
            Some(place) => Some(place.saturating_sub(self.left)),
        }
    }

    /// Continues from a position that `settled` returned in an earlier run.
    pub fn resume(&mut self, place: u64)
        requires { self.old.place ≡ None }
        ensures follows { (f : Followed) → TailRepresents self.old f →
            TailRepresents self.new (record f { place = Some place }) }
        ensures same { self.new ≡ (record self.old { place = Some place }) }
    {
        self.place = Some(place);
    }
}
