//! The types of a schedule.

ghost use Rattle.std.specs.Prelude.{◌≡◌};
ghost use Rattle.fwd_script.specs.Schedule.{empty_life};

use fwd_base::{Bytes, Items, OutputId};
use fwd_files_mem::FileChange;
use fwd_outside::Happening;
use std::alloc::Global;

/// The events and the answers of the platform, run by run. There is at least one run. Every run but the last
/// ends in a crash.
#[derive(Debug, Drop, PartialEq, Eq)]
pub struct Schedule {
    pub lives: Lives,
}

/// The time from loading to a crash or to the end of the run. If it ends in a crash, the last of its lines
/// is the loop event in which the crash comes.
#[derive(Debug, Drop, PartialEq, Eq)]
pub struct Life {
    /// The loop events and the changes of files, in order.
    pub lines: Plan,
    /// The answers of the platform, in order.
    pub answers: GivenList,
    /// The numbers of the disk calls that fail, counted from 1.
    pub disk_fails: Calls,
    /// The numbers of the file calls that fail, counted from 1.
    pub file_fails: Calls,
    /// The files on the disk before the first run.
    pub store: StoredList,
    /// The crash that ends the run.
    pub cut: Option<Cut>,
}

impl Life {
    /// Returns a run without lines.
    pub fn new(alloc: Global) -> Self
        ensures { result ≡ empty_life }
    {
        Life {
            lines: Items::new(alloc),
            answers: Items::new(alloc),
            disk_fails: Items::new(alloc),
            file_fails: Items::new(alloc),
            store: Items::new(alloc),
            cut: None,
        }
    }
}

/// A crash: the disk keeps the post-crash state `pick` after `calls` calls of the last loop event.
#[derive(Clone, Copy, Debug, PartialEq, Eq)]
pub struct Cut {
    pub calls: u64,
    pub pick: u64,
}

/// A file on the disk before the first run.
#[derive(Debug, Drop, PartialEq, Eq)]
pub struct Stored {
    pub name: Bytes,
    pub bytes: Bytes,
}

/// A planned line: loop events, or the change of a file.
#[derive(Debug, Drop, PartialEq, Eq)]
pub enum Planned {
    /// One loop event.
    Happens(Happening),
    /// `count` clock readings, from `first` by `step`, in milliseconds. A reading above 2^64 - 1 counts as
    /// that.
    Ticks { first: u64, step: u64, count: u64 },
    /// A change of a file.
    Changes(FileChange),
}

/// An answer of the platform.
#[derive(Clone, Copy, Debug, PartialEq, Eq)]
pub enum Given {
    /// To a dial of the output: a link, or a refusal.
    Dial { output: OutputId, taken: bool },
    /// To a push to the output.
    Push { output: OutputId, push: PushWord },
    /// To a reply: it is written, or the connection breaks.
    Reply { taken: bool },
    /// A random word.
    Word(u64),
}

/// An answer to a push.
#[derive(Clone, Copy, Debug, PartialEq, Eq)]
pub enum PushWord {
    /// This many bytes were written. A number above the length of the push means all.
    Took(u64),
    /// No byte is written now.
    Again,
    /// The link breaks.
    Broken,
}

/// Runs, in order.
pub type Lives = Items<Life>;

/// Loop events and changes of files, in order.
pub type Plan = Items<Planned>;

/// Answers of the platform, in order.
pub type GivenList = Items<Given>;

/// Numbers of calls, counted from 1.
pub type Calls = Items<u64>;

/// Files on the disk.
pub type StoredList = Items<Stored>;
