ghost use Rattle.std.specs.Prelude.{◌≡◌, ℕ, Bool, List, [], Some, IfOk, OnOk, OnErr, IsErrOf};
ghost use Rattle.std.specs.Str.{bytes_eq};
ghost use Rattle.fwd_outside.specs.Cause.{HasCause};
ghost use Rattle.fwd_in_tail.specs.Followed.{Followed, settled};
ghost use Rattle.fwd_in_tail.specs.declared.tail.TailErr.TheVariants.{FileFault};
ghost use Rattle.fwd_model.specs.FollowedFiles.{unread};
ghost use Rattle.fwd_engine_inputs.specs.FileRepresents.{FileRepresents, FilePolled};

use fwd_base::{Bytes, Memory};
use fwd_frames::Lines;
use fwd_in_tail::{Tail, TailErr};
use fwd_outside::Files;
use std::alloc::Global;

/// A followed file, with its path and start position, since `resume` begins a new `Tail`.
#[derive(Drop)]
pub struct FollowedFile {
    path: Bytes,
    from_head: bool,
    tail: Tail,
}

impl FollowedFile {
    /// Follows the file of a path, of which nothing was read.
    pub fn new(alloc: Global, path: &[u8], from_head: bool) -> Result<FollowedFile, Memory>
        ensures { IfOk result (FileRepresents path.now from_head unread) }
    {
        Ok(FollowedFile {
            path: Bytes::from_slice(alloc, path)?,
            from_head,
            tail: Tail::new(alloc, path, from_head)?,
        })
    }

    /// Polls the file, and returns the lines that end in what was read. After an `Err` it is unchanged.
    pub fn poll<F: Files>(&mut self, files: &mut F) -> Result<Lines, TailErr>
        ensures polls { (path : List ℕ) (from_head : Bool) (f : Followed) → FileRepresents path from_head f self.old →
            FilePolled (F.call_log files.old) (F.call_log files.new) path from_head f self.new result }
        ensures err { OnErr result (self.new ≡ self.old) }
        ensures cause { HasCause (F.faults files.old) (F.faults files.new) (IsErrOf result FileFault) }
    {
        self.tail.poll(files)
    }

    /// Continues at an offset, with no rest of a line. After `Memory` it is unchanged.
    pub fn resume(&mut self, alloc: Global, place: u64) -> Result<(), Memory>
        ensures resumes { (path : List ℕ) (from_head : Bool) (f : Followed) → FileRepresents path from_head f self.old →
            OnOk result (FileRepresents path from_head (record { place = Some place; said = [] }) self.new) }
        ensures err { OnErr result (self.new ≡ self.old) }
    {
        let mut tail = Tail::new(alloc, self.path.as_slice(), self.from_head)?;
        tail.resume(place);
        self.tail = tail;
        Ok(())
    }

    /// Returns the offset after the last whole line that was read.
    pub fn settled(&self) -> Option<u64>
        ensures { (path : List ℕ) (from_head : Bool) (f : Followed) → FileRepresents path from_head f self.now → result ≡ settled f }
    {
        self.tail.settled()
    }

    /// Whether it is the file of a path.
    pub fn has_path(&self, path: &[u8]) -> bool
        ensures { (its : List ℕ) (from_head : Bool) (f : Followed) → FileRepresents its from_head f self.now → result ≡ bytes_eq its path.now }
    {
        self.path.as_slice() == path
    }
}
