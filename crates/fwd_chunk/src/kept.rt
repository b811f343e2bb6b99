//! A chunk of the store: in a file that it created, in a recovered file, or in memory.

ghost use Rattle.std.specs.Prelude.{◌≡◌, ◌+◌, ◌<◌, ◌≤◌, ◌^◌, length, IfOk, OnOk, OnErr, IsErrOf, is_some};
ghost use Rattle.fwd_base.specs.Limits.{chunk_header, longest_file};
ghost use Rattle.fwd_outside.specs.Log.{RunsFallible};
ghost use Rattle.fwd_outside.specs.Cause.{HasCause};
ghost use Rattle.fwd_outside.specs.Disk.{disk_outcome};
ghost use Rattle.fwd_outside.specs.declared.errors.DiskErr.TheVariants.{Failed};
ghost use Rattle.fwd_chunk.specs.Append.{stage_program, commit_program, committed_head};
ghost use Rattle.fwd_outside.specs.Program.{and_then};
ghost use Rattle.fwd_chunk.specs.declared.content.PartErr.TheVariants.{DiskFailed};
ghost use Rattle.fwd_chunk.specs.Kept.{size_of, end_of, file_of, appends, after_append, remove_program, settle_kept_program, HasRoom, FitsItsNames};
ghost use Rattle.fwd_chunk.specs.Content.{ReadReturns, read_content_program, IsContentOf, HasRecordedLength};

use crate::content::{PartErr, check_events, check_length, read_part};
use crate::{ChunkHead, commit, settle, stage};
use fwd_base::limits::CHUNK_HEADER;
use fwd_event::Events;
use fwd_outside::{Bytes, Disk, DiskErr};
use std::alloc::Global;

/// Where the content of a chunk is.
#[derive(Debug, Drop)]
pub enum Kept {
    /// In a file that this run created.
    InFile(ChunkHead),
    /// In a recovered file. The selector of its head isn't read.
    Adopted(ChunkHead),
    /// In memory alone.
    InMemory(Bytes),
}

impl Kept {
    /// Returns the length of the content in bytes.
    pub fn size(&self) -> u64
        ensures { result ≡ size_of self.now }
    {
        match self {
            Kept::InFile(head) => head.size,
            Kept::Adopted(head) => head.size,
            Kept::InMemory(content) => content.len() as u64,
        }
    }

    /// Returns whether the chunk has a file.
    pub fn is_in_file(&self) -> bool
        ensures { result ≡ is_some (file_of self.now) }
    {
        !matches!(self, Kept::InMemory(_))
    }

    /// Appends a batch, and syncs it if `full`. An error leaves the chunk unchanged.
    pub fn append<D: Disk>(&mut self, disk: &mut D, batch: &[u8], full: bool) -> Result<(), DiskErr>
        requires { HasRoom self.old batch.now }
        ensures calls { RunsFallible (D.call_log disk.old) (D.call_log disk.new) (appends self.old batch.now full) (disk_outcome result) }
        ensures ok { OnOk result (self.new ≡ after_append self.old batch.now) }
        ensures err { OnErr result (self.new ≡ self.old) }
        ensures cause { HasCause (D.faults disk.old) (D.faults disk.new) (IsErrOf result Failed) }
    {
        match self {
            Kept::InFile(head) => append_to_file(disk, head, batch, full),
            Kept::Adopted(_) => Ok(()),
            Kept::InMemory(content) => Ok(content.extend_from_slice(batch)?),
        }
    }

    /// Returns the content. A content in a file must be whole events of the recorded length.
    pub fn content<D: Disk>(&self, alloc: Global, disk: &mut D) -> Result<Bytes, PartErr>
        requires { end_of self.now < 2 ^ 64 }
        ensures calls { ReadReturns (D.call_log disk.old) (D.call_log disk.new) (read_content_program self.now) (IsContentOf self.now) result }
        ensures cause { HasCause (D.faults disk.old) (D.faults disk.new) (IsErrOf result DiskFailed) }
    {
        match self.read(alloc, disk) {
            Ok(bytes) => self.check_content(alloc, bytes),
            Err(DiskErr::Failed) => Err(PartErr::DiskFailed),
            Err(DiskErr::Memory) => Err(PartErr::Memory),
        }
    }

    /// Returns the bytes of the content, as many as are recorded. It doesn't check that they encode events.
    pub fn bytes<D: Disk>(&self, alloc: Global, disk: &mut D) -> Result<Bytes, PartErr>
        requires { end_of self.now < 2 ^ 64 }
        ensures calls { ReadReturns (D.call_log disk.old) (D.call_log disk.new) (read_content_program self.now) (HasRecordedLength (size_of self.now)) result }
        ensures cause { HasCause (D.faults disk.old) (D.faults disk.new) (IsErrOf result DiskFailed) }
    {
        match self.read(alloc, disk) {
            Ok(bytes) => check_length(bytes, self.size()),
            Err(DiskErr::Failed) => Err(PartErr::DiskFailed),
            Err(DiskErr::Memory) => Err(PartErr::Memory),
        }
    }

    // Returns the bytes of the content that are there, no more than are recorded.
    fn read<D: Disk>(&self, alloc: Global, disk: &mut D) -> Result<Bytes, DiskErr>
        requires { end_of self.now < 2 ^ 64 }
        ensures calls { RunsFallible (D.call_log disk.old) (D.call_log disk.new) (read_content_program self.now) (disk_outcome result) }
        ensures within { IfOk result (λ bytes. length bytes ≤ size_of self.now) }
        ensures cause { HasCause (D.faults disk.old) (D.faults disk.new) (IsErrOf result Failed) }
    {
        match self {
            Kept::InFile(head) | Kept::Adopted(head) => {
                let name = head.name.as_slice();
                read_part(
                    alloc,
                    disk,
                    name,
                    CHUNK_HEADER as u64 + head.meta,
                    head.size,
                )
            }
            Kept::InMemory(content) => Ok(content.try_clone(alloc)?),
        }
    }

    // Returns the bytes if they are the content.
    fn check_content(&self, alloc: Global, bytes: Bytes) -> Result<Bytes, PartErr>
        requires { length bytes ≤ size_of self.now }
        ensures { IsContentOf self.now bytes result }
    {
        match self {
            Kept::InFile(head) | Kept::Adopted(head) => check_events(alloc, bytes, head.size),
            Kept::InMemory(_) => Ok(bytes),
        }
    }

    /// Records in the chunk's file that an output has its outcome. Returns false, with no disk call, if the
    /// chunk is in memory or its file doesn't name the output.
    pub fn settle<D: Disk>(&self, disk: &mut D, output: &[u8], full: bool) -> Result<bool, DiskErr>
        requires { FitsItsNames self.now }
        ensures calls { RunsFallible (D.call_log disk.old) (D.call_log disk.new) (settle_kept_program self.now output.now full) (disk_outcome result) }
        ensures cause { HasCause (D.faults disk.old) (D.faults disk.new) (IsErrOf result Failed) }
    {
        match self {
            Kept::InFile(head) => settle(disk, head, output, full),
            Kept::Adopted(head) => settle(disk, head, output, full),
            Kept::InMemory(_) => Ok(false),
        }
    }

    /// Removes the chunk's file, if it has one.
    pub fn remove<D: Disk>(&self, disk: &mut D) -> Result<(), DiskErr>
        ensures calls { RunsFallible (D.call_log disk.old) (D.call_log disk.new) (remove_program self.now) (disk_outcome result) }
        ensures cause { HasCause (D.faults disk.old) (D.faults disk.new) (IsErrOf result Failed) }
    {
        match self {
            Kept::InFile(head) => disk.remove(head.name.as_slice()),
            Kept::Adopted(head) => disk.remove(head.name.as_slice()),
            Kept::InMemory(_) => Ok(()),
        }
    }
}

/// Appends a batch to a chunk's file. An error leaves `head` unchanged.
fn append_to_file<D: Disk>(
    disk: &mut D,
    head: &mut ChunkHead,
    batch: &[u8],
    full: bool,
) -> Result<(), DiskErr>
    requires { chunk_header + head.old.meta + head.old.size + length batch.now ≤ longest_file }
    ensures calls { RunsFallible (D.call_log disk.old) (D.call_log disk.new) (and_then (stage_program head.old batch.now full) (λ _. commit_program head.old full)) (disk_outcome result) }
    ensures ok { OnOk result (head.new ≡ committed_head head.old (head.old.size + length batch.now)) }
    ensures err { OnErr result (head.new ≡ head.old) }
    ensures cause { HasCause (D.faults disk.old) (D.faults disk.new) (IsErrOf result Failed) }
{
    stage(disk, head, batch, full)?;
    let size = head.size + batch.len() as u64;
    commit(disk, head, size, full)
}
