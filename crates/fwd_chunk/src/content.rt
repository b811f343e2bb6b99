//! Reading of a chunk's content from its file.

ghost use Rattle.std.specs.Prelude.{◌≡◌, ◌≢◌, ◌⊎◌, ℕ, ◌+◌, ◌<◌, ◌≤◌, ◌^◌, List, length, IfOk, IsErrOf, Ok, Err};
ghost use Rattle.fwd_outside.specs.Log.{RunsFallible};
ghost use Rattle.fwd_outside.specs.Cause.{HasCause};
ghost use Rattle.fwd_outside.specs.Disk.{disk_outcome};
ghost use Rattle.fwd_outside.specs.declared.errors.DiskErr.TheVariants.{Failed};
ghost use Rattle.fwd_chunk.specs.declared.content.PartErr.TheVariants as part_err;
ghost use Rattle.fwd_chunk.specs.Content.{read_part_program, IsWholeContent, HasRecordedLength};

use fwd_base::limits::LONGEST_PIECE;
use fwd_event::whole_prefix;
use fwd_outside::{Bytes, Disk, DiskErr, Memory};
use std::alloc::Global;
use thiserror::Error;

/// Why the content of a chunk can't be read.
#[derive(Clone, Copy, Debug, PartialEq, Eq, Error)]
pub enum PartErr {
    #[error("the disk has failed")]
    DiskFailed,
    /// The file doesn't have the content that the store recorded. `kept` is the recorded length in bytes;
    /// `got` is the number of bytes that are whole events, or that are there.
    #[error("of {kept} bytes of content {got} are whole events")]
    Damaged { kept: u64, got: u64 },
    #[error("out of memory")]
    Memory,
}

impl From<Memory> for PartErr {
    ghost from_gives = { λ _ e. e ≡ part_err.Memory };

    fn from(_: Memory) -> Self {
        PartErr::Memory
    }
}

/// Reads up to `size` bytes of a file from an offset, in several reads. Returns fewer bytes if the file ends
/// earlier.
pub fn read_part<D: Disk>(
    alloc: Global,
    disk: &mut D,
    name: &[u8],
    from: u64,
    size: u64,
) -> Result<Bytes, DiskErr>
    requires { from + size < 2 ^ 64 }
    ensures calls { RunsFallible (D.call_log disk.old) (D.call_log disk.new) (read_part_program name.now from size) (disk_outcome result) }
    ensures within { IfOk result (λ bytes. length bytes ≤ size) }
    ensures cause { HasCause (D.faults disk.old) (D.faults disk.new) (IsErrOf result Failed) }
{
    let mut bytes = Bytes::new(alloc);
    'reading: while (bytes.len() as u64) < size {
        let at = bytes.len() as u64;
        let wanted = (size - at).min(LONGEST_PIECE as u64);
        let part = disk.read(alloc, name, from + at, wanted)?;
        bytes.extend_from_slice(part.as_slice())?;
        if (part.len() as u64) < wanted {
            return Ok(bytes);
        }
    }
    Ok(bytes)
}

/// Returns the bytes if they are whole events and `kept` in number.
pub fn check_events(alloc: Global, bytes: Bytes, kept: u64) -> Result<Bytes, PartErr>
    requires { length bytes ≤ kept }
    ensures { IsWholeContent kept bytes result }
{
    let (_, got) = whole_prefix(alloc, bytes.as_slice())?;
    if got == kept {
        Ok(bytes)
    } else {
        Err(PartErr::Damaged { kept, got })
    }
}

/// Returns the bytes if they are `kept` in number.
pub fn check_length(bytes: Bytes, kept: u64) -> Result<Bytes, PartErr>
    ensures { HasRecordedLength kept bytes result }
{
    let got = bytes.len() as u64;
    if got == kept {
        Ok(bytes)
    } else {
        Err(PartErr::Damaged { kept, got })
    }
}
