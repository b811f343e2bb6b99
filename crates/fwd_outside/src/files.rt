//! The trait for followed files and configuration files, which are only read.

ghost use Rattle.std.specs.Prelude.{◌≡◌, ℕ, ◌≤◌, length, IfOk, IsErrOf};
ghost use Rattle.fwd_outside.specs.Log.{LogGrew, RunsFallible, log_of_call};
ghost use Rattle.fwd_outside.specs.Cause.{HasCause};
ghost use Rattle.fwd_outside.specs.Files.{FilesLog, Length, ReadAt, outcome, read_whole_program};
ghost use Rattle.fwd_outside.specs.ConsistentFiles.{WholeReadIsContent};
ghost use Rattle.fwd_outside.specs.declared.errors.FileErr.TheVariants.{Failed};

use crate::FileErr;
use fwd_base::Bytes;
use std::alloc::Global;

/// Files that are read by path.
pub trait Files {
    /// The number of failed calls. The count saturates at 2^64 - 1.
    ghost faults: { Self → ℕ };

    /// The call log: the first files, and the calls so far with their answers, if one is kept.
    ghost call_log: { Self → FilesLog };

    /// Returns the length of a file, in bytes. Fails if there is no such file.
    fn length(&mut self, path: &[u8]) -> Result<u64, FileErr>
        ensures call_log { LogGrew (call_log self.old) (call_log self.new) (log_of_call (Length path.now) (outcome result)) }
        ensures cause { HasCause (faults self.old) (faults self.new) (IsErrOf result Failed) };

    /// Reads at most `max` bytes of a file from an offset on. An empty answer means the end.
    fn read_at(&mut self, alloc: Global, path: &[u8], at: u64, max: u64) -> Result<Bytes, FileErr>
        ensures call_log { LogGrew (call_log self.old) (call_log self.new) (log_of_call (ReadAt path.now at max) (outcome result)) }
        ensures cause { HasCause (faults self.old) (faults self.new) (IsErrOf result Failed) }
        ensures within { IfOk result (λ bytes. length bytes ≤ max) };
}

/// Reads a whole file: its length once, and then that many bytes, or fewer if the file has become shorter.
pub fn read_whole<F: Files>(alloc: Global, files: &mut F, path: &[u8]) -> Result<Bytes, FileErr>
    ensures calls { RunsFallible (F.call_log files.old) (F.call_log files.new) (read_whole_program path.now) (outcome result) }
    ensures cause { HasCause (F.faults files.old) (F.faults files.new) (IsErrOf result Failed) }
{
    let length = files.length(path)?;
    let mut bytes = Bytes::new(alloc);
    'reading: while (bytes.len() as u64) < length {
        let at = bytes.len() as u64;
        let part = files.read_at(alloc, path, at, length - at)?;
        if part.is_empty() {
            break;
        }
        bytes.extend_from_slice(part.as_slice())?;
    }
    Ok(bytes)
}

/// If the files answer with what they contain, `read_whole` returns the content of the file.
pub fn whole_read_is_content()
    ensures { WholeReadIsContent }
{}
