//! One read of a stream: its bytes, or why it gave none.

ghost use Rattle.std.specs.Prelude.{◌≤◌, IfOk, length};
ghost use Rattle.fwd_base.specs.Limits.{longest_piece};

use fwd_base::limits::LONGEST_PIECE;
use fwd_outside::Bytes;
use std::alloc::Global;
use std::io::{self, ErrorKind, Read};

/// Why a read gave no bytes.
#[derive(Clone, Copy, Debug, PartialEq, Eq)]
pub enum Unread {
    /// Nothing is there now.
    Nothing,
    /// The read has to be retried.
    Interrupted,
    Over,
    /// It failed with this error number of the system, if it gave one.
    Failed(Option<i32>),
    Memory,
}

/// Returns the error with this number of the system.
pub fn error_of(errno: Option<i32>) -> io::Error {
    match errno {
        Some(number) => io::Error::from_raw_os_error(number),
        None => io::Error::from(ErrorKind::Other),
    }
}

/// Reads once.
pub fn read_from<R: Read>(alloc: Global, from: &mut R, part: &mut [u8]) -> Result<Bytes, Unread>
    ensures { IfOk result (λ bytes. (1 ≤ length bytes) × (length bytes ≤ longest_piece)) }
{
    let room = part.len().min(LONGEST_PIECE);
    let part = &mut part[..room];
    match from.read(part) {
        Ok(0) => Err(Unread::Over),
        Ok(count) => match Bytes::from_slice(alloc, &part[..count]) {
            Ok(bytes) => Ok(bytes),
            Err(_) => Err(Unread::Memory),
        },
        Err(error) if error.kind() == ErrorKind::WouldBlock => Err(Unread::Nothing),
        Err(error) if error.kind() == ErrorKind::Interrupted => Err(Unread::Interrupted),
        Err(error) => Err(Unread::Failed(error.raw_os_error())),
    }
}
