//! Errors of the program as errors of the system.

use fwd_base::Memory;
use std::alloc::AllocError;
use std::io;

/// Returns the error of a call that found no memory.
pub fn memory_error(_: Memory) -> io::Error {
    io::Error::from(AllocError)
}
