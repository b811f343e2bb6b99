//! Results of system calls.

ghost use Rattle.std.specs.Prelude.{◌≡◌, Ok, Some, IfOk, IfSome};

use fwd_outside::Memory;
use std::io::{self, ErrorKind};

/// Returns what a system call gave; `None` if it failed. Its result is always logged.
pub fn answer_of<T>(outcome: io::Result<T>) -> Result<Option<T>, Memory>
    ensures value { IfOk result (λ answer. IfSome answer (λ value. outcome ≡ Ok value)) }
    ensures all { IfOk outcome (λ value. result ≡ Ok (Some value)) }
{
    match outcome {
        Ok(value) => Ok(Some(value)),
        Err(error) if error.kind() == ErrorKind::OutOfMemory => Err(Memory),
        Err(_) => Ok(None),
    }
}
