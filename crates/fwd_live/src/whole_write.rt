//! A write of all bytes.

ghost use Rattle.std.specs.Prelude.{◌≤◌, length, IfErr};

use std::io::{self, Write};

/// Writes all bytes. `Err` has the number of bytes written before the failure.
pub fn write_whole<W: Write>(out: &mut W, bytes: &[u8]) -> Result<(), usize>
    ensures { IfErr result (λ taken. taken ≤ length bytes.now) }
{
    let mut taken = 0;
    'writing: for _ in 0..u64::MAX {
        if taken == bytes.len() {
            break;
        }
        match out.write(&bytes[taken..]) {
            Ok(0) => return Err(taken),
            Ok(count) => taken += count,
            Err(error) if error.kind() == io::ErrorKind::Interrupted => {}
            Err(_) => return Err(taken),
        }
    }
    if taken < bytes.len() {
        return Err(taken);
    }
    match out.flush() {
        Ok(()) => Ok(()),
        Err(_) => Err(taken),
    }
}
