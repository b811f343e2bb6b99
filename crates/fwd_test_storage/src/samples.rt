//! Batches, and the names of one output.

ghost use Rattle.std.specs.Prelude.{IfOk};
ghost use Rattle.fwd_chunk.specs.Layout.{AreOutputs};

use fwd_base::{Bytes, Memory, Names};
use std::alloc::Global;

/// The event with the line `one` at second 0.
pub const ONE: &[u8] = b"\x92\x92\xd7\0\0\0\0\0\0\0\0\0\x80\x81\xa3log\xa3one";

/// The event without fields at second 0.
const EMPTY: &[u8] = b"\x92\x92\xd7\0\0\0\0\0\0\0\0\0\x80\x80";

/// The names of one output, `stdout.0`.
pub fn outputs(alloc: Global) -> Result<Names, Memory>
    ensures { IfOk result (λ names. AreOutputs names) }
{
    let mut names = Names::new(alloc);
    names.push(Bytes::from_slice(alloc, b"stdout.0")?)?;
    Ok(names)
}

/// So many events without fields, of 14 bytes each.
pub fn empties(alloc: Global, count: u32) -> Result<Bytes, Memory> {
    let mut batch = Bytes::new(alloc);
    for _ in 0..count {
        batch.extend_from_slice(EMPTY)?;
    }
    Ok(batch)
}
