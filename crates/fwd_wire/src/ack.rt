//! Acknowledgements of messages.

ghost use Rattle.std.specs.Prelude.{◌≡◌, ◌≤◌, IfOk};
ghost use Rattle.fwd_value.specs.View.{val_of};
ghost use Rattle.fwd_value.specs.Limits.{nesting, LengthsFit};
ghost use Rattle.fwd_msgpack.specs.Canonical.{canonical};
ghost use Rattle.fwd_wire.specs.Encode.{ack_val};

use fwd_base::{Bytes, Memory};
use fwd_msgpack::{Value, encode};
use std::alloc::Global;

/// Returns the encoded map `{"ack": chunk}`.
pub fn ack_bytes(alloc: Global, chunk: &Value) -> Result<Bytes, Memory>
    requires nested { nesting (val_of chunk.now) ≤ 63 }
    requires lengths { LengthsFit (val_of chunk.now) }
    ensures { IfOk result (λ bytes. bytes ≡ canonical (ack_val (val_of chunk.now))) }
{
    let mut out = Bytes::from_slice(alloc, b"\x81\xa3ack")?;
    encode(chunk, &mut out)?;
    Ok(out)
}
