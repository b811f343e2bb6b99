ghost use Rattle.std.specs.Prelude.{◌≡◌, ◌⊎◌, ◌↔◌, ℕ, length, IfOk};
ghost use Rattle.fwd_value.specs.Val.{Val};
ghost use Rattle.fwd_value.specs.View.{val_of};
ghost use Rattle.fwd_value.specs.Limits.{IsInRange, LengthsFit};
ghost use Rattle.fwd_msgpack.specs.DecodeAnswers.{Decodes, EncodesPrefix, IsProperPrefix, FailsAtForm, IsUnused, IsListOrMap, ReturnsValue, IsMemory, IsShort, IsUnusedAt, IsTooDeepAt};

use crate::DecodeErr;
use crate::fault::{FormatErr, ReadErr};
use crate::reading::value_of;
use fwd_base::limits::DEEPEST;
use fwd_value::Value;
use std::alloc::Global;

fn decode_value(alloc: Global, bytes: &[u8]) -> Result<(Value, u64), DecodeErr>
    ensures { Decodes bytes.now result }
{
    match value_of(alloc, bytes, DEEPEST) {
        Ok((value, rest)) => Ok((value, (bytes.len() - rest.len()) as u64)),
        Err(ReadErr::Memory) => Err(DecodeErr::Memory),
        Err(ReadErr::Format(FormatErr::Short)) => Err(DecodeErr::Short),
        Err(ReadErr::Format(FormatErr::Unused(left))) => Err(DecodeErr::Unused {
            at: (bytes.len() - left) as u64,
        }),
        Err(ReadErr::Format(FormatErr::TooDeep(left))) => Err(DecodeErr::TooDeep {
            at: (bytes.len() - left) as u64,
        }),
    }
}

/// Decodes the value at the beginning of the bytes. Returns it and the length of its encoding, in bytes.
/// Accepts every encoding, and any bytes after it. Allocates no memory for a length that the bytes don't
/// contain.
pub fn decode(alloc: Global, bytes: &[u8]) -> Result<(Value, u64), DecodeErr>
    // Returns a value exactly if the first bytes encode it.
    ensures value { (v : Val) (n : ℕ) → IsMemory result
        ⊎ (ReturnsValue result v n ↔ EncodesPrefix v n bytes.now) }
    // A decoded value can be encoded.
    ensures in_range { IfOk result (λ x. IsInRange (val_of x.0)) }
    ensures lengths { IfOk result (λ x. LengthsFit (val_of x.0)) }

    // Short exactly if the bytes are a proper prefix of an encoding.
    ensures short { IsMemory result ⊎ (IsShort result ↔ IsProperPrefix bytes.now) }
    // Unused and TooDeep exactly if such a byte is the first with which no encoding continues.
    ensures unused { (n : ℕ) → IsMemory result ⊎ (IsUnusedAt result n ↔ FailsAtForm IsUnused n bytes.now) }
    ensures too_deep { (n : ℕ) → IsMemory result
        ⊎ (IsTooDeepAt result n ↔ FailsAtForm IsListOrMap n bytes.now) }
{
    decode_value(alloc, bytes)
}
