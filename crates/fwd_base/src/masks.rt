//! Sets of small numbers, as the bits of a word.

ghost use Rattle.std.specs.Prelude.{◌≡◌, ◌==◌};
ghost use Rattle.std.specs.Int.{bit_at};

/// Returns whether a bit of a mask is set. Bits from 64 on are not.
pub fn is_set(mask: u64, bit: u32) -> bool
    ensures { result ≡ (bit_at mask bit == 1) }
{
    match mask.checked_shr(bit) {
        Some(shifted) => shifted % 2 == 1,
        None => false,
    }
}
