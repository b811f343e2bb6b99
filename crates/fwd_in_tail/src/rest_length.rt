//! How many bytes follow the last line feed.

ghost use Rattle.std.specs.Prelude.{◌≡◌, ℕ, ◌-◌, ◌^◌, ◌++◌, List, length, min};
ghost use Rattle.fwd_frames.specs.Lines.{rest};

use memchr::memrchr;

/// Returns how many bytes the rest of a stream has after more bytes. The number saturates at 2^64 - 1.
pub fn rest_after(left: u64, bytes: &[u8]) -> u64
    ensures { (stream : List ℕ) → left ≡ min (length (rest stream)) (2 ^ 64 - 1) →
        result ≡ min (length (rest (stream ++ bytes.now))) (2 ^ 64 - 1) }
{
    match memrchr(b'\n', bytes) {
        Some(place) => (bytes.len() - place - 1) as u64,
        None => left.saturating_add(bytes.len() as u64),
    }
}
