//! Times in milliseconds.

use std::time::Duration;

/// Returns the milliseconds of a time, at most 2^64 - 1.
pub fn millis_of(time: Duration) -> u64 {
    time.as_millis().min(u64::MAX as u128) as u64
}
