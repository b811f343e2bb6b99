//! Whether a run is well.

ghost use Rattle.std.specs.Prelude.{◌≡◌};
ghost use Rattle.fwd_pages.specs.Health.{is_healthy};

/// A chunk that was given up makes a run ill for so many milliseconds.
const ILL_FOR: u64 = 60_000;

/// Returns whether a run is well at a time: whether no chunk was given up in the last minute.
pub fn is_healthy(last_failure: Option<u64>, now: u64) -> bool
    ensures { result ≡ is_healthy last_failure now }
{
    match last_failure {
        Some(failure) => now.saturating_sub(failure) >= ILL_FOR,
        None => true,
    }
}
