//! Exponential backoff with jitter.

ghost use Rattle.std.specs.Prelude.{◌≡◌, ◌*◌, ◌^◌, ◌≤◌, min};
ghost use Rattle.fwd_retry.specs.Wait.{wait};

/// Returns how many seconds a failed flush waits before its retry. `n` counts the failed tries; `base` and
/// `cap` are the settings `scheduler.base` and `scheduler.cap`, in seconds; `word` is a random word. The
/// wait is drawn from `base` up to a maximum that doubles at each try, up to `cap`, and is never less than
/// `base`. Requires a base of at least one second.
#[tactic(auto, unfolding(crate::specs::Wait::wait))]
pub fn wait_of(n: u64, base: u64, cap: u64, word: u64) -> u64
    requires { 1 ≤ base }
    ensures { result ≡ wait n base cap word }
{
    let longest = base.max(exponential(n, base, cap));
    base + word % (longest - base + 1)
}

/// Returns the base doubled `n` times, at most the cap.
fn exponential(n: u64, base: u64, cap: u64) -> u64
    requires { 1 ≤ base }
    ensures { result ≡ min cap (base * 2 ^ n) }
{
    if n >= 64 {
        return cap;
    }
    match base.checked_mul(1 << n) {
        Some(doubled) => cap.min(doubled),
        None => cap,
    }
}
