//! How often the lines of a series are written.

ghost use Rattle.std.specs.Prelude.{◌≡◌, ◌+◌, ◌<◌, ◌≤◌, ◌^◌, ℕ, List, [], ◌∷◌, length, sum, IsSome};
ghost use Rattle.fwd_log.specs.Limiter.{fresh, limit_of, next_wait, written_of, after};

/// The least time in milliseconds between two written lines.
const LEAST_WAIT: u32 = 1_000;

/// The most.
const MOST_WAIT: u64 = 60_000;

/// How the lines of a series are limited.
#[derive(Clone, Copy, Debug, PartialEq, Eq)]
pub struct Limiter {
    /// The time in milliseconds from which on the next line is written.
    pub next: u64,
    /// The time in milliseconds that was waited for after the last written line.
    pub wait: u32,
    /// How many lines were passed over since.
    pub passed_over: u64,
}

impl Limiter {
    /// Returns the limiter of a series with no lines.
    pub fn new() -> Limiter
        ensures { result ≡ fresh }
    {
        Limiter {
            next: 0,
            wait: LEAST_WAIT / 2,
            passed_over: 0,
        }
    }

    /// Returns how long no line is written after one that is written now: twice as long as after the last one, up
    /// to a minute. After a quiet minute it begins anew.
    fn next_wait(self, now: u64) -> u32
        ensures { result ≡ next_wait self now }
    {
        if now.saturating_sub(self.next) < MOST_WAIT {
            (2 * u64::from(self.wait)).min(MOST_WAIT) as u32
        } else {
            LEAST_WAIT
        }
    }
}

/// Decides on a line that comes now. Returns how many lines were passed over since the last written one, if this
/// one is written, and the limiter after it.
pub fn limit(state: Limiter, now: u64) -> (Option<u64>, Limiter)
    ensures { result ≡ limit_of state now }
{
    if now < state.next {
        let passed_over = state.passed_over.saturating_add(1);
        return (
            None,
            Limiter {
                passed_over,
                ..state
            },
        );
    }
    let wait = state.next_wait(now);
    let written = Limiter {
        next: now.saturating_add(u64::from(wait)),
        wait,
        passed_over: 0,
    };
    (Some(state.passed_over), written)
}

/// The written lines, the lines that they count as passed over, and those passed over since add up to all lines.
pub fn limiter_adds_up()
    ensures { (state : Limiter) (times : List ℕ) → state.passed_over + length times < 2 ^ 64
        → length (written_of state times) + sum (written_of state times) + (after state times).passed_over ≡ state.passed_over + length times }
{}

/// The first line of a series is written, and so at least one of all.
pub fn limiter_writes_first()
    ensures { (now : ℕ) (times : List ℕ) → 1 ≤ length (written_of fresh (now ∷ times)) }
{}

/// A line that comes a minute or more after the last written one is written, however many were passed over between.
pub fn limiter_writes_each_minute()
    ensures { (state : Limiter) (first now : ℕ) (times : List ℕ) → written_of (limit_of state first).1 times ≡ []
        → IsSome (limit_of state first).0 → first + 60000 ≤ now → IsSome (limit_of (after (limit_of state first).1 times) now).0 }
{}
