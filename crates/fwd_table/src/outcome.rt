//! The outcome of a flush, and what happens to its route.

ghost use Rattle.std.specs.Prelude.{◌≡◌};
ghost use Rattle.fwd_table.specs.Outcomes.{due_after, may_retry, resolved_outcome, spent_outcome};

use fwd_base::Retries;

/// The outcome of a flush.
#[derive(Clone, Copy, Debug, PartialEq, Eq)]
pub enum Answer {
    /// The output acknowledged the records.
    Good,
    /// The flush failed, and may be retried.
    Retry,
    /// The output rejected the records for good.
    Bad,
}

/// What happens to a route. The variants with `Last` mean that its chunk has no pending route left.
#[derive(Clone, Copy, Debug, PartialEq, Eq)]
pub enum Outcome {
    /// It is still pending and waits for a retry.
    Retrying,
    /// It is resolved.
    Resolved,
    Last,
    /// It is resolved, as its retries are exhausted.
    Spent,
    SpentLast,
}

/// Returns the outcome of a resolved route.
pub fn resolved_outcome(is_last: bool) -> Outcome
    ensures { result ≡ resolved_outcome is_last }
{
    if is_last {
        Outcome::Last
    } else {
        Outcome::Resolved
    }
}

/// Returns the outcome of a route whose retries are exhausted.
pub fn spent_outcome(is_last: bool) -> Outcome
    ensures { result ≡ spent_outcome is_last }
{
    if is_last {
        Outcome::SpentLast
    } else {
        Outcome::Spent
    }
}

/// Returns whether a route that failed `tries` times before may be retried after failing now.
pub fn may_retry(limit: Retries, tries: u64) -> bool
    ensures { result ≡ may_retry limit tries }
{
    match limit {
        Retries::Times(times) => tries.saturating_add(1) <= times,
        Retries::Unlimited => true,
    }
}

/// Returns the time `wait_s` seconds after `now`, in milliseconds. It saturates at 2^64 - 1.
pub fn due_after(now: u64, wait_s: u64) -> u64
    ensures { result ≡ due_after now wait_s }
{
    now.saturating_add(wait_s.saturating_mul(1000))
}
