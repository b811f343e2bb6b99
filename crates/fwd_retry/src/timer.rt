//! A timer, and the order of timers.

ghost use Rattle.std.specs.Prelude.{◌≡◌, ◌<◌, IsTrue};
ghost use Rattle.fwd_retry.specs.Timer.{is_before, is_after, is_next, earlier as earlier_of};

use fwd_base::{ChunkId, OutputId};

/// The time at which a chunk is due for an output. Timers are ordered by due time, then chunk, then output.
#[derive(Clone, Copy, Debug, PartialEq, Eq, PartialOrd, Ord)]
pub struct Timer {
    /// The time in milliseconds from which it is due.
    pub due: u64,
    pub chunk: ChunkId,
    pub output: OutputId,
}

impl Timer {
    /// Returns whether this timer comes before the other one.
    fn is_before(self, other: Timer) -> bool
        ensures { result ≡ is_before self other }
    {
        self.due < other.due
            || (self.due == other.due
                && (self.chunk.0 < other.chunk.0
                    || (self.chunk.0 == other.chunk.0 && self.output.0 < other.output.0)))
    }

    /// Returns whether this timer comes after the given one, if one is given.
    fn is_after(self, after: Option<Timer>) -> bool
        ensures { result ≡ is_after after self }
    {
        match after {
            None => true,
            Some(after) => after.is_before(self),
        }
    }

    /// Returns whether this timer is due at `now` and comes after the given one, if one is given.
    pub fn is_next(self, now: u64, after: Option<Timer>) -> bool
        ensures { result ≡ is_next now after self }
    {
        self.due <= now && self.is_after(after)
    }
}

/// Returns the earlier of two timers; `timer` if there is no first one.
pub fn earlier(first: Option<Timer>, timer: Timer) -> Timer
    ensures { result ≡ earlier_of first timer }
{
    match first {
        None => timer,
        Some(first) => { if timer.is_before(first) { timer } else { first } }
    }
}
