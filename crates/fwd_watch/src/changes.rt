//! What rose between two readings of the clock.

use fwd_table::OutputTally;

/// How much the counters of an output rose.
#[derive(Clone, Copy, Debug, PartialEq, Eq)]
pub struct Risen {
    pub delivered: u64,
    /// Flushes that will be tried again.
    pub retried: u64,
    /// Chunks that the peer refused for good.
    pub refused: u64,
    /// Chunks whose retries are used up.
    pub spent: u64,
    /// Chunks that the limit on storage evicted.
    pub evicted: u64,
}

impl Risen {
    pub fn between(before: OutputTally, now: OutputTally) -> Risen {
        let spent = now.spent.saturating_sub(before.spent);
        Risen {
            delivered: now.good.saturating_sub(before.good),
            retried: now.retry.saturating_sub(before.retry).saturating_sub(spent),
            refused: now.bad.saturating_sub(before.bad),
            spent,
            evicted: now.lost.saturating_sub(before.lost),
        }
    }

    /// Returns how many chunks were given up.
    pub fn discards(self) -> u64 {
        self.refused
            .saturating_add(self.spent)
            .saturating_add(self.evicted)
    }
}
