//! The counters of the report.

use fwd_base::Items;

/// The counters of an input.
#[derive(Clone, Copy, Debug, PartialEq, Eq)]
pub struct InputTally {
    /// Accepted batches.
    pub batches: u64,
    /// The events of these batches.
    pub events: u64,
    /// Refused batches and malformed messages.
    pub refused: u64,
}

/// The counters of an output.
#[derive(Clone, Copy, Debug, PartialEq, Eq)]
pub struct OutputTally {
    /// Flushes that ended with OK.
    pub good: u64,
    /// Flushes that ended with RETRY, also those that exhausted the retries.
    pub retry: u64,
    /// Flushes that ended with ERROR.
    pub bad: u64,
    /// Routes whose retries were exhausted.
    pub spent: u64,
    /// Routes that the output's limit on storage evicted.
    pub lost: u64,
    /// Bytes that links took.
    pub taken: u64,
}

/// The counters of inputs, in the order of the configuration.
pub type InputTallies = Items<InputTally>;

/// The counters of outputs, in the order of the configuration.
pub type OutputTallies = Items<OutputTally>;

/// All counters of a run.
#[derive(Debug, Drop, PartialEq, Eq)]
pub struct Tally {
    pub inputs: InputTallies,
    pub outputs: OutputTallies,
    /// Recovered chunks that are pending for an output.
    pub loaded: u64,
    /// Recovered chunks that match no output.
    pub unrouted: u64,
    /// Files in the storage folder that are left as they are.
    pub left: u64,
    /// I/O calls that failed.
    pub faults: u64,
}
