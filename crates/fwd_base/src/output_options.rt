//! Settings that crates far from the configuration need.

/// The format in which an output gets the records of a chunk.
#[derive(Clone, Copy, Debug, PartialEq, Eq)]
pub enum Form {
    /// One JSON object per line for each record, with its time under the key `date`.
    JsonLines,
    /// One line for each record: the tag, and a JSON list of its time and its pairs.
    OutFile,
    /// MessagePack events, one after another.
    MsgPack,
}

/// How often a failed flush may be retried.
#[derive(Clone, Copy, Debug, PartialEq, Eq)]
pub enum Retries {
    /// At most this many times.
    Times(u64),
    /// Until it succeeds.
    Unlimited,
}
