//! What is counted, and its names.

ghost use Rattle.std.specs.Prelude.{◌≡◌};
ghost use Rattle.fwd_pages.specs.Metric.{input_name, input_value, output_name, output_value};

use fwd_table::{InputTally, OutputTally};

/// A counter of an input.
#[derive(Clone, Copy, Debug, PartialEq, Eq)]
pub enum InputMetric {
    Records,
    Batches,
    Refused,
}

/// A counter of an output.
#[derive(Clone, Copy, Debug, PartialEq, Eq)]
pub enum OutputMetric {
    Bytes,
    Retries,
    RetriesFailed,
    Errors,
    ChunksOk,
    ChunksLost,
}

impl InputMetric {
    /// Returns the name that Prometheus sees.
    pub fn name(self) -> &'static [u8]
        ensures { result.now ≡ input_name self }
    {
        match self {
            InputMetric::Records => b"fluentbit_input_records_total",
            InputMetric::Batches => b"fuztreb_input_batches_total",
            InputMetric::Refused => b"fuztreb_input_refused_total",
        }
    }

    pub fn value(self, tally: InputTally) -> u64
        ensures { result ≡ input_value self tally }
    {
        match self {
            InputMetric::Records => tally.events,
            InputMetric::Batches => tally.batches,
            InputMetric::Refused => tally.refused,
        }
    }
}

impl OutputMetric {
    /// Returns the name that Prometheus sees.
    pub fn name(self) -> &'static [u8]
        ensures { result.now ≡ output_name self }
    {
        match self {
            OutputMetric::Bytes => b"fluentbit_output_proc_bytes_total",
            OutputMetric::Retries => b"fluentbit_output_retries_total",
            OutputMetric::RetriesFailed => b"fluentbit_output_retries_failed_total",
            OutputMetric::Errors => b"fluentbit_output_errors_total",
            OutputMetric::ChunksOk => b"fuztreb_output_chunks_ok_total",
            OutputMetric::ChunksLost => b"fuztreb_output_chunks_lost_total",
        }
    }

    pub fn value(self, tally: OutputTally) -> u64
        ensures { result ≡ output_value self tally }
    {
        match self {
            OutputMetric::Bytes => tally.taken,
            OutputMetric::Retries => tally.retry,
            OutputMetric::RetriesFailed => tally.spent,
            OutputMetric::Errors => tally.bad,
            OutputMetric::ChunksOk => tally.good,
            OutputMetric::ChunksLost => tally.lost,
        }
    }
}
