//! Series of lines: those of one source on one topic.

use crate::{Limiter, Source};
use fwd_base::Memory;
use std::alloc::Global;

/// What lines of a source have in common.
#[derive(Clone, Copy, Debug, PartialEq, Eq)]
pub enum Topic {
    /// The beginning of a run.
    Run,
    /// A signal that asks for the stop.
    Signal,
    /// The stop of a run.
    Stop,
    Listener,
    /// Peers that an input accepts, refuses or drops.
    Peer,
    /// Links of an output that break or never open.
    Link,
    /// Payloads that an output's peer refuses.
    Refusal,
    /// Chunks to be tried again.
    Retry,
    /// Chunks that are given up.
    GivenUp,
    /// Deliveries after an outage.
    Recovery,
    /// Batches of an input that are refused.
    Batch,
    /// Paused inputs.
    Pause,
    /// Files that can't be read or written.
    File,
    /// Names in chunk files that no output has.
    Stranger,
    /// Requests for pages.
    Request,
}

impl Topic {
    /// Returns a word for the topic.
    pub fn word(self) -> &'static str {
        match self {
            Topic::Run => "the run",
            Topic::Signal => "signals",
            Topic::Stop => "the stop",
            Topic::Listener => "listeners",
            Topic::Peer => "peers",
            Topic::Link => "links",
            Topic::Refusal => "refusals",
            Topic::Retry => "retries",
            Topic::GivenUp => "chunks given up",
            Topic::Recovery => "deliveries",
            Topic::Batch => "refused batches",
            Topic::Pause => "pauses",
            Topic::File => "files",
            Topic::Stranger => "unknown outputs",
            Topic::Request => "requests",
        }
    }
}

/// The lines of one source on one topic.
#[derive(Clone, Copy, Debug)]
pub struct Series {
    pub source: Source,
    pub topic: Topic,
    pub limiter: Limiter,
}

/// All series that have a line.
#[derive(Drop)]
pub struct AllSeries {
    all: Vec<Series>,
}

impl AllSeries {
    pub fn new(alloc: Global) -> AllSeries {
        AllSeries {
            all: Vec::new(alloc),
        }
    }

    /// Returns the limiter of a series.
    pub fn limiter_of(&self, source: Source, topic: Topic) -> Limiter {
        for series in &self.all {
            if series.source == source && series.topic == topic {
                return series.limiter;
            }
        }
        Limiter::new()
    }

    /// Keeps the limiter of a series.
    pub fn keep(&mut self, source: Source, topic: Topic, limiter: Limiter) -> Result<(), Memory> {
        for series in self.all.iter_mut() {
            if series.source == source && series.topic == topic {
                series.limiter = limiter;
                return Ok(());
            }
        }
        self.all.push(Series {
            source,
            topic,
            limiter,
        })?;
        Ok(())
    }

    /// Returns the next series with lines that were passed over, and counts them as written.
    pub fn take_passed_over(&mut self) -> Option<Series> {
        for series in self.all.iter_mut() {
            if 0 < series.limiter.passed_over {
                let found = *series;
                series.limiter.passed_over = 0;
                return Some(found);
            }
        }
        None
    }
}
