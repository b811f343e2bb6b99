//! Flush attempts in flight.

ghost use Rattle.std.specs.Prelude.{◌≡◌, ◌==◌, ℕ, Some, None, OnOk, if◌then◌else◌};
ghost use Rattle.fwd_model.specs.Routes.{uses_link};
ghost use Rattle.fwd_engine_state.specs.Views.{attempt_over};

use fwd_base::{ChunkId, LinkId, Memory, OutputId};
use fwd_flush::Flush;
use fwd_payload::Reader;
use std::alloc::Global;
use std::collections::BTreeMap;

/// A chunk and an output that it is pending for.
#[derive(Clone, Copy, Debug, PartialEq, Eq)]
pub struct RouteId {
    pub chunk: ChunkId,
    pub output: OutputId,
}

/// A flush attempt of a route.
#[derive(Debug, Drop)]
pub struct FlushAttempt {
    pub route: RouteId,
    pub flush: Flush<Reader>,
}

/// The flush attempts in flight, by their connections. They are in an ordered map and not in a slab: an event
/// names the link, whose number the loop chooses.
#[derive(Debug, Drop)]
pub struct FlushAttempts {
    flights: BTreeMap<u64, FlushAttempt>,
}

impl FlushAttempts {
    pub fn new(alloc: Global) -> Self
        ensures { (link : ℕ) → attempt_over link result ≡ None }
    {
        FlushAttempts {
            flights: BTreeMap::new(alloc),
        }
    }

    /// Removes and returns the attempt over a connection, if there is one.
    pub fn take(&mut self, link: LinkId) -> Option<FlushAttempt>
        ensures flight { result ≡ attempt_over link.0 self.old }
        ensures rest { (l : ℕ) → attempt_over l self.new ≡ (if link.0 == l then None else attempt_over l self.old) }
    {
        self.flights.remove(&link.0)
    }

    /// Inserts an attempt under its connection. An attempt without a connection is dropped.
    pub fn put(&mut self, flight: FlushAttempt) -> Result<(), Memory>
        ensures { OnOk result ((l : ℕ) → attempt_over l self.new ≡ (if uses_link l (Some flight.flush.progress) then Some flight else attempt_over l self.old)) }
    {
        match flight.flush.link() {
            Some(link) => {
                self.flights.insert(link.0, flight)?;
                Ok(())
            }
            None => Ok(()),
        }
    }
}
