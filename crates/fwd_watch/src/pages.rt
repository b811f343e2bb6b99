//! The pages of a run, made where somebody asks.

use crate::Snapshot;
use fwd_base::{Memory, Names};
use fwd_log::{Journal, Pages};
use fwd_pages::{is_healthy, metrics_page, prometheus_page, storage_page, uptime_page};
use std::alloc::Global;

/// The least time in milliseconds between two makings of pages.
const MAKING_INTERVAL: u64 = 250;

/// More names than inputs or outputs can be.
const MOST_NAMES: usize = 65_535;

/// Makes the pages of a run.
#[derive(Drop)]
pub struct PageMaker {
    inputs: Names,
    outputs: Names,
    checks_health: bool,
    /// When a chunk was given up last.
    last_failure: Option<u64>,
    /// From when on pages are made again.
    next: u64,
}

impl PageMaker {
    pub fn new(alloc: Global) -> PageMaker {
        PageMaker {
            inputs: Names::new(alloc),
            outputs: Names::new(alloc),
            checks_health: false,
            last_failure: None,
            next: 0,
        }
    }

    pub fn name(&mut self, inputs: Names, outputs: Names) {
        self.inputs = inputs;
        self.outputs = outputs;
    }

    pub fn check_health(&mut self, checks: bool) {
        self.checks_health = checks;
    }

    /// Notes that a chunk was given up.
    pub fn note_failure(&mut self, now: u64) {
        self.last_failure = Some(now);
    }

    fn is_healthy(&self, now: u64) -> bool {
        !self.checks_health || is_healthy(self.last_failure, now)
    }

    /// Returns the pages; `None` where there isn't one counter for each name.
    fn pages(
        &self,
        alloc: Global,
        snapshot: Snapshot<'_>,
        now: u64,
    ) -> Result<Option<Pages>, Memory> {
        let inputs = &self.inputs;
        let outputs = &self.outputs;
        let tally = snapshot.tally;
        if tally.inputs.len() != inputs.len() {
            return Ok(None);
        }
        if tally.outputs.len() != outputs.len() {
            return Ok(None);
        }
        if inputs.len() > MOST_NAMES {
            return Ok(None);
        }
        if outputs.len() > MOST_NAMES {
            return Ok(None);
        }
        let uptime = now / 1_000;
        Ok(Some(Pages {
            prometheus: prometheus_page(alloc, inputs, outputs, snapshot.table, tally, uptime)?,
            metrics: metrics_page(alloc, inputs, outputs, tally)?,
            storage: storage_page(alloc, inputs, outputs, snapshot.table, snapshot.paused)?,
            uptime: uptime_page(alloc, uptime)?,
            is_healthy: self.is_healthy(now),
        }))
    }

    /// Puts the pages on the board, if somebody asks for them.
    pub fn answer(&mut self, journal: &Journal, snapshot: Snapshot<'_>) {
        if !journal.is_asked() {
            return;
        }
        let now = journal.age();
        if now < self.next {
            return;
        }
        self.next = now.saturating_add(MAKING_INTERVAL);
        if let Ok(Some(pages)) = self.pages(journal.alloc(), snapshot, now) {
            journal.put_pages(pages);
        }
    }
}
