//! Statuses that are retried besides those that always are.

ghost use Rattle.std.specs.Prelude.{◌≡◌, IfOk};
ghost use Rattle.fwd_http.specs.Statuses.{has_status, is_retried};

use fwd_base::{Items, Memory};
use std::alloc::Global;

/// The statuses from one to another, both included.
#[derive(Clone, Copy, Debug, PartialEq, Eq)]
pub struct StatusRange {
    pub first: u16,
    pub last: u16,
}

/// Ranges of statuses.
pub type StatusRanges = Items<StatusRange>;

impl StatusRange {
    /// Returns whether a status is in the range.
    fn has(&self, status: u16) -> bool
        ensures { result ≡ has_status status self.now }
    {
        self.first <= status && status <= self.last
    }
}

/// Returns whether a status is in one of the ranges.
pub fn is_retried(ranges: &[StatusRange], status: u16) -> bool
    ensures { result ≡ is_retried ranges.now status }
{
    ranges.iter().any(|range| range.has(status))
}

/// Returns a copy of ranges.
pub fn copy_of(alloc: Global, ranges: &[StatusRange]) -> Result<StatusRanges, Memory>
    ensures { IfOk result (λ copy. copy ≡ ranges.now) }
{
    let mut copy = StatusRanges::new(alloc);
    for range in ranges {
        copy.push(*range)?;
    }
    Ok(copy)
}
