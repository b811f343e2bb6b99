//! The file descriptor budget of connections and followed files.

use fwd_base::limits::MOST_PEER_FLUSHES;
use std::fs;

/// Descriptors reserved for everything but connections and followed files: standard input and output, the
/// poll, the disk.
const RESERVED: u64 = 64;

/// Returns the process's limit on descriptors; `None` if the system doesn't say, or there is none.
fn limit(rt: &HostRuntime) -> Option<u64> {
    let limits = fs::read_to_string(rt, "/proc/self/limits").ok()?;
    for line in limits.lines() {
        if let Some(soft_and_hard) = line.strip_prefix("Max open files") {
            return soft_and_hard
                .split_ascii_whitespace()
                .next()?
                .parse::<u64>()
                .ok();
        }
    }
    None
}

/// Returns the largest number of followed files that are held open at once: a quarter of the limit.
pub fn most_files(rt: &HostRuntime) -> usize {
    match limit(rt) {
        Some(limit) => usize::try_from(limit / 4).unwrap_or(usize::MAX),
        None => usize::MAX,
    }
}

/// How many connections there may be.
#[derive(Clone, Copy, Debug, PartialEq, Eq)]
pub struct Budget {
    /// The largest number of connections and followed files at once.
    most: usize,
    /// The number of connections that there may be in any case.
    least: usize,
}

impl Budget {
    /// Returns a budget without limits.
    pub fn without_limits() -> Budget {
        Budget {
            most: usize::MAX,
            least: usize::MAX,
        }
    }

    /// Returns the budget of the process: it leaves the reserved descriptors, one for each input and those of
    /// the links of each output, but has at least half of the limit for connections.
    pub fn of(rt: &HostRuntime, inputs: usize, outputs: usize) -> Budget {
        let Some(limit) = limit(rt) else {
            return Budget::without_limits();
        };
        let links = MOST_PEER_FLUSHES.saturating_mul(outputs as u64);
        let kept = RESERVED.saturating_add(inputs as u64).saturating_add(links);
        Budget {
            most: usize::try_from(limit.saturating_sub(kept)).unwrap_or(usize::MAX),
            least: usize::try_from(limit / 2).unwrap_or(usize::MAX),
        }
    }

    /// Returns the largest number of connections while followed files hold this many descriptors.
    pub fn conns(self, held_files: usize) -> usize {
        self.most.saturating_sub(held_files).max(self.least)
    }
}
