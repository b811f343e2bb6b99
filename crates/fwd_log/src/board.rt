//! The pages that a run makes for those who ask.

use fwd_base::Bytes;

/// Where pages are served.
#[derive(Debug, Drop)]
pub struct Address {
    pub host: Bytes,
    pub port: u16,
}

/// The pages of a run at one time.
#[derive(Debug, Drop)]
pub struct Pages {
    /// Numbers in Prometheus' text format.
    pub prometheus: Bytes,
    /// The same in JSON.
    pub metrics: Bytes,
    /// Chunks in memory and in files, in JSON.
    pub storage: Bytes,
    /// How long the run has lasted, in JSON.
    pub uptime: Bytes,
    /// Whether nothing was given up lately; true where health isn't checked.
    pub is_healthy: bool,
}
