//! Settings of the engine itself.

ghost use Rattle.std.specs.Prelude.{◌≡◌, IfOk};
ghost use Rattle.fwd_settings.specs.Service.{service_of};

use crate::Service;
use fwd_base::Memory;
use fwd_settings_schema::{Key, Property, number_at, own_text, truth_at};
use std::alloc::Global;

/// Milliseconds from one closing of the open chunks to the next, by default.
const FLUSH_MS: u64 = 1_000;

/// Seconds to wait for pending deliveries after a stop, by default.
const GRACE_S: u64 = 5;

/// How many file-backed chunks may be in flight at once, by default.
const MAX_CHUNKS_UP: u64 = 128;

/// How many bytes of recovered chunks may be in flight at once, by default.
const BACKLOG_LIMIT: u64 = 5_000_000;

/// Seconds of the shortest wait before a retry, by default.
const RETRY_BASE_S: u64 = 5;

/// Seconds of the longest wait before a retry, by default.
const RETRY_CAP_S: u64 = 2_000;

/// Returns the settings of the engine, from the entries of the SERVICE sections.
pub fn service_of(alloc: Global, properties: &[Property]) -> Result<Service, Memory>
    ensures { IfOk result (λ service. service ≡ service_of properties.now) }
{
    Ok(Service {
        flush_ms: number_at(properties, Key::Flush).unwrap_or(FLUSH_MS),
        grace_s: number_at(properties, Key::Grace).unwrap_or(GRACE_S),
        path: own_text(alloc, properties, Key::StoragePath)?,
        full: truth_at(properties, Key::StorageSync).unwrap_or(false),
        max_up: number_at(properties, Key::MaxChunksUp).unwrap_or(MAX_CHUNKS_UP),
        backlog_limit: number_at(properties, Key::BacklogMemLimit).unwrap_or(BACKLOG_LIMIT),
        base: number_at(properties, Key::SchedulerBase).unwrap_or(RETRY_BASE_S),
        cap: number_at(properties, Key::SchedulerCap).unwrap_or(RETRY_CAP_S),
    })
}
