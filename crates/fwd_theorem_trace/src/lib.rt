//! When each entry of a run's trace may occur, and the invariants of every history.
//!
//! The reference model says what is called and logged. Here each entry is checked against the entries
//! before it, so that a fact can't contradict the calls.
#![tactic(auto)]

mod batches;
mod closure;
mod determinism;
mod dispatch;
mod entries;
mod events;
mod growth;
mod resolution;
mod waits;

pub use batches::complete_batches_are_stored;
pub use closure::chunks_close;
pub use determinism::platform_determines_trace;
pub use dispatch::dispatch_dials_started;
pub use entries::{entries_are_allowed, histories_are_logged, histories_are_sound};
pub use events::logged_events_are_waited;
pub use growth::{clock_never_falls, records_never_shrink};
pub use resolution::pending_iff_unresolved;
pub use waits::{loading_never_waits, steps_never_wait, turns_wait_once};
