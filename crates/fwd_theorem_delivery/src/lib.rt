//! At-least-once delivery: theorems on every run of the reference model.
//!
//! `runs_keep_the_guarantee` says in one definition what became of all complete input, which chunks are
//! pending, and which bytes were sent. The other theorems say more about its parts. Each link sends a prefix
//! of one payload, while it is open, and a route is delivered only if one link took the whole payload. Each
//! accepted or refused batch was complete, and is decided once. A message of a forward peer is answered only
//! once its batch is taken. A refusal, the end of retries and an eviction have their causes. The remaining
//! theorems say when a run closes chunks, pauses inputs, retries and dispatches.
#![tactic(auto)]

mod backpressure;
mod causes;
mod close_time;
mod dispatch_order;
mod flush_outcomes;
mod guarantee;
mod origins;
mod replies;
mod retries;

pub use backpressure::waits_name_paused_inputs;
pub use causes::outcomes_have_causes;
pub use close_time::chunks_close_in_time;
pub use dispatch_order::earlier_due_first;
pub use flush_outcomes::{
    calls_are_on_open_links, counted_bytes_were_taken, delivered_routes_sent_all,
    failures_have_causes, flushes_in_progress_are_open, links_send_prefixes,
};
pub use guarantee::runs_keep_the_guarantee;
pub use origins::{batches_are_decided_once, decided_batches_were_complete};
pub use replies::{messages_get_their_replies, replies_are_due};
pub use retries::{retries_wait, tries_are_limited};
