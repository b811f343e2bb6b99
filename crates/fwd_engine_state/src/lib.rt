//! The state of an engine: pending chunks, flush attempts in flight, the clock and the counters, beside its
//! inputs and its chunk store. `State` calls no device.
//!
//! Each call that changes the state stands for one fact of the history. Each getter returns what the history
//! gives, so that the crates above speak of histories alone.
//!
//! The definitions of this crate say what it means that a part represents a history, and that a call on an
//! engine refines an action of the reference model: which calls it makes on the devices, and which history
//! all parts represent after it. A fact that doesn't concern a part leaves it as it is.
#![tactic(auto)]

mod capacity;
mod chunks;
mod count_changes;
mod counts;
mod flush_attempts;
mod input_mask;
mod lemmas;
mod parts;
mod state;

pub use capacity::InFlightLimits;
pub use flush_attempts::{FlushAttempt, RouteId};
pub use fwd_engine_inputs::{
    StreamKind, Unfinished, lemma_other_facts_keep_files, lemma_other_facts_keep_streams,
};
pub use fwd_payload::Reader;
pub use lemmas::{
    lemma_begun_events, lemma_begun_route_is_out, lemma_evicted_route_is_idle,
    lemma_evictions_are_independent, lemma_evictions_by_output, lemma_idle_route_is_closed,
    lemma_idle_route_is_pending, lemma_next_eviction, lemma_offered_chunk_is_new,
    lemma_open_chunk_is_pending, lemma_other_facts_keep_state, lemma_other_routes_stay_idle,
};
pub use parts::Parts;
pub use state::{Place, State};
