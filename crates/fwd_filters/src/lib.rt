//! Applies the filters of a configuration, in order, to events between reading and storing: each filter
//! changes the events under the tags that its glob matches, or drops some of them. A list of 2,048 events
//! or more is cut into runs, as many as are worth a thread each and at most one for each processor, which
//! are filtered in parallel. The order and the result are those of one thread.
#![tactic(auto)]

mod chain;
mod filter_step;
mod parallel;
mod prepared_filter;
mod record_filters;
mod runs;
mod sieve;
mod theorems;
mod work;

pub use chain::{are_idle, filter, filter_gated};
pub use filter_step::{FilterKind, FilterStep, FilterSteps, steps_are_thread_safe};
pub use theorems::filtered_are_computed;
