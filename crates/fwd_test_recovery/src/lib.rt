//! Tests of parallel loading, listing and filtering.
//!
//! Contracts say that the answer is that of one thread. The tests show what no contract says: that two
//! threads work at the same time, that calls on large inputs return an answer, and that loading calls the
//! disk no more after a refused call.
#![tactic(auto)]

#[cfg(test)]
mod files;
#[cfg(test)]
mod filtering;
#[cfg(test)]
mod listing;
#[cfg(test)]
mod loading;
#[cfg(test)]
mod meeting;
#[cfg(test)]
mod refusals;
