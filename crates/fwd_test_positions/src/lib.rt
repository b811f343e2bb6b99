//! Tests of keepers of offsets: one over databases of the machine, and one in memory.
//!
//! No contract says what a database holds. So each call is made once on its happy path, and once where the
//! database refuses.
#![tactic(auto)]

#[cfg(test)]
mod keepers;
#[cfg(test)]
mod steps;
