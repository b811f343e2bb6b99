//! Tests of disks in memory, files of chunks, and the store.
//!
//! Contracts say what each call does. The tests show what no contract says: that calls on large inputs return
//! an answer other than out of memory, and that a new file has the bytes of the documented format.
#![tactic(auto)]

#[cfg(test)]
mod chunk;
#[cfg(test)]
mod disk;
#[cfg(test)]
mod samples;
#[cfg(test)]
mod store;
