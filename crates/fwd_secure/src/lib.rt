//! The loop of shared keys: a `Loop` that wraps any other `Loop`, and shakes hands with the peers of the inputs
//! and outputs that have a shared key before the engine sees their bytes.
//!
//! For each call on the keyed loop there is one program of calls on the loop below, which its rule gives. The
//! keyed loop keeps a call log of its own. The invariant of `SecureLoop` says that this log is carried by the
//! log of the loop below: call by call, the calls below lead through the rule to the answer above. Without
//! keys each call is passed on.
#![tactic(auto)]

mod handshakes;
mod inputs;
mod keys;
mod log_markers;
mod outputs;
mod rules;
mod secure_loop;
mod state;
mod stream;

pub use fwd_handshake::{Greeted, Ring, helo, judge_helo, judge_ping, judge_pong, ping, pong};
pub use keys::{Keys, Rings};
pub use log_markers::{LoopRecord, LoopStart};
pub use secure_loop::SecureLoop;
