//! The keys of a configuration's inputs and outputs, as the keyed loop takes them.
//!
//! `keys` returns the ring of each input and each output by the settings. The host names in them fit the
//! messages of the handshake (`lemma_keys_are_short`).
#![tactic(auto)]

mod lemmas;
mod rings;

pub use fwd_secure::Keys;
pub use lemmas::lemma_keys_are_short;
pub use rings::keys;
