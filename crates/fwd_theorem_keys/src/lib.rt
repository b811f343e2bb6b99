//! What shared keys protect.
//!
//! Each theorem is over the calls on the loop below a keyed loop, with any answers, and those on the keyed
//! loop that its rules give from them. A keyed input gives the engine nothing of a connection before the
//! connection has shown the key. A link of a keyed output takes nothing of the engine before the server has
//! shown the key.
#![tactic(auto)]

mod links;
mod streams;

pub use links::{again_before_the_pong, keyed_links_greet_first, right_pong_has_room};
pub use streams::{keyed_streams_begin_rightly, only_wrong_is_dropped, rightly_begun_is_joined};
