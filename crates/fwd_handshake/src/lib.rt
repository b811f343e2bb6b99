//! The handshake of the Forward Protocol v1. By its messages HELO, PING and PONG a client and a server show
//! each other that they have the same shared key.
//!
//! The server sends a HELO with a nonce. The client answers with a PING, which has a salt and a digest of the
//! salt, its host name, the nonce and the key. The server answers with a PONG, whose digest has its own host
//! name. The key itself is never sent.
//!
//! `helo`, `ping` and `pong` write exactly the bytes of their definitions. `judge_helo`, `judge_ping` and
//! `judge_pong` return `Right` exactly if a stream begins with such a message whose digest is right, and
//! `More` exactly if at most 4,096 bytes are a proper prefix of a value. `read_helo`, `read_ping` and
//! `read_pong` also return the nonce, the salt or the host. A client refuses a PONG with its own host name,
//! so a digest that was sent back to its sender shows nothing.
#![tactic(auto)]

mod digest;
mod judgement;
mod members;
mod messages;
mod reading;
mod received;
mod ring;
mod theorems;

pub use fwd_msgpack::Value;
pub use judgement::{judge_helo, judge_ping, judge_pong};
pub use messages::{helo, ping, pong};
pub use reading::{read_helo, read_ping, read_pong};
pub use received::{Greeted, LONGEST_GREETING, Received, greeting_limit_is_defined};
pub use ring::Ring;
pub use theorems::{
    a_helo_is_right, a_ping_is_right, a_pong_is_right, more_is_a_beginning, own_host_is_refused,
    right_is_a_helo, right_is_a_ping, right_is_a_pong, right_is_new,
};
