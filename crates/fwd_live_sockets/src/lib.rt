//! Sockets of a live run, without the poll: listeners and standard input, connections of peers to inputs,
//! links of outputs to peers, files and standard output, one read of a stream, and the budget of descriptors.
//!
//! A push takes at most the bytes that it is given (`TakesAtMost`), and a read gives at least one byte and at
//! most `LONGEST_PIECE`. No contract says what a peer takes or sends.
#![tactic(auto)]

mod addresses;
mod conn;
mod descriptors;
mod input;
mod link;
mod output_file;
mod patience;
mod piece;
mod source;
mod standard_output;

pub use addresses::addresses_of;
pub use conn::Conn;
pub use descriptors::{Budget, most_files};
pub use input::{Feed, Input, listen};
pub use link::{Handed, Link, Peer, PeerState};
pub use output_file::open_to_append;
pub use patience::{Patience, USUAL_PATIENCE};
pub use piece::{Unread, error_of, read_from};
pub use source::Source;
pub use standard_output::{StandardOutput, StdoutLink};
