use crate::State;
use fwd_engine_inputs::{FollowedFiles, InputStreams};
use fwd_store::Store;

/// What an engine keeps between two events.
#[derive(Drop)]
pub struct Parts {
    /// Pending chunks, flush attempts, clock and counters.
    pub state: State,
    /// Connections, and readers of streams.
    pub input_streams: InputStreams,
    /// Followed files.
    pub followed_files: FollowedFiles,
    /// The chunks.
    pub store: Store,
}
