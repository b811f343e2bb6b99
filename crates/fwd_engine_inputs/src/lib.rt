//! What an engine keeps of its inputs: the connections, for each stream the rest after its last whole line or
//! message, and the followed files by the indices of their paths.
//!
//! Each call that changes `InputStreams` or `FollowedFiles` stands for one fact of the history, and returns
//! the lines and messages that the history gives.
#![tactic(auto)]

mod file_lemmas;
mod followed_file;
mod followed_files;
mod input_files;
mod input_streams;
mod message_readers;
mod stream_kind;
mod stream_lemmas;

pub use file_lemmas::lemma_other_facts_keep_files;
pub use followed_files::FollowedFiles;
pub use input_streams::InputStreams;
pub use message_readers::Unfinished;
pub use stream_kind::StreamKind;
pub use stream_lemmas::{lemma_other_facts_keep_streams, lemma_unread_bytes_keep_streams};
