//! The typed settings of a configuration.

use fwd_base::{Bytes, Items, Names, Retries};
use fwd_filters::FilterSteps;
use fwd_http::{HeaderFields, StatusRanges};
use fwd_json::PayloadForm;
use fwd_parser::Parser;
use std::fmt;

/// The settings of the engine itself.
#[derive(Debug, Drop)]
pub struct Service {
    /// Milliseconds from one closing of the open chunks to the next, at least 1.
    pub flush_ms: u64,
    /// Seconds to wait for pending deliveries after a stop.
    pub grace_s: u64,
    /// The folder of file-backed chunks.
    pub path: Option<Bytes>,
    /// Whether each append is fsynced.
    pub full: bool,
    /// How many file-backed chunks may be in flight at once, at least 1.
    pub max_up: u64,
    /// How many bytes of recovered chunks may be in flight at once.
    pub backlog_limit: u64,
    /// Seconds of the shortest wait before a retry, at least 1.
    pub base: u64,
    /// Seconds of the longest wait before a retry, at least 1.
    pub cap: u64,
}

/// The shared key of an input or an output that speaks the forward protocol. Printing it for debugging leaves
/// out the key.
#[derive(Drop)]
pub struct SharedKey {
    pub key: Bytes,
    /// The name of this host, which a handshake tells the peer.
    pub host: Bytes,
}

impl fmt::Debug for SharedKey {
    fn fmt<W: fmt::Write>(&self, f: &mut fmt::Formatter<W>) -> fmt::Result {
        f.debug_struct("SharedKey")
            .field("host", &self.host)
            .finish_non_exhaustive()
    }
}

/// The plugin of an input, with its own settings.
#[derive(Debug, Drop)]
pub enum InputKind {
    /// Files to follow.
    Tail { paths: Names, from_head: bool },
    /// Peers that send lines.
    Tcp { host: Bytes, port: u16 },
    /// Peers that speak the forward protocol.
    Forward { host: Bytes, port: u16 },
    Stdin,
}

/// The settings of an input.
#[derive(Debug, Drop)]
pub struct InputSet {
    /// The name of the instance, such as `tail.0`.
    pub name: Bytes,
    pub kind: InputKind,
    /// The tag of its events. Without one, each message brings its own.
    pub tag: Option<Bytes>,
    /// Whether its chunks are file-backed.
    pub stored: bool,
    /// The bytes of chunks in memory at which the input pauses.
    pub mem_limit: Option<u64>,
    /// The database that keeps the offsets of its followed files, if any.
    pub db: Option<Bytes>,
    pub parser: Parser,
    /// The key that peers must have, if any. Only forward has one.
    pub shared: Option<SharedKey>,
}

/// Inputs, in the order of the configuration.
pub type InputSets = Items<InputSet>;

/// The plugin of an output, with its own settings.
#[derive(Debug, Drop)]
pub enum OutputKind {
    Stdout {
        form: PayloadForm,
    },
    /// A file in a folder. Without a name, the tag names it.
    File {
        folder: Bytes,
        file: Option<Bytes>,
        form: PayloadForm,
    },
    Tcp {
        host: Bytes,
        port: u16,
        form: PayloadForm,
    },
    Forward {
        host: Bytes,
        port: u16,
        /// Whether to ask for acknowledgements.
        ack: bool,
        /// Whether to write times as whole seconds.
        whole_time: bool,
    },
    Http {
        host: Bytes,
        port: u16,
        uri: Bytes,
        form: PayloadForm,
        options: HttpOptions,
    },
}

/// The further options of an http output.
#[derive(Debug, Drop)]
pub struct HttpOptions {
    /// The statuses that are retried besides those that always are.
    pub retried: StatusRanges,
    /// The further fields of each request's head.
    pub fields: HeaderFields,
}

/// The settings of an output.
#[derive(Debug, Drop)]
pub struct OutputSet {
    /// The name of the instance, such as `stdout.0`.
    pub name: Bytes,
    /// The name that stands for it in chunk files: its `storage.id`, or the name of the instance.
    pub id: Bytes,
    /// The glob of the tags that go to it.
    pub glob: Bytes,
    pub kind: OutputKind,
    pub retries: Retries,
    /// How many bytes of file-backed chunks may be pending for it.
    pub total_limit: Option<u64>,
    /// The key that the peer must have, if any. Only forward has one.
    pub shared: Option<SharedKey>,
}

/// Outputs, in the order of the configuration.
pub type OutputSets = Items<OutputSet>;

/// All settings of a configuration.
#[derive(Debug, Drop)]
pub struct AllSettings {
    pub service: Service,
    pub inputs: InputSets,
    pub filters: FilterSteps,
    pub outputs: OutputSets,
}
