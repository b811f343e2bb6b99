//! Keys of sections and plugins, and the kinds of values that they take.

ghost use Rattle.std.specs.Prelude.{◌≡◌};
ghost use Rattle.std.specs.Str.{bytes_eq};
ghost use Rattle.fwd_settings_schema.specs.Keys.{name_of, is_key_named};

use crate::{ChangeWord, same_name};

/// A key of a section.
#[derive(Clone, Copy)]
pub enum Key {
    Name,
    Flush,
    Grace,
    StoragePath,
    StorageSync,
    StorageChecksum,
    MaxChunksUp,
    BacklogMemLimit,
    SchedulerBase,
    SchedulerCap,
    JsonFloats,
    ParsersFile,
    Daemon,
    LogLevel,
    LogFile,
    HttpServer,
    HttpListen,
    HttpPort,
    HealthCheck,
    ForwardMemLimit,
    StorageMetrics,
    PluginsFile,
    Tag,
    StorageType,
    MemBufLimit,
    Alias,
    Path,
    Parser,
    ReadFromHead,
    Database,
    RefreshInterval,
    RotateWait,
    SkipLongLines,
    BufferChunkSize,
    BufferMaxSize,
    Listen,
    Port,
    Format,
    ChunkSize,
    BufferSize,
    Regex,
    TimeKey,
    TimeFormat,
    TimeKeep,
    Types,
    SkipEmptyValues,
    Match,
    Exclude,
    Condition,
    Set,
    Add,
    Remove,
    RemoveWildcard,
    Rename,
    HardRename,
    Copy,
    HardCopy,
    Operation,
    Wildcard,
    NestUnder,
    NestedUnder,
    RemovePrefix,
    AddPrefix,
    RetryLimit,
    TotalLimit,
    Tls,
    Workers,
    File,
    Mkdir,
    Host,
    RequireAck,
    TimeAsInteger,
    Uri,
    RetryStatus,
    Header,
    HttpUser,
    HttpPasswd,
    StorageId,
    SharedKey,
    SelfHostname,
}

/// How to read a value.
#[derive(Clone, Copy)]
pub enum Kind {
    Plain(Plain),
    /// A pattern.
    Pattern,
    /// The name of a parser.
    Parser,
    /// A name that stands for an output in chunk files.
    Id,
    /// A key and a pattern.
    Grep { exclude: bool },
}

/// How to read a value that is neither a pattern nor a parser.
#[derive(Clone, Copy)]
pub enum Plain {
    /// Any text, which is ignored.
    Ignored,
    /// A number.
    Number,
    /// A number of at least 1.
    Positive,
    /// A port.
    Port,
    /// A size.
    Size,
    /// Seconds, read as milliseconds.
    Flush,
    /// A truth value.
    Truth,
    /// A word for false.
    False,
    /// `normal`, or `full` for a truth value that holds.
    Sync,
    /// `memory`, or `filesystem` for a truth value that holds.
    Store,
    /// The format of a tcp input's lines: `json` or `none`.
    LineFormat,
    /// The format of a parser's lines: `json`, `regex` or `none`.
    ParserFormat,
    /// The form of records for a stream: `json_lines` or `msgpack`.
    RecordForm,
    /// The form of records in a file: `out_file` or `json_lines`.
    FileForm,
    /// The operation of `nest`: `nest` or `lift`.
    Operation,
    /// Any text.
    Text,
    /// A tag.
    Tag,
    /// A tag without a star.
    PlainTag,
    /// Paths without a star, separated by commas.
    Paths,
    /// A text of visible characters.
    Visible,
    /// A slash, then visible characters.
    Uri,
    /// A host name.
    Hostname,
    /// A number, `no_limits`, `False` or `no_retries`.
    Retries,
    /// Words `key:type`.
    Types,
    /// Statuses, and classes of statuses.
    Statuses,
    /// The name and the value of a header field.
    Header,
    /// Printable ASCII.
    Printable,
    /// A condition of `modify`.
    Condition,
    /// A rule of `modify`.
    Change(ChangeWord),
    /// A wildcard of `nest`.
    Wildcard,
}

impl Key {
    /// Returns the name, in lower case.
    fn name(self) -> &'static [u8]
        ensures { result.now ≡ name_of self }
    {
        match self {
            Key::Name => b"name",
            Key::Flush => b"flush",
            Key::Grace => b"grace",
            Key::StoragePath => b"storage.path",
            Key::StorageSync => b"storage.sync",
            Key::StorageChecksum => b"storage.checksum",
            Key::MaxChunksUp => b"storage.max_chunks_up",
            Key::BacklogMemLimit => b"storage.backlog.mem_limit",
            Key::SchedulerBase => b"scheduler.base",
            Key::SchedulerCap => b"scheduler.cap",
            Key::JsonFloats => b"json.floats",
            Key::ParsersFile => b"parsers_file",
            Key::Daemon => b"daemon",
            Key::LogLevel => b"log_level",
            Key::LogFile => b"log_file",
            Key::HttpServer => b"http_server",
            Key::HttpListen => b"http_listen",
            Key::HttpPort => b"http_port",
            Key::HealthCheck => b"health_check",
            Key::ForwardMemLimit => b"forward.mem_limit",
            Key::StorageMetrics => b"storage.metrics",
            Key::PluginsFile => b"plugins_file",
            Key::Tag => b"tag",
            Key::StorageType => b"storage.type",
            Key::MemBufLimit => b"mem_buf_limit",
            Key::Alias => b"alias",
            Key::Path => b"path",
            Key::Parser => b"parser",
            Key::ReadFromHead => b"read_from_head",
            Key::Database => b"db",
            Key::RefreshInterval => b"refresh_interval",
            Key::RotateWait => b"rotate_wait",
            Key::SkipLongLines => b"skip_long_lines",
            Key::BufferChunkSize => b"buffer_chunk_size",
            Key::BufferMaxSize => b"buffer_max_size",
            Key::Listen => b"listen",
            Key::Port => b"port",
            Key::Format => b"format",
            Key::ChunkSize => b"chunk_size",
            Key::BufferSize => b"buffer_size",
            Key::Regex => b"regex",
            Key::TimeKey => b"time_key",
            Key::TimeFormat => b"time_format",
            Key::TimeKeep => b"time_keep",
            Key::Types => b"types",
            Key::SkipEmptyValues => b"skip_empty_values",
            Key::Match => b"match",
            Key::Exclude => b"exclude",
            Key::Condition => b"condition",
            Key::Set => b"set",
            Key::Add => b"add",
            Key::Remove => b"remove",
            Key::RemoveWildcard => b"remove_wildcard",
            Key::Rename => b"rename",
            Key::HardRename => b"hard_rename",
            Key::Copy => b"copy",
            Key::HardCopy => b"hard_copy",
            Key::Operation => b"operation",
            Key::Wildcard => b"wildcard",
            Key::NestUnder => b"nest_under",
            Key::NestedUnder => b"nested_under",
            Key::RemovePrefix => b"remove_prefix",
            Key::AddPrefix => b"add_prefix",
            Key::RetryLimit => b"retry_limit",
            Key::TotalLimit => b"storage.total_limit_size",
            Key::Tls => b"tls",
            Key::Workers => b"workers",
            Key::File => b"file",
            Key::Mkdir => b"mkdir",
            Key::Host => b"host",
            Key::RequireAck => b"require_ack_response",
            Key::TimeAsInteger => b"time_as_integer",
            Key::Uri => b"uri",
            Key::RetryStatus => b"retry_status",
            Key::Header => b"header",
            Key::HttpUser => b"http_user",
            Key::HttpPasswd => b"http_passwd",
            Key::StorageId => b"storage.id",
            Key::SharedKey => b"shared_key",
            Key::SelfHostname => b"self_hostname",
        }
    }

    /// Returns whether a name, case ignored, is this key's.
    pub fn is_named(self, name: &[u8]) -> bool
        ensures { result ≡ is_key_named name.now self }
    {
        same_name(self.name(), name)
    }

    /// Returns whether this is the same key as another.
    pub fn is_same(self, other: Key) -> bool
        ensures { result ≡ bytes_eq (name_of self) (name_of other) }
    {
        self.name() == other.name()
    }
}
