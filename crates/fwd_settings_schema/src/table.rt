//! The table of keys: which sections and plugins have them, and how their values are read there.

ghost use Rattle.std.specs.Prelude.{◌≡◌};
ghost use Rattle.std.specs.List.{find};
ghost use Rattle.fwd_settings_schema.specs.Keys.{table, covers, is_row_of, row_of, key_of};

use crate::keys::{Key, Kind, Plain};
use crate::plugins::{FilterPlugin, InputPlugin, OutputPlugin};
use crate::section_kind::Target;
use fwd_settings_values::ChangeWord;

/// The sections and plugins that a row of the table is about.
#[derive(Clone, Copy)]
pub enum Part {
    Service,
    Parser,
    EachInput,
    TailInput,
    TcpInput,
    ForwardInput,
    StdinInput,
    EachFilter,
    GrepFilter,
    ModifyFilter,
    NestFilter,
    EachOutput,
    StdoutOutput,
    FileOutput,
    TcpOutput,
    ForwardOutput,
    HttpOutput,
}

/// A row: where the key stands, the key, and how its value is read there.
type Row = (Part, Key, Kind);

const FLUSH: Kind = Kind::Plain(Plain::Flush);

const NUMBER: Kind = Kind::Plain(Plain::Number);

const TEXT: Kind = Kind::Plain(Plain::Text);

const SYNC: Kind = Kind::Plain(Plain::Sync);

const FALSE: Kind = Kind::Plain(Plain::False);

const POSITIVE: Kind = Kind::Plain(Plain::Positive);

const SIZE: Kind = Kind::Plain(Plain::Size);

const IGNORED: Kind = Kind::Plain(Plain::Ignored);

const PARSER_FORMAT: Kind = Kind::Plain(Plain::ParserFormat);

const TRUTH: Kind = Kind::Plain(Plain::Truth);

const TYPES: Kind = Kind::Plain(Plain::Types);

const STORE: Kind = Kind::Plain(Plain::Store);

const PLAIN_TAG: Kind = Kind::Plain(Plain::PlainTag);

const PATHS: Kind = Kind::Plain(Plain::Paths);

const TAG: Kind = Kind::Plain(Plain::Tag);

const PORT: Kind = Kind::Plain(Plain::Port);

const LINE_FORMAT: Kind = Kind::Plain(Plain::LineFormat);

const KEEP: Kind = Kind::Grep { exclude: false };

const EXCLUDE: Kind = Kind::Grep { exclude: true };

const CONDITION: Kind = Kind::Plain(Plain::Condition);

const CHANGE_SET: Kind = Kind::Plain(Plain::Change(ChangeWord::Set));

const CHANGE_ADD: Kind = Kind::Plain(Plain::Change(ChangeWord::Add));

const CHANGE_REMOVE: Kind = Kind::Plain(Plain::Change(ChangeWord::Remove));

const CHANGE_REMOVE_WILDCARD: Kind = Kind::Plain(Plain::Change(ChangeWord::RemoveWildcard));

const CHANGE_RENAME: Kind = Kind::Plain(Plain::Change(ChangeWord::Rename));

const CHANGE_HARD_RENAME: Kind = Kind::Plain(Plain::Change(ChangeWord::HardRename));

const CHANGE_COPY: Kind = Kind::Plain(Plain::Change(ChangeWord::Copy));

const CHANGE_HARD_COPY: Kind = Kind::Plain(Plain::Change(ChangeWord::HardCopy));

const OPERATION: Kind = Kind::Plain(Plain::Operation);

const WILDCARD: Kind = Kind::Plain(Plain::Wildcard);

const RETRIES: Kind = Kind::Plain(Plain::Retries);

const RECORD_FORM: Kind = Kind::Plain(Plain::RecordForm);

const FILE_FORM: Kind = Kind::Plain(Plain::FileForm);

const VISIBLE: Kind = Kind::Plain(Plain::Visible);

const URI: Kind = Kind::Plain(Plain::Uri);

const HOSTNAME: Kind = Kind::Plain(Plain::Hostname);

const STATUSES: Kind = Kind::Plain(Plain::Statuses);

const HEADER: Kind = Kind::Plain(Plain::Header);

const PRINTABLE: Kind = Kind::Plain(Plain::Printable);

const TABLE: &[Row] = &[
    (Part::Service, Key::Flush, FLUSH),
    (Part::Service, Key::Grace, NUMBER),
    (Part::Service, Key::StoragePath, TEXT),
    (Part::Service, Key::StorageSync, SYNC),
    (Part::Service, Key::StorageChecksum, FALSE),
    (Part::Service, Key::MaxChunksUp, POSITIVE),
    (Part::Service, Key::BacklogMemLimit, SIZE),
    (Part::Service, Key::SchedulerBase, POSITIVE),
    (Part::Service, Key::SchedulerCap, POSITIVE),
    (Part::Service, Key::JsonFloats, TRUTH),
    (Part::Service, Key::ParsersFile, IGNORED),
    (Part::Service, Key::Daemon, IGNORED),
    (Part::Service, Key::LogLevel, IGNORED),
    (Part::Service, Key::LogFile, IGNORED),
    (Part::Service, Key::HttpServer, IGNORED),
    (Part::Service, Key::HttpListen, IGNORED),
    (Part::Service, Key::HttpPort, IGNORED),
    (Part::Service, Key::HealthCheck, IGNORED),
    (Part::Service, Key::ForwardMemLimit, IGNORED),
    (Part::Service, Key::StorageMetrics, IGNORED),
    (Part::Service, Key::PluginsFile, IGNORED),
    (Part::Parser, Key::Name, IGNORED),
    (Part::Parser, Key::Format, PARSER_FORMAT),
    (Part::Parser, Key::Regex, Kind::Pattern),
    (Part::Parser, Key::TimeKey, TEXT),
    (Part::Parser, Key::TimeFormat, TEXT),
    (Part::Parser, Key::TimeKeep, TRUTH),
    (Part::Parser, Key::Types, TYPES),
    (Part::Parser, Key::SkipEmptyValues, TRUTH),
    (Part::EachInput, Key::Name, IGNORED),
    (Part::EachInput, Key::StorageType, STORE),
    (Part::EachInput, Key::MemBufLimit, SIZE),
    (Part::EachInput, Key::Alias, IGNORED),
    (Part::EachInput, Key::LogLevel, IGNORED),
    (Part::TailInput, Key::Tag, PLAIN_TAG),
    (Part::TailInput, Key::Path, PATHS),
    (Part::TailInput, Key::Parser, Kind::Parser),
    (Part::TailInput, Key::ReadFromHead, TRUTH),
    (Part::TailInput, Key::Database, TEXT),
    (Part::TailInput, Key::RefreshInterval, IGNORED),
    (Part::TailInput, Key::RotateWait, IGNORED),
    (Part::TailInput, Key::SkipLongLines, IGNORED),
    (Part::TailInput, Key::BufferChunkSize, IGNORED),
    (Part::TailInput, Key::BufferMaxSize, IGNORED),
    (Part::TcpInput, Key::Tag, TAG),
    (Part::TcpInput, Key::Listen, TEXT),
    (Part::TcpInput, Key::Port, PORT),
    (Part::TcpInput, Key::Format, LINE_FORMAT),
    (Part::TcpInput, Key::ChunkSize, IGNORED),
    (Part::TcpInput, Key::BufferSize, IGNORED),
    (Part::ForwardInput, Key::Tag, TAG),
    (Part::ForwardInput, Key::Listen, TEXT),
    (Part::ForwardInput, Key::Port, PORT),
    (Part::ForwardInput, Key::BufferChunkSize, IGNORED),
    (Part::ForwardInput, Key::BufferMaxSize, IGNORED),
    (Part::ForwardInput, Key::SharedKey, TEXT),
    (Part::ForwardInput, Key::SelfHostname, HOSTNAME),
    (Part::StdinInput, Key::Tag, TAG),
    (Part::StdinInput, Key::Parser, Kind::Parser),
    (Part::EachFilter, Key::Name, IGNORED),
    (Part::EachFilter, Key::Match, TEXT),
    (Part::GrepFilter, Key::Regex, KEEP),
    (Part::GrepFilter, Key::Exclude, EXCLUDE),
    (Part::ModifyFilter, Key::Condition, CONDITION),
    (Part::ModifyFilter, Key::Set, CHANGE_SET),
    (Part::ModifyFilter, Key::Add, CHANGE_ADD),
    (Part::ModifyFilter, Key::Remove, CHANGE_REMOVE),
    (
        Part::ModifyFilter,
        Key::RemoveWildcard,
        CHANGE_REMOVE_WILDCARD,
    ),
    (Part::ModifyFilter, Key::Rename, CHANGE_RENAME),
    (Part::ModifyFilter, Key::HardRename, CHANGE_HARD_RENAME),
    (Part::ModifyFilter, Key::Copy, CHANGE_COPY),
    (Part::ModifyFilter, Key::HardCopy, CHANGE_HARD_COPY),
    (Part::NestFilter, Key::Operation, OPERATION),
    (Part::NestFilter, Key::Wildcard, WILDCARD),
    (Part::NestFilter, Key::NestUnder, TEXT),
    (Part::NestFilter, Key::NestedUnder, TEXT),
    (Part::NestFilter, Key::RemovePrefix, TEXT),
    (Part::NestFilter, Key::AddPrefix, TEXT),
    (Part::EachOutput, Key::Name, IGNORED),
    (Part::EachOutput, Key::Match, TEXT),
    (Part::EachOutput, Key::RetryLimit, RETRIES),
    (Part::EachOutput, Key::TotalLimit, SIZE),
    (Part::EachOutput, Key::Tls, FALSE),
    (Part::EachOutput, Key::Alias, IGNORED),
    (Part::EachOutput, Key::LogLevel, IGNORED),
    (Part::EachOutput, Key::Workers, IGNORED),
    (Part::EachOutput, Key::StorageId, Kind::Id),
    (Part::StdoutOutput, Key::Format, RECORD_FORM),
    (Part::FileOutput, Key::Path, TEXT),
    (Part::FileOutput, Key::File, TEXT),
    (Part::FileOutput, Key::Format, FILE_FORM),
    (Part::FileOutput, Key::Mkdir, IGNORED),
    (Part::TcpOutput, Key::Host, TEXT),
    (Part::TcpOutput, Key::Port, PORT),
    (Part::TcpOutput, Key::Format, RECORD_FORM),
    (Part::ForwardOutput, Key::Host, TEXT),
    (Part::ForwardOutput, Key::Port, PORT),
    (Part::ForwardOutput, Key::RequireAck, TRUTH),
    (Part::ForwardOutput, Key::TimeAsInteger, TRUTH),
    (Part::ForwardOutput, Key::SharedKey, TEXT),
    (Part::ForwardOutput, Key::SelfHostname, HOSTNAME),
    (Part::HttpOutput, Key::Host, VISIBLE),
    (Part::HttpOutput, Key::Port, PORT),
    (Part::HttpOutput, Key::Uri, URI),
    (Part::HttpOutput, Key::Format, RECORD_FORM),
    (Part::HttpOutput, Key::RetryStatus, STATUSES),
    (Part::HttpOutput, Key::Header, HEADER),
    (Part::HttpOutput, Key::HttpUser, PRINTABLE),
    (Part::HttpOutput, Key::HttpPasswd, PRINTABLE),
];

/// Returns whether a part has a section or plugin in it.
fn covers(part: Part, target: Target) -> bool
    ensures { result ≡ covers part target }
{
    matches!(
        (part, target),
        (Part::Service, Target::Service)
            | (Part::Parser, Target::Parser)
            | (Part::EachInput, Target::Input(_))
            | (Part::TailInput, Target::Input(InputPlugin::Tail))
            | (Part::TcpInput, Target::Input(InputPlugin::Tcp))
            | (Part::ForwardInput, Target::Input(InputPlugin::Forward))
            | (Part::StdinInput, Target::Input(InputPlugin::Stdin))
            | (Part::EachFilter, Target::Filter(_))
            | (Part::GrepFilter, Target::Filter(FilterPlugin::Grep))
            | (Part::ModifyFilter, Target::Filter(FilterPlugin::Modify))
            | (Part::NestFilter, Target::Filter(FilterPlugin::Nest))
            | (Part::EachOutput, Target::Output(_))
            | (Part::StdoutOutput, Target::Output(OutputPlugin::Stdout))
            | (Part::FileOutput, Target::Output(OutputPlugin::File))
            | (Part::TcpOutput, Target::Output(OutputPlugin::Tcp))
            | (Part::ForwardOutput, Target::Output(OutputPlugin::Forward))
            | (Part::HttpOutput, Target::Output(OutputPlugin::Http))
    )
}

fn is_row_of(row: Row, target: Target, name: &[u8]) -> bool
    ensures { result ≡ is_row_of target name.now row }
{
    covers(row.0, target) && row.1.is_named(name)
}

#[tactic(auto, unfolding(crate::specs::Keys::table))]
fn row_of(target: Target, name: &[u8]) -> Option<Row>
    ensures { result ≡ row_of target name.now }
{
    TABLE
        .iter()
        .copied()
        .find(|row| is_row_of(*row, target, name))
}

/// Returns the key of a section or plugin with this name, and how its value is read there.
pub fn key_of(target: Target, name: &[u8]) -> Option<(Key, Kind)>
    ensures { result ≡ key_of target name.now }
{
    let (_, key, kind) = row_of(target, name)?;
    Some((key, kind))
}
