//! What keys there are, and what their values may be, in words.

use fwd_settings_schema::{OutputPlugin, SectionKind, SettingKind, Target, key_of, same_name};

/// The names of all keys, as they are mostly written. Those that a section doesn't have are left out by
/// `has_key`.
const NAMES: &[&str] = &[
    "Name",
    "Flush",
    "Grace",
    "storage.path",
    "storage.sync",
    "storage.checksum",
    "storage.max_chunks_up",
    "storage.backlog.mem_limit",
    "storage.metrics",
    "scheduler.base",
    "scheduler.cap",
    "json.floats",
    "Parsers_File",
    "Plugins_File",
    "Daemon",
    "HTTP_Server",
    "HTTP_Listen",
    "HTTP_Port",
    "Health_Check",
    "forward.mem_limit",
    "Log_File",
    "Path",
    "Parser",
    "Read_from_Head",
    "Refresh_Interval",
    "Rotate_Wait",
    "Skip_Long_Lines",
    "Listen",
    "Host",
    "Port",
    "URI",
    "Header",
    "HTTP_User",
    "HTTP_Passwd",
    "Retry_Status",
    "Format",
    "File",
    "Mkdir",
    "Chunk_Size",
    "Buffer_Size",
    "Buffer_Chunk_Size",
    "Buffer_Max_Size",
    "Regex",
    "Exclude",
    "Time_Key",
    "Time_Format",
    "Time_Keep",
    "Types",
    "Skip_Empty_Values",
    "Condition",
    "Set",
    "Add",
    "Remove",
    "Remove_wildcard",
    "Rename",
    "Hard_rename",
    "Copy",
    "Hard_copy",
    "Operation",
    "Wildcard",
    "Nest_under",
    "Nested_under",
    "Remove_prefix",
    "Add_prefix",
    "Require_ack_response",
    "Time_as_Integer",
    "Shared_Key",
    "Self_Hostname",
    "Tag",
    "Match",
    "storage.type",
    "storage.id",
    "storage.total_limit_size",
    "Mem_Buf_Limit",
    "Retry_Limit",
    "tls",
    "Alias",
    "Log_Level",
    "Workers",
];

/// The words that a key chooses from where it is the same everywhere.
const CHOICES: &[(&str, &str)] = &[
    ("storage.sync", "one of normal, full"),
    ("storage.type", "one of memory, filesystem"),
    ("storage.checksum", "Off alone"),
    ("tls", "Off alone"),
    ("operation", "one of nest, lift"),
    ("log_level", "one of off, error, warn, info, debug, trace"),
    ("retry_limit", "a number, no_limits, no_retries or False"),
    ("condition", "a condition, as Key_exists KEY"),
    ("regex", "a key and a pattern"),
    ("exclude", "a key and a pattern"),
    ("set", "a key and a value"),
    ("add", "a key and a value"),
    ("remove", "a key"),
    ("remove_wildcard", "the beginning of keys"),
    ("rename", "two keys"),
    ("hard_rename", "two keys"),
    ("copy", "two keys"),
    ("hard_copy", "two keys"),
    ("types", "words KEY:TYPE"),
    ("parser", "the Name of a PARSER section"),
    ("path", "paths without a star, separated by commas"),
    (
        "tag",
        "a text of UTF-8 with 1 to 1024 bytes, and no star if the plugin is tail",
    ),
    (
        "storage.id",
        "a name without blanks, of at most 255 bytes, that no output before it has",
    ),
    (
        "retry_status",
        "statuses of three digits, 3xx or 4xx, as 404,429",
    ),
    (
        "header",
        "a name and a value of printable ASCII, as X-Team ops",
    ),
    ("http_user", "printable ASCII"),
    ("http_passwd", "printable ASCII"),
    ("wildcard", "a prefix and a star"),
    ("uri", "a slash, and visible characters"),
    ("host", "visible characters"),
    ("self_hostname", "a text of at most 255 bytes"),
];

pub fn key_names() -> &'static [&'static str] {
    NAMES
}

/// Returns whether a section or plugin has a key of this name.
pub fn has_key(target: Target, name: &[u8]) -> bool {
    key_of(target, name).is_some()
}

/// Returns the plugins of a kind of section.
pub fn plugins_of(kind: Option<SectionKind>) -> &'static str {
    match kind {
        Some(SectionKind::Input) => "tail, tcp, forward, stdin",
        Some(SectionKind::Filter) => "grep, modify, nest",
        Some(SectionKind::Output) => "stdout, file, tcp, forward, http",
        Some(SectionKind::Service) | Some(SectionKind::Parser) | None => "none",
    }
}

/// Returns the formats that a section or plugin takes.
fn formats(target: Option<Target>) -> &'static str {
    match target {
        Some(Target::Input(_)) => "one of json, none",
        Some(Target::Parser) => "one of json, regex, none",
        Some(Target::Output(OutputPlugin::File)) => "one of out_file, json_lines",
        Some(Target::Output(_)) => "one of json_lines, msgpack",
        Some(Target::Service) | Some(Target::Filter(_)) | None => "another word",
    }
}

fn choice(target: Option<Target>, key: &[u8]) -> &'static str {
    if same_name(key, b"format") {
        return formats(target);
    }
    for (name, words) in CHOICES {
        if same_name(key, name.as_bytes()) {
            return words;
        }
    }
    "On or Off"
}

/// Returns what the value of a key has to be that is refused for this.
pub fn expectation_of(target: Option<Target>, kind: SettingKind, key: &[u8]) -> &'static str {
    match kind {
        SettingKind::BadNumber if same_name(key, b"flush") => "seconds, as 1 or 0.5",
        SettingKind::BadNumber => "a number, and one that the key takes",
        SettingKind::BadSize => "a size, as 500000 or 5M",
        SettingKind::PatternRefused => "not a pattern that can be used",
        SettingKind::BadChoice => choice(target, key),
        SettingKind::UnknownPlugin
        | SettingKind::UnknownKey
        | SettingKind::Missing
        | SettingKind::TooMany
        | SettingKind::Memory
        | SettingKind::UnknownSection => "another value",
    }
}
