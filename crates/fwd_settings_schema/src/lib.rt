//! What a configuration may contain: sections, plugins, keys, and the kind of value that each key takes.
//!
//! `key_of` finds the key of a section by its name, and how its value is read there. `Value` is what an
//! entry was read as; the accessors of a list of these return the value of a key. The readers of a
//! value's text are those of `fwd_settings_values`.
#![tactic(auto)]

mod error_kind;
mod fault;
mod keys;
mod plugins;
mod properties;
mod section_kind;
mod table;

pub use error_kind::SettingKind;
pub use fault::SettingFault;
pub use fwd_settings_values::{
    ChangeWord, LineFormat, Operation, change, condition, field_types, file_form, flush_ms, header,
    is_false, is_hostname, is_id, is_plain, is_tag, is_uri, is_visible, key_and_rest, line_format,
    nest_operation, parser_format, parts_at, port, positive, record_form, retries, same_name,
    status_ranges, store, sync, truth,
};
pub use keys::{Key, Kind, Plain};
pub use plugins::{FORWARD_PORT, FilterPlugin, HTTP_PORT, InputPlugin, OutputPlugin, TCP_PORT};
pub use properties::{
    Properties, Property, Value, form_at, format_at, grep_rules, header_count, id_at, id_place_at,
    last_parser, last_pattern, modify_rules, number_at, operation_at, own_text, port_at,
    push_headers, retries_at, text_at, text_or, truth_at, wildcards,
};
pub use section_kind::{SectionKind, Target};
pub use table::{Part, key_of};
