//! Reads the entries of an OUTPUT section into the settings of an output: its name and id, its glob,
//! where it delivers, and how often it retries.

ghost use Rattle.std.specs.Prelude.{◌≡◌, IfOk, count_by, unwrap_or};
ghost use Rattle.std.specs.Option.{option_copied};
ghost use Rattle.fwd_settings.specs.Outputs.{output_plugin, is_output_of, host_of, statuses_by, basic, authorization, header_fields, options_of, output_kind, output_set, has_id, output_from};
ghost use Rattle.fwd_settings_schema.specs.Property.{id_at, id_place_at};
ghost use Rattle.std.specs.List.{list_any};
ghost use Rattle.fwd_settings_entries.specs.Reading.{ReturnsResult, known};

use crate::filters::glob_of;
use crate::inputs::instance;
use crate::shared_keys::shared_key_of;
use crate::{HttpOptions, OutputKind, OutputSet};
use base64::engine::general_purpose::STANDARD;
use fwd_base::{Bytes, Form, Memory, Retries};
use fwd_config::Place;
use fwd_http::{HeaderField, HeaderFields, StatusRanges};
use fwd_json::{Floats, PayloadForm};
use fwd_settings_entries::{ReadErr, refuse};
use fwd_settings_schema::{
    FORWARD_PORT, HTTP_PORT, Key, OutputPlugin, Property, SettingKind, TCP_PORT, form_at,
    header_count, id_at, id_place_at, number_at, own_text, port_at, push_headers, retries_at,
    status_ranges, text_at, text_or, truth_at,
};
use std::alloc::Global;

/// The most Header entries of an output.
const MOST_HEADERS: usize = 32;

/// Returns the plugin of an output.
fn output_plugin(kind: &OutputKind) -> OutputPlugin
    ensures { result ≡ output_plugin kind.now }
{
    match kind {
        OutputKind::Stdout { .. } => OutputPlugin::Stdout,
        OutputKind::File { .. } => OutputPlugin::File,
        OutputKind::Tcp { .. } => OutputPlugin::Tcp,
        OutputKind::Forward { .. } => OutputPlugin::Forward,
        OutputKind::Http { .. } => OutputPlugin::Http,
    }
}

fn is_output_of(plugin: OutputPlugin, set: &OutputSet) -> bool
    ensures { result ≡ is_output_of plugin set.now }
{
    output_plugin(&set.kind).name() == plugin.name()
}

fn count_of(plugin: OutputPlugin, before: &[OutputSet]) -> usize
    ensures { result ≡ count_by (is_output_of plugin) before.now }
{
    before
        .iter()
        .filter(|set| is_output_of(plugin, set))
        .count()
}

fn host_of(alloc: Global, properties: &[Property]) -> Result<Bytes, Memory>
    ensures { IfOk result (λ host. host ≡ host_of properties.now) }
{
    text_or(alloc, properties, Key::Host, b"127.0.0.1")
}

/// Returns the statuses of a text, none without one.
fn statuses_by(alloc: Global, text: Option<&[u8]>) -> Result<StatusRanges, Memory>
    ensures { IfOk result (λ ranges. ranges ≡ statuses_by (option_copied text.entry)) }
{
    let Some(text) = text else {
        return Ok(StatusRanges::new(alloc));
    };
    match status_ranges(alloc, text)? {
        Some(ranges) => Ok(ranges),
        None => Ok(StatusRanges::new(alloc)),
    }
}

/// Returns the value of a field for basic authorization.
fn basic(alloc: Global, user: &[u8], passwd: &[u8]) -> Result<Bytes, Memory>
    ensures { IfOk result (λ value. value ≡ basic user.now passwd.now) }
{
    let mut pair = Bytes::from_slice(alloc, user)?;
    pair.push(b':')?;
    pair.extend_from_slice(passwd)?;
    let text = STANDARD.encode(alloc, pair.as_slice())?;
    let mut value = Bytes::from_slice(alloc, b"Basic ")?;
    value.extend_from_slice(text.as_bytes())?;
    Ok(value)
}

/// Returns the field that authorizes a user, if there is one.
fn authorization(alloc: Global, user: Option<&[u8]>, passwd: &[u8]) -> Result<HeaderFields, Memory>
    ensures { IfOk result (λ fields. fields ≡ authorization (option_copied user.entry) passwd.now) }
{
    let mut fields = HeaderFields::new(alloc);
    if let Some(user) = user {
        fields.push(HeaderField {
            name: Bytes::from_slice(alloc, b"Authorization")?,
            value: basic(alloc, user, passwd)?,
        })?;
    }
    Ok(fields)
}

/// Returns the further fields of a request's head: the authorization, and then each Header.
fn header_fields(alloc: Global, properties: &[Property]) -> Result<HeaderFields, Memory>
    ensures { IfOk result (λ fields. fields ≡ header_fields properties.now) }
{
    let passwd = text_at(properties, Key::HttpPasswd).unwrap_or(b"");
    let mut fields = authorization(alloc, text_at(properties, Key::HttpUser), passwd)?;
    push_headers(alloc, &mut fields, properties)?;
    Ok(fields)
}

/// Returns the further options of an http output.
fn options_of(alloc: Global, properties: &[Property]) -> Result<HttpOptions, Memory>
    ensures { IfOk result (λ options. options ≡ options_of properties.now) }
{
    Ok(HttpOptions {
        retried: statuses_by(alloc, text_at(properties, Key::RetryStatus))?,
        fields: header_fields(alloc, properties)?,
    })
}

/// Returns the plugin of an output with its own settings.
fn output_kind(
    alloc: Global,
    floats: Floats,
    plugin: OutputPlugin,
    properties: &[Property],
) -> Result<OutputKind, Memory>
    ensures { IfOk result (λ kind. kind ≡ output_kind floats plugin properties.now) }
{
    match plugin {
        OutputPlugin::Stdout => Ok(OutputKind::Stdout {
            form: PayloadForm {
                form: form_at(properties, Key::Format).unwrap_or(Form::JsonLines),
                floats,
            },
        }),
        OutputPlugin::File => Ok(OutputKind::File {
            folder: text_or(alloc, properties, Key::Path, b".")?,
            file: own_text(alloc, properties, Key::File)?,
            form: PayloadForm {
                form: form_at(properties, Key::Format).unwrap_or(Form::OutFile),
                floats,
            },
        }),
        OutputPlugin::Tcp => Ok(OutputKind::Tcp {
            host: host_of(alloc, properties)?,
            port: port_at(properties, Key::Port).unwrap_or(TCP_PORT),
            form: PayloadForm {
                form: form_at(properties, Key::Format).unwrap_or(Form::JsonLines),
                floats,
            },
        }),
        OutputPlugin::Forward => Ok(OutputKind::Forward {
            host: host_of(alloc, properties)?,
            port: port_at(properties, Key::Port).unwrap_or(FORWARD_PORT),
            ack: truth_at(properties, Key::RequireAck).unwrap_or(false),
            whole_time: truth_at(properties, Key::TimeAsInteger).unwrap_or(false),
        }),
        OutputPlugin::Http => Ok(OutputKind::Http {
            host: host_of(alloc, properties)?,
            port: port_at(properties, Key::Port).unwrap_or(HTTP_PORT),
            uri: text_or(alloc, properties, Key::Uri, b"/")?,
            form: PayloadForm {
                form: form_at(properties, Key::Format).unwrap_or(Form::MsgPack),
                floats,
            },
            options: options_of(alloc, properties)?,
        }),
    }
}

/// Returns a copy of the `storage.id`, or of a default.
fn id_or(alloc: Global, properties: &[Property], default: &[u8]) -> Result<Bytes, Memory>
    ensures { IfOk result (λ id. id ≡ unwrap_or (id_at Key.StorageId properties.now) default.now) }
{
    match id_at(properties, Key::StorageId) {
        Some(id) => Bytes::from_slice(alloc, id),
        None => Bytes::from_slice(alloc, default),
    }
}

/// Returns the place of the `storage.id`, or a default.
fn id_place_or<'a>(properties: &'a [Property], default: &'a Place) -> &'a Place
    ensures { result.now ≡ unwrap_or (id_place_at Key.StorageId properties.now) default.now }
{
    match id_place_at(properties, Key::StorageId) {
        Some(place) => place,
        None => default,
    }
}

fn has_id(set: &OutputSet, id: &[u8]) -> bool
    ensures { result ≡ has_id id.now set.now }
{
    set.id.as_slice() == id
}

/// Returns whether some output has an id.
fn is_taken(outputs: &[OutputSet], id: &[u8]) -> bool
    ensures { result ≡ list_any (has_id id.now) outputs.now }
{
    outputs.iter().any(|set| has_id(set, id))
}

fn output_set(
    alloc: Global,
    floats: Floats,
    plugin: OutputPlugin,
    before: &[OutputSet],
    properties: &[Property],
) -> Result<OutputSet, Memory>
    ensures { IfOk result (λ set. set ≡ output_set floats plugin before.now properties.now) }
{
    let name = instance(alloc, plugin.name(), count_of(plugin, before))?;
    let id = id_or(alloc, properties, name.as_slice())?;
    Ok(OutputSet {
        name,
        id,
        glob: glob_of(alloc, properties)?,
        kind: output_kind(alloc, floats, plugin, properties)?,
        retries: retries_at(properties, Key::RetryLimit).unwrap_or(Retries::Times(1)),
        total_limit: number_at(properties, Key::TotalLimit),
        shared: shared_key_of(alloc, properties)?,
    })
}

/// Returns the settings of an output, given those of the outputs before it.
pub fn output_from(
    alloc: Global,
    floats: Floats,
    plugin: OutputPlugin,
    place: &Place,
    before: &[OutputSet],
    properties: &[Property],
) -> Result<OutputSet, ReadErr>
    ensures { ReturnsResult (known (output_from floats plugin place.now before.now properties.now)) result }
{
    if header_count(properties) > MOST_HEADERS {
        return refuse(alloc, SettingKind::TooMany, place);
    }
    let set = output_set(alloc, floats, plugin, before, properties)?;
    if is_taken(before, set.id.as_slice()) {
        return refuse(
            alloc,
            SettingKind::BadChoice,
            id_place_or(properties, place),
        );
    }
    Ok(set)
}
