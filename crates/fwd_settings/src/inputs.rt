//! Reads the entries of an INPUT section into the settings of an input: its name, its tag, its parser,
//! and where its chunks are stored.

ghost use Rattle.std.specs.Prelude.{◌≡◌, ◌<◌, ◌+◌, ◌++◌, ◌∷◌, ◌^◌, ℕ, List, IfOk, codes, decimal, length, count_by};
ghost use Rattle.std.specs.Option.{option_copied};
ghost use Rattle.std.specs.List.{list_any};
ghost use Rattle.fwd_settings_schema.specs.Keys.{head_of};
ghost use Rattle.fwd_settings_entries.specs.Reading.{ReturnsResult, known};
ghost use Rattle.fwd_settings.specs.Inputs.{instance, input_plugin, is_input_of, input_name, input_kind, tag_of, lines_shape, input_parser, with_floats, is_path_entry, is_service_head, has_path, input_from};
ghost use Rattle.std.specs.Prelude.{unwrap_or};
ghost use Rattle.fwd_settings_entries.specs.Parsers.{timeless};
ghost use Rattle.fwd_settings_schema.specs.Property.{text_at, last_in, parser_in};

use crate::shared_keys::shared_key_of;
use crate::{InputKind, InputSet};
use fwd_base::{Bytes, Memory};
use fwd_config::{Entry, Place, Section};
use fwd_json::Floats;
use fwd_parser::{Parser, Shape};
use fwd_settings_entries::{ReadErr, refuse, timeless};
use fwd_settings_schema::{
    FORWARD_PORT, InputPlugin, Key, LineFormat, Properties, Property, SectionKind, SettingKind,
    TCP_PORT, Target, format_at, key_of, last_parser, number_at, own_text, parts_at, port_at,
    text_at, text_or, truth_at,
};
use itoa::Buffer;
use std::alloc::Global;

/// Returns the name of an instance: its plugin, a dot and its number.
pub fn instance(alloc: Global, plugin: &[u8], number: usize) -> Result<Bytes, Memory>
    ensures { IfOk result (λ name. name ≡ instance plugin.now number) }
{
    let mut buffer = Buffer::new();
    let mut name = Bytes::from_slice(alloc, plugin)?;
    name.push(b'.')?;
    name.extend_from_slice(buffer.format(number).as_bytes())?;
    Ok(name)
}

/// Returns the plugin of an input.
fn input_plugin(kind: &InputKind) -> InputPlugin
    ensures { result ≡ input_plugin kind.now }
{
    match kind {
        InputKind::Tail { .. } => InputPlugin::Tail,
        InputKind::Tcp { .. } => InputPlugin::Tcp,
        InputKind::Forward { .. } => InputPlugin::Forward,
        InputKind::Stdin => InputPlugin::Stdin,
    }
}

fn is_input_of(plugin: InputPlugin, set: &InputSet) -> bool
    ensures { result ≡ is_input_of plugin set.now }
{
    input_plugin(&set.kind).name() == plugin.name()
}

fn count_of(plugin: InputPlugin, before: &[InputSet]) -> usize
    ensures { result ≡ count_by (is_input_of plugin) before.now }
{
    before.iter().filter(|set| is_input_of(plugin, set)).count()
}

/// Returns the plugin of an input with its own settings.
fn input_kind(
    alloc: Global,
    plugin: InputPlugin,
    place: &Place,
    properties: &[Property],
) -> Result<InputKind, ReadErr>
    ensures { ReturnsResult (known (input_kind plugin place.now properties.now)) result }
{
    match plugin {
        InputPlugin::Tail => tail_kind(alloc, place, properties),
        InputPlugin::Tcp => Ok(InputKind::Tcp {
            host: text_or(alloc, properties, Key::Listen, b"0.0.0.0")?,
            port: port_at(properties, Key::Port).unwrap_or(TCP_PORT),
        }),
        InputPlugin::Forward => Ok(InputKind::Forward {
            host: text_or(alloc, properties, Key::Listen, b"0.0.0.0")?,
            port: port_at(properties, Key::Port).unwrap_or(FORWARD_PORT),
        }),
        InputPlugin::Stdin => Ok(InputKind::Stdin),
    }
}

fn tail_kind(alloc: Global, place: &Place, properties: &[Property]) -> Result<InputKind, ReadErr>
    ensures { ReturnsResult (known (input_kind InputPlugin.Tail place.now properties.now)) result }
{
    match text_at(properties, Key::Path) {
        Some(paths) => Ok(InputKind::Tail {
            paths: parts_at(alloc, b",", paths)?,
            from_head: truth_at(properties, Key::ReadFromHead).unwrap_or(false),
        }),
        None => refuse(alloc, SettingKind::Missing, place),
    }
}

/// Returns the tag of an input's events.
fn tag_of(
    alloc: Global,
    plugin: InputPlugin,
    name: &[u8],
    properties: &[Property],
) -> Result<Option<Bytes>, Memory>
    ensures { IfOk result (λ tag. tag ≡ tag_of plugin name.now (text_at Key.Tag properties.now)) }
{
    match plugin {
        InputPlugin::Forward => own_text(alloc, properties, Key::Tag),
        InputPlugin::Tail | InputPlugin::Tcp | InputPlugin::Stdin => {
            Ok(Some(text_or(alloc, properties, Key::Tag, name)?))
        }
    }
}

/// Returns how a tcp input reads lines, by default as JSON.
fn lines_shape(format: Option<LineFormat>) -> Shape
    ensures { result ≡ lines_shape format }
{
    match format {
        Some(LineFormat::Plain) => Shape::Plain,
        Some(LineFormat::Json | LineFormat::Regex) | None => Shape::Json,
    }
}

/// Returns the parser of an input.
fn input_parser(plugin: InputPlugin, properties: Properties) -> Parser
    ensures { result ≡ input_parser plugin properties }
{
    match plugin {
        InputPlugin::Tail => parser_or(Shape::Plain, properties),
        InputPlugin::Stdin => parser_or(Shape::Json, properties),
        InputPlugin::Tcp => timeless(lines_shape(format_at(properties.as_slice(), Key::Format))),
        InputPlugin::Forward => timeless(Shape::Plain),
    }
}

fn parser_or(shape: Shape, properties: Properties) -> Parser
    ensures { result ≡ unwrap_or (last_in parser_in properties) (timeless shape) }
{
    match last_parser(properties) {
        Some(parser) => parser,
        None => timeless(shape),
    }
}

/// Returns a parser that reads floats, or that reads none.
fn with_floats(floats: Floats, parser: Parser) -> Parser
    ensures { result ≡ with_floats floats parser }
{
    Parser {
        shape: parser.shape,
        time: parser.time,
        floats,
    }
}

fn is_path_entry(entry: &Entry) -> bool
    ensures { result ≡ is_path_entry entry.now }
{
    match key_of(Target::Service, entry.key.as_slice()) {
        Some((key, _)) => Key::StoragePath.is_same(key),
        None => false,
    }
}

fn any_path_entry(entries: &[Entry]) -> bool
    ensures { result ≡ list_any is_path_entry entries.now }
{
    entries.iter().any(|entry| is_path_entry(entry))
}

pub fn is_service(section: &Section) -> bool
    ensures { result ≡ is_service_head (head_of section.now.name) }
{
    matches!(
        SectionKind::of(section.name.as_slice()),
        Some(SectionKind::Service)
    )
}

fn has_path(section: &Section) -> bool
    ensures { result ≡ has_path section.now }
{
    is_service(section) && any_path_entry(section.entries.as_slice())
}

/// Returns whether some SERVICE section has a `storage.path`.
pub fn any_path(all: &[Section]) -> bool
    ensures { result ≡ list_any has_path all.now }
{
    all.iter().any(|section| has_path(section))
}

/// Returns the settings of an input, given those of the inputs before it. `path` is whether there is a
/// storage path.
pub fn input_from(
    alloc: Global,
    path: bool,
    floats: Floats,
    plugin: InputPlugin,
    place: &Place,
    before: &[InputSet],
    properties: Properties,
) -> Result<InputSet, ReadErr>
    ensures { ReturnsResult (known (input_from path floats plugin place.now before.now properties)) result }
{
    let kind = input_kind(alloc, plugin, place, properties.as_slice())?;
    let name = instance(alloc, plugin.name(), count_of(plugin, before))?;
    let tag = tag_of(alloc, plugin, name.as_slice(), properties.as_slice())?;
    let stored = truth_at(properties.as_slice(), Key::StorageType).unwrap_or(false);
    if stored && !path {
        return refuse(alloc, SettingKind::Missing, place);
    }
    let mem_limit = number_at(properties.as_slice(), Key::MemBufLimit);
    let db = own_text(alloc, properties.as_slice(), Key::Database)?;
    let shared = shared_key_of(alloc, properties.as_slice())?;
    let parser = with_floats(floats, input_parser(plugin, properties));
    Ok(InputSet {
        name,
        kind,
        tag,
        stored,
        mem_limit,
        db,
        parser,
        shared,
    })
}
