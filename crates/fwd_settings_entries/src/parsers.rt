//! Parsers, and the PARSER sections that describe them.

ghost use Rattle.std.specs.Prelude.{◌≡◌, IfOk};
ghost use Rattle.std.specs.Option.{option_copied};
ghost use Rattle.std.specs.List.{find};
ghost use Rattle.fwd_settings_entries.specs.Reading.{ReturnsResult, known};
ghost use Rattle.fwd_settings_entries.specs.Parsers.{time_of, types_by, shape_by, parser_from, parser_of, is_name, name_entry, is_parser_head, has_name, is_parser_named, parser_named, timeless};
ghost use Rattle.fwd_settings_schema.specs.Keys.{head_of};

use crate::entries::{read_parser_entries, refuse};
use crate::read_err::ReadErr;
use fwd_base::Memory;
use fwd_config::{Entry, Place, Section};
use fwd_parser::{FieldTypes, Floats, Parser, Shape, TimeRule};
use fwd_settings_schema::{
    Key, LineFormat, Properties, Property, SectionKind, SettingKind, field_types, format_at,
    last_pattern, own_text, same_name, text_at, text_or, truth_at,
};
use std::alloc::Global;

/// Returns a parser that reads no time and no floats.
pub fn timeless(shape: Shape) -> Parser
    ensures { result ≡ timeless shape }
{
    Parser {
        shape,
        time: None,
        floats: Floats::Tagged,
    }
}

/// Returns how to read the time, if a format is given.
fn time_of(alloc: Global, properties: &[Property]) -> Result<Option<TimeRule>, Memory>
    ensures { IfOk result (λ time. time ≡ time_of properties.now) }
{
    let Some(format) = own_text(alloc, properties, Key::TimeFormat)? else {
        return Ok(None);
    };
    let key = text_or(alloc, properties, Key::TimeKey, b"time")?;
    let keep = truth_at(properties, Key::TimeKeep).unwrap_or(false);
    Ok(Some(TimeRule { key, format, keep }))
}

/// Returns what lines are read as.
fn shape_of(
    alloc: Global,
    place: &Place,
    format: Option<LineFormat>,
    properties: Properties,
) -> Result<Shape, ReadErr>
    ensures { ReturnsResult (known (shape_by place.now properties format)) result }
{
    match format {
        None => refuse(alloc, SettingKind::Missing, place),
        Some(LineFormat::Json) => Ok(Shape::Json),
        Some(LineFormat::Regex) => groups(alloc, place, properties),
        Some(LineFormat::Plain) => Ok(Shape::Plain),
    }
}

/// Returns the types of fields, none without a text.
fn types_of(alloc: Global, text: Option<&[u8]>) -> Result<FieldTypes, Memory>
    ensures { IfOk result (λ types. types ≡ types_by (option_copied text.entry)) }
{
    let Some(text) = text else {
        return Ok(FieldTypes::new(alloc));
    };
    match field_types(alloc, text)? {
        Some(types) => Ok(types),
        None => Ok(FieldTypes::new(alloc)),
    }
}

fn groups(alloc: Global, place: &Place, properties: Properties) -> Result<Shape, ReadErr>
    ensures { ReturnsResult (known (shape_by place.now properties (Some LineFormat.Regex))) result }
{
    let skip_empty = truth_at(properties.as_slice(), Key::SkipEmptyValues).unwrap_or(true);
    let types = types_of(alloc, text_at(properties.as_slice(), Key::Types))?;
    let Some(pattern) = last_pattern(properties) else {
        return refuse(alloc, SettingKind::Missing, place);
    };
    Ok(Shape::Groups {
        pattern,
        types,
        skip_empty,
    })
}

/// Returns the parser that the entries of a section describe, which reads no floats.
fn parser_from(alloc: Global, place: &Place, properties: Properties) -> Result<Parser, ReadErr>
    ensures { ReturnsResult (known (parser_from place.now properties)) result }
{
    let time = time_of(alloc, properties.as_slice())?;
    let format = format_at(properties.as_slice(), Key::Format);
    let shape = shape_of(alloc, place, format, properties)?;
    Ok(Parser {
        shape,
        time,
        floats: Floats::Tagged,
    })
}

/// Returns the parser that a section describes.
fn parser_of(alloc: Global, section: &Section) -> Result<Parser, ReadErr>
    ensures { ReturnsResult (parser_of section.now) result }
{
    let properties = read_parser_entries(alloc, section.entries.as_slice())?;
    parser_from(alloc, &section.place, properties)
}

fn is_name(entry: &Entry) -> bool
    ensures { result ≡ is_name entry.now }
{
    same_name(b"name", entry.key.as_slice())
}

/// Returns the Name of a section. If there are several, the last counts.
pub fn name_entry(entries: &[Entry]) -> Option<&Entry>
    ensures { option_copied result ≡ name_entry entries.now }
{
    let mut name = None;
    for entry in entries {
        if is_name(entry) {
            name = Some(entry);
        }
    }
    name
}

fn is_parser(section: &Section) -> bool
    ensures { result ≡ is_parser_head (head_of section.now.name) }
{
    matches!(
        SectionKind::of(section.name.as_slice()),
        Some(SectionKind::Parser)
    )
}

fn has_name(entries: &[Entry], name: &[u8]) -> bool
    ensures { result ≡ has_name name.now (name_entry entries.now) }
{
    match name_entry(entries) {
        Some(entry) => entry.value.as_slice() == name,
        None => false,
    }
}

fn is_parser_named(section: &Section, name: &[u8]) -> bool
    ensures { result ≡ is_parser_named name.now section.now }
{
    is_parser(section) && has_name(section.entries.as_slice(), name)
}

/// Returns the first PARSER section with this name.
fn find_parser<'a>(all: &'a [Section], name: &[u8]) -> Option<&'a Section>
    ensures { option_copied result ≡ find (is_parser_named name.now) all.now }
{
    all.iter().find(|section| is_parser_named(section, name))
}

/// Returns the parser that an entry names.
pub fn parser_named(alloc: Global, all: &[Section], entry: &Entry) -> Result<Parser, ReadErr>
    ensures { ReturnsResult (parser_named all.now entry.now) result }
{
    match find_parser(all, entry.value.as_slice()) {
        Some(section) => parser_of(alloc, section),
        None => refuse(alloc, SettingKind::BadChoice, &entry.place),
    }
}
