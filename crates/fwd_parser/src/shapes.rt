//! The record of a line.

ghost use Rattle.std.specs.Prelude.{◌≡◌, ◌≢◌, is_some, IfOk, IfErr, Ok, Err};
ghost use Rattle.fwd_json.specs.LinePairs.{pairs_in};
ghost use Rattle.fwd_base.specs.Pattern.{SearchesFor, SearchesAs};
ghost use Rattle.fwd_base.specs.declared.pattern.Pattern.{Pattern};
ghost use Rattle.fwd_parser.specs.LineEvent.{plain, body_of};
ghost use Rattle.fwd_parser.specs.LineReader.{IsReady, is_json};
ghost use Rattle.fwd_parser.specs.declared.parser.Shape.TheVariants as shape;

use crate::fields::fields_of;
use crate::parser::{FieldTypes, Parser, Shape};
use fwd_base::{Bytes, Memory, Search};
use fwd_event::{Pairs, Value};
use fwd_json::{Floats, JsonErr, JsonReader, pairs_of_json};
use std::alloc::Global;

/// The capacity of the record of a whole line: its own pair, and some that filters add.
const PAIRS: usize = 4;

/// Returns the record of a whole line, under `log`.
pub fn plain(alloc: Global, line: Bytes) -> Result<Pairs, Memory>
    ensures { IfOk result (λ body. body ≡ plain line) }
{
    let mut body = Vec::with_capacity(alloc, PAIRS)?;
    let key = Value::Text(Bytes::from_slice(alloc, b"log")?);
    body.push((key, Value::Text(line)))?;
    Ok(Pairs::from_vec(body))
}

/// Returns the pairs of a line that is a JSON object, or why it is rejected.
fn pairs_by(
    alloc: Global,
    reader: &mut Option<JsonReader>,
    floats: Floats,
    line: &[u8],
) -> Result<Pairs, JsonErr>
    ensures pairs { IfOk result (λ pairs. pairs_in floats line.now ≡ Ok pairs) }
    ensures refused { IfErr result (λ e. e ≢ JsonErr.Memory → pairs_in floats line.now ≡ Err e) }
{
    match reader {
        Some(reader) => reader.read(alloc, line, floats),
        None => pairs_of_json(alloc, line, floats),
    }
}

#[tactic(auto, unfolding(crate::specs::LineEvent::body_of))]
fn json(
    alloc: Global,
    reader: &mut Option<JsonReader>,
    floats: Floats,
    line: Bytes,
) -> Result<Pairs, Memory>
    ensures { IfOk result (λ body. body ≡ body_of floats shape.Json line) }
{
    match pairs_by(alloc, reader, floats, line.as_slice()) {
        Ok(pairs) => Ok(pairs),
        Err(JsonErr::Memory) => Err(Memory),
        Err(_) => plain(alloc, line),
    }
}

/// Returns the record of a line, by the search for the shape's pattern.
#[tactic(auto, unfolding(crate::specs::LineEvent::body_of))]
fn groups(
    alloc: Global,
    search: &mut Search<'_>,
    floats: Floats,
    types: &FieldTypes,
    skip_empty: bool,
    line: Bytes,
) -> Result<Pairs, Memory>
    ensures body { (pattern : Pattern) → SearchesFor pattern search.old →
        IfOk result (λ body. body ≡ body_of floats (shape.Groups pattern types.now skip_empty) line) }
    ensures same { SearchesAs search.old search.new }
{
    if let Some(groups) = search.captures(alloc, line.as_slice())? {
        return fields_of(alloc, floats, types, skip_empty, groups.as_slice());
    }
    plain(alloc, line)
}

/// Returns the search for the pattern of a shape, if it has one.
pub fn search_of(alloc: Global, shape: &Shape) -> Result<Option<Search<'_>>, Memory>
    ensures { IfOk result (IsReady shape.now) }
{
    match shape {
        Shape::Plain | Shape::Json => Ok(None),
        Shape::Groups { pattern, .. } => Ok(Some(pattern.search(alloc)?)),
    }
}

/// Returns the reader of JSON lines, if the shape has a use for one.
pub fn json_reader_of(alloc: Global, shape: &Shape) -> Result<Option<JsonReader>, Memory>
    ensures { IfOk result (λ reader. is_some reader ≡ is_json shape.now) }
{
    match shape {
        Shape::Json => Ok(Some(JsonReader::new(alloc)?)),
        Shape::Plain | Shape::Groups { .. } => Ok(None),
    }
}

/// Returns the record of a line. A line that isn't a JSON object within the limits, or that the pattern
/// doesn't match, is moved under `log`, not copied.
#[tactic(auto, unfolding(crate::specs::LineEvent::body_of))]
pub fn body_of(
    alloc: Global,
    parser: &Parser,
    search: &mut Option<Search<'_>>,
    json_reader: &mut Option<JsonReader>,
    line: Bytes,
) -> Result<Pairs, Memory>
    requires { IsReady parser.now.shape search.old }
    ensures body { IfOk result (λ body. body ≡ body_of parser.now.floats parser.now.shape line) }
    ensures ready { IsReady parser.now.shape search.new }
{
    let floats = parser.floats;
    match &parser.shape {
        Shape::Plain => plain(alloc, line),
        Shape::Json => json(alloc, json_reader, floats, line),
        Shape::Groups {
            types,
            skip_empty,
            ..
        } => match search {
            Some(search) => groups(alloc, search, floats, types, *skip_empty, line),
            None => unreachable!(),
        },
    }
}
