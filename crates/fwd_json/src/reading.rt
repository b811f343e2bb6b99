//! Parsing of JSON lines into values.

ghost use Rattle.std.specs.Prelude.{◌≡◌, ◌≢◌, ◌<◌, [], length, map, IsTrue, IfOk, IfErr, OnOk, Ok, Err};
ghost use Rattle.json.specs.Json.{value, items, members};
ghost use Rattle.serde_json.specs.Data.{Data, Items, Members, no_members};
ghost use Rattle.serde_json.specs.Read.{of_json, of_items, of_members, converted, read as read_text};
ghost use Rattle.fwd_value.specs.Val.{vals_of, entries_of};
ghost use Rattle.fwd_value.specs.View.{val_of, pair_of};
ghost use Rattle.fwd_json.specs.LinePairs.{are_readable, value_of, values_of, pairs_of, pairs_in, pairs_read, object_pairs as pairs_of_object};
ghost use Rattle.fwd_json.specs.WholeVal.{has_no_float, have_no_float, entries_have_no_float};
ghost use Rattle.fwd_json.specs.declared.floats.Floats.TheVariants.{Numbers};

use crate::Floats;
use crate::members::put;
use crate::numbers::number;
use fwd_base::limits::DEEPEST;
use fwd_base::{Bytes, Memory};
use fwd_value::{Pairs, Value, Values};
use json::{Invalid, Reader, Scratch, Token};
use std::alloc::Global;
use thiserror::Error;

/// Why a line was rejected.
#[derive(Clone, Copy, Debug, PartialEq, Eq, Error)]
pub enum JsonErr {
    #[error("not JSON")]
    NotJson,
    #[error("not an object")]
    NotAnObject,
    /// A number isn't an integer, or has more than 64 bits, and floats aren't read.
    #[error("a number that isn't whole")]
    NotWhole,
    #[error("nested too deep")]
    TooDeep,
    #[error("out of memory")]
    Memory,
}

impl From<Memory> for JsonErr {
    ghost use Rattle.std.specs.Prelude.{◌≡◌};
    ghost use Rattle.fwd_json.specs.declared.reading.JsonErr.TheVariants as err;

    ghost from_gives = { λ _ error. error ≡ err.Memory };

    fn from(_: Memory) -> Self {
        JsonErr::Memory
    }
}

/// The deepest nesting of the members of an object, which becomes the record of an event.
const MEMBERS_DEPTH: u64 = DEEPEST as u64 - 2;

/// The deepest nesting of a text, as that of `serde_json`.
const TEXT_DEPTH: usize = 127;

/// For how many members of the outermost object room is reserved at once.
const FIRST_MEMBERS: usize = 8;

/// Why a text wasn't read.
#[derive(Clone, Copy, Drop)]
enum Refusal {
    NotJson,
    Memory,
}

impl From<Memory> for Refusal {
    ghost use Rattle.std.specs.Prelude.{◌≡◌};
    ghost use Rattle.fwd_json.specs.declared.reading.Refusal.TheVariants as refusal;

    ghost from_gives = { λ _ error. error ≡ refusal.Memory };

    fn from(_: Memory) -> Self {
        Refusal::Memory
    }
}

impl From<Invalid> for Refusal {
    ghost use Rattle.std.specs.Prelude.{◌≡◌};
    ghost use Rattle.fwd_json.specs.declared.reading.Refusal.TheVariants as refusal;

    ghost from_gives = { λ _ error. error ≡ refusal.NotJson };

    fn from(_: Invalid) -> Self {
        Refusal::NotJson
    }
}

/// Parses a line that is a JSON object. Returns its pairs in the byte order of their keys; of equal keys the
/// last counts. A number that isn't an integer of at most 64 bits is a float of 64 bits, if floats are read.
/// If several errors apply, returns the first of `NotJson`, `NotAnObject`, `NotWhole` and `TooDeep`. A number
/// too large for a float isn't JSON. An object nested more than 63 deep is too deep.
pub fn pairs_of_json(alloc: Global, line: &[u8], floats: Floats) -> Result<Pairs, JsonErr>
    ensures pairs { IfOk result (λ pairs. pairs_in floats line.now ≡ Ok pairs) }
    ensures refused { IfErr result (λ e. e ≢ JsonErr.Memory → pairs_in floats line.now ≡ Err e) }
{
    let mut scratch = Scratch::new(alloc);
    pairs_with(alloc, line, floats, &mut scratch)
}

/// Parses one line of JSON after another, with memory that it keeps from line to line.
#[derive(Drop)]
pub struct JsonReader {
    scratch: Box<Scratch>,
}

impl JsonReader {
    ghost use Rattle.std.specs.Prelude.{◌≡◌, ◌≢◌, IfOk, IfErr, Ok, Err};
    ghost use Rattle.fwd_json.specs.LinePairs.{pairs_in};

    /// Returns a reader. This allocates 16 kB.
    pub fn new(alloc: Global) -> Result<Self, Memory> {
        Ok(JsonReader {
            scratch: Box::new(alloc, Scratch::new(alloc))?,
        })
    }

    /// Parses a line that is a JSON object, as `pairs_of_json` does.
    pub fn read(&mut self, alloc: Global, line: &[u8], floats: Floats) -> Result<Pairs, JsonErr>
        ensures pairs { IfOk result (λ pairs. pairs_in floats line.now ≡ Ok pairs) }
        ensures refused { IfErr result (λ e. e ≢ JsonErr.Memory → pairs_in floats line.now ≡ Err e) }
    {
        pairs_with(alloc, line, floats, &mut self.scratch)
    }
}

/// Parses a line that is a JSON object, with the memory of `scratch`.
fn pairs_with(
    alloc: Global,
    line: &[u8],
    floats: Floats,
    scratch: &mut Scratch,
) -> Result<Pairs, JsonErr>
    ensures pairs { IfOk result (λ pairs. pairs_in floats line.now ≡ Ok pairs) }
    ensures refused { IfErr result (λ e. e ≢ JsonErr.Memory → pairs_in floats line.now ≡ Err e) }
{
    match simdutf8::basic::from_utf8(line) {
        Ok(text) => text_pairs(alloc, text, floats, scratch),
        Err(_) => Err(JsonErr::NotJson),
    }
}

/// Returns the pairs of a text that is an object, or why it is rejected.
fn text_pairs(
    alloc: Global,
    text: &str,
    floats: Floats,
    scratch: &mut Scratch,
) -> Result<Pairs, JsonErr>
    ensures pairs { IfOk result (λ pairs. pairs_read floats (read_text text.now) ≡ Ok pairs) }
    ensures refused { IfErr result (λ e. e ≢ JsonErr.Memory → pairs_read floats (read_text text.now) ≡ Err e) }
{
    match read_all(alloc, text, scratch) {
        Ok(value) => object_pairs(value, floats),
        Err(Refusal::NotJson) => Err(JsonErr::NotJson),
        Err(Refusal::Memory) => Err(JsonErr::Memory),
    }
}

/// Returns the pairs of an object, whose floats are numbers, or why it is rejected.
fn object_pairs(value: Value, floats: Floats) -> Result<Pairs, JsonErr>
    ensures pairs { (d : Data) → value_of Numbers d ≡ val_of value
        → IfOk result (λ pairs. pairs_of_object floats d ≡ Ok pairs) }
    ensures refused { (d : Data) → value_of Numbers d ≡ val_of value
        → IfErr result (λ e. pairs_of_object floats d ≡ Err e) }
{
    let Value::Map(pairs) = value else {
        return Err(JsonErr::NotAnObject);
    };
    if !are_readable(&pairs, floats) {
        return Err(JsonErr::NotWhole);
    }
    if !pairs.nest_within(MEMBERS_DEPTH) {
        return Err(JsonErr::TooDeep);
    }
    Ok(pairs)
}

/// Returns whether the numbers of an object can be read.
fn are_readable(pairs: &Pairs, floats: Floats) -> bool
    ensures { (ms : Members) → pairs_of Numbers ms ≡ pairs.now → result ≡ are_readable floats ms }
{
    match floats {
        Floats::Tagged => pairs_are_whole(pairs.as_slice()),
        Floats::Numbers => true,
    }
}

/// Returns whether there is no float in the value.
#[cycle(whole)]
fn is_whole(value: &Value) -> bool
    ensures { result ≡ has_no_float (val_of value.now) }
{
    match value {
        Value::Float32(_) | Value::Float64(_) => false,
        Value::List(values) => values_are_whole(values.as_slice()),
        Value::Map(pairs) => pairs_are_whole(pairs.as_slice()),
        Value::Nil
        | Value::Truth(_)
        | Value::Uint(_)
        | Value::Neg(_)
        | Value::Text(_)
        | Value::Bin(_)
        | Value::Ext(_, _) => true,
    }
}

#[cycle(whole)]
fn values_are_whole(values: &[Value]) -> bool
    ensures { result ≡ have_no_float (vals_of (map val_of values.now)) }
{
    for value in values {
        if !is_whole(value) {
            return false;
        }
    }
    true
}

#[cycle(whole)]
fn pairs_are_whole(pairs: &[(Value, Value)]) -> bool
    ensures { result ≡ entries_have_no_float (entries_of (map pair_of pairs.now)) }
{
    for pair in pairs {
        if !is_whole(&pair.1) {
            return false;
        }
    }
    true
}

/// Returns the value of a text. Floats are numbers.
fn read_all(alloc: Global, text: &str, scratch: &mut Scratch) -> Result<Value, Refusal>
    ensures ok { IfOk result (λ v. (d : Data) × (read_text text.now ≡ Some d) × (value_of Numbers d ≡ val_of v)) }
    ensures refused { result ≡ Err Refusal.NotJson → read_text text.now ≡ None }
{
    let Ok(mut reader) = Reader::new(text, scratch) else {
        return Err(Refusal::Memory);
    };
    let value = read(alloc, &mut reader, TEXT_DEPTH)?;
    if reader.next().is_some() {
        return Err(Refusal::NotJson);
    }
    Ok(value)
}

/// Returns the next value of a reader. Lists and objects may nest `depth` deep.
#[cycle(read)]
fn read(alloc: Global, reader: &mut Reader<'_>, depth: usize) -> Result<Value, Refusal>
    ensures ok { IfOk result (λ v. (d : Data)
        × (converted of_json (value depth reader.old) ≡ Some (d, reader.new)) × (value_of Numbers d ≡ val_of v)) }
    ensures shorter { OnOk result (length reader.new < length reader.old) }
    ensures refused { result ≡ Err Refusal.NotJson → converted of_json (value depth reader.old) ≡ None }
{
    let token = reader.next().ok_or(Refusal::NotJson)?;
    match token {
        Token::String(text) => Ok(Value::Text(Bytes::from_slice(alloc, text.as_bytes())?)),
        Token::Number(text) => match number(text) {
            Some(value) => Ok(value),
            None => Err(Refusal::NotJson),
        },
        Token::Bool(truth) => Ok(Value::Truth(truth)),
        Token::Null => Ok(Value::Nil),
        Token::EndObject | Token::EndArray | Token::Key(_) | Token::Bad => Err(Refusal::NotJson),
        Token::BeginArray => {
            if depth == 0 {
                return Err(Refusal::NotJson);
            }
            Ok(Value::List(read_items(alloc, reader, depth - 1)?))
        }
        Token::BeginObject => {
            if depth == 0 {
                return Err(Refusal::NotJson);
            }
            Ok(Value::Map(read_members(alloc, reader, depth - 1)?))
        }
    }
}

#[cycle(read)]
fn read_items(alloc: Global, reader: &mut Reader<'_>, depth: usize) -> Result<Values, Refusal>
    ensures ok { IfOk result (λ values. (ds : Items)
        × (converted of_items (items (value depth) (length reader.old) reader.old) ≡ Some (ds, reader.new))
        × (values_of Numbers ds ≡ vals_of values)) }
    ensures shorter { OnOk result (length reader.new < length reader.old) }
    ensures refused { result ≡ Err Refusal.NotJson
        → converted of_items (items (value depth) (length reader.old) reader.old) ≡ None }
{
    let mut found = Values::new(alloc);
    'items: while !reader.take_end_array() {
        let item = read(alloc, reader, depth)?;
        found.push(item)?;
    }
    Ok(found)
}

/// Returns no pairs, with room for some if they are those of the outermost object. An object within gets room
/// as it grows, so that many small ones take little.
fn new_pairs(alloc: Global, depth: usize) -> Result<Pairs, Memory>
    ensures { IfOk result (λ pairs. pairs ≡ []) }
{
    let mut pairs = Pairs::new(alloc);
    if depth == TEXT_DEPTH - 1 {
        pairs.reserve(FIRST_MEMBERS)?;
    }
    Ok(pairs)
}

#[cycle(read)]
fn read_members(alloc: Global, reader: &mut Reader<'_>, depth: usize) -> Result<Pairs, Refusal>
    ensures ok { IfOk result (λ pairs. (ms : Members)
        × (converted (λ read. of_members read no_members) (members (value depth) (length reader.old) reader.old)
        ≡ Some (ms, reader.new)) × (pairs_of Numbers ms ≡ pairs)) }
    ensures shorter { OnOk result (length reader.new < length reader.old) }
    ensures refused { result ≡ Err Refusal.NotJson
        → converted (λ read. of_members read no_members) (members (value depth) (length reader.old) reader.old)
        ≡ None }
{
    let mut found = new_pairs(alloc, depth)?;
    'members: while let Some(key) = reader.next_key()? {
        let member = read(alloc, reader, depth)?;
        put(alloc, &mut found, key.as_bytes(), member)?;
    }
    Ok(found)
}
