//! The entries of a section with the values read for them.

ghost use Rattle.std.specs.Prelude.{◌≡◌, ◌++◌, ◌∷◌, [], IfOk, OnOk, unwrap_or, count_by};
ghost use Rattle.std.specs.Option.{option_copied};
ghost use Rattle.std.specs.List.{filter_map, last_or};
ghost use Rattle.fwd_settings_schema.specs.Property.{as_number, as_port, as_truth, as_format, as_form, as_operation, as_retries, as_text, as_id, as_id_place, last_value, number_at, port_at, truth_at, format_at, form_at, operation_at, text_at, id_at, id_place_at, retries_at, last_in, pattern_in, parser_in, grep_in, condition_in, change_in, wildcard_in, header_in, is_header};

use crate::keys::Key;
use fwd_base::{Bytes, Form, Items, Memory, Names, Pattern, Retries};
use fwd_config::Place;
use fwd_grep::{GrepRule, GrepRules};
use fwd_http::{HeaderField, HeaderFields};
use fwd_parser::{Floats, Parser};
use fwd_reshape::{Change, Changes, Condition, Conditions, ModifyRules};
use fwd_settings_values::{LineFormat, Operation};
use std::alloc::Global;

/// The value read for an entry.
#[derive(Drop)]
pub enum Value {
    Nothing,
    Number(u64),
    Port(u16),
    Truth(bool),
    Format(LineFormat),
    Form(Form),
    Operation(Operation),
    Text(Bytes),
    Retries(Retries),
    Pattern(Pattern),
    Parser(Parser),
    Grep(GrepRule),
    Condition(Condition),
    Change(Change),
    Wildcard(Bytes),
    Header(HeaderField),
    /// The id of an output, and where it stands.
    Id { name: Bytes, place: Place },
}

impl Value {
    fn as_number(&self) -> Option<u64>
        ensures { result ≡ as_number (Some self.now) }
    {
        if let Value::Number(number) = self {
            Some(*number)
        } else {
            None
        }
    }

    fn as_port(&self) -> Option<u16>
        ensures { result ≡ as_port (Some self.now) }
    {
        if let Value::Port(port) = self {
            Some(*port)
        } else {
            None
        }
    }

    fn as_truth(&self) -> Option<bool>
        ensures { result ≡ as_truth (Some self.now) }
    {
        if let Value::Truth(truth) = self {
            Some(*truth)
        } else {
            None
        }
    }

    fn as_format(&self) -> Option<LineFormat>
        ensures { result ≡ as_format (Some self.now) }
    {
        if let Value::Format(format) = self {
            Some(*format)
        } else {
            None
        }
    }

    fn as_form(&self) -> Option<Form>
        ensures { result ≡ as_form (Some self.now) }
    {
        if let Value::Form(form) = self {
            Some(*form)
        } else {
            None
        }
    }

    fn as_operation(&self) -> Option<Operation>
        ensures { result ≡ as_operation (Some self.now) }
    {
        if let Value::Operation(operation) = self {
            Some(*operation)
        } else {
            None
        }
    }

    fn as_retries(&self) -> Option<Retries>
        ensures { result ≡ as_retries (Some self.now) }
    {
        if let Value::Retries(retries) = self {
            Some(*retries)
        } else {
            None
        }
    }

    fn as_text(&self) -> Option<&[u8]>
        ensures { option_copied result ≡ as_text (Some self.now) }
    {
        if let Value::Text(text) = self {
            Some(text.as_slice())
        } else {
            None
        }
    }

    fn as_id(&self) -> Option<&[u8]>
        ensures { option_copied result ≡ as_id (Some self.now) }
    {
        if let Value::Id { name, .. } = self {
            Some(name.as_slice())
        } else {
            None
        }
    }

    fn as_id_place(&self) -> Option<&Place>
        ensures { option_copied result ≡ as_id_place (Some self.now) }
    {
        if let Value::Id { place, .. } = self {
            Some(place)
        } else {
            None
        }
    }
}

/// An entry: its key and the value read for it.
#[derive(Drop)]
pub struct Property {
    pub key: Key,
    pub value: Value,
}

/// Entries, in order.
pub type Properties = Items<Property>;

/// Returns the value of the last entry with a key.
fn last_value(properties: &[Property], key: Key) -> Option<&Value>
    ensures { option_copied result ≡ last_value key properties.now }
{
    let mut last = None;
    for item in properties {
        if key.is_same(item.key) {
            last = Some(&item.value);
        }
    }
    last
}

/// Returns the number of the last entry with a key.
pub fn number_at(properties: &[Property], key: Key) -> Option<u64>
    ensures { result ≡ number_at key properties.now }
{
    last_value(properties, key)?.as_number()
}

/// Returns the port of the last entry with a key.
pub fn port_at(properties: &[Property], key: Key) -> Option<u16>
    ensures { result ≡ port_at key properties.now }
{
    last_value(properties, key)?.as_port()
}

/// Returns the truth value of the last entry with a key.
pub fn truth_at(properties: &[Property], key: Key) -> Option<bool>
    ensures { result ≡ truth_at key properties.now }
{
    last_value(properties, key)?.as_truth()
}

/// Returns the format of the last entry with a key.
pub fn format_at(properties: &[Property], key: Key) -> Option<LineFormat>
    ensures { result ≡ format_at key properties.now }
{
    last_value(properties, key)?.as_format()
}

/// Returns the form of the last entry with a key.
pub fn form_at(properties: &[Property], key: Key) -> Option<Form>
    ensures { result ≡ form_at key properties.now }
{
    last_value(properties, key)?.as_form()
}

/// Returns the operation of the last entry with a key.
pub fn operation_at(properties: &[Property], key: Key) -> Option<Operation>
    ensures { result ≡ operation_at key properties.now }
{
    last_value(properties, key)?.as_operation()
}

/// Returns the retries of the last entry with a key.
pub fn retries_at(properties: &[Property], key: Key) -> Option<Retries>
    ensures { result ≡ retries_at key properties.now }
{
    last_value(properties, key)?.as_retries()
}

/// Returns the text of the last entry with a key.
pub fn text_at(properties: &[Property], key: Key) -> Option<&[u8]>
    ensures { option_copied result ≡ text_at key properties.now }
{
    last_value(properties, key)?.as_text()
}

/// Returns the id of the last entry with a key.
pub fn id_at(properties: &[Property], key: Key) -> Option<&[u8]>
    ensures { option_copied result ≡ id_at key properties.now }
{
    last_value(properties, key)?.as_id()
}

/// Returns the place of the id of the last entry with a key.
pub fn id_place_at(properties: &[Property], key: Key) -> Option<&Place>
    ensures { option_copied result ≡ id_place_at key properties.now }
{
    last_value(properties, key)?.as_id_place()
}

/// Returns a copy of the text of the last entry with a key.
pub fn own_text(alloc: Global, properties: &[Property], key: Key) -> Result<Option<Bytes>, Memory>
    ensures { IfOk result (λ text. text ≡ text_at key properties.now) }
{
    match text_at(properties, key) {
        Some(text) => Ok(Some(Bytes::from_slice(alloc, text)?)),
        None => Ok(None),
    }
}

/// Returns a copy of the text of the last entry with a key, or of a default.
pub fn text_or(
    alloc: Global,
    properties: &[Property],
    key: Key,
    default: &[u8],
) -> Result<Bytes, Memory>
    ensures { IfOk result (λ text. text ≡ unwrap_or (text_at key properties.now) default.now) }
{
    match text_at(properties, key) {
        Some(text) => Bytes::from_slice(alloc, text),
        None => Bytes::from_slice(alloc, default),
    }
}

/// Returns the pattern of an entry, or the one before.
fn later_pattern(before: Option<Pattern>, item: Property) -> Option<Pattern>
    ensures { result ≡ last_or before (filter_map pattern_in (item ∷ [])) }
{
    if let Value::Pattern(pattern) = item.value {
        Some(pattern)
    } else {
        before
    }
}

/// Returns the last pattern.
pub fn last_pattern(properties: Properties) -> Option<Pattern>
    ensures { result ≡ last_in pattern_in properties }
{
    let mut pattern = None;
    for item in properties.into_vec() {
        pattern = later_pattern(pattern, item);
    }
    pattern
}

/// Returns the parser of an entry, or the one before.
fn later_parser(before: Option<Parser>, item: Property) -> Option<Parser>
    ensures { result ≡ last_or before (filter_map parser_in (item ∷ [])) }
{
    if let Value::Parser(parser) = item.value {
        Some(parser)
    } else {
        before
    }
}

/// Returns the last parser.
pub fn last_parser(properties: Properties) -> Option<Parser>
    ensures { result ≡ last_in parser_in properties }
{
    let mut parser = None;
    for item in properties.into_vec() {
        parser = later_parser(parser, item);
    }
    parser
}

/// Returns the rule of an entry, if it has one.
fn grep_in(floats: Floats, item: Property) -> Option<GrepRule>
    ensures { result ≡ grep_in floats item }
{
    if let Value::Grep(rule) = item.value {
        Some(GrepRule {
            exclude: rule.exclude,
            key: rule.key,
            pattern: rule.pattern,
            floats,
        })
    } else {
        None
    }
}

/// Appends the rule of an entry, if it has one.
fn push_grep(rules: &mut GrepRules, floats: Floats, item: Property) -> Result<(), Memory>
    ensures { OnOk result (rules.new ≡ rules.old ++ filter_map (grep_in floats) (item ∷ [])) }
{
    match grep_in(floats, item) {
        Some(rule) => rules.push(rule),
        None => Ok(()),
    }
}

/// Returns the rules of `grep`, in order.
pub fn grep_rules(
    alloc: Global,
    floats: Floats,
    properties: Properties,
) -> Result<GrepRules, Memory>
    ensures { IfOk result (λ rules. rules ≡ filter_map (grep_in floats) properties) }
{
    let mut rules = GrepRules::new(alloc);
    for item in properties.into_vec() {
        push_grep(&mut rules, floats, item)?;
    }
    Ok(rules)
}

/// Appends the condition or the change of an entry, if it has one.
fn push_modify(rules: &mut ModifyRules, item: Property) -> Result<(), Memory>
    ensures conditions { OnOk result (rules.new.conditions ≡ rules.old.conditions ++ filter_map condition_in (item ∷ [])) }
    ensures changes { OnOk result (rules.new.rules ≡ rules.old.rules ++ filter_map change_in (item ∷ [])) }
{
    let Property { key: _, value } = item;
    match value {
        Value::Condition(condition) => rules.conditions.push(condition),
        Value::Change(change) => rules.rules.push(change),
        other => {
            drop(other);
            Ok(())
        }
    }
}

/// Returns the conditions and the changes of `modify`, in order.
pub fn modify_rules(alloc: Global, properties: Properties) -> Result<ModifyRules, Memory>
    ensures conditions { IfOk result (λ rules. rules.conditions ≡ filter_map condition_in properties) }
    ensures changes { IfOk result (λ rules. rules.rules ≡ filter_map change_in properties) }
{
    let mut rules = ModifyRules {
        conditions: Conditions::new(alloc),
        rules: Changes::new(alloc),
    };
    for item in properties.into_vec() {
        push_modify(&mut rules, item)?;
    }
    Ok(rules)
}

/// Appends the header field of an entry, if it has one.
fn push_header(alloc: Global, fields: &mut HeaderFields, item: &Property) -> Result<(), Memory>
    ensures { OnOk result (fields.new ≡ fields.old ++ filter_map header_in (item.now ∷ [])) }
{
    if let Value::Header(field) = &item.value {
        fields.push(HeaderField {
            name: field.name.try_clone(alloc)?,
            value: field.value.try_clone(alloc)?,
        })?;
    }
    Ok(())
}

/// Appends the header fields of an http output, in order.
pub fn push_headers(
    alloc: Global,
    fields: &mut HeaderFields,
    properties: &[Property],
) -> Result<(), Memory>
    ensures { OnOk result (fields.new ≡ fields.old ++ filter_map header_in properties.now) }
{
    for item in properties {
        push_header(alloc, fields, item)?;
    }
    Ok(())
}

#[tactic(auto, unfolding(crate::specs::Property::is_header))]
fn is_header(item: &Property) -> bool
    ensures { result ≡ is_header item.now }
{
    matches!(&item.value, Value::Header(_))
}

/// Returns how many header fields an http output has.
pub fn header_count(properties: &[Property]) -> usize
    ensures { result ≡ count_by is_header properties.now }
{
    let mut count = 0;
    for item in properties {
        if is_header(item) {
            count += 1;
        }
    }
    count
}

/// Appends the wildcard of an entry, if it has one.
fn push_wildcard(alloc: Global, names: &mut Names, item: &Property) -> Result<(), Memory>
    ensures { OnOk result (names.new ≡ names.old ++ filter_map wildcard_in (item.now ∷ [])) }
{
    if let Value::Wildcard(name) = &item.value {
        names.push(name.try_clone(alloc)?)?;
    }
    Ok(())
}

/// Returns the wildcards of `nest`, in order.
pub fn wildcards(alloc: Global, properties: &[Property]) -> Result<Names, Memory>
    ensures { IfOk result (λ names. names ≡ filter_map wildcard_in properties.now) }
{
    let mut names = Names::new(alloc);
    for item in properties {
        push_wildcard(alloc, &mut names, item)?;
    }
    Ok(names)
}
