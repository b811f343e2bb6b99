//! The event of a line, written straight from the groups that its pattern found.

ghost use Rattle.std.specs.Prelude.{◌≡◌, ◌↔◌, ◌<◌, ◌^◌, ◌++◌, [], ◌∷◌, List, map, filter, position, length, None, IsTrue, IfOk, IfSome, MatchOption, unwrap_or, false, OnOk, OnErr, if◌then◌else◌};
ghost use Rattle.fwd_base.specs.Pattern.{captured, SearchesFor, SearchesAs};
ghost use Rattle.fwd_base.specs.declared.pattern.Pattern.{Pattern};
ghost use Rattle.fwd_base.specs.declared.search.Capture.{Capture};
ghost use Rattle.fwd_value.specs.Val.{entries_of};
ghost use Rattle.fwd_value.specs.Keys.{has_key};
ghost use Rattle.fwd_event.specs.Event.{event_val, EventFits};
ghost use Rattle.fwd_msgpack.specs.Canonical.{canonical, canonical_entries};
ghost use Rattle.fwd_msgpack.specs.KeptFront.{KeepsFront};
ghost use Rattle.fwd_json.specs.declared.floats.Floats.{Floats};
ghost use Rattle.fwd_parser.specs.declared.parser.FieldType.{FieldType};
ghost use Rattle.fwd_parser.specs.declared.parser.Shape.TheVariants as shape;
ghost use Rattle.fwd_parser.specs.Field.{typed, kind_of, is_kept_group};
ghost use Rattle.fwd_parser.specs.LineEvent.{at, body_of, field_moment, moment_of_value, parsed, plain, timed_event, without};
ghost use Rattle.fwd_parser.specs.LineReader.{IsReady};
ghost use Rattle.fwd_parser.specs.LentFields.{lent_field, lent_record, AreShort};

use crate::encoding::{put_decoded, put_head};
use crate::event_time::{at, clock_moment, moment_in, timed_event};
use crate::fields::{fields_of, kind_of, read_as};
use crate::parser::{FieldTypes, Parser, Shape, TimeRule, TypeKind};
use crate::shapes::plain;
use fwd_base::{Bytes, Capture, Memory, Search};
use fwd_event::Event;
use fwd_json::Floats;
use fwd_msgpack::{encode, put_text};
use std::alloc::Global;

/// The number of fields from which on the event isn't written straight.
const MANY: usize = 16;

/// Appends the value of a field. Bytes that don't have the form of the type are text.
#[tactic(auto, using(crate::proofs::LentFields::read_is_flat, crate::proofs::LentFields::read_fits, fwd_msgpack::proofs::KeptFront::keeps_same), unfolding(crate::specs::Field::typed, crate::specs::Field::read_as))]
fn put_value(
    floats: Floats,
    types: &FieldTypes,
    group: &Capture<'_, '_>,
    out: &mut Bytes,
) -> Result<(), Memory>
    requires { length group.now.bytes.now < 2 ^ 32 }
    ensures ok { OnOk result (out.new
        ≡ out.old ++ canonical (typed floats (kind_of types.now group.now.name.now) group.now.bytes.now)) }
    ensures err { OnErr result (KeepsFront out.old out.new) }
{
    let kind = kind_of(types, group.name);
    if let TypeKind::Text = kind {
        return put_text(out, group.bytes);
    }
    match read_as(floats, kind, group.bytes) {
        Some(value) => encode(&value, out),
        None => put_text(out, group.bytes),
    }
}

/// Appends the fields of groups.
#[tactic(auto, using(fwd_msgpack::proofs::KeptFront::keeps_behind))]
fn put_fields(
    floats: Floats,
    types: &FieldTypes,
    groups: &[Capture<'_, '_>],
    out: &mut Bytes,
) -> Result<(), Memory>
    requires { AreShort groups.now }
    ensures ok { OnOk result (out.new
        ≡ out.old ++ canonical_entries (entries_of (lent_record floats types.now groups.now))) }
    ensures err { OnErr result (KeepsFront out.old out.new) }
{
    match groups {
        [] => Ok(()),
        [first, rest @ ..] => {
            put_text(out, first.name)?;
            put_value(floats, types, first, out)?;
            put_fields(floats, types, rest, out)
        }
    }
}

/// Appends the encoding of the event of groups.
#[tactic(auto, using(fwd_msgpack::proofs::KeptFront::keeps_behind))]
fn put_event(
    floats: Floats,
    types: &FieldTypes,
    moment: (u32, u32),
    groups: &[Capture<'_, '_>],
    out: &mut Bytes,
) -> Result<(), Memory>
    requires few { length groups.now < 16 }
    requires short { AreShort groups.now }
    ensures ok { OnOk result (out.new
        ≡ out.old ++ canonical (event_val (at moment (lent_record floats types.now groups.now)))) }
    ensures err { OnErr result (KeepsFront out.old out.new) }
{
    put_head(moment, groups.len(), out)?;
    put_fields(floats, types, groups, out)
}

/// Returns whether each name and each text is shorter than 2^32 bytes.
fn are_short(groups: &[Capture<'_, '_>]) -> bool
    ensures { IsTrue result → AreShort groups.now }
{
    match groups {
        [] => true,
        [first, rest @ ..] => {
            first.name.len() < 4_294_967_296 && first.bytes.len() < 4_294_967_296 && are_short(rest)
        }
    }
}

/// Returns the index of the first group with a name.
fn place_of(groups: &[Capture<'_, '_>], key: &Bytes) -> Option<usize>
    ensures { (floats : Floats) (types : List FieldType) →
        result ≡ position (has_key key.now) (lent_record floats types groups.now) }
{
    groups.iter().position(|group| group.name == key.as_slice())
}

/// Returns the moment of the field of a group.
#[tactic(auto, using(crate::proofs::LentFields::read_has_no_time), unfolding(crate::specs::Field::typed))]
fn group_moment(
    floats: Floats,
    types: &FieldTypes,
    format: &[u8],
    group: &Capture<'_, '_>,
) -> Option<(u32, u32)>
    ensures { result ≡ moment_of_value format.now
        (typed floats (kind_of types.now group.now.name.now) group.now.bytes.now) }
{
    match read_as(floats, kind_of(types, group.name), group.bytes) {
        Some(_) => None,
        None => moment_in(format, group.bytes),
    }
}

/// Returns the moment of the rule's field, and removes the field unless it is kept.
fn take_moment(
    floats: Floats,
    types: &FieldTypes,
    rule: &TimeRule,
    groups: &mut Vec<Capture<'_, '_>>,
) -> Option<(u32, u32)>
    ensures moment { result ≡ field_moment rule.now (lent_record floats types.now groups.old.items) }
    ensures found { IfSome result (λ _. lent_record floats types.now groups.new.items
        ≡ (if rule.now.keep then lent_record floats types.now groups.old.items
        else without rule.now.key (lent_record floats types.now groups.old.items))) }
    ensures none { result ≡ None → groups.new.items ≡ groups.old.items }
{
    let place = place_of(groups.as_slice(), &rule.key)?;
    let moment = group_moment(floats, types, rule.format.as_slice(), &groups[place])?;
    if !rule.keep {
        groups.remove(place);
    }
    Some(moment)
}

/// Returns the moment of the event of groups, and removes the field with the time unless it is kept.
#[tactic(auto, unfolding(crate::specs::LineEvent::timed_event))]
fn timed(
    floats: Floats,
    types: &FieldTypes,
    time: &Option<TimeRule>,
    clock: u64,
    groups: &mut Vec<Capture<'_, '_>>,
) -> (u32, u32)
    ensures { at result (lent_record floats types.now groups.new.items)
        ≡ timed_event time.now clock (lent_record floats types.now groups.old.items) }
{
    let Some(rule) = time else {
        return clock_moment(clock);
    };
    match take_moment(floats, types, rule, groups) {
        Some(moment) => moment,
        None => clock_moment(clock),
    }
}

/// Removes the groups that don't become fields.
fn keep_fields(skip_empty: bool, groups: &mut Vec<Capture<'_, '_>>)
    ensures { map captured groups.new.items ≡ filter (is_kept_group skip_empty) (map captured groups.old.items) }
{
    groups.retain(|group| !(skip_empty && group.bytes.is_empty()));
}

/// Returns the groups of a line that become fields, if the pattern matches.
#[tactic(auto, using(crate::proofs::LentFields::kept_body, crate::proofs::LentFields::unmatched_body))]
fn fields_found<'p, 't>(
    alloc: Global,
    search: &mut Search<'p>,
    skip_empty: bool,
    line: &'t [u8],
) -> Result<Option<Vec<Capture<'p, 't>>>, Memory>
    ensures body { (pattern : Pattern) (floats : Floats) (types : List FieldType) → SearchesFor pattern search.old →
        IfOk result (λ found. MatchOption found
        (plain line.now ≡ body_of floats (shape.Groups pattern types skip_empty) line.now)
        (λ groups. lent_record floats types groups.items
        ≡ body_of floats (shape.Groups pattern types skip_empty) line.now)) }
    ensures same { SearchesAs search.old search.new }
{
    let Some(mut groups) = search.captures(alloc, line)? else {
        return Ok(None);
    };
    keep_fields(skip_empty, &mut groups);
    Ok(Some(groups))
}

/// Returns the event of groups.
#[tactic(auto, using(crate::proofs::LentFields::all_fields))]
fn event_of(
    alloc: Global,
    floats: Floats,
    types: &FieldTypes,
    moment: (u32, u32),
    groups: &[Capture<'_, '_>],
) -> Result<Event, Memory>
    ensures { IfOk result (λ event. event ≡ at moment (lent_record floats types.now groups.now)) }
{
    let body = fields_of(alloc, floats, types, false, groups)?;
    Ok(at(alloc, moment, body))
}

/// Appends the encoding of the event of groups, and returns whether the event can be encoded. If not, the bytes
/// are unchanged, and after `Err` the old ones are still there.
#[tactic(auto, using(crate::proofs::LentFields::lent_fits, fwd_msgpack::proofs::KeptFront::keeps_same))]
fn put_any_event(
    alloc: Global,
    floats: Floats,
    types: &FieldTypes,
    moment: (u32, u32),
    groups: &[Capture<'_, '_>],
    out: &mut Bytes,
) -> Result<bool, Memory>
    ensures fits { IfOk result (λ put. IsTrue put
        ↔ EventFits (at moment (lent_record floats types.now groups.now))) }
    ensures bytes { IfOk result (λ put. out.new ≡ (if put
        then out.old ++ canonical (event_val (at moment (lent_record floats types.now groups.now))) else out.old)) }
    ensures err { OnErr result (KeepsFront out.old out.new) }
{
    if groups.len() >= MANY || !are_short(groups) {
        let event = event_of(alloc, floats, types, moment, groups)?;
        return put_decoded(&event, out);
    }
    put_event(floats, types, moment, groups, out)?;
    Ok(true)
}

/// Appends the encoding of the event of a line that the pattern doesn't match, as `put_any_event` does.
#[tactic(auto, using(fwd_msgpack::proofs::KeptFront::keeps_same))]
fn put_unmatched(
    alloc: Global,
    time: &Option<TimeRule>,
    line: &[u8],
    clock: u64,
    out: &mut Bytes,
) -> Result<bool, Memory>
    ensures fits { IfOk result (λ put. IsTrue put ↔ EventFits (timed_event time.now clock (plain line.now))) }
    ensures bytes { IfOk result (λ put. out.new
        ≡ (if put then out.old ++ canonical (event_val (timed_event time.now clock (plain line.now)))
        else out.old)) }
    ensures err { OnErr result (KeepsFront out.old out.new) }
{
    let body = plain(alloc, Bytes::from_slice(alloc, line)?)?;
    let event = timed_event(alloc, time, clock, body);
    put_decoded(&event, out)
}

/// Appends the encoding of the event of a line by a pattern, and returns whether the event can be encoded, or
/// `None` if the parser has another shape. If not, the bytes are unchanged, and after `Err` the old ones are
/// still there.
#[tactic(auto, using(fwd_msgpack::proofs::KeptFront::keeps_same))]
pub fn put_lent(
    alloc: Global,
    parser: &Parser,
    search: &mut Option<Search<'_>>,
    line: &[u8],
    clock: u64,
    out: &mut Bytes,
) -> Result<Option<bool>, Memory>
    requires { IsReady parser.now.shape search.old }
    ensures ready { IsReady parser.now.shape search.new }
    ensures fits { IfOk result (λ done. IfSome done (λ put.
        IsTrue put ↔ EventFits (parsed parser.now line.now clock))) }
    ensures bytes { IfOk result (λ done. out.new ≡ (if unwrap_or done false
        then out.old ++ canonical (event_val (parsed parser.now line.now clock)) else out.old)) }
    ensures err { OnErr result (KeepsFront out.old out.new) }
{
    let Shape::Groups {
        types,
        skip_empty,
        ..
    } = &parser.shape
    else {
        return Ok(None);
    };
    let Some(search) = search else {
        return Ok(None);
    };
    match fields_found(alloc, search, *skip_empty, line)? {
        None => {
            let put = put_unmatched(alloc, &parser.time, line, clock, out)?;
            Ok(Some(put))
        }
        Some(mut groups) => {
            let moment = timed(parser.floats, types, &parser.time, clock, &mut groups);
            let fields = groups.as_slice();
            let put = put_any_event(alloc, parser.floats, types, moment, fields, out)?;
            Ok(Some(put))
        }
    }
}
