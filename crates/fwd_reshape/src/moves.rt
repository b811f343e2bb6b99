//! The filter `nest`: gathers pairs under a key, and lifts them out again.

ghost use Rattle.std.specs.Prelude.{◌≡◌, ◌-◌, ◌++◌, [], ◌∷◌, ◌&&◌, IfOk, OnOk, nat_le, if◌then◌else◌};
ghost use Rattle.std.specs.List.{list_any};
ghost use Rattle.fwd_base.specs.Limits.{deepest};
ghost use Rattle.fwd_value.specs.Limits.{nesting, entry_nestings};
ghost use Rattle.fwd_value.specs.Val.{entries_of};
ghost use Rattle.fwd_value.specs.View.{val_of, pair_of};
ghost use Rattle.fwd_reshape.specs.Moves.{wildcard_matches, is_matched, moved, moved_key, without_prefix, nested, gathered, lifted, fits};

use crate::keys::text;
use crate::{LiftRule, NestRule};
use fwd_base::limits::DEEPEST;
use fwd_base::{Bytes, Memory, Names};
use fwd_value::{Pairs, Value, index_of};
use std::alloc::Global;

/// How deep the keys and values of a record may be nested: an event with the record is nested two deeper.
const PAIR_DEPTH: u64 = DEEPEST as u64 - 2;

/// Moves the pairs that the wildcards match into a map that is appended. If none match, or the record would
/// be nested deeper than 63, the record is unchanged. If an allocation fails, the record is dropped.
pub fn nest(alloc: Global, rule: &NestRule, body: Pairs) -> Result<Pairs, Memory>
    ensures { IfOk result (λ new. new ≡ nested rule.now body) }
{
    if matches_any(&rule.wildcards, &body) && fits_gathered(rule, &body) {
        gather(alloc, rule, body)
    } else {
        Ok(body)
    }
}

/// If the first pair with the key has a map, removes the pair and appends the map's pairs, in order. If the
/// record would be nested deeper than 63, it is unchanged. If an allocation fails, the record is dropped.
pub fn lift(alloc: Global, rule: &LiftRule, mut body: Pairs) -> Result<Pairs, Memory>
    ensures { IfOk result (λ new. new ≡ lifted rule.now body) }
{
    let Some(at) = index_of(&body, &rule.under) else {
        return Ok(body);
    };
    let (key, value) = body.remove(at);
    match value {
        Value::Map(pairs) => {
            if nest_within(&body, &pairs) {
                return push_all_moved(alloc, body, rule, pairs);
            }
            body.insert(at, (key, Value::Map(pairs)))?;
            Ok(body)
        }
        value => {
            body.insert(at, (key, value))?;
            Ok(body)
        }
    }
}

/// Returns the record without the matched pairs, and with the map of these appended.
fn gather(alloc: Global, rule: &NestRule, body: Pairs) -> Result<Pairs, Memory>
    ensures { IfOk result (λ new. new ≡ gathered rule.now body) }
{
    let mut left = Pairs::new(alloc);
    let mut taken = Pairs::new(alloc);
    for pair in body.into_vec() {
        if is_matched(&rule.wildcards, &pair.0) {
            push_moved(
                alloc,
                &mut taken,
                &rule.remove_prefix,
                &rule.add_prefix,
                pair,
            )?;
        } else {
            left.push(pair)?;
        }
    }
    left.push((text(alloc, &rule.under)?, Value::Map(taken)))?;
    Ok(left)
}

/// Appends the pairs of a map to the record.
fn push_all_moved(
    alloc: Global,
    mut body: Pairs,
    rule: &LiftRule,
    pairs: Pairs,
) -> Result<Pairs, Memory>
    ensures { IfOk result (λ new. new ≡ body ++ moved rule.now.remove_prefix rule.now.add_prefix pairs) }
{
    body.reserve(pairs.len())?;
    for pair in pairs.into_vec() {
        push_moved(
            alloc,
            &mut body,
            &rule.remove_prefix,
            &rule.add_prefix,
            pair,
        )?;
    }
    Ok(body)
}

/// Appends a pair with its key moved.
fn push_moved(
    alloc: Global,
    body: &mut Pairs,
    remove: &Bytes,
    add: &Bytes,
    pair: (Value, Value),
) -> Result<(), Memory>
    ensures { OnOk result (body.new ≡ body.old ++ moved remove.now add.now (pair_of pair ∷ [])) }
{
    let (key, value) = pair;
    let key = moved_key(alloc, remove, add, key)?;
    body.push((key, value))?;
    Ok(())
}

/// Returns a moved key: a text loses the one prefix if it has it, then gets the other.
fn moved_key(alloc: Global, remove: &Bytes, add: &Bytes, key: Value) -> Result<Value, Memory>
    ensures { IfOk result (λ new. val_of new ≡ moved_key remove.now add.now (val_of key)) }
{
    match key {
        Value::Text(text) => {
            let mut new = add.try_clone(alloc)?;
            new.extend_from_slice(without_prefix(text.as_slice(), remove.as_slice()))?;
            Ok(Value::Text(new))
        }
        key => Ok(key),
    }
}

fn without_prefix<'t>(text: &'t [u8], prefix: &[u8]) -> &'t [u8]
    ensures { result.now ≡ without_prefix prefix.now text.now }
{
    if text.starts_with(prefix) {
        &text[prefix.len()..]
    } else {
        text
    }
}

/// Returns whether the wildcards match a pair of the record.
fn matches_any(wildcards: &Names, body: &Pairs) -> bool
    ensures { result ≡ list_any (λ p. is_matched wildcards.now p.0) body.now }
{
    body.iter().any(|pair| is_matched(wildcards, &pair.0))
}

/// Returns whether one of the wildcards matches the key.
fn is_matched(wildcards: &Names, key: &Value) -> bool
    ensures { result ≡ is_matched wildcards.now (val_of key.now) }
{
    let Value::Text(text) = key else {
        return false;
    };
    wildcards
        .iter()
        .any(|wildcard| wildcard_matches(wildcard, text))
}

fn wildcard_matches(wildcard: &Bytes, text: &Bytes) -> bool
    ensures { result ≡ wildcard_matches text.now wildcard.now }
{
    let wildcard = wildcard.as_slice();
    if wildcard.ends_with(b"*") {
        text.as_slice().starts_with(&wildcard[..wildcard.len() - 1])
    } else {
        text.as_slice() == wildcard
    }
}

/// Returns whether the record would be nested at most 63 deep after the matched pairs are gathered.
fn fits_gathered(rule: &NestRule, body: &Pairs) -> bool
    ensures { result ≡ fits (gathered rule.now body.now) }
{
    let wildcards = &rule.wildcards;
    body.iter()
        .all(|pair| nests_within(pair, deepest(wildcards, &pair.0)))
}

/// Returns how deep a pair may be nested for the record to fit: a matched pair goes one deeper.
fn deepest(wildcards: &Names, key: &Value) -> u64
    ensures { result ≡ (if is_matched wildcards.now (val_of key.now) then deepest - 3 else deepest - 2) }
{
    if is_matched(wildcards, key) {
        PAIR_DEPTH - 1
    } else {
        PAIR_DEPTH
    }
}

fn nests_within(pair: &(Value, Value), depth: u64) -> bool
    ensures { result ≡ (nat_le (nesting (val_of pair.now.0)) depth
        && nat_le (nesting (val_of pair.now.1)) depth) }
{
    pair.0.nests_within(depth) && pair.1.nests_within(depth)
}

/// Returns whether neither is nested too deep for the pairs of both to be in one record.
fn nest_within(body: &Pairs, pairs: &Pairs) -> bool
    ensures { result ≡ (nat_le (entry_nestings (entries_of body.now)) (deepest - 2)
        && nat_le (entry_nestings (entries_of pairs.now)) (deepest - 2)) }
{
    body.nest_within(PAIR_DEPTH) && pairs.nest_within(PAIR_DEPTH)
}
