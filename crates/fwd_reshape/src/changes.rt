//! The filter `modify`.

ghost use Rattle.std.specs.Prelude.{◌≡◌, IfOk, fold};
ghost use Rattle.std.specs.List.{list_all};
ghost use Rattle.fwd_value.specs.View.{val_of};
ghost use Rattle.fwd_reshape.specs.Rules.{holds, apply_change, modified, set_to, added, renamed_first, renamed, hard_renamed, copied, hard_copied};

use crate::keys::{text, without, without_keys_beginning};
use crate::{Change, Changes, Condition, Conditions, ModifyRules};
use fwd_base::{Bytes, Memory};
use fwd_value::{Pairs, Value, has, index_of, is_text, value_of};
use std::alloc::Global;

/// Returns the record with the changes made, in order, if all conditions hold; else the record unchanged.
/// If an allocation fails, the record is dropped.
pub fn modify(alloc: Global, rules: &ModifyRules, body: Pairs) -> Result<Pairs, Memory>
    ensures { IfOk result (λ new. new ≡ modified rules.now body) }
{
    if all_hold(&rules.conditions, &body) {
        apply_all(alloc, &rules.rules, body)
    } else {
        Ok(body)
    }
}

/// Returns whether all conditions hold of the record.
fn all_hold(conditions: &Conditions, body: &Pairs) -> bool
    ensures { result ≡ list_all (holds body.now) conditions.now }
{
    conditions.iter().all(|condition| holds(condition, body))
}

/// Returns the record after all changes.
fn apply_all(alloc: Global, changes: &Changes, mut body: Pairs) -> Result<Pairs, Memory>
    ensures { IfOk result (λ new. new ≡ fold apply_change body changes.now) }
{
    for change in changes.as_slice() {
        body = apply_change(alloc, change, body)?;
    }
    Ok(body)
}

/// Returns whether the condition holds of the record.
fn holds(condition: &Condition, body: &Pairs) -> bool
    ensures { result ≡ holds body.now condition.now }
{
    match condition {
        Condition::KeyExists { key } => has(body, key),
        Condition::KeyDoesNotExist { key } => !has(body, key),
        Condition::KeyValueEquals { key, value } => match value_of(body, key) {
            Some(held) => is_text(held, value),
            None => false,
        },
        Condition::KeyValueDoesNotEqual { key, value } => match value_of(body, key) {
            Some(held) => !is_text(held, value),
            None => false,
        },
    }
}

/// Returns the record after one change.
fn apply_change(alloc: Global, change: &Change, body: Pairs) -> Result<Pairs, Memory>
    ensures { IfOk result (λ new. new ≡ apply_change body change.now) }
{
    match change {
        Change::Set { key, value } => set(alloc, body, key, text(alloc, value)?),
        Change::Add { key, value } => add(alloc, body, key, text(alloc, value)?),
        Change::Remove { key } => Ok(without(body, key)),
        Change::RemoveWildcard { key } => Ok(without_keys_beginning(body, key)),
        Change::Rename { key, to } => rename(alloc, body, key, to),
        Change::HardRename { key, to } => hard_rename(alloc, body, key, to),
        Change::Copy { key, to } => copy(alloc, body, key, to),
        Change::HardCopy { key, to } => hard_copy(alloc, body, key, to),
    }
}

fn set(alloc: Global, mut body: Pairs, key: &Bytes, value: Value) -> Result<Pairs, Memory>
    ensures { IfOk result (λ new. new ≡ set_to body key.now (val_of value)) }
{
    let Some(at) = index_of(&body, key) else {
        body.push((text(alloc, key)?, value))?;
        return Ok(body);
    };
    body.set_value(at, value);
    Ok(body)
}

fn add(alloc: Global, mut body: Pairs, key: &Bytes, value: Value) -> Result<Pairs, Memory>
    ensures { IfOk result (λ new. new ≡ added body key.now (val_of value)) }
{
    if has(&body, key) {
        return Ok(body);
    }
    body.push((text(alloc, key)?, value))?;
    Ok(body)
}

/// Renames the first pair with the key.
fn rename_first(alloc: Global, mut body: Pairs, key: &Bytes, to: &Bytes) -> Result<Pairs, Memory>
    ensures { IfOk result (λ new. new ≡ renamed_first body key.now to.now) }
{
    let Some(at) = index_of(&body, key) else {
        return Ok(body);
    };
    body.set_key(at, text(alloc, to)?);
    Ok(body)
}

fn rename(alloc: Global, body: Pairs, key: &Bytes, to: &Bytes) -> Result<Pairs, Memory>
    ensures { IfOk result (λ new. new ≡ renamed body key.now to.now) }
{
    if has(&body, key) && !has(&body, to) {
        rename_first(alloc, body, key, to)
    } else {
        Ok(body)
    }
}

fn hard_rename(alloc: Global, body: Pairs, key: &Bytes, to: &Bytes) -> Result<Pairs, Memory>
    ensures { IfOk result (λ new. new ≡ hard_renamed body key.now to.now) }
{
    if has(&body, key) && key != to {
        rename_first(alloc, without(body, to), key, to)
    } else {
        Ok(body)
    }
}

fn copy(alloc: Global, body: Pairs, key: &Bytes, to: &Bytes) -> Result<Pairs, Memory>
    ensures { IfOk result (λ new. new ≡ copied body key.now to.now) }
{
    let Some(value) = value_of(&body, key) else {
        return Ok(body);
    };
    let value = value.try_clone(alloc)?;
    add(alloc, body, to, value)
}

fn hard_copy(alloc: Global, body: Pairs, key: &Bytes, to: &Bytes) -> Result<Pairs, Memory>
    ensures { IfOk result (λ new. new ≡ hard_copied body key.now to.now) }
{
    let Some(value) = value_of(&body, key) else {
        return Ok(body);
    };
    if key == to {
        return Ok(body);
    }
    let value = value.try_clone(alloc)?;
    set(alloc, body, to, value)
}
