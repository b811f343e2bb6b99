//! Filters of one body, which a row gives as MessagePack.

use crate::encoded::{put_error, put_pairs};
use fwd_base::{Bytes, Memory, Names, Pattern, PatternErr};
use fwd_grep::{GrepRule, GrepRules, keeps};
use fwd_json::Floats;
use fwd_msgpack::{DecodeErr, decode};
use fwd_reshape::{
    Change, Changes, Condition, Conditions, LiftRule, ModifyRules, NestRule, lift, modify, nest,
};
use fwd_test_rows::{argument, put_word};
use fwd_value::{Pairs, Value};
use std::alloc::Global;

/// The pairs of a map; none if the bytes are no map.
fn body(alloc: Global, bytes: &[u8]) -> Result<Pairs, Memory> {
    match decode(alloc, bytes) {
        Ok((Value::Map(pairs), _)) => Ok(pairs),
        Err(DecodeErr::Memory) => Err(Memory),
        _ => Ok(Pairs::new(alloc)),
    }
}

fn change(rule: &[u8], key: Bytes, other: Bytes) -> Change {
    match str::from_utf8(rule).unwrap_or("") {
        "set" => Change::Set { key, value: other },
        "add" => Change::Add { key, value: other },
        "remove" => Change::Remove { key },
        "remove_wildcard" => Change::RemoveWildcard { key },
        "rename" => Change::Rename { key, to: other },
        "hard_rename" => Change::HardRename { key, to: other },
        "copy" => Change::Copy { key, to: other },
        _ => Change::HardCopy { key, to: other },
    }
}

fn condition(asked: &[u8], key: Bytes, value: Bytes) -> Condition {
    match str::from_utf8(asked).unwrap_or("") {
        "key_exists" => Condition::KeyExists { key },
        "key_does_not_exist" => Condition::KeyDoesNotExist { key },
        "key_value_equals" => Condition::KeyValueEquals { key, value },
        _ => Condition::KeyValueDoesNotEqual { key, value },
    }
}

fn copy_of(alloc: Global, text: &[u8]) -> Result<Bytes, Memory> {
    Bytes::from_slice(alloc, text)
}

fn new_change(alloc: Global, rule: &[u8], key: &[u8], other: &[u8]) -> Result<Change, Memory> {
    let key = copy_of(alloc, key)?;
    Ok(change(rule, key, copy_of(alloc, other)?))
}

fn new_condition(
    alloc: Global,
    asked: &[u8],
    key: &[u8],
    value: &[u8],
) -> Result<Condition, Memory> {
    let key = copy_of(alloc, key)?;
    Ok(condition(asked, key, copy_of(alloc, value)?))
}

fn changes(alloc: Global, rule: &[u8], key: &[u8], other: &[u8]) -> Result<Changes, Memory> {
    let mut changes = Changes::new(alloc);
    changes.push(new_change(alloc, rule, key, other)?)?;
    Ok(changes)
}

fn conditions(alloc: Global, asked: &[u8], key: &[u8], value: &[u8]) -> Result<Conditions, Memory> {
    let mut conditions = Conditions::new(alloc);
    conditions.push(new_condition(alloc, asked, key, value)?)?;
    Ok(conditions)
}

fn put_changed(
    alloc: Global,
    out: &mut String,
    rules: &ModifyRules,
    bytes: &[u8],
) -> Result<(), Memory> {
    let new = modify(alloc, rules, body(alloc, bytes)?)?;
    put_pairs(alloc, out, Floats::Tagged, &new)
}

/// `modify|RULE|KEY|OTHER|BODY`: what one change makes of a body.
pub fn put_modified(alloc: Global, out: &mut String, row: &[Bytes]) -> Result<(), Memory> {
    let rules = ModifyRules {
        conditions: Conditions::new(alloc),
        rules: changes(alloc, argument(row, 1), argument(row, 2), argument(row, 3))?,
    };
    put_changed(alloc, out, &rules, argument(row, 4))
}

/// `if|CONDITION|KEY|VALUE|BODY`: adds `q` with the text `w` to a body that meets the condition.
pub fn put_modified_if(alloc: Global, out: &mut String, row: &[Bytes]) -> Result<(), Memory> {
    let conditions = conditions(alloc, argument(row, 1), argument(row, 2), argument(row, 3))?;
    let rules = ModifyRules {
        conditions,
        rules: changes(alloc, b"add", b"q", b"w")?,
    };
    put_changed(alloc, out, &rules, argument(row, 4))
}

fn push_name(alloc: Global, names: &mut Names, name: &[u8]) -> Result<(), Memory> {
    let name = copy_of(alloc, name)?;
    names.push(name)
}

fn wildcards(alloc: Global, text: &[u8]) -> Result<Names, Memory> {
    let mut names = Names::new(alloc);
    for name in str::from_utf8(text).unwrap_or("").split(' ') {
        push_name(alloc, &mut names, name.as_bytes())?;
    }
    Ok(names)
}

fn nest_rule(alloc: Global, names: &[u8], prefix: &[u8], under: &[u8]) -> Result<NestRule, Memory> {
    let wildcards = wildcards(alloc, names)?;
    let remove_prefix = copy_of(alloc, prefix)?;
    Ok(NestRule {
        wildcards,
        under: copy_of(alloc, under)?,
        remove_prefix,
        add_prefix: Bytes::new(alloc),
    })
}

fn lift_rule(alloc: Global, under: &[u8], prefix: &[u8]) -> Result<LiftRule, Memory> {
    let under = copy_of(alloc, under)?;
    Ok(LiftRule {
        under,
        remove_prefix: Bytes::new(alloc),
        add_prefix: copy_of(alloc, prefix)?,
    })
}

fn put_nested(
    alloc: Global,
    out: &mut String,
    rule: &NestRule,
    bytes: &[u8],
) -> Result<(), Memory> {
    let new = nest(alloc, rule, body(alloc, bytes)?)?;
    put_pairs(alloc, out, Floats::Tagged, &new)
}

/// `nest|WILDCARDS|PREFIX|UNDER|BODY`: gathers keys under one, without the prefix.
pub fn put_gathered(alloc: Global, out: &mut String, row: &[Bytes]) -> Result<(), Memory> {
    let rule = nest_rule(alloc, argument(row, 1), argument(row, 2), argument(row, 3))?;
    put_nested(alloc, out, &rule, argument(row, 4))
}

fn put_unnested(
    alloc: Global,
    out: &mut String,
    rule: &LiftRule,
    bytes: &[u8],
) -> Result<(), Memory> {
    let new = lift(alloc, rule, body(alloc, bytes)?)?;
    put_pairs(alloc, out, Floats::Tagged, &new)
}

/// `lift|UNDER|PREFIX|BODY`: lifts the pairs of a map out of it, with the prefix.
pub fn put_lifted(alloc: Global, out: &mut String, row: &[Bytes]) -> Result<(), Memory> {
    let rule = lift_rule(alloc, argument(row, 1), argument(row, 2))?;
    put_unnested(alloc, out, &rule, argument(row, 3))
}

fn grep_rule(
    alloc: Global,
    floats: Floats,
    exclude: bool,
    pattern: &[u8],
) -> Result<GrepRule, PatternErr> {
    let key = copy_of(alloc, b"k")?;
    Ok(GrepRule {
        exclude,
        key,
        pattern: Pattern::new(alloc, pattern)?,
        floats,
    })
}

/// A list of one rule about the key `k`.
fn grep_rules(
    alloc: Global,
    floats: Floats,
    exclude: bool,
    pattern: &[u8],
) -> Result<GrepRules, PatternErr> {
    let mut rules = GrepRules::new(alloc);
    rules.push(grep_rule(alloc, floats, exclude, pattern)?)?;
    Ok(rules)
}

fn put_whether_kept(
    alloc: Global,
    out: &mut String,
    rules: &GrepRules,
    bytes: &[u8],
) -> Result<(), Memory> {
    let body = body(alloc, bytes)?;
    put_word(out, keeps(alloc, rules, &body)?, "kept", "dropped")
}

/// `grep|regex or exclude|PATTERN|BODY`: whether a rule about the key `k` keeps the event.
pub fn put_kept(
    alloc: Global,
    out: &mut String,
    floats: Floats,
    row: &[Bytes],
) -> Result<(), Memory> {
    match grep_rules(
        alloc,
        floats,
        argument(row, 1) == b"exclude".as_slice(),
        argument(row, 2),
    ) {
        Ok(rules) => put_whether_kept(alloc, out, &rules, argument(row, 3)),
        Err(error) => put_error(out, &error),
    }
}
