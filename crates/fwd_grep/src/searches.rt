//! Rules prepared for many events.

ghost use Rattle.std.specs.Prelude.{◌≡◌, map, IfOk};
ghost use Rattle.fwd_base.specs.Pattern.{search_expression, expression_of};
ghost use Rattle.fwd_value.specs.Val.{float32, float64};
ghost use Rattle.fwd_value.specs.View.{val_of};
ghost use Rattle.fwd_grep.specs.Grep.{is_found, matches, passes, kept, searched_pattern};

use crate::{GrepRule, GrepRules};
use fwd_base::{Memory, Search};
use fwd_float::{text32, text64};
use fwd_json::Floats;
use fwd_value::{Pairs, Value, value_of};
use itoa::Buffer;
use std::alloc::Global;
use std::marker::Model;

/// Tests one event after another by rules. It is made once for many events. Contracts see only the rules.
#[derive(Drop)]
pub struct GrepSearches<'r> {
    rules: &'r GrepRules,
    searches: Vec<Search<'r>>,
}

impl<'r> Model for GrepSearches<'r> {
    ghost use Rattle.std.specs.Prelude.{◌≡◌, List, map};
    ghost use Rattle.std.specs.Coded.{coded_list};
    ghost use Rattle.fwd_base.specs.Pattern.{search_expression};
    ghost use Rattle.fwd_grep.specs.declared.rules.GrepRule.{GrepRule};
    ghost use Rattle.fwd_grep.specs.contracts.rules.GrepRule as rule;
    ghost use Rattle.fwd_grep.specs.Grep.{searched_pattern};

    ghost Value = { List GrepRule };

    ghost coded = { coded_list rule.the_row.coded };

    ghost view = { λ s. s.rules.now };

    ghost invariant = { λ s. map search_expression s.searches.items ≡ map searched_pattern s.rules.now };
}

impl<'r> GrepSearches<'r> {
    pub fn new(alloc: Global, rules: &'r GrepRules) -> Result<Self, Memory>
        ensures { IfOk result (λ searches. searches ≡ rules.now) }
    {
        let searches = searches_of(alloc, rules.as_slice())?;
        Ok(GrepSearches { rules, searches })
    }

    /// Returns whether every rule keeps an event with this record. The pattern is compared with the bytes
    /// of a text or bin, a whole number in decimal, `true` or `false`, and the JSON text of a float that is a
    /// number in JSON; a missing key, and every other value, doesn't match.
    pub fn keeps(&mut self, body: &Pairs) -> bool
        ensures kept { result ≡ kept self.old body.now }
        ensures same { self.new ≡ self.old }
    {
        all_pass(self.rules.as_slice(), &mut self.searches, body)
    }
}

/// Returns whether every rule keeps one event with this record. The program doesn't use it (it prepares the
/// searches once for a batch): it is for callers that have one event.
pub fn keeps(alloc: Global, rules: &GrepRules, body: &Pairs) -> Result<bool, Memory>
    ensures { IfOk result (λ keep. keep ≡ kept rules.now body.now) }
{
    let mut searches = GrepSearches::new(alloc, rules)?;
    Ok(searches.keeps(body))
}

/// Returns a search for the pattern of each rule.
fn searches_of(alloc: Global, rules: &[GrepRule]) -> Result<Vec<Search<'_>>, Memory>
    ensures { IfOk result (λ searches. map search_expression searches.items
        ≡ map searched_pattern rules.now) }
{
    let mut searches = Vec::new(alloc);
    for rule in rules {
        searches.push(rule.pattern.search(alloc)?)?;
    }
    Ok(searches)
}

fn all_pass(rules: &[GrepRule], searches: &mut Vec<Search<'_>>, body: &Pairs) -> bool
    requires { map search_expression searches.old.items ≡ map searched_pattern rules.now }
    ensures kept { result ≡ kept rules.now body.now }
    ensures same { map search_expression searches.new.items ≡ map search_expression searches.old.items }
{
    for i in 0..rules.len() {
        if !passes(&rules[i], &mut searches[i], body) {
            return false;
        }
    }
    true
}

fn passes(rule: &GrepRule, search: &mut Search<'_>, body: &Pairs) -> bool
    requires { search_expression search.old ≡ searched_pattern rule.now }
    ensures passes { result ≡ passes body.now rule.now }
    ensures same { search_expression search.new ≡ search_expression search.old }
{
    let found = match value_of(body, &rule.key) {
        Some(value) => matches(search, rule.floats, value),
        None => false,
    };
    found != rule.exclude
}

fn matches(search: &mut Search<'_>, floats: Floats, value: &Value) -> bool
    ensures found { result ≡ matches floats (search_expression search.old) (val_of value.now) }
    ensures same { search_expression search.new ≡ search_expression search.old }
{
    match value {
        Value::Text(bytes) | Value::Bin(bytes) => hits(search, bytes.as_slice()),
        Value::Uint(number) => {
            let mut buffer = Buffer::new();
            hits(search, buffer.format(*number).as_bytes())
        }
        Value::Neg(number) => {
            let mut buffer = Buffer::new();
            hits(search, buffer.format(number.get()).as_bytes())
        }
        Value::Truth(true) => hits(search, b"true"),
        Value::Truth(false) => hits(search, b"false"),
        Value::Float32(bits) => single_matches(search, floats, *bits),
        Value::Float64(bits) => double_matches(search, floats, *bits),
        Value::Nil | Value::Ext(_, _) | Value::List(_) | Value::Map(_) => false,
    }
}

fn single_matches(search: &mut Search<'_>, floats: Floats, bits: u32) -> bool
    ensures found { result ≡ matches floats (search_expression search.old) (float32 bits) }
    ensures same { search_expression search.new ≡ search_expression search.old }
{
    match floats {
        Floats::Tagged => false,
        Floats::Numbers => hits(search, text32(bits).as_bytes()),
    }
}

fn double_matches(search: &mut Search<'_>, floats: Floats, bits: u64) -> bool
    ensures found { result ≡ matches floats (search_expression search.old) (float64 bits) }
    ensures same { search_expression search.new ≡ search_expression search.old }
{
    match floats {
        Floats::Tagged => false,
        Floats::Numbers => hits(search, text64(bits).as_bytes()),
    }
}

fn hits(search: &mut Search<'_>, bytes: &[u8]) -> bool
    ensures found { result ≡ is_found (search_expression search.old) bytes.now }
    ensures same { search_expression search.new ≡ search_expression search.old }
{
    search.hits(bytes)
}
