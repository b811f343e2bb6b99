//! The rules that reshape a record.

use fwd_base::{Bytes, Items, Names, crosses};

/// What a record must have for the rules of `modify` to apply.
#[derive(Debug, Drop)]
pub enum Condition {
    /// The key is there.
    KeyExists { key: Bytes },
    /// The key is missing.
    KeyDoesNotExist { key: Bytes },
    /// The value of the key is this text.
    KeyValueEquals { key: Bytes, value: Bytes },
    /// The key is there, and its value isn't this text.
    KeyValueDoesNotEqual { key: Bytes, value: Bytes },
}

/// One change of a record. New values are text.
#[derive(Debug, Drop)]
pub enum Change {
    /// Sets the value of the first pair with the key, in its place; if there is none, appends the pair.
    Set { key: Bytes, value: Bytes },
    /// Appends the pair if the key is missing.
    Add { key: Bytes, value: Bytes },
    /// Removes every pair with the key.
    Remove { key: Bytes },
    /// Removes every pair whose key is a text that begins with this one.
    RemoveWildcard { key: Bytes },
    /// If the key is there and the other is missing, renames the first pair with the key to the other, in
    /// its place.
    Rename { key: Bytes, to: Bytes },
    /// If the key is there and isn't the other, removes every pair with the other, then renames the first
    /// pair with the key to the other.
    HardRename { key: Bytes, to: Bytes },
    /// If the key is there and the other is missing, appends the other with the value of the key.
    Copy { key: Bytes, to: Bytes },
    /// If the key is there and isn't the other, sets the other to the value of the key.
    HardCopy { key: Bytes, to: Bytes },
}

/// Conditions, all of which must hold.
pub type Conditions = Items<Condition>;

/// Changes, made in order.
pub type Changes = Items<Change>;

/// The rules of a `modify` filter: the changes are made if all conditions hold.
#[derive(Debug, Drop)]
pub struct ModifyRules {
    pub conditions: Conditions,
    pub rules: Changes,
}

/// The rule of a `nest` filter that nests: which keys are matched, and the key under which they are
/// gathered. An empty prefix means none.
#[derive(Debug, Drop)]
pub struct NestRule {
    /// A wildcard that ends in a star matches the text keys that begin with what comes before the star; any
    /// other matches its own text only.
    pub wildcards: Names,
    pub under: Bytes,
    pub remove_prefix: Bytes,
    pub add_prefix: Bytes,
}

/// The rule of a `nest` filter that lifts: the key whose map is lifted out. An empty prefix means none.
#[derive(Debug, Drop)]
pub struct LiftRule {
    pub under: Bytes,
    pub remove_prefix: Bytes,
    pub add_prefix: Bytes,
}

/// States that threads may share rules and send them to each other.
pub fn rules_are_thread_safe(modify: &ModifyRules, nest: &NestRule, lift: &LiftRule) {
    crosses(modify);
    crosses(nest);
    crosses(lift);
}
