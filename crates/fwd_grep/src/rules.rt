//! Rules that keep or drop an event.

use fwd_base::{Bytes, Items, Pattern, crosses};
use fwd_json::Floats;

/// A rule: the pattern is compared with the value of the first pair with the key. The rule drops an event
/// whose value doesn't match, or, if it excludes, one whose value matches.
#[derive(Debug, Drop)]
pub struct GrepRule {
    pub exclude: bool,
    pub key: Bytes,
    pub pattern: Pattern,
    /// Whether a float has a text to compare.
    pub floats: Floats,
}

/// Rules, each of which may drop the event.
pub type GrepRules = Items<GrepRule>;

/// States that threads may share rules and send them to each other.
pub fn rules_are_thread_safe(rules: &GrepRules) {
    crosses(rules)
}
