//! The filter `grep`: drops events by the value of one key, either those whose value a pattern doesn't
//! match, or those whose value it matches.
//!
//! `keeps` returns what the definition of the rules says. `GrepSearches` prepares the patterns once for a
//! batch. Threads may share the rules.
#![tactic(auto)]

mod rules;
mod searches;

pub use rules::{GrepRule, GrepRules, rules_are_thread_safe};
pub use searches::{GrepSearches, keeps};
