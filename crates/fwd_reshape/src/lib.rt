//! Filters that reshape records before they are stored: they set, remove, rename and copy fields, or gather
//! fields under one and lift them out again. Each rule works in place on the record of an event, a list of
//! keys and values.
//!
//! `modify`, `nest` and `lift` return the record that the definition of each rule gives; each rule is one
//! function on lists of pairs. Threads may share the rules.
#![tactic(auto)]

mod changes;
mod keys;
mod moves;
mod rules;

pub use changes::modify;
pub use moves::{lift, nest};
pub use rules::{
    Change, Changes, Condition, Conditions, LiftRule, ModifyRules, NestRule, rules_are_thread_safe,
};
