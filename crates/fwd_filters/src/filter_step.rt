//! The filters of a configuration.

use fwd_base::{Bytes, Items, crosses};
use fwd_grep::GrepRules;
use fwd_reshape::{LiftRule, ModifyRules, NestRule};

/// The rules of a filter.
#[derive(Debug, Drop)]
pub enum FilterKind {
    Grep(GrepRules),
    Modify(ModifyRules),
    Nest(NestRule),
    Lift(LiftRule),
}

/// A filter, and the glob of the tags that it works on.
#[derive(Debug, Drop)]
pub struct FilterStep {
    pub glob: Bytes,
    pub kind: FilterKind,
}

/// Filters, in the order of the configuration.
pub type FilterSteps = Items<FilterStep>;

/// States that threads may share filters and send them to each other.
pub fn steps_are_thread_safe(steps: &FilterSteps) {
    crosses(steps)
}
