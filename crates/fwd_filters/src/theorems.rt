//! Theorems on filters. Each is the contract of a function that does nothing.

ghost use Rattle.fwd_filters.specs.FilterFunction.{FilteredAre};

/// The remaining events are those that the filters whose glob matches leave, one filter after another.
pub fn filtered_are_computed()
    ensures { FilteredAre }
{}
