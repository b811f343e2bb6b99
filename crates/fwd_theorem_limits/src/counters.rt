//! What the report counts.

ghost use Rattle.fwd_settings.specs.declared.settings_types.AllSettings.{AllSettings};
ghost use Rattle.fwd_model.specs.Fact.{History};
ghost use Rattle.fwd_model.specs.Counters.{tally_of};
ghost use Rattle.fwd_theorem_limits.specs.FactCounts.{CountsFacts};

/// Each counter of the report is the number of its facts, and stays at 2^64 - 1 once it is reached: accepted
/// and refused batches of an input, outcomes of an output's flushes, evictions, bytes that links took, files
/// that were found, and failed calls.
pub fn counters_count_facts()
    ensures { (s : AllSettings) (h : History) → CountsFacts s h (tally_of s h) }
{}
