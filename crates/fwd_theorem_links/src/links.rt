//! Runs whose links have other numbers.

ghost use Rattle.std.specs.Prelude.{◌≡◌, ℕ, List, Option};
ghost use Rattle.fwd_outside.specs.Program.{Return, Execution};
ghost use Rattle.fwd_outside.specs.declared.ends.Ends.{Ends};
ghost use Rattle.fwd_settings.specs.declared.settings_types.AllSettings.{AllSettings};
ghost use Rattle.fwd_model.specs.Fact.{History, Route};
ghost use Rattle.fwd_model.specs.Trace.{Action, TraceEntry, loop_part};
ghost use Rattle.fwd_model.specs.Routes.{due, rows_of, tries};
ghost use Rattle.fwd_model.specs.Counters.{tally_of};
ghost use Rattle.fwd_model.specs.Run.{RunResult, life};
ghost use Rattle.fwd_theorem_links.specs.RenamedLinks.{renamed_history, renamed_result, renamed_trace};
ghost use Rattle.fwd_theorem_links.specs.DialedLinks.{IsAmong, KeepsApart, dialed_links, place_from};

/// A run doesn't depend on the numbers of its links. If each link that a dial returned gets a number that no
/// other link gets, the run with these numbers is a run too: it makes the same calls, logs the same facts and
/// has the same result. So links may be numbered by the order of their dials. The same holds of a run up to
/// any of its calls.
pub fn links_are_names()
    ensures renamed { (rename : ℕ → ℕ) (s : AllSettings) (ends : Ends) (ticks : Option ℕ) (turns : ℕ) (trace : List TraceEntry) (result : RunResult)
        → Execution (life s ends ticks turns) trace (Return result) → KeepsApart rename (IsAmong (dialed_links (loop_part trace)))
        → Execution (life s ends ticks turns) (renamed_trace rename trace) (Return (renamed_result rename result)) }
    ensures begun { (rename : ℕ → ℕ) (s : AllSettings) (ends : Ends) (ticks : Option ℕ) (turns : ℕ) (trace : List TraceEntry) (left : Action RunResult)
        → Execution (life s ends ticks turns) trace left → KeepsApart rename (IsAmong (dialed_links (loop_part trace)))
        → (more : Action RunResult) × Execution (life s ends ticks turns) (renamed_trace rename trace) more }
    ensures numbered { (s : AllSettings) (ends : Ends) (ticks : Option ℕ) (turns : ℕ) (trace : List TraceEntry) (result : RunResult)
        → Execution (life s ends ticks turns) trace (Return result)
        → Execution (life s ends ticks turns) (renamed_trace (place_from 1 (dialed_links (loop_part trace))) trace) (Return (renamed_result (place_from 1 (dialed_links (loop_part trace))) result)) }
{}

/// The table's rows, the tries and due time of each route, and the counts of the report don't depend on the
/// numbers of links.
pub fn renaming_changes_no_count()
    ensures rows { (rename : ℕ → ℕ) (s : AllSettings) (h : History) → rows_of s (renamed_history rename h) ≡ rows_of s h }
    ensures tries { (rename : ℕ → ℕ) (h : History) (r : Route) → tries (renamed_history rename h) r ≡ tries h r }
    ensures due { (rename : ℕ → ℕ) (s : AllSettings) (h : History) (r : Route) → due s (renamed_history rename h) r ≡ due s h r }
    ensures tally { (rename : ℕ → ℕ) (s : AllSettings) (h : History) → tally_of s (renamed_history rename h) ≡ tally_of s h }
{}
