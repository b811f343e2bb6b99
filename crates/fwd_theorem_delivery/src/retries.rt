//! When a route is retried, and how often.

ghost use Rattle.std.specs.Prelude.{◌≡◌, ◌≤◌, ◌<◌, ◌+◌, ◌*◌, ◌-◌, ◌^◌, ℕ, List, [], ◌∷◌, ◌++◌, Option, Some};
ghost use Rattle.fwd_base.specs.declared.output_options.Retries.TheVariants.{Times};
ghost use Rattle.fwd_event.specs.declared.event.Event.{Event};
ghost use Rattle.fwd_outside.specs.Program.{entry, Execution};
ghost use Rattle.fwd_outside.specs.declared.ends.Ends.{Ends};
ghost use Rattle.fwd_retry.specs.Wait.{wait};
ghost use Rattle.fwd_settings.specs.declared.settings_types.AllSettings.{AllSettings};
ghost use Rattle.fwd_settings.specs.declared.settings_types.OutputSet.{OutputSet};
ghost use Rattle.fwd_model.specs.Fact.{Route, OnRoute, FlushStarted};
ghost use Rattle.fwd_model.specs.Trace.{Action, TraceEntry, Note, history_after};
ghost use Rattle.fwd_model.specs.Settings.{saturating_plus, output_at, retries_at};
ghost use Rattle.fwd_model.specs.Clock.{clock};
ghost use Rattle.fwd_model.specs.Routes.{due, tries};
ghost use Rattle.fwd_model.specs.Run.{RunResult, life};
ghost use Rattle.fwd_theorem_delivery.specs.RetryCounts.{begin_count, AwaitsRetry};

/// A route that is to be retried is due once the clock has advanced by the drawn wait, in seconds: that
/// before retry n, if n of its flushes answered RETRY. When a flush of it begins, the clock has advanced
/// by that wait since, and never by less than the base.
pub fn retries_wait()
    ensures due { (s : AllSettings) (ends : Ends) (ticks : Option ℕ) (turns : ℕ) (entries : List TraceEntry) (left : Action RunResult) (r : Route) (was : AwaitsRetry (history_after entries []) r)
        → Execution (life s ends ticks turns) entries left
        → due s (history_after entries []) r ≡ saturating_plus (clock was.before) (1000 * wait (saturating_plus (tries was.before r) 1) s.service.base s.service.cap was.word) }
    ensures wait { (s : AllSettings) (ends : Ends) (ticks : Option ℕ) (turns : ℕ) (before after : List TraceEntry) (left : Action RunResult) (r : Route) (events : List Event) (answer : Unit {0}) (was : AwaitsRetry (history_after before []) r)
        → Execution (life s ends ticks turns) (before ++ entry (Note (OnRoute r (FlushStarted events))) answer ∷ after) left
        → saturating_plus (clock was.before) (1000 * wait (saturating_plus (tries was.before r) 1) s.service.base s.service.cap was.word) ≤ clock (history_after before []) }
    ensures base { (s : AllSettings) (ends : Ends) (ticks : Option ℕ) (turns : ℕ) (before after : List TraceEntry) (left : Action RunResult) (r : Route) (events : List Event) (answer : Unit {0}) (was : AwaitsRetry (history_after before []) r)
        → Execution (life s ends ticks turns) (before ++ entry (Note (OnRoute r (FlushStarted events))) answer ∷ after) left
        → saturating_plus (clock was.before) (1000 * s.service.base) ≤ clock (history_after before []) }
{}

/// However far a run has come, the number of flushes of a route is at most its output's limit of retries
/// plus one. A limit at or above the maximum of counters doesn't limit.
pub fn tries_are_limited()
    ensures settings { (s : AllSettings) (ends : Ends) (ticks : Option ℕ) (turns : ℕ) (entries : List TraceEntry) (left : Action RunResult) (r : Route) (output : OutputSet) (n : ℕ)
        → Execution (life s ends ticks turns) entries left → output_at s r.output ≡ Some output → output.retries ≡ Times n → n < 2 ^ 64 - 1
        → begin_count (history_after entries []) r ≤ n + 1 }
    ensures limit { (s : AllSettings) (ends : Ends) (ticks : Option ℕ) (turns : ℕ) (entries : List TraceEntry) (left : Action RunResult) (r : Route) (n : ℕ)
        → Execution (life s ends ticks turns) entries left → retries_at (output_at s r.output) ≡ Times n → n < 2 ^ 64 - 1
        → begin_count (history_after entries []) r ≤ n + 1 }
{}
