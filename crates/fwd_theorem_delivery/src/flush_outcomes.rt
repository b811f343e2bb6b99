//! Theorems on the flushes of a run. They assume of the platform that each dial that returns a link
//! returns a greater number than all before, and hold of a run up to any step.

ghost use Rattle.std.specs.Prelude.{ℕ, ◌-◌, ◌^◌, ◌≡◌, min, List, [], Option, Some};
ghost use Rattle.fwd_outside.specs.Program.{Return, Execution};
ghost use Rattle.fwd_outside.specs.declared.ends.Ends.{Ends};
ghost use Rattle.fwd_outside.specs.NewLinks.{AreNewLinks};
ghost use Rattle.fwd_flush.specs.FlushProgram.{Progress};
ghost use Rattle.fwd_settings.specs.declared.settings_types.AllSettings.{AllSettings};
ghost use Rattle.fwd_model.specs.Fact.{Route, OnRoute, Retries, Delivered, Failed, Exhausted};
ghost use Rattle.fwd_model.specs.Trace.{TraceEntry, loop_part};
ghost use Rattle.fwd_model.specs.Routes.{flight};
ghost use Rattle.fwd_model.specs.Counters.{taken};
ghost use Rattle.fwd_model.specs.Run.{RunResult, life};
ghost use Rattle.fwd_theorem_delivery.specs.Links.{DialTarget, WasDialled};
ghost use Rattle.fwd_theorem_delivery.specs.OpenLinks.{AreOnOpenLinks};
ghost use Rattle.fwd_theorem_delivery.specs.TakenBytes.{links_of, taken_over};
ghost use Rattle.fwd_theorem_delivery.specs.LinkOutcomes.{IsLogged, SendsPrefix, SendsAll, IsRejected, IsInProgress, HasRetryCause};

/// The bytes that pushes on a link took are a prefix of the payload for a flush of a closed chunk: the
/// output is the one whose dial returned the link, the dial named the tag of this chunk, and a flush of
/// it began with these events. If what happened on the link has no outcome yet, the route is flushed over
/// this link. If it has one, the outcome is logged for the route, and the link was closed once.
pub fn links_send_prefixes()
    ensures { (s : AllSettings) (ends : Ends) (ticks : Option ℕ) (turns : ℕ) (trace : List TraceEntry) (lived : RunResult) (to : DialTarget) (link : ℕ)
        → Execution (life s ends ticks turns) trace (Return lived) → AreNewLinks 0 (loop_part trace) → WasDialled to link (loop_part trace)
        → SendsPrefix s lived.history (loop_part trace) to link }
{}

/// A run pushes only to links that are open, and closes only those: a dial returned the link before, and it
/// wasn't closed since.
pub fn calls_are_on_open_links()
    ensures { (s : AllSettings) (ends : Ends) (ticks : Option ℕ) (turns : ℕ) (trace : List TraceEntry) (lived : RunResult)
        → Execution (life s ends ticks turns) trace (Return lived) → AreNewLinks 0 (loop_part trace) → AreOnOpenLinks [] (loop_part trace) }
{}

/// A route is delivered only if the pushes on one link of its output took the whole payload of a flush of
/// it, and the outcome on this link is OK.
pub fn delivered_routes_sent_all()
    ensures { (s : AllSettings) (ends : Ends) (ticks : Option ℕ) (turns : ℕ) (trace : List TraceEntry) (lived : RunResult) (r : Route)
        → Execution (life s ends ticks turns) trace (Return lived) → AreNewLinks 0 (loop_part trace) → IsLogged (OnRoute r Delivered) lived.history
        → SendsAll s lived.history (loop_part trace) r }
{}

/// A flush in progress has a link of its output without an outcome yet. Its count of taken bytes is the
/// number of bytes that the pushes on this link took.
pub fn flushes_in_progress_are_open()
    ensures { (s : AllSettings) (ends : Ends) (ticks : Option ℕ) (turns : ℕ) (trace : List TraceEntry) (lived : RunResult) (r : Route) (p : Progress)
        → Execution (life s ends ticks turns) trace (Return lived) → AreNewLinks 0 (loop_part trace) → flight lived.history r ≡ Some p
        → IsInProgress s lived.history (loop_part trace) r p }
{}

/// A route is retried, or runs out of retries, only if a dial to its output was refused or the outcome on
/// a link of its output is RETRY. A route has failed only if a reply is wanted, the pushes on one link of
/// its output took the whole payload of a flush of it, and the outcome on this link is ERROR.
pub fn failures_have_causes()
    ensures retried { (s : AllSettings) (ends : Ends) (ticks : Option ℕ) (turns : ℕ) (trace : List TraceEntry) (lived : RunResult) (r : Route) (word : ℕ)
        → Execution (life s ends ticks turns) trace (Return lived) → AreNewLinks 0 (loop_part trace) → IsLogged (OnRoute r (Retries word)) lived.history
        → HasRetryCause s lived.history (loop_part trace) r }
    ensures spent { (s : AllSettings) (ends : Ends) (ticks : Option ℕ) (turns : ℕ) (trace : List TraceEntry) (lived : RunResult) (r : Route)
        → Execution (life s ends ticks turns) trace (Return lived) → AreNewLinks 0 (loop_part trace) → IsLogged (OnRoute r Exhausted) lived.history
        → HasRetryCause s lived.history (loop_part trace) r }
    ensures failed { (s : AllSettings) (ends : Ends) (ticks : Option ℕ) (turns : ℕ) (trace : List TraceEntry) (lived : RunResult) (r : Route)
        → Execution (life s ends ticks turns) trace (Return lived) → AreNewLinks 0 (loop_part trace) → IsLogged (OnRoute r Failed) lived.history
        → IsRejected s lived.history (loop_part trace) r }
{}

/// The taken bytes that the report counts for an output are the bytes that the pushes on all links of
/// this output took.
pub fn counted_bytes_were_taken()
    ensures { (s : AllSettings) (ends : Ends) (ticks : Option ℕ) (turns : ℕ) (trace : List TraceEntry) (lived : RunResult) (output : ℕ)
        → Execution (life s ends ticks turns) trace (Return lived) → AreNewLinks 0 (loop_part trace)
        → taken lived.history output ≡ min (taken_over (links_of output (loop_part trace)) (loop_part trace)) (2 ^ 64 - 1) }
{}
