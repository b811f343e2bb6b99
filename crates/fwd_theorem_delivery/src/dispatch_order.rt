//! In which order a dispatch begins routes.

ghost use Rattle.std.specs.Prelude.{◌≡◌, ◌≤◌, List, ◌∷◌, ◌++◌, Contains};
ghost use Rattle.fwd_outside.specs.Program.{Return, Execution};
ghost use Rattle.fwd_settings.specs.declared.settings_types.AllSettings.{AllSettings};
ghost use Rattle.fwd_model.specs.Fact.{History, Route};
ghost use Rattle.fwd_model.specs.Trace.{TraceEntry};
ghost use Rattle.fwd_model.specs.Clock.{clock};
ghost use Rattle.fwd_model.specs.Routes.{due};
ghost use Rattle.fwd_model.specs.FlushActions.{walk};
ghost use Rattle.fwd_theorem_trace.specs.Dispatch.{flushes_begun};
ghost use Rattle.fwd_theorem_delivery.specs.DueOrder.{IsDueBefore};

/// Each route that a dispatch begins was due when the dispatch began. Of two of these, the one that
/// begins first was due earlier; or both were due at the same time, and it has the lower chunk number, or
/// the same chunk and the lower output number.
pub fn earlier_due_first()
    ensures due { (s : AllSettings) (h new : History) (entries : List TraceEntry) (r : Route)
        → Execution (walk s h) entries (Return new) → Contains (flushes_begun entries) r → due s h r ≤ clock h }
    ensures order { (s : AllSettings) (h new : History) (entries : List TraceEntry) (before between after : List Route) (q r : Route)
        → Execution (walk s h) entries (Return new) → flushes_begun entries ≡ before ++ q ∷ between ++ r ∷ after → IsDueBefore s h q r }
{}
