//! What a run does at a tick.

ghost use Rattle.std.specs.Prelude.{◌≡◌, ℕ, true, List, [], Option, Some, slice_get};
ghost use Rattle.fwd_outside.specs.Program.{Return, Execution};
ghost use Rattle.fwd_outside.specs.declared.ends.Ends.{Ends};
ghost use Rattle.fwd_outside.specs.declared.happening.Happening.{Happening};
ghost use Rattle.fwd_outside.specs.declared.happening.Happening.TheVariants as happening;
ghost use Rattle.fwd_settings.specs.declared.settings_types.AllSettings.{AllSettings};
ghost use Rattle.fwd_model.specs.Fact.{History};
ghost use Rattle.fwd_model.specs.Trace.{Action, TraceEntry, history_after};
ghost use Rattle.fwd_model.specs.Settings.{paths_at};
ghost use Rattle.fwd_model.specs.StepActions.{step};
ghost use Rattle.fwd_model.specs.Run.{RunResult, life};
ghost use Rattle.fwd_theorem_trace.specs.Past.{past_after};
ghost use Rattle.fwd_theorem_trace.specs.Allowed.{EventAllowed};
ghost use Rattle.fwd_theorem_steps.specs.Dispatch.{EndsWithDispatch, dispatches_at};
ghost use Rattle.fwd_theorem_steps.specs.Polls.{HasTurn};

/// The step of a tick, and of the first of `Stop` and the end of a standard input, ends with a dispatch: each
/// route that is due by then has a turn (`dispatch_dials_started`). This holds whenever a wait returns the
/// event, and for the `Stop` after the last tick.
pub fn events_end_with_a_dispatch()
    ensures { (s : AllSettings) (ends : Ends) (ticks : Option ℕ) (turns : ℕ) (before entries : List TraceEntry) (left : Action RunResult) (brought : Happening) (new : History)
        → Execution (life s ends ticks turns) before left → EventAllowed s brought (past_after [] before) → dispatches_at s (history_after before []) brought ≡ true
        → Execution (step s brought (history_after before [])) entries (Return new) → EndsWithDispatch s (history_after before []) entries new }
{}

/// At each tick, each path of each input is polled, unless the input is paused: the file's length is asked
/// for, and then it is read from where reading is to go on. The `Polled` fact has the length and the bytes
/// that these two calls returned. A call that fails is logged as such.
pub fn ticks_poll_followed_files()
    ensures { (s : AllSettings) (ends : Ends) (ticks : Option ℕ) (turns : ℕ) (before entries : List TraceEntry) (left : Action RunResult) (now input index : ℕ) (path : List ℕ) (new : History)
        → Execution (life s ends ticks turns) before left → EventAllowed s (happening.Tick now) (past_after [] before) → slice_get (paths_at s input) index ≡ Some path
        → Execution (step s (happening.Tick now) (history_after before [])) entries (Return new) → HasTurn s input index path (history_after before []) entries }
{}
