//! Which inputs a wait names as paused.

ghost use Rattle.std.specs.Prelude.{◌≡◌, ◌⊎◌, ◌↔◌, ℕ, List, [], ◌∷◌, ◌++◌, Option, true, IsBitSet};
ghost use Rattle.fwd_outside.specs.Program.{entry, Execution};
ghost use Rattle.fwd_outside.specs.Loop.{Wait};
ghost use Rattle.fwd_outside.specs.declared.ends.Ends.{Ends};
ghost use Rattle.fwd_outside.specs.declared.happening.Happening.{Happening};
ghost use Rattle.fwd_settings.specs.declared.settings_types.AllSettings.{AllSettings};
ghost use Rattle.fwd_model.specs.Trace.{Action, TraceEntry, OnLoop, history_after};
ghost use Rattle.fwd_model.specs.Limits.{is_paused};
ghost use Rattle.fwd_model.specs.Run.{RunResult, life};
ghost use Rattle.fwd_theorem_delivery.specs.Backpressure.{IsStopped, IsAtLimit, IsPaused};

/// An input is paused exactly if the run is stopped, or the bytes of its chunks in memory that are open
/// or pending reach its limit. Each wait of a run names the paused inputs by their bits, and no others.
pub fn waits_name_paused_inputs()
    ensures inputs { (s : AllSettings) (ends : Ends) (ticks : Option ℕ) (turns : ℕ) (entries : List TraceEntry) (left : Action RunResult) (input : ℕ)
        → Execution (life s ends ticks turns) entries left
        → (is_paused s (history_after entries []) input ≡ true) ↔ (IsStopped s (history_after entries []) ⊎ IsAtLimit s (history_after entries []) input) }
    ensures waits { (s : AllSettings) (ends : Ends) (ticks : Option ℕ) (turns : ℕ) (before after : List TraceEntry) (left : Action RunResult) (until mask : ℕ) (brought : Happening) (input : ℕ)
        → Execution (life s ends ticks turns) (before ++ entry (OnLoop (Wait until mask)) brought ∷ after) left
        → IsBitSet mask input ↔ IsPaused s (history_after before []) input }
{}
