//! When a run ends.

ghost use Rattle.std.specs.Prelude.{◌≡◌, ◌↔◌, ℕ, List, [], ◌∷◌, ◌++◌, Option, Some, None};
ghost use Rattle.fwd_outside.specs.Program.{entry, Return, Execution};
ghost use Rattle.fwd_outside.specs.Loop.{Wait};
ghost use Rattle.fwd_outside.specs.declared.ends.Ends.{Ends};
ghost use Rattle.fwd_outside.specs.declared.happening.Happening.{Happening};
ghost use Rattle.fwd_keeper.specs.Keeper.{Get};
ghost use Rattle.fwd_settings.specs.declared.settings_types.AllSettings.{AllSettings};
ghost use Rattle.fwd_model.specs.Fact.{History};
ghost use Rattle.fwd_model.specs.Trace.{Action, TraceEntry, OnLoop, OnKeeper, history_after};
ghost use Rattle.fwd_model.specs.Clock.{clock, stopped};
ghost use Rattle.fwd_model.specs.Run.{RunResult, Over, KeeperFailed, TurnsSpent, life};
ghost use Rattle.fwd_theorem_limits.specs.RunEnd.{FirstStop, IsDueToEnd};

/// A run is stopped exactly from its first `Stop` or end of a standard input on, and the time of this is the
/// clock then.
pub fn first_stop_counts()
    ensures { (s : AllSettings) (h : History) (at : ℕ) → (stopped s h ≡ Some at) ↔ ((stop : FirstStop s h) × (clock stop.before ≡ at)) }
{}

/// A run is over only when it is due to end: at `End`, or once it was stopped and nothing is pending, or the
/// grace time is over. The first `Stop` or end of a standard input stops it, and a later one changes nothing.
/// A run that is due to end never waits again.
pub fn runs_end_when_due()
    ensures over { (s : AllSettings) (ends : Ends) (ticks : Option ℕ) (turns : ℕ) (lived : RunResult) (entries : List TraceEntry)
        → Execution (life s ends ticks turns) entries (Return lived) → lived.end ≡ Over → IsDueToEnd s lived.history }
    ensures spent { (s : AllSettings) (ends : Ends) (ticks : Option ℕ) (turns : ℕ) (lived : RunResult) (entries : List TraceEntry)
        → Execution (life s ends ticks turns) entries (Return lived) → lived.end ≡ TurnsSpent → IsDueToEnd s lived.history → ⊥ }
    ensures waits { (s : AllSettings) (ends : Ends) (ticks : Option ℕ) (turns : ℕ) (before after : List TraceEntry) (left : Action RunResult) (until paused : ℕ) (brought : Happening)
        → Execution (life s ends ticks turns) (before ++ entry (OnLoop (Wait until paused)) brought ∷ after) left
        → IsDueToEnd s (history_after before []) → ⊥ }
{}

/// A `Get` of an offset that fails is the last call of its run, which ends for this reason. A run that ends
/// for this reason made such a call last.
pub fn failed_gets_end_runs()
    ensures last { (s : AllSettings) (ends : Ends) (ticks : Option ℕ) (turns : ℕ) (before after : List TraceEntry) (left : Action RunResult) (db path : List ℕ)
        → Execution (life s ends ticks turns) (before ++ entry (OnKeeper (Get db path)) None ∷ after) left → after ≡ [] }
    ensures ended { (s : AllSettings) (ends : Ends) (ticks : Option ℕ) (turns : ℕ) (before : List TraceEntry) (lived : RunResult) (db path : List ℕ)
        → Execution (life s ends ticks turns) (before ++ entry (OnKeeper (Get db path)) None ∷ []) (Return lived) → lived.end ≡ KeeperFailed }
    ensures cause { (s : AllSettings) (ends : Ends) (ticks : Option ℕ) (turns : ℕ) (entries : List TraceEntry) (lived : RunResult)
        → Execution (life s ends ticks turns) entries (Return lived) → lived.end ≡ KeeperFailed
        → (before : List TraceEntry) × (db : List ℕ) × (path : List ℕ) × (entries ≡ before ++ entry (OnKeeper (Get db path)) None ∷ []) }
{}
