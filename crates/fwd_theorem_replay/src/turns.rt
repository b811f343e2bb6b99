ghost use Rattle.std.specs.Prelude.{◌≢◌, ℕ, ◌*◌, ◌<◌, List, length};
ghost use Rattle.fwd_settings.specs.declared.settings_types.AllSettings.{AllSettings};
ghost use Rattle.fwd_script.specs.declared.schedule.Life.{Life};
ghost use Rattle.fwd_script_loop.specs.Lines.{coming};
ghost use Rattle.fwd_model.specs.Trace.{TraceEntry};
ghost use Rattle.fwd_model.specs.Run.{RunResult, TurnsSpent};
ghost use Rattle.fwd_secure.specs.Keys.{has_keys};
ghost use Rattle.fwd_secure.specs.Secure.{most_of};
ghost use Rattle.fwd_secure_settings.specs.Keys.{keys_of};
ghost use Rattle.fwd_replay.specs.Runs.{IsLife, Start};

/// A run of a schedule with more turns than events never ends because its turns ran out: each turn takes
/// one event, and after the last one comes the end. If an input or an output has a shared key, an event can
/// bring bytes that a later turn takes, so more turns than twice the events are enough.
pub fn enough_turns_end_a_run()
    ensures { (s : AllSettings) (turns : ℕ) (start : Start) (planned : Life) (trace : List TraceEntry) (comes : RunResult)
        → IsLife s turns start planned trace comes → most_of (has_keys (keys_of s)) * length (coming 0 planned.lines) < turns → comes.end ≢ TurnsSpent }
{}
