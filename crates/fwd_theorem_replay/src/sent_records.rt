ghost use Rattle.std.specs.Prelude.{ℕ, List};
ghost use Rattle.fwd_settings.specs.Requirements.{MeetsRequirements};
ghost use Rattle.fwd_settings.specs.declared.settings_types.AllSettings.{AllSettings};
ghost use Rattle.fwd_script.specs.declared.schedule.Life.{Life};
ghost use Rattle.fwd_replay.specs.Runs.{first, IsReplayed};
ghost use Rattle.fwd_replay.specs.declared.report.Reported.{Reported};
ghost use Rattle.fwd_replay.specs.declared.report.Shown.{Shown};
ghost use Rattle.fwd_theorem_replay.specs.SentRecords.{EachSendsRecords};

/// Each flush of each run of a schedule began with the records of its chunk, in memory or in a file, whether
/// or not appends are fsynced.
pub fn replays_send_their_records()
    ensures { (shown : Shown) (s : AllSettings) (turns : ℕ) (lives : List Life) (reported : Reported) → MeetsRequirements s
        → (is : IsReplayed shown s turns first lives reported) → EachSendsRecords shown s turns first lives reported is }
{}
