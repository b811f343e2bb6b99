ghost use Rattle.std.specs.Prelude.{◌≡◌, ◌≢◌, ℕ, List};
ghost use Rattle.fwd_settings.specs.declared.settings_types.AllSettings.{AllSettings};
ghost use Rattle.fwd_script.specs.declared.schedule.Life.{Life};
ghost use Rattle.fwd_replay.specs.Runs.{first, IsReplayed};
ghost use Rattle.fwd_replay.specs.declared.report.Ending.TheVariants.{Memory};
ghost use Rattle.fwd_replay.specs.declared.report.Reported.{Reported};
ghost use Rattle.fwd_replay.specs.declared.report.Shown.{Shown};

/// The text and the ending of a replay are functions of the settings, of what is shown, of the number of
/// turns, and of the schedule: for each run its lines and answers, the files put on its disk, which of
/// its calls fail, and where it is cut. The exception: memory ran out.
pub fn schedules_determine_text()
    ensures { (shown : Shown) (s : AllSettings) (turns : ℕ) (lives : List Life) (one other : Reported)
        → IsReplayed shown s turns first lives one → IsReplayed shown s turns first lives other → (one.ending ≢ Memory) → (other.ending ≢ Memory) → other ≡ one }
{}
