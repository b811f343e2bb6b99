ghost use Rattle.std.specs.Prelude.{◌≡◌, ℕ, true, List, Ok};
ghost use Rattle.fwd_settings.specs.Requirements.{MeetsRequirements};
ghost use Rattle.fwd_settings.specs.declared.settings_types.AllSettings.{AllSettings};
ghost use Rattle.fwd_script.specs.Schedule.{schedule_of};
ghost use Rattle.fwd_script.specs.declared.schedule.Life.{Life};
ghost use Rattle.fwd_script.specs.declared.schedule.Schedule.{Schedule};
ghost use Rattle.fwd_replay.specs.Runs.{first, IsReplayed};
ghost use Rattle.fwd_replay.specs.declared.report.Reported.{Reported};
ghost use Rattle.fwd_replay.specs.declared.report.Shown.{Shown};
ghost use Rattle.fwd_theorem_replay.specs.Crashes.{NothingIsLost};
ghost use Rattle.fwd_theorem_replay.specs.PresetFiles.{OnlyFirstHasFiles};

/// At each crash between the runs of a schedule, with settings under which appends are fsynced, the next
/// run recovers each pending file-backed chunk of the history at the crash: it is whole, pending for each
/// output that it was pending for, and not for one whose outcome was recorded. This holds wherever in the
/// run the crash came, even inside an append or a removal, and whatever the crash's pick leaves of the
/// disk. Only the first run may put files on its disk, as in each schedule that is read
/// (`only_first_run_has_files`).
pub fn no_crash_loses_a_chunk()
    ensures { (shown : Shown) (s : AllSettings) (turns : ℕ) (lives : List Life) (reported : Reported) → MeetsRequirements s → s.service.full ≡ true
        → OnlyFirstHasFiles lives → (is : IsReplayed shown s turns first lives reported) → NothingIsLost shown s turns first lives reported is }
{}

/// In each schedule that is read, only the first run puts files on its disk: each later run begins with
/// what a crash left.
pub fn only_first_run_has_files()
    ensures { (text : List ℕ) (schedule : Schedule) → schedule_of text ≡ Ok schedule → OnlyFirstHasFiles schedule.lives }
{}
