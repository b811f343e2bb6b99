//! From the words of the command line to a job.

ghost use Rattle.std.specs.Prelude.{◌≡◌, ℕ, false, List, Option, Some, map, string_bytes, option_map, IfOk, IfErr};
ghost use Rattle.fwd_outside.specs.Program.{Return, bind};
ghost use Rattle.fwd_outside.specs.Log.{RunsProgram};
ghost use Rattle.fwd_outside.specs.Cause.{HasCause};
ghost use Rattle.fwd_outside.specs.Files.{read_whole_program};
ghost use Rattle.fwd_config.specs.Variables.{environment};
ghost use Rattle.fwd_config.specs.Sections.{reads_files};
ghost use Rattle.fwd_config.specs.declared.section.Section.{Section};
ghost use Rattle.fwd_top.specs.Words.{command_of};
ghost use Rattle.fwd_top.specs.Views.{wanted_of};
ghost use Rattle.fwd_top.specs.Cases.{AreSound, asked, of_file, reports_of, wanted_by};
ghost use Rattle.fwd_top.specs.Answers.{Asks, is_over_disk, is_run};
ghost use Rattle.fwd_top.specs.Taped.{is_record};
ghost use Rattle.fwd_top.specs.declared.job.Job.TheVariants as job;
ghost use Rattle.fwd_top.specs.declared.status.Status.TheVariants as status;
ghost use Rattle.fwd_top.specs.Results.{AsksAfter, AsksFor, ComesOfLoad, IsFileFault, IsCaseOf, IsOwnRefusal, IsRefusal, case_of, config_status, held_load, is_record_wanted, is_run_wanted, is_to_record, is_to_run, of_job, schedule_status, setting_status, settings_in, takes_disk};

use crate::status::{ConfigRefusal, Status};
use crate::words::{Command, read_words};
use fwd_config::{ConfigFault, ConfigKind, Sections, load};
use fwd_outside::{Bytes, FileErr, Files, Memory, read_whole};
use fwd_replay::generate;
use fwd_script::{MemFiles, Schedule, ScheduleKind, ScheduleRefused, read_schedule};
use fwd_settings::{AllSettings, SettingFault, settings};
use fwd_settings_schema::SettingKind;
use fwd_watch::{Unwatched, Watch};
use std::alloc::Global;

/// The job of the program: on the settings of a configuration, or on a folder.
#[derive(Drop)]
pub enum Job {
    /// Runs the settings, and stops after the given number of clock ticks, if there is one.
    Run {
        settings: AllSettings,
        ticks: Option<u64>,
    },
    /// Runs the settings in the same way, and records the run.
    Record {
        settings: AllSettings,
        ticks: Option<u64>,
    },
    /// Replays a schedule.
    Replay {
        settings: AllSettings,
        schedule: Schedule,
    },
    /// Replays a generated load, and shows the reports alone.
    Generate {
        settings: AllSettings,
        schedule: Schedule,
    },
    /// Lists the chunk files under a folder.
    List {
        folder: Bytes,
    },
}

/// What is to be done with the settings.
#[derive(Clone, Copy)]
enum Wanted<'a> {
    ToRun { ticks: Option<u64> },
    ToRecord { ticks: Option<u64> },
    ToReplay { schedule: &'a [u8] },
}

/// Returns the status of a configuration without settings: its text is refused, or can't be read.
fn refused_config(fault: ConfigFault) -> Status
    ensures status { result ≡ config_status fault.kind fault.place }
    ensures refusal { IsRefusal result }
{
    let ConfigFault { kind, place } = fault;
    match kind {
        ConfigKind::FileFault => Status::FileFault,
        ConfigKind::Memory => Status::Memory,
        ConfigKind::EntryOutsideSection
        | ConfigKind::NoValue
        | ConfigKind::BadSection
        | ConfigKind::IncludeTooDeep
        | ConfigKind::BadSet
        | ConfigKind::OpenBrace
        | ConfigKind::NotUtf8 => Status::ConfigRefused {
            kind: ConfigRefusal::Load(kind),
            place,
        },
    }
}

/// Returns the status of sections without settings.
fn refused_settings(fault: SettingFault) -> Status
    ensures status { result ≡ setting_status fault.kind fault.place }
    ensures refusal { IsOwnRefusal result }
{
    let SettingFault { kind, place } = fault;
    match kind {
        SettingKind::Memory => Status::Memory,
        SettingKind::UnknownPlugin
        | SettingKind::UnknownKey
        | SettingKind::BadNumber
        | SettingKind::BadSize
        | SettingKind::BadChoice
        | SettingKind::Missing
        | SettingKind::TooMany
        | SettingKind::PatternRefused
        | SettingKind::UnknownSection => Status::ConfigRefused {
            kind: ConfigRefusal::Setting(kind),
            place,
        },
    }
}

/// Returns the status of a text that isn't a schedule.
fn refused_schedule(refused: ScheduleRefused) -> Status
    ensures status { result ≡ schedule_status refused.kind refused.line }
    ensures refusal { IsOwnRefusal result }
{
    match refused.kind {
        ScheduleKind::Memory => Status::Memory,
        ScheduleKind::UnknownWord
        | ScheduleKind::BadNumber
        | ScheduleKind::BadHex
        | ScheduleKind::BadOrder => Status::ScheduleRefused {
            kind: refused.kind,
            line: refused.line,
        },
    }
}

/// Returns the job of a schedule's text, with these settings.
fn job_of_text(alloc: Global, bytes: &[u8], settings: AllSettings) -> Result<Job, Status>
    ensures same { IfOk result (λ job. settings_in job ≡ Some settings) }
    ensures kind { IfOk result (λ job. is_to_run job ≡ false) }
    ensures disk { IfOk result (λ job. takes_disk job ≡ false) }
    ensures record { IfOk result (λ job. is_to_record job ≡ false) }
    ensures judged { IsCaseOf (of_file settings (Some bytes.now)) result }
    ensures refusal { IfErr result IsOwnRefusal }
{
    match read_schedule(alloc, bytes) {
        Ok(schedule) => Ok(Job::Replay { settings, schedule }),
        Err(refused) => Err(refused_schedule(refused)),
    }
}

/// Returns the job of a schedule's file, with these settings.
fn job_of_file<F: Files>(
    alloc: Global,
    files: &mut F,
    path: &[u8],
    settings: AllSettings,
) -> Result<Job, Status>
    ensures same { IfOk result (λ job. settings_in job ≡ Some settings) }
    ensures kind { IfOk result (λ job. is_to_run job ≡ false) }
    ensures disk { IfOk result (λ job. takes_disk job ≡ false) }
    ensures record { IfOk result (λ job. is_to_record job ≡ false) }
    ensures calls { RunsProgram (F.call_log files.old) (F.call_log files.new) (bind (read_whole_program path.now) (λ bytes. Return (of_file settings bytes))) (case_of result) }
    ensures cause { HasCause (F.faults files.old) (F.faults files.new) (IsFileFault result) }
    ensures refusal { IfErr result IsRefusal }
{
    match read_whole(alloc, files, path) {
        Ok(bytes) => job_of_text(alloc, bytes.as_slice(), settings),
        Err(FileErr::Failed) => Err(Status::FileFault),
        Err(FileErr::Memory) => Err(Status::Memory),
    }
}

/// Returns the job of settings.
fn job_of_settings<F: Files>(
    alloc: Global,
    files: &mut F,
    wanted: Wanted<'_>,
    settings: AllSettings,
) -> Result<Job, Status>
    ensures same { IfOk result (λ job. settings_in job ≡ Some settings) }
    ensures calls { (loaded : Option (List Section)) → RunsProgram (F.call_log files.old) (F.call_log files.new) (reads_files (wanted_by loaded settings (wanted_of wanted.entry))) (option_map (asked loaded) (case_of result)) }
    ensures cause { HasCause (F.faults files.old) (F.faults files.new) (IsFileFault result) }
    ensures refusal { IfErr result IsRefusal }
    ensures kind { IfOk result (λ job. is_to_run job ≡ is_run_wanted (wanted_of wanted.entry)) }
    ensures disk { IfOk result (λ job. takes_disk job ≡ is_run_wanted (wanted_of wanted.entry)) }
    ensures record { IfOk result (λ job. is_to_record job ≡ is_record_wanted (wanted_of wanted.entry)) }
{
    match wanted {
        Wanted::ToRun { ticks } => Ok(Job::Run { settings, ticks }),
        Wanted::ToRecord { ticks } => Ok(Job::Record { settings, ticks }),
        Wanted::ToReplay { schedule } => job_of_file(alloc, files, schedule, settings),
    }
}

/// Returns the job of the settings of these sections.
fn job_of_sections<F: Files>(
    alloc: Global,
    files: &mut F,
    wanted: Wanted<'_>,
    sections: &Sections,
    watch: &mut impl Watch,
) -> Result<Job, Status>
    ensures sound { IfOk result (λ job. AreSound (settings_in job)) }
    ensures asks { AsksAfter sections.now (wanted_of wanted.entry) (F.call_log files.old) (F.call_log files.new) (case_of result) }
    ensures cause { HasCause (F.faults files.old) (F.faults files.new) (IsFileFault result) }
    ensures refusal { IfErr result IsRefusal }
    ensures kind { IfOk result (λ job. is_to_run job ≡ is_run_wanted (wanted_of wanted.entry)) }
    ensures disk { IfOk result (λ job. takes_disk job ≡ is_run_wanted (wanted_of wanted.entry)) }
    ensures record { IfOk result (λ job. is_to_record job ≡ is_record_wanted (wanted_of wanted.entry)) }
{
    match settings(alloc, sections) {
        Ok(settings) => {
            watch.note_settings(sections);
            job_of_settings(alloc, files, wanted, settings)
        }
        Err(fault) => {
            watch.note_refused_settings(sections, fault.kind, &fault.place);
            Err(refused_settings(fault))
        }
    }
}

/// Returns the job of a configuration's settings.
fn job_of_config<F: Files>(
    alloc: Global,
    config: &[u8],
    wanted: Wanted<'_>,
    env: &[(String, String)],
    files: &mut F,
    watch: &mut impl Watch,
) -> Result<Job, Status>
    ensures sound { IfOk result (λ job. AreSound (settings_in job)) }
    ensures asks { AsksFor config.now (wanted_of wanted.entry) (environment env.now) (F.call_log files.old) (F.call_log files.new) (case_of result) }
    ensures cause { HasCause (F.faults files.old) (F.faults files.new) (IsFileFault result) }
    ensures refusal { IfErr result IsRefusal }
    ensures kind { IfOk result (λ job. is_to_run job ≡ is_run_wanted (wanted_of wanted.entry)) }
    ensures disk { IfOk result (λ job. takes_disk job ≡ is_run_wanted (wanted_of wanted.entry)) }
    ensures record { IfOk result (λ job. is_to_record job ≡ is_record_wanted (wanted_of wanted.entry)) }
{
    match load(alloc, files, config, env) {
        Ok(sections) => job_of_sections(alloc, files, wanted, &sections, watch),
        Err(fault) => {
            watch.note_refused_file(fault.kind, &fault.place);
            Err(refused_config(fault))
        }
    }
}

/// Returns the job of listing a folder.
fn job_of_folder(alloc: Global, folder: &[u8]) -> Result<Job, Status>
    ensures job { IfOk result (λ made. made ≡ job.List folder.now) }
    ensures refusal { IfErr result (λ other. other ≡ status.Memory) }
{
    match Bytes::from_slice(alloc, folder) {
        Ok(folder) => Ok(Job::List { folder }),
        Err(Memory) => Err(Status::Memory),
    }
}

/// The paths by which the texts of a generated load are read.
const LOAD_CONFIG: &[u8] = b"gen.conf";

const LOAD_SCHEDULE: &[u8] = b"gen.schedule";

/// Returns the texts of a generated load, as files in memory.
fn load_files(alloc: Global, count: u64) -> Result<MemFiles, Memory>
    ensures { IfOk result (λ files. files ≡ held_load count) }
{
    let load = generate(alloc, count)?;
    let mut files = MemFiles::new(alloc);
    files.preset(LOAD_SCHEDULE, load.schedule.as_slice())?;
    files.preset(LOAD_CONFIG, load.config.as_slice())?;
    Ok(files)
}

/// Returns the job with the reports alone shown, if it is a replay.
fn with_reports(job: Job) -> Job
    ensures case { of_job result ≡ reports_of (of_job job) }
    ensures same { settings_in result ≡ settings_in job }
    ensures kind { is_to_run result ≡ is_to_run job }
    ensures disk { takes_disk result ≡ takes_disk job }
    ensures record { is_to_record result ≡ is_to_record job }
{
    match job {
        Job::Replay { settings, schedule } => Job::Generate { settings, schedule },
        other => other,
    }
}

/// Returns the job of a generated load whose texts are in these files.
fn job_of_texts(alloc: Global, files: &mut MemFiles) -> Result<Job, Status>
    ensures sound { IfOk result (λ job. AreSound (settings_in job)) }
    ensures comes { (count : ℕ) → files.old ≡ held_load count → ComesOfLoad count (case_of result) }
    ensures refusal { (count : ℕ) → files.old ≡ held_load count → IfErr result IsOwnRefusal }
    ensures kind { IfOk result (λ job. is_to_run job ≡ false) }
    ensures disk { IfOk result (λ job. takes_disk job ≡ false) }
    ensures record { IfOk result (λ job. is_to_record job ≡ false) }
{
    let wanted = Wanted::ToReplay {
        schedule: LOAD_SCHEDULE,
    };
    let job = job_of_config(alloc, LOAD_CONFIG, wanted, &[], files, &mut Unwatched);
    files.is_played();
    match job {
        Ok(job) => Ok(with_reports(job)),
        Err(status) => Err(status),
    }
}

/// Returns the job of a generated load of `count` lines.
fn job_of_load(alloc: Global, count: u64) -> Result<Job, Status>
    ensures sound { IfOk result (λ job. AreSound (settings_in job)) }
    ensures comes { ComesOfLoad count (case_of result) }
    ensures refusal { IfErr result IsOwnRefusal }
    ensures kind { IfOk result (λ job. is_to_run job ≡ false) }
    ensures disk { IfOk result (λ job. takes_disk job ≡ false) }
    ensures record { IfOk result (λ job. is_to_record job ≡ false) }
{
    match load_files(alloc, count) {
        Ok(mut files) => job_of_texts(alloc, &mut files),
        Err(Memory) => Err(Status::Memory),
    }
}

/// Reads the job that the words ask for: reads the configuration, checks its settings, and then reads the
/// schedule of a replay. The first of these that is refused gives the status. A listing and a generated
/// load read no file. The watcher of a live run is told what is read.
pub fn read_job<F: Files>(
    alloc: Global,
    words: &[String],
    env: &[(String, String)],
    files: &mut F,
    watch: &mut impl Watch,
) -> Result<Job, Status>
    ensures sound { IfOk result (λ job. AreSound (settings_in job)) }
    ensures asks { Asks words.now (environment env.now) (F.call_log files.old) (F.call_log files.new) (case_of result) }
    ensures cause { HasCause (F.faults files.old) (F.faults files.new) (IsFileFault result) }
    ensures refusal { IfErr result IsRefusal }
    ensures kind { IfOk result (λ job. is_run (command_of (map string_bytes words.now)) ≡ is_to_run job) }
    ensures disk { IfOk result (λ job. is_over_disk (command_of (map string_bytes words.now)) ≡ takes_disk job) }
    ensures record { IfOk result (λ job. is_record (command_of (map string_bytes words.now)) ≡ is_to_record job) }
{
    match read_words(words) {
        Some(Command::Run { config, ticks }) => {
            job_of_config(alloc, config, Wanted::ToRun { ticks }, env, files, watch)
        }
        Some(Command::Record { config, ticks, .. }) => {
            job_of_config(alloc, config, Wanted::ToRecord { ticks }, env, files, watch)
        }
        Some(Command::Replay { config, schedule }) => {
            let wanted = Wanted::ToReplay { schedule };
            job_of_config(alloc, config, wanted, env, files, &mut Unwatched)
        }
        Some(Command::List { folder }) => job_of_folder(alloc, folder),
        Some(Command::Generate { count }) => job_of_load(alloc, count),
        None => Err(Status::Usage),
    }
}
