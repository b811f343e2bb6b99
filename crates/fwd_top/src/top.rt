//! The top call: from words, environment and files, and the devices of a run, to a text and a status.

ghost use Rattle.std.specs.Prelude.{◌≡◌, ◌≤◌, IsErrOf};
ghost use Rattle.fwd_outside.specs.Cause.{HasCause};
ghost use Rattle.fwd_config.specs.Variables.{environment};
ghost use Rattle.fwd_engine_state.specs.LoopCounters.{EventsTaken};
ghost use Rattle.fwd_top.specs.Answers.{of_ran, of_recorded, of_reported, status_of};
ghost use Rattle.fwd_top.specs.Forwards.{Forwards};
ghost use Rattle.fwd_top.specs.Cases.{AreSound};
ghost use Rattle.fwd_top.specs.Outcomes.{IsListed, platform_of};
ghost use Rattle.fwd_replay.specs.declared.report.Ending.TheVariants as ending;
ghost use Rattle.fwd_top.specs.Results.{HasDiskFailed, HasKeeperFailed, HasLoopFailed, JobProduces, WritesText, WritesVerdict, Writes, given_by, of_job, settings_in};

use crate::crash_consistency::outcomes_are_crash_consistent;
use crate::determinism::outcomes_are_determined;
use crate::guarantee::outcomes_are_delivered;
use crate::job::{Job, read_job};
use crate::offsets::outcomes_keep_offsets;
use crate::record::write_record;
use crate::recording::recorded_outcomes_hold;
use crate::sent_records::outcomes_send_records;
use crate::status::Status;
use crate::turns::spent_turns_were_few;
use fwd_keeper::Keeper;
use fwd_outside::{Bytes, Disk, Files, Loop, Memory, Sink, SinkErr};
use fwd_replay::{Ending, Ran, Reported, Shown, replay, run_live, run_recorded};
use fwd_report::{ListErr, listing};
use fwd_script::Schedule;
use fwd_watch::{Unwatched, Watch};
use std::alloc::Global;
use std::thread::Threads;

/// Lists the chunk files under a folder.
fn list_folder<D: Disk>(
    rt: &(impl Threads + Sync),
    alloc: Global,
    folder: &[u8],
    disk: &mut D,
) -> Reported
    ensures lists { IsListed folder.now (D.call_log disk.old) (D.call_log disk.new) result.text result.ending }
    ensures cause { HasCause (D.faults disk.old) (D.faults disk.new) (result.ending ≡ ending.DiskFailed) }
{
    match listing(rt, alloc, disk, folder) {
        Ok(text) => Reported {
            text,
            ending: Ending::Over,
        },
        Err(ListErr::DiskFailed) => Reported {
            text: Bytes::new(alloc),
            ending: Ending::DiskFailed,
        },
        Err(ListErr::Memory) => Reported {
            text: Bytes::new(alloc),
            ending: Ending::Memory,
        },
    }
}

/// Does a job. A schedule and a generated load are replayed without the devices, and a folder is listed
/// over the disk alone.
fn run_job<D: Disk, F: Files, L: Loop, K: Keeper>(
    rt: &(impl Threads + Sync),
    alloc: Global,
    job: Job,
    disk: &mut D,
    files: &mut F,
    outside: &mut L,
    keeper: &mut K,
    turns: u64,
    watch: &mut impl Watch,
) -> Ran
    requires { AreSound (settings_in job) }
    ensures comes { JobProduces turns (of_job job) (platform_of (D.call_log disk.old) (F.call_log files.old) (L.call_log outside.old) (K.call_log keeper.old) (L.counts outside.old).endless) (platform_of (D.call_log disk.new) (F.call_log files.new) (L.call_log outside.new) (K.call_log keeper.new) (L.counts outside.new).endless) result }
    ensures heard { EventsTaken (given_by job turns result) (L.counts outside.old) (L.counts outside.new) }
    ensures keeper_cause { HasCause (K.faults keeper.old) (K.faults keeper.new) (HasKeeperFailed job result) }
    ensures loop_cause { HasCause (L.faults outside.old) (L.faults outside.new) (HasLoopFailed job result) }
    ensures disk_cause { HasCause (D.faults disk.old) (D.faults disk.new) (HasDiskFailed job result) }
    ensures files_later { F.faults files.old ≤ F.faults files.new }
{
    match job {
        Job::Run { settings, ticks } => Ran::Unrecorded(run_live(
            rt, alloc, settings, ticks, disk, files, outside, keeper, turns, watch,
        )),
        Job::Record { settings, ticks } => run_recorded(
            rt, alloc, settings, ticks, disk, files, outside, keeper, turns, watch,
        ),
        Job::Replay { settings, schedule } => Ran::Unrecorded(replay(
            rt,
            alloc,
            settings,
            &schedule.lives,
            turns,
            Shown::All,
        )),
        Job::Generate { settings, schedule } => Ran::Unrecorded(replay(
            rt,
            alloc,
            settings,
            &schedule.lives,
            turns,
            Shown::Report,
        )),
        Job::List { folder } => { Ran::Unrecorded(list_folder(rt, alloc, folder.as_slice(), disk)) }
    }
}

/// Writes a text to its end. Skips an empty text.
fn write<S: Sink>(out: &mut S, text: &Bytes) -> Result<(), Status>
    ensures writes { Writes (S.call_log out.old) (S.call_log out.new) text.now result }
    ensures cause { HasCause (S.faults out.old) (S.faults out.new) (IsErrOf result Status.OutFault) }
{
    if text.is_empty() {
        return Ok(());
    }
    match out.write(text.as_slice()) {
        Ok(()) => Ok(()),
        Err(SinkErr::Failed) => Err(Status::OutFault),
        Err(SinkErr::Memory) => Err(Status::Memory),
    }
}

/// Returns the status of an ending.
fn status_of(ending: Ending) -> Status
    ensures { result ≡ status_of ending }
{
    match ending {
        Ending::Over => Status::Done,
        Ending::TurnsSpent => Status::TurnsSpent,
        Ending::DiskFailed => Status::DiskFault,
        Ending::KeeperFailed => Status::KeeperFault,
        Ending::LoopFailed => Status::LoopFault,
        Ending::Memory => Status::Memory,
    }
}

/// Writes the text of a job, and returns how the program ended.
fn write_reported<S: Sink>(out: &mut S, reported: &Reported) -> Status
    ensures tells { WritesText (S.call_log out.old) (S.call_log out.new) (of_reported reported.now) result }
    ensures cause { HasCause (S.faults out.old) (S.faults out.new) (result ≡ Status.OutFault) }
{
    match write(out, &reported.text) {
        Ok(()) => status_of(reported.ending),
        Err(status) => status,
    }
}

/// Writes the report of a recorded run, and then its schedule. Returns how the program ended.
fn write_recorded<S: Sink, T: Sink>(
    alloc: Global,
    out: &mut S,
    tape: &mut T,
    reported: &Reported,
    schedule: &Result<Schedule, Memory>,
) -> Status
    ensures tells { WritesVerdict (S.call_log out.old) (S.call_log out.new) (T.call_log tape.old) (T.call_log tape.new) (of_recorded reported.now schedule.now) result }
    ensures cause { HasCause (S.faults out.old) (S.faults out.new) (result ≡ Status.OutFault) }
    ensures tape_cause { HasCause (T.faults tape.old) (T.faults tape.new) (result ≡ Status.RecordFault) }
{
    if let Err(status) = write(out, &reported.text) {
        return status;
    }
    let Ok(schedule) = schedule else {
        return Status::Memory;
    };
    match write_record(alloc, tape, schedule) {
        Ok(()) => status_of(reported.ending),
        Err(status) => status,
    }
}

/// Writes the text of a job, and after that of a recorded run its schedule. Returns how the program ended.
fn write_outcome<S: Sink, T: Sink>(alloc: Global, out: &mut S, tape: &mut T, went: &Ran) -> Status
    ensures tells { WritesVerdict (S.call_log out.old) (S.call_log out.new) (T.call_log tape.old) (T.call_log tape.new) (of_ran went.now) result }
    ensures cause { HasCause (S.faults out.old) (S.faults out.new) (result ≡ Status.OutFault) }
    ensures tape_cause { HasCause (T.faults tape.old) (T.faults tape.new) (result ≡ Status.RecordFault) }
{
    match went {
        Ran::NotRecordable => Status::NotRecordable,
        Ran::Unrecorded(reported) => write_reported(out, reported),
        Ran::Recorded { reported, schedule } => {
            write_recorded(alloc, out, tape, reported, schedule)
        }
    }
}

/// Does all that `log_forwarder` does, and shows a watcher how a live run goes. What the watcher does has no
/// effect on the run, and no clause speaks of it: the clauses are those of `log_forwarder`, which says what
/// they mean.
pub fn watched_forwarder<D: Disk, F: Files, L: Loop, K: Keeper, S: Sink, T: Sink>(
    rt: &(impl Threads + Sync),
    alloc: Global,
    words: &[String],
    env: &[(String, String)],
    disk: &mut D,
    files: &mut F,
    outside: &mut L,
    keeper: &mut K,
    out: &mut S,
    tape: &mut T,
    turns: u64,
    watch: &mut impl Watch,
) -> Status
    ensures { Forwards words.now (environment env.now) turns
        (record {
          logs = record {
            disk = D.call_log disk.old;
            files = F.call_log files.old;
            loop = L.call_log outside.old;
            keeper = K.call_log keeper.old;
            sink = S.call_log out.old;
            tape = T.call_log tape.old;
            endless = (L.counts outside.old).endless;
          };
          counts = L.counts outside.old;
          faults = record {
            disk = D.faults disk.old;
            files = F.faults files.old;
            loop = L.faults outside.old;
            keeper = K.faults keeper.old;
            sink = S.faults out.old;
            tape = T.faults tape.old;
          };
        })
        (record {
          logs = record {
            disk = D.call_log disk.new;
            files = F.call_log files.new;
            loop = L.call_log outside.new;
            keeper = K.call_log keeper.new;
            sink = S.call_log out.new;
            tape = T.call_log tape.new;
            endless = (L.counts outside.new).endless;
          };
          counts = L.counts outside.new;
          faults = record {
            disk = D.faults disk.new;
            files = F.faults files.new;
            loop = L.faults outside.new;
            keeper = K.faults keeper.new;
            sink = S.faults out.new;
            tape = T.faults tape.new;
          };
        })
        result }
{
    outcomes_are_delivered();
    outcomes_are_crash_consistent();
    outcomes_keep_offsets();
    outcomes_send_records();
    outcomes_are_determined();
    recorded_outcomes_hold();
    spent_turns_were_few();
    match read_job(alloc, words, env, files, watch) {
        Ok(job) => {
            let went = run_job(rt, alloc, job, disk, files, outside, keeper, turns, watch);
            write_outcome(alloc, out, tape, &went)
        }
        Err(status) => status,
    }
}

/// Does all that the program does. The words `run -c FILE [-n TICKS]` name a configuration, which is read
/// and run over the given devices: the engine loads the disk, gets the kept offsets of followed files, and
/// then takes the events of the loop. With TICKS it is stopped after that many clock ticks. With `--record
/// FILE` the run is recorded: after its report was written, its schedule is written to `tape`. The words
/// `replay -c FILE -s FILE` also name a schedule, whose runs are made over a loop, a disk, files and a
/// keeper in memory. The text is written: the report of a run; for each replayed run what the links of
/// standard outputs took, a line feed if that isn't empty and doesn't end in one, and the report; and
/// between two runs the line of the crash. The words `list -p FOLDER` list the chunk files under a folder
/// of the disk, each with its content. The words `gen -n COUNT` use no device: a load of COUNT lines is
/// generated and replayed, and its reports alone are written. At most `turns` events are taken.
///
/// Nothing in the program calls it: `main` calls `watched_forwarder`, which has the same contract, and a
/// watcher besides. It is for those who read the contract, and for callers without a watcher.
pub fn log_forwarder<D: Disk, F: Files, L: Loop, K: Keeper, S: Sink, T: Sink>(
    rt: &(impl Threads + Sync),
    alloc: Global,
    words: &[String],
    env: &[(String, String)],
    disk: &mut D,
    files: &mut F,
    outside: &mut L,
    keeper: &mut K,
    out: &mut S,
    tape: &mut T,
    turns: u64,
) -> Status
    // Each field of `Forwards` says what it means. `Forwards.answers` has, by what the words ask for, what
    // holds of a run:
    // - Each run that was made keeps the delivery guarantee (`Outcome.delivered`), up to its last whole turn
    //   if memory ran out in a live run: complete input is accepted, or refused and counted, or followed the
    //   drop of its connection; each chunk is, for each output that it matches, delivered in full, failed,
    //   out of retries, evicted, marked done before, or still pending and in the report; the bytes sent over
    //   each link are a prefix of the payload of its flush.
    // - Each batch is decided once, each reply is due, and a refusal, the end of retries and an eviction have
    //   their causes.
    // - If appends are fsynced, no crash loses a pending file-backed chunk (`Outcome.safe`): the next run of
    //   a schedule recovers it, whole, and pending for the same outputs; at each point of a run, even inside
    //   a call on the disk, whatever a crash leaves has the file of each such chunk. The next run that loads
    //   it finds each batch that was accepted before, and so each forward message that was answered before:
    //   whole, and pending for each output that matches it and hadn't resolved it.
    // - Each flush began with the records of its chunk, also if appends aren't fsynced (`Outcome.records`):
    //   all events that were accepted into it, in order, or those of its recovered file. For a live run this
    //   assumes that, when it began, each name had a file, or had none that a crash could bring back.
    // - Each offset of a followed file that is put has nothing lost before it (`Outcome.offsets`): each batch
    //   that was complete by then was accepted, or refused and counted, or has no events. The next run reads
    //   on from the offset that the keeper gives.
    // - A replay is the only one of its schedule (`Outcome.determined`), unless memory ran out.
    // - With `--record`, the same is said of the run, and each replay of what was recorded is this run again
    //   (`RecordedOutcome.replays`). The schedule has what the loop brought and answered and the disk calls
    //   that failed, and it is read back. `NotRecordable` comes if an input follows files or loading found
    //   one, and then nothing was started.
    ensures { Forwards words.now (environment env.now) turns
        (record {
          logs = record {
            disk = D.call_log disk.old;
            files = F.call_log files.old;
            loop = L.call_log outside.old;
            keeper = K.call_log keeper.old;
            sink = S.call_log out.old;
            tape = T.call_log tape.old;
            endless = (L.counts outside.old).endless;
          };
          counts = L.counts outside.old;
          faults = record {
            disk = D.faults disk.old;
            files = F.faults files.old;
            loop = L.faults outside.old;
            keeper = K.faults keeper.old;
            sink = S.faults out.old;
            tape = T.faults tape.old;
          };
        })
        (record {
          logs = record {
            disk = D.call_log disk.new;
            files = F.call_log files.new;
            loop = L.call_log outside.new;
            keeper = K.call_log keeper.new;
            sink = S.call_log out.new;
            tape = T.call_log tape.new;
            endless = (L.counts outside.new).endless;
          };
          counts = L.counts outside.new;
          faults = record {
            disk = D.faults disk.new;
            files = F.faults files.new;
            loop = L.faults outside.new;
            keeper = K.faults keeper.new;
            sink = S.faults out.new;
            tape = T.faults tape.new;
          };
        })
        result }
{
    watched_forwarder(
        rt,
        alloc,
        words,
        env,
        disk,
        files,
        outside,
        keeper,
        out,
        tape,
        turns,
        &mut Unwatched,
    )
}
