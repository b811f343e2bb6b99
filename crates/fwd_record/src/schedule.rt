//! The schedule of a recorded run.

ghost use Rattle.std.specs.Prelude.{◌≡◌, ◌++◌, ◌∷◌, [], List, length, map, min, IfOk, All};
ghost use Rattle.std.specs.List.{insert};
ghost use Rattle.hex.specs.Hex.{IsBytes};
ghost use Rattle.fwd_script.specs.Writable.{Is32, Is64, IsWritable, GivenFits, HappeningFits, LifeFits, PlannedFits};
ghost use Rattle.fwd_outside.specs.declared.happening.Happening.TheVariants.{Stop};
ghost use Rattle.fwd_script.specs.declared.schedule.Planned.TheVariants.{Happens};
ghost use Rattle.fwd_record.specs.Seen.{Seen, Stopped};
ghost use Rattle.fwd_record.specs.Links.{AreRising, number_of};
ghost use Rattle.fwd_record.specs.Recorded.{happening_named, heard_in, line_of, recorded};
ghost use Rattle.fwd_record.specs.Allowed.{IsLine};
ghost use Rattle.fwd_record.specs.Notes.{IsNoted};

use crate::counted_disk::CountedDisk;
use crate::notes::{Notes, number_of};
use crate::recorder::Recorder;
use fwd_base::{Bytes, ConnId, InputId, Items, LinkId, Memory, OutputId};
use fwd_outside::{Disk, Happening, Loop};
use fwd_script::{Calls, Given, GivenList, Life, Plan, Planned, PushWord, Schedule};
use std::alloc::Global;

/// States that each is a byte. It does nothing.
fn are_bytes(bytes: &[u8])
    ensures { IsBytes bytes.now }
{
    let _ = bytes;
}

/// Returns a copy of bytes.
fn copy_of_bytes(alloc: Global, bytes: &Bytes) -> Result<Bytes, Memory>
    ensures same { IfOk result (λ copy. copy ≡ bytes.now) }
    ensures fit { IfOk result IsBytes }
{
    let copy = bytes.try_clone(alloc)?;
    are_bytes(copy.as_slice());
    Ok(copy)
}

/// Returns an input. Its number is one of 32 bits.
fn input_of(input: InputId) -> InputId
    ensures same { result ≡ input }
    ensures fits { Is32 result.0 }
{
    InputId(input.0)
}

/// Returns a connection. Its number is one of 64 bits.
fn conn_of(conn: ConnId) -> ConnId
    ensures same { result ≡ conn }
    ensures fits { Is64 result.0 }
{
    ConnId(conn.0)
}

/// Returns an output. Its number is one of 32 bits.
fn output_of(output: OutputId) -> OutputId
    ensures same { result ≡ output }
    ensures fits { Is32 result.0 }
{
    OutputId(output.0)
}

/// Returns the number of a link.
fn link_of(links: &[u64], link: LinkId) -> LinkId
    requires { AreRising 0 links.now }
    ensures number { result.0 ≡ number_of links.now link.0 }
    ensures fits { Is64 result.0 }
{
    LinkId(number_of(links, link.0))
}

/// Returns an event with the number of its link in a schedule, where dials gave these links.
fn event_of(alloc: Global, links: &[u64], brought: &Happening) -> Result<Happening, Memory>
    requires rising { AreRising 0 links.now }
    requires line { IsLine brought.now }
    ensures named { IfOk result (λ event. event ≡ happening_named (number_of links.now) brought.now) }
    ensures fits { IfOk result HappeningFits }
{
    match brought {
        Happening::Tick { now } => Ok(Happening::Tick { now: *now }),
        Happening::Joined { input, conn } => Ok(Happening::Joined {
            input: input_of(*input),
            conn: conn_of(*conn),
        }),
        Happening::Piece { input, conn, bytes } => Ok(Happening::Piece {
            input: input_of(*input),
            conn: conn_of(*conn),
            bytes: copy_of_bytes(alloc, bytes)?,
        }),
        Happening::Gone { input, conn } => Ok(Happening::Gone {
            input: input_of(*input),
            conn: conn_of(*conn),
        }),
        Happening::Room { link } => Ok(Happening::Room {
            link: link_of(links, *link),
        }),
        Happening::Back { link, bytes } => Ok(Happening::Back {
            link: link_of(links, *link),
            bytes: copy_of_bytes(alloc, bytes)?,
        }),
        Happening::Broken { link } => Ok(Happening::Broken {
            link: link_of(links, *link),
        }),
        Happening::InputEnd { input } => Ok(Happening::InputEnd {
            input: input_of(*input),
        }),
        Happening::Stop => Ok(Happening::Stop),
        Happening::End => Ok(Happening::End),
        Happening::Failed => Ok(Happening::Failed),
    }
}

/// Returns the lines of events.
fn lines_of(alloc: Global, links: &[u64], heard: &[Happening]) -> Result<Plan, Memory>
    requires rising { AreRising 0 links.now }
    requires lines { All IsLine heard.now }
    ensures lines { IfOk result (λ lines. lines ≡ map (line_of links.now) heard.now) }
    ensures fit { IfOk result (All PlannedFits) }
{
    let mut lines = Items::new(alloc);
    for brought in heard {
        let event = event_of(alloc, links, brought)?;
        lines.push(Planned::Happens(event))?;
    }
    Ok(lines)
}

/// Returns a copy of an answer.
fn copy_of_answer(given: &Given) -> Given
    ensures same { result ≡ given.now }
    ensures fits { GivenFits result }
{
    match given {
        Given::Dial { output, taken } => Given::Dial {
            output: output_of(*output),
            taken: *taken,
        },
        Given::Push { output, push } => Given::Push {
            output: output_of(*output),
            push: match push {
                PushWord::Took(taken) => PushWord::Took(*taken),
                PushWord::Again => PushWord::Again,
                PushWord::Broken => PushWord::Broken,
            },
        },
        Given::Reply { taken } => Given::Reply { taken: *taken },
        Given::Word(word) => Given::Word(*word),
    }
}

/// Returns a copy of answers.
fn copy_of_answers(alloc: Global, answers: &[Given]) -> Result<GivenList, Memory>
    ensures same { IfOk result (λ copy. copy ≡ answers.now) }
    ensures fit { IfOk result (All GivenFits) }
{
    let mut copy = Items::new(alloc);
    for given in answers {
        copy.push(copy_of_answer(given))?;
    }
    Ok(copy)
}

/// Returns a copy of numbers.
fn copy_of_numbers(alloc: Global, numbers: &[u64]) -> Result<Calls, Memory>
    ensures same { IfOk result (λ copy. copy ≡ numbers.now) }
    ensures fit { IfOk result (All Is64) }
{
    Ok(Items::from_vec(Vec::from_slice(alloc, numbers)?))
}

/// Returns the life that was recorded.
fn life_of(alloc: Global, notes: &Notes, failed: &[u64]) -> Result<Life, Memory>
    requires rising { AreRising 0 notes.now.links.items }
    requires lines { All IsLine notes.now.heard.items }
    ensures life { IfOk result (λ life. (seen : List Seen) → IsNoted notes.now seen → life ≡ recorded seen failed.now) }
    ensures fits { IfOk result LifeFits }
{
    Ok(Life {
        lines: lines_of(alloc, notes.links.as_slice(), notes.heard.as_slice())?,
        answers: copy_of_answers(alloc, notes.answers.as_slice())?,
        disk_fails: copy_of_numbers(alloc, failed)?,
        file_fails: Items::new(alloc),
        store: Items::new(alloc),
        cut: None,
    })
}

/// Returns the schedule of one run.
fn schedule_with(alloc: Global, life: Life) -> Result<Schedule, Memory>
    ensures { IfOk result (λ schedule. schedule ≡ record { lives = life ∷ [] }) }
{
    let mut lives = Items::new(alloc);
    lives.push(life)?;
    Ok(Schedule { lives })
}

/// Returns the schedule of a recorded run: the one life that was recorded. A text can express it.
pub fn schedule_of<L: Loop, D: Disk>(
    alloc: Global,
    recorder: &Recorder<'_, L>,
    disk: &CountedDisk<'_, D>,
) -> Result<Schedule, Memory>
    ensures schedule { IfOk result (λ schedule. schedule ≡ record { lives = recorded recorder.now.seen disk.now.failed ∷ [] }) }
    ensures writable { IfOk result IsWritable }
{
    let life = life_of(alloc, recorder.notes(), disk.failed())?;
    schedule_with(alloc, life)
}

/// Returns the lines with one for the stop, after those of this many events, or after all of them.
fn with_stop(lines: Plan, heard: usize) -> Result<Plan, Memory>
    ensures { IfOk result (λ stopped. stopped ≡ insert lines (min heard (length lines)) (Happens Stop)) }
{
    let mut lines = lines.into_vec();
    let at = heard.min(lines.len());
    lines.insert(at, Planned::Happens(Happening::Stop))?;
    Ok(Items::from_vec(lines))
}

/// Returns the life that was recorded of a run that was stopped after this many events.
fn stopped_life_of(
    alloc: Global,
    notes: &Notes,
    failed: &[u64],
    heard: usize,
) -> Result<Life, Memory>
    requires rising { AreRising 0 notes.now.links.items }
    requires lines { All IsLine notes.now.heard.items }
    ensures life { IfOk result (λ life. (first second : List Seen) → IsNoted notes.now (first ++ second) → length (heard_in first) ≡ heard → life ≡ recorded (first ++ Stopped ∷ second) failed.now) }
    ensures fits { IfOk result LifeFits }
{
    let lines = lines_of(alloc, notes.links.as_slice(), notes.heard.as_slice())?;
    Ok(Life {
        lines: with_stop(lines, heard)?,
        answers: copy_of_answers(alloc, notes.answers.as_slice())?,
        disk_fails: copy_of_numbers(alloc, failed)?,
        file_fails: Items::new(alloc),
        store: Items::new(alloc),
        cut: None,
    })
}

/// Returns the schedule of a recorded run that was stopped, without a call, after this many events. A text can express
/// it.
pub fn stopped_schedule_of<L: Loop, D: Disk>(
    alloc: Global,
    recorder: &Recorder<'_, L>,
    disk: &CountedDisk<'_, D>,
    heard: usize,
) -> Result<Schedule, Memory>
    ensures schedule { (first second : List Seen) → recorder.now.seen ≡ first ++ second → length (heard_in first) ≡ heard → IfOk result (λ schedule. schedule ≡ record { lives = recorded (first ++ Stopped ∷ second) disk.now.failed ∷ [] }) }
    ensures writable { (first second : List Seen) → recorder.now.seen ≡ first ++ second → length (heard_in first) ≡ heard → IfOk result IsWritable }
{
    let life = stopped_life_of(alloc, recorder.notes(), disk.failed(), heard)?;
    schedule_with(alloc, life)
}
