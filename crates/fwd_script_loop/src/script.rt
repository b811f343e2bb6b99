//! A loop in memory that plays a run.

ghost use Rattle.std.specs.Prelude.{◌≡◌, ◌≤◌, ◌++◌, [], true, IsTrue, IfOk, OnOk, OnErr};
ghost use Rattle.std.specs.List.{cons_option};
ghost use Rattle.fwd_outside.specs.Log.{LogGrew, log_of_call};
ghost use Rattle.fwd_outside.specs.Cause.{HasCause};
ghost use Rattle.fwd_outside.specs.Loop as outside;
ghost use Rattle.fwd_outside.specs.Loop.{IsNewLink, MayOccur, PushFails, TakesAtMost, WaitFails, start_outcome, dial_outcome, counts_after_dial, loop_outcome, push_outcome, reply_outcome, counts_after_wait};
ghost use Rattle.fwd_outside.specs.declared.answers.Begun.TheVariants as begun;
ghost use Rattle.fwd_outside.specs.declared.answers.Dialed.TheVariants as dialed;
ghost use Rattle.fwd_outside.specs.declared.answers.Replied.TheVariants as replied;
ghost use Rattle.fwd_script_loop.specs.FaultCount.{counted, dial_fails, is_failure, push_fails, reply_fails, start_fails, wait_fails};
ghost use Rattle.fwd_script_loop.specs.LinkBytes.{handed};
ghost use Rattle.fwd_script_loop.specs.ScriptRun.{change_in, changed, changes_between, changes_in, counts_of, is_before_crash, new_script, next_in, told_of};
ghost use Rattle.fwd_script_loop.specs.Lines.{given_in, place_in};
ghost use Rattle.fwd_script_loop.specs.Place.{IsPlayed};
ghost use Rattle.fwd_script_loop.specs.Told.{entries_of};

use crate::answers::Answers;
use crate::call_record::LoopNote;
use crate::copies::copy_of_ends;
use crate::link_bytes::bytes_handed_to;
use crate::run_events::RunEvents;
use fwd_base::{Bytes, ConnId, Items, LinkId, Memory, OutputId};
use fwd_outside::{Begun, Dialed, Ends, Happening, Loop, Pushed, Replied};
use fwd_script::{FileChanges, GivenList, Life, Plan, Planned, PushWord};
use std::alloc::Global;
use std::marker::Model;

/// A run as a loop: it returns the events of the run's lines and the answers of the run, and records its
/// calls.
#[derive(Debug, Drop)]
pub struct Script {
    alloc: Global,
    course: RunEvents,
    answers: GivenList,
    crashes: bool,
    changed: usize,
    left: Answers,
    notes: Vec<LoopNote>,
    brought: u64,
    fails_to_start: bool,
    faults: u64,
}

impl Model for Script {
    ghost use Rattle.std.specs.Prelude.{length};
    ghost use Rattle.fwd_script_loop.specs.ScriptState.{ScriptState};

    ghost Value = { ScriptState };

    ghost view = { λ s. record { lines = s.course.unread.lines; answers = s.answers; crashes = s.crashes; changed = s.changed; notes = s.notes.items; brought = s.brought; greatest = length s.left.links.items; fails_to_start = s.fails_to_start; faults = s.faults } };

    ghost use Rattle.fwd_script_loop.specs.RunEvents.{ahead_of};
    ghost use Rattle.fwd_script_loop.specs.ScriptRun.{IsKept};

    ghost invariant = { λ s. IsKept s.course.unread.lines s.answers s.notes.items (ahead_of s.course) s.left };
}

impl Script {
    /// Returns the run from its beginning.
    pub fn new(alloc: Global, life: &Life) -> Result<Script, Memory>
        ensures { IfOk result (λ script. script ≡ new_script life.now) }
    {
        Ok(Script {
            alloc,
            course: RunEvents::new(alloc, &life.lines)?,
            answers: Items::from_vec(Vec::from_slice(alloc, life.answers.as_slice())?),
            crashes: life.cut.is_some(),
            changed: 0,
            left: Answers::new(alloc, &life.answers)?,
            notes: Vec::new(alloc),
            brought: 0,
            fails_to_start: false,
            faults: 0,
        })
    }

    /// Makes `start` fail from here on. No run can say so, hence the script has an empty trace from here on.
    /// The program doesn't use it: it is for callers that try an engine whose loop doesn't start.
    pub fn fail_start(&mut self)
        ensures { self.new ≡ record self.old { fails_to_start = true } }
    {
        self.fails_to_start = true;
    }

    /// Each answer so far is the one that the run gives at its place.
    pub fn is_played(&self)
        ensures { IsPlayed (given_in self.now.lines self.now.answers) (entries_of self.now.notes) }
    {
        let _ = &self.alloc;
    }

    /// Removes and returns the changes of files before the line that `wait` would return, or all remaining
    /// ones if it would return the end. `Err` leaves the script unchanged. The program doesn't use it (a
    /// replay keeps the lines and asks `place_ahead`): it is for callers that have the script alone.
    pub fn changes(&mut self, alloc: Global, paused: u64) -> Result<FileChanges, Memory>
        ensures changes { IfOk result (λ changes. changes ≡ changes_in paused self.old) }
        ensures ok { OnOk result (self.new ≡ changed paused self.old) }
        ensures err { OnErr result (self.new ≡ self.old) }
    {
        let upto = self.course.line_ahead(alloc, paused)?;
        let changes = changes_of(alloc, &self.course.unread.lines, self.changed, upto)?;
        self.changed = self.changed.max(upto);
        Ok(changes)
    }

    /// Returns the place of the event that `wait` would return: the index of its line, and how many events
    /// of that line follow it. `None` if it would return the end.
    pub fn place_ahead(&self, paused: u64) -> Option<(usize, u64)>
        ensures { result ≡ place_in (next_in paused self.now) }
    {
        self.course.place_ahead(paused)
    }

    /// Returns whether the run has a cut and `wait` would return the event of the cut, which is the last of
    /// the run. The program doesn't use it, for the same reason.
    pub fn before_crash(&self, paused: u64) -> bool
        ensures { result ≡ is_before_crash paused self.now }
    {
        self.crashes && self.course.ends_life(paused)
    }

    /// Returns the bytes that links of the outputs in a mask received, in order.
    pub fn handed(&self, alloc: Global, outputs: u64) -> Result<Bytes, Memory>
        ensures { IfOk result (λ bytes. bytes ≡ handed outputs [] (entries_of self.now.notes)) }
    {
        bytes_handed_to(alloc, outputs, &self.notes)
    }
}

impl Loop for Script {
    ghost faults = { λ s. s.faults };

    ghost counts = { counts_of };

    ghost call_log = { told_of };

    fn start(&mut self, ends: &Ends) -> Begun
        ensures call_log { LogGrew (told_of self.old) (told_of self.new) (log_of_call (outside.Start ends.now) (start_outcome result)) }
        ensures cause { HasCause self.old.faults self.new.faults (result ≡ begun.Failed) }
        ensures same { counts_of self.new ≡ counts_of self.old }
        ensures failed { self.new.faults ≡ counted (start_fails result) self.old.faults }
        ensures answer { start_fails result ≡ self.old.fails_to_start }
        ensures only_counted { IsTrue self.old.fails_to_start → self.new ≡ record self.old { faults = counted true self.old.faults } }
    {
        if self.fails_to_start {
            self.faults = self.faults.saturating_add(1);
            return Begun::Failed;
        }
        let Ok(()) = self.notes.reserve(1) else {
            return Begun::Memory;
        };
        let Ok(ends) = copy_of_ends(self.alloc, ends) else {
            return Begun::Memory;
        };
        self.notes.push_reserved(LoopNote::Start { ends });
        Begun::Ready
    }

    fn wait(&mut self, alloc: Global, until: u64, paused: u64) -> Result<Happening, Memory>
        ensures call_log { LogGrew (told_of self.old) (told_of self.new) (log_of_call (outside.Wait until paused) (loop_outcome result)) }
        ensures cause { HasCause self.old.faults self.new.faults (WaitFails result) }
        ensures counted { counts_of self.new ≡ counts_after_wait (counts_of self.old) result }
        ensures allowed { IfOk result (MayOccur (counts_of self.old).endless paused) }
        ensures failed { self.new.faults ≡ counted (wait_fails result) self.old.faults }
    {
        self.notes.reserve(1)?;
        let Some(at) = self.course.seek(alloc, paused)? else {
            self.notes.push_reserved(LoopNote::Wait {
                until,
                paused,
                brought: Happening::End,
            });
            self.brought = self.brought.saturating_add(1);
            return Ok(Happening::End);
        };
        let brought = self.course.copy(self.alloc, paused, at)?;
        self.notes.push_reserved(LoopNote::Wait {
            until,
            paused,
            brought,
        });
        let happening = self.course.take(paused, at);
        self.brought = self.brought.saturating_add(1);
        self.faults = faults_after(self.faults, &happening);
        Ok(happening)
    }

    fn dial(&mut self, output: OutputId, tag: &[u8]) -> Dialed
        ensures call_log { LogGrew (told_of self.old) (told_of self.new) (log_of_call (outside.Dial output.0 tag.now) (dial_outcome result)) }
        ensures cause { HasCause self.old.faults self.new.faults (result ≡ dialed.Refused) }
        ensures counted { counts_of self.new ≡ counts_after_dial (counts_of self.old) result }
        ensures newest { IsNewLink (counts_of self.old) result }
        ensures failed { self.new.faults ≡ counted (dial_fails result) self.old.faults }
    {
        let Ok(()) = self.notes.reserve(1) else {
            return Dialed::Memory;
        };
        let Ok(tag) = Bytes::from_slice(self.alloc, tag) else {
            return Dialed::Memory;
        };
        let Ok(link) = self.left.dial(output.0) else {
            return Dialed::Memory;
        };
        self.notes
            .push_reserved(LoopNote::Dial { output, tag, link });
        match link {
            Some(link) => Dialed::Link(LinkId(link)),
            None => {
                self.faults = self.faults.saturating_add(1);
                Dialed::Refused
            }
        }
    }

    fn push(&mut self, link: LinkId, bytes: &[u8]) -> Pushed
        ensures call_log { LogGrew (told_of self.old) (told_of self.new) (log_of_call (outside.Push link.0 bytes.now) (push_outcome result)) }
        ensures cause { HasCause self.old.faults self.new.faults (PushFails bytes.now result) }
        ensures same { counts_of self.new ≡ counts_of self.old }
        ensures within { TakesAtMost bytes.now result }
        ensures failed { self.new.faults ≡ counted (push_fails bytes.now result) self.old.faults }
    {
        let Ok(()) = self.notes.reserve(1) else {
            return Pushed::Memory;
        };
        let Ok(piece) = Bytes::from_slice(self.alloc, bytes) else {
            return Pushed::Memory;
        };
        let answer = self.left.push(link.0, bytes.len() as u64);
        self.notes.push_reserved(LoopNote::Push {
            link,
            bytes: piece,
            answer,
        });
        match answer {
            PushWord::Took(taken) => {
                if taken == 0 && !bytes.is_empty() {
                    self.faults = self.faults.saturating_add(1);
                }
                Pushed::Took(taken)
            }
            PushWord::Again => Pushed::Again,
            PushWord::Broken => {
                self.faults = self.faults.saturating_add(1);
                Pushed::Broken
            }
        }
    }

    fn close(&mut self, link: LinkId) -> Result<(), Memory>
        ensures call_log { LogGrew (told_of self.old) (told_of self.new) (log_of_call (outside.Close link.0) (loop_outcome result)) }
        ensures later { self.old.faults ≤ self.new.faults }
        ensures same { counts_of self.new ≡ counts_of self.old }
        ensures failed { self.new.faults ≡ self.old.faults }
    {
        self.notes.reserve(1)?;
        self.notes.push_reserved(LoopNote::Close { link });
        self.left.close(link.0);
        Ok(())
    }

    fn reply(&mut self, conn: ConnId, bytes: &[u8]) -> Replied
        ensures call_log { LogGrew (told_of self.old) (told_of self.new) (log_of_call (outside.Reply conn.0 bytes.now) (reply_outcome result)) }
        ensures cause { HasCause self.old.faults self.new.faults (result ≡ replied.Broken) }
        ensures same { counts_of self.new ≡ counts_of self.old }
        ensures failed { self.new.faults ≡ counted (reply_fails result) self.old.faults }
    {
        let Ok(()) = self.notes.reserve(1) else {
            return Replied::Memory;
        };
        let Ok(bytes) = Bytes::from_slice(self.alloc, bytes) else {
            return Replied::Memory;
        };
        let taken = self.left.reply();
        self.notes
            .push_reserved(LoopNote::Reply { conn, bytes, taken });
        if taken {
            Replied::Taken
        } else {
            self.faults = self.faults.saturating_add(1);
            Replied::Broken
        }
    }

    fn drop_conn(&mut self, conn: ConnId) -> Result<(), Memory>
        ensures call_log { LogGrew (told_of self.old) (told_of self.new) (log_of_call (outside.DropConn conn.0) (loop_outcome result)) }
        ensures later { self.old.faults ≤ self.new.faults }
        ensures same { counts_of self.new ≡ counts_of self.old }
        ensures failed { self.new.faults ≡ self.old.faults }
    {
        self.notes.reserve(1)?;
        self.notes.push_reserved(LoopNote::DropConn { conn });
        Ok(())
    }

    fn word(&mut self) -> Result<u64, Memory>
        ensures call_log { LogGrew (told_of self.old) (told_of self.new) (log_of_call outside.Word (loop_outcome result)) }
        ensures later { self.old.faults ≤ self.new.faults }
        ensures same { counts_of self.new ≡ counts_of self.old }
        ensures failed { self.new.faults ≡ self.old.faults }
    {
        self.notes.reserve(1)?;
        let word = self.left.word();
        self.notes.push_reserved(LoopNote::Word { word });
        Ok(word)
    }
}

/// Returns the number of faults after an event.
fn faults_after(faults: u64, brought: &Happening) -> u64
    ensures { result ≡ counted (is_failure brought.now) faults }
{
    if matches!(brought, Happening::Failed) {
        faults.saturating_add(1)
    } else {
        faults
    }
}

/// Returns the changes of files of the lines from one index up to another.
fn changes_of(alloc: Global, lines: &Plan, from: usize, upto: usize) -> Result<FileChanges, Memory>
    ensures { IfOk result (λ changes. changes ≡ changes_between lines.now from upto) }
{
    let all = lines.as_slice();
    let ahead = &all[..upto.min(all.len())];
    let left = &ahead[from.min(ahead.len())..];
    let mut changes = Items::new(alloc);
    for planned in left {
        add_change(alloc, &mut changes, planned)?;
    }
    Ok(changes)
}

/// Appends the change of a line.
fn add_change(alloc: Global, changes: &mut FileChanges, planned: &Planned) -> Result<(), Memory>
    ensures { OnOk result (changes.new ≡ changes.old ++ cons_option (change_in planned.now) []) }
{
    match planned {
        Planned::Changes(change) => changes.push(change.try_clone(alloc)?),
        Planned::Happens(_) => Ok(()),
        Planned::Ticks {
            first: _,
            step: _,
            count: _,
        } => Ok(()),
    }
}
