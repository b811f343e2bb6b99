//! The loop that records a run.

ghost use Rattle.std.specs.Prelude.{◌≡◌, ◌++◌, ◌∷◌, [], true, false, length, OnOk, OnErr, All};
ghost use Rattle.fwd_record.specs.Seen.{Stopped};
ghost use Rattle.fwd_record.specs.Links.{AreRising};
ghost use Rattle.fwd_record.specs.Recorded.{heard_in};
ghost use Rattle.fwd_record.specs.Allowed.{IsLine};
ghost use Rattle.fwd_record.specs.Notes.{IsNoted};
ghost use Rattle.fwd_record.specs.Recording.{IsRecording, log_of, counts_of, faults_of};

use crate::log_markers::{LoopStart, SeenRecord};
use crate::notes::Notes;
use fwd_base::{ConnId, LinkId, Memory, OutputId};
use fwd_outside::{Begun, Calls, Dialed, Ends, Happening, Loop, Pushed, Replied};
use fwd_script::PushWord;
use std::alloc::Global;
use std::marker::Model;

/// A loop that wraps another, passes each call on, and keeps what was brought and answered. It reserves the
/// memory for that before the call. The bytes of an event are copied after it: if memory is out then, this
/// call and all later ones return so, and the loop below is asked for nothing more.
#[derive(Drop)]
pub struct Recorder<'a, L: Loop> {
    alloc: Global,
    pub inner: &'a mut L,
    notes: Notes,
    stopped: bool,
    out_of_memory: bool,
    happenings: u64,
    start: Calls<(), LoopStart>,
    seen: Calls<(), SeenRecord>,
}

impl<'a, L: Loop> Model for Recorder<'a, L> {
    ghost use Rattle.fwd_record.specs.LoopBelow.{first_of};
    ghost use Rattle.fwd_record.specs.Notes.{IsNoted};
    ghost use Rattle.fwd_record.specs.Recording.{Recording, IsRecording};
    ghost use Rattle.fwd_record.specs.RecordingCode.{recording_code};

    ghost Value = { Recording };

    ghost coded = { recording_code };

    ghost view = { λ r. record {
      name = r.inner.ghost_name;
      start = first_of r.start.entries;
      below = record { call_log = L.call_log r.inner.now; counts = L.counts r.inner.now; faults = L.faults r.inner.now };
      seen = r.seen.entries;
      stopped = r.stopped;
      out_of_memory = r.out_of_memory;
      happenings = r.happenings;
    } };

    ghost invariant = { λ r. IsRecording (record {
      name = r.inner.ghost_name;
      start = first_of r.start.entries;
      below = record { call_log = L.call_log r.inner.now; counts = L.counts r.inner.now; faults = L.faults r.inner.now };
      seen = r.seen.entries;
      stopped = r.stopped;
      out_of_memory = r.out_of_memory;
      happenings = r.happenings;
    }) × IsNoted r.notes r.seen.entries };
}

impl<'a, L: Loop> Recorder<'a, L> {
    /// Puts a recorder around a loop. Nothing was asked of it yet.
    pub fn new(alloc: Global, inner: &'a mut L) -> Recorder<'a, L>
        ensures name { result.name ≡ inner.entry.ghost_name }
        ensures start { result.start ≡ record { call_log = L.call_log inner.old; counts = L.counts inner.old; faults = L.faults inner.old } }
        ensures below { result.below ≡ result.start }
        ensures seen { result.seen ≡ [] }
        ensures stopped { result.stopped ≡ false }
    {
        let start = Calls::new().then(&inner);
        Recorder {
            alloc,
            inner,
            notes: Notes::new(alloc),
            stopped: false,
            out_of_memory: false,
            happenings: 0,
            start,
            seen: Calls::new(),
        }
    }

    /// Notes that the run was stopped here, without a call.
    pub fn note_stop(&mut self) -> Result<(), Memory>
        ensures ok { OnOk result (self.new ≡ record self.old { seen = self.old.seen ++ Stopped ∷ []; stopped = true }) }
        ensures err { OnErr result (self.new ≡ self.old) }
    {
        self.notes.reserve()?;
        self.notes.note_stop();
        self.stopped = true;
        self.seen = self.seen.then(&());
        Ok(())
    }

    /// Returns the number of events that were kept.
    pub fn heard(&self) -> usize
        ensures { result ≡ length (heard_in self.now.seen) }
    {
        self.notes.heard.len()
    }

    /// Returns what was kept.
    pub fn notes(&self) -> &Notes
        ensures noted { IsNoted result.now self.now.seen }
        ensures rising { AreRising 0 result.now.links.items }
        ensures lines { All IsLine result.now.heard.items }
    {
        &self.notes
    }

    /// Returns whether memory was out in a call.
    pub fn is_out_of_memory(&self) -> bool
        ensures { result ≡ self.now.out_of_memory }
    {
        self.out_of_memory
    }

    /// Returns the loop below.
    pub fn into_inner(self) -> &'a mut L
        ensures name { result.ghost_name ≡ self.entry.name }
        ensures call_log { L.call_log result.now ≡ self.entry.below.call_log }
        ensures counts { L.counts result.now ≡ self.entry.below.counts }
        ensures faults { L.faults result.now ≡ self.entry.below.faults }
    {
        self.inner
    }

    /// States that the calls are those of the loop below. It does nothing.
    pub fn is_recording(&self)
        ensures { IsRecording self.now }
    {
        let _ = &self.out_of_memory;
    }
}

impl<L: Loop> Loop for Recorder<'_, L> {
    ghost faults = { faults_of };

    ghost counts = { counts_of };

    ghost call_log = { log_of };

    fn start(&mut self, ends: &Ends) -> Begun {
        if self.out_of_memory {
            return Begun::Memory;
        }
        match self.inner.start(ends) {
            Begun::Ready => {
                self.seen = self.seen.then(&(ends, true));
                Begun::Ready
            }
            Begun::Failed => {
                self.seen = self.seen.then(&(ends, false));
                Begun::Failed
            }
            Begun::Memory => Begun::Memory,
        }
    }

    fn wait(&mut self, alloc: Global, until: u64, paused: u64) -> Result<Happening, Memory> {
        if self.out_of_memory {
            return Err(Memory);
        }
        self.notes.reserve()?;
        let brought = self.inner.wait(alloc, until, paused)?;
        let Ok(copy) = brought.try_clone(self.alloc) else {
            self.out_of_memory = true;
            return Err(Memory);
        };
        self.notes.note_event(copy);
        self.seen = self.seen.then(&(until, paused, &brought));
        self.happenings = self.happenings.saturating_add(1);
        Ok(brought)
    }

    fn dial(&mut self, output: OutputId, tag: &[u8]) -> Dialed {
        if self.out_of_memory {
            return Dialed::Memory;
        }
        let Ok(()) = self.notes.reserve() else {
            return Dialed::Memory;
        };
        match self.inner.dial(output, tag) {
            Dialed::Link(link) => {
                self.notes.note_link(output, link);
                self.seen = self.seen.then(&(output, tag, Some(link.0)));
                Dialed::Link(link)
            }
            Dialed::Refused => {
                self.notes.note_refusal(output);
                self.seen = self.seen.then(&(output, tag));
                Dialed::Refused
            }
            Dialed::Memory => Dialed::Memory,
        }
    }

    fn push(&mut self, link: LinkId, bytes: &[u8]) -> Pushed {
        if self.out_of_memory {
            return Pushed::Memory;
        }
        let Ok(()) = self.notes.reserve() else {
            return Pushed::Memory;
        };
        match self.inner.push(link, bytes) {
            Pushed::Took(taken) => {
                self.notes.note_push(link, PushWord::Took(taken));
                self.seen = self.seen.then(&(link, bytes, PushWord::Took(taken)));
                Pushed::Took(taken)
            }
            Pushed::Again => {
                self.notes.note_push(link, PushWord::Again);
                self.seen = self.seen.then(&(link, bytes, PushWord::Again));
                Pushed::Again
            }
            Pushed::Broken => {
                self.notes.note_push(link, PushWord::Broken);
                self.seen = self.seen.then(&(link, bytes, PushWord::Broken));
                Pushed::Broken
            }
            Pushed::Memory => Pushed::Memory,
        }
    }

    fn close(&mut self, link: LinkId) -> Result<(), Memory> {
        if self.out_of_memory {
            return Err(Memory);
        }
        self.inner.close(link)?;
        self.notes.note_close(link);
        self.seen = self.seen.then(&link);
        Ok(())
    }

    fn reply(&mut self, conn: ConnId, bytes: &[u8]) -> Replied {
        if self.out_of_memory {
            return Replied::Memory;
        }
        let Ok(()) = self.notes.reserve() else {
            return Replied::Memory;
        };
        match self.inner.reply(conn, bytes) {
            Replied::Taken => {
                self.notes.note_reply(true);
                self.seen = self.seen.then(&(conn, bytes, true));
                Replied::Taken
            }
            Replied::Broken => {
                self.notes.note_reply(false);
                self.seen = self.seen.then(&(conn, bytes, false));
                Replied::Broken
            }
            Replied::Memory => Replied::Memory,
        }
    }

    fn drop_conn(&mut self, conn: ConnId) -> Result<(), Memory> {
        if self.out_of_memory {
            return Err(Memory);
        }
        self.inner.drop_conn(conn)?;
        self.seen = self.seen.then(&conn);
        Ok(())
    }

    fn word(&mut self) -> Result<u64, Memory> {
        if self.out_of_memory {
            return Err(Memory);
        }
        self.notes.reserve()?;
        let word = self.inner.word()?;
        self.notes.note_word(word);
        self.seen = self.seen.then(&word);
        Ok(word)
    }
}
