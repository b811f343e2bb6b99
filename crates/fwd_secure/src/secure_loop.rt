//! The keyed loop.

ghost use Rattle.std.specs.Prelude.{◌≡◌, []};
ghost use Rattle.fwd_secure.specs.Keys.{AreShort};
ghost use Rattle.fwd_secure.specs.Kept.{holds};
ghost use Rattle.fwd_secure.specs.Handshakes.{no_handshakes};
ghost use Rattle.fwd_secure.specs.Secure.{IsSecure, log_of, counts_of, faults_of};

use crate::keys::Keys;
use crate::log_markers::{LoopRecord, LoopStart};
use crate::rules;
use crate::state::State;
use crate::stream::are_bytes;
use fwd_base::{ConnId, LinkId, Memory, OutputId};
use fwd_outside::{Begun, Calls, Dialed, Ends, Happening, Loop, Pushed, Replied};
use std::alloc::Global;
use std::marker::Model;

/// A loop that wraps another, and shakes hands with the peers of inputs and outputs that have a key. Once memory
/// was out, each further call returns so and asks nothing of the loop below.
#[derive(Drop)]
pub struct SecureLoop<'a, L: Loop> {
    alloc: Global,
    pub inner: &'a mut L,
    keys: Keys,
    keyed: bool,
    state: State,
    out_of_memory: bool,
    happenings: u64,
    greatest: u64,
    start: Calls<(), LoopStart>,
    marked: Calls<(), LoopStart>,
    calls: Calls<(), LoopRecord>,
}

impl<'a, L: Loop> Model for SecureLoop<'a, L> {
    ghost use Rattle.fwd_secure.specs.LoopBelow.{first_of};
    ghost use Rattle.fwd_secure.specs.Secure.{Secure, IsSecure};
    ghost use Rattle.fwd_secure.specs.SecureCode.{secure_code};

    ghost Value = { Secure };

    ghost coded = { secure_code };

    ghost view = { λ s. record {
      keys = s.keys;
      keyed = s.keyed;
      state = s.state;
      out_of_memory = s.out_of_memory;
      name = s.inner.ghost_name;
      start = first_of s.start.entries;
      below = record { call_log = L.call_log s.inner.now; counts = L.counts s.inner.now; faults = L.faults s.inner.now };
      marked = (first_of s.marked.entries).call_log;
      above = s.calls.entries;
      happenings = s.happenings;
      greatest = s.greatest;
    } };

    ghost invariant = { λ s. IsSecure (record {
      keys = s.keys;
      keyed = s.keyed;
      state = s.state;
      out_of_memory = s.out_of_memory;
      name = s.inner.ghost_name;
      start = first_of s.start.entries;
      below = record { call_log = L.call_log s.inner.now; counts = L.counts s.inner.now; faults = L.faults s.inner.now };
      marked = (first_of s.marked.entries).call_log;
      above = s.calls.entries;
      happenings = s.happenings;
      greatest = s.greatest;
    }) };
}

impl<'a, L: Loop> SecureLoop<'a, L> {
    /// Puts a keyed loop around a loop. Nothing was asked of it yet.
    pub fn new(alloc: Global, inner: &'a mut L, keys: Keys) -> SecureLoop<'a, L>
        requires { AreShort keys }
        ensures name { result.name ≡ inner.entry.ghost_name }
        ensures start { result.start ≡ record { call_log = L.call_log inner.old; counts = L.counts inner.old; faults = L.faults inner.old } }
        ensures below { result.below ≡ result.start }
        ensures marked { result.marked ≡ result.start.call_log }
        ensures keys { result.keys ≡ keys }
        ensures state { result.state ≡ no_handshakes }
        ensures above { result.above ≡ [] }
        ensures secure { IsSecure result }
    {
        let start = Calls::new().then(&inner);
        let marked = Calls::new().then(&inner);
        let keyed = keys.has_keys();
        SecureLoop {
            alloc,
            inner,
            keys,
            keyed,
            state: State::new(alloc),
            out_of_memory: false,
            happenings: 0,
            greatest: 0,
            start,
            marked,
            calls: Calls::new(),
        }
    }

    /// Returns whether a `wait` with this mask gives kept bytes, and so asks the loop below for nothing.
    pub fn holds(&self, paused: u64) -> bool
        ensures { result ≡ holds paused self.now.state.kept }
    {
        self.state.holds(paused)
    }

    /// Returns whether memory was out in a call.
    pub fn is_out_of_memory(&self) -> bool
        ensures { result ≡ self.now.out_of_memory }
    {
        self.out_of_memory
    }

    /// Marks the place: what the loop below is asked from here on follows the calls that it was asked so far. It does
    /// nothing when it runs.
    pub fn mark(&mut self)
        ensures { self.new ≡ record self.old { marked = self.old.below.call_log } }
    {
        let below = &*self.inner;
        self.marked = Calls::new().then(below);
    }

    /// Returns the loop below as it is now.
    pub fn below(&self) -> &L
        ensures call_log { L.call_log result.now ≡ self.now.below.call_log }
    {
        &*self.inner
    }

    /// Returns the loop below.
    pub fn into_inner(self) -> &'a mut L
        ensures name { result.ghost_name ≡ self.entry.name }
        ensures call_log { L.call_log result.now ≡ self.entry.below.call_log }
        ensures counts { L.counts result.now ≡ self.entry.below.counts }
        ensures faults { L.faults result.now ≡ self.entry.below.faults }
    {
        self.inner
    }

    /// States that the call log is carried by that of the loop below. It does nothing.
    pub fn is_secure(&self)
        ensures { IsSecure self.now }
    {
        let _ = &self.keyed;
    }
}

impl<L: Loop> Loop for SecureLoop<'_, L> {
    ghost faults = { faults_of };

    ghost counts = { counts_of };

    ghost call_log = { log_of };

    fn start(&mut self, ends: &Ends) -> Begun {
        if self.out_of_memory {
            return Begun::Memory;
        }
        match rules::start(
            self.alloc,
            &mut *self.inner,
            self.keyed,
            &mut self.state,
            ends,
        ) {
            Begun::Memory => {
                self.out_of_memory = true;
                Begun::Memory
            }
            begun => {
                self.calls = self.calls.then(&(ends, begun));
                begun
            }
        }
    }

    fn wait(&mut self, alloc: Global, until: u64, paused: u64) -> Result<Happening, Memory> {
        if self.out_of_memory {
            return Err(Memory);
        }
        match rules::wait(
            alloc,
            &mut *self.inner,
            self.keyed,
            &self.keys,
            &mut self.state,
            until,
            paused,
        ) {
            Ok(brought) => {
                are_bytes(&brought);
                self.calls = self.calls.then(&(until, paused, &brought));
                self.happenings = self.happenings.saturating_add(1);
                Ok(brought)
            }
            Err(Memory) => {
                self.out_of_memory = true;
                Err(Memory)
            }
        }
    }

    fn dial(&mut self, output: OutputId, tag: &[u8]) -> Dialed {
        if self.out_of_memory {
            return Dialed::Memory;
        }
        match rules::dial(
            self.alloc,
            &mut *self.inner,
            self.keyed,
            &self.keys,
            &mut self.state,
            output,
            tag,
        ) {
            Dialed::Link(link) => {
                self.calls = self.calls.then(&(output, tag, link));
                self.greatest = link.0;
                Dialed::Link(link)
            }
            Dialed::Refused => {
                self.calls = self.calls.then(&(output, tag));
                Dialed::Refused
            }
            Dialed::Memory => {
                self.out_of_memory = true;
                Dialed::Memory
            }
        }
    }

    fn push(&mut self, link: LinkId, bytes: &[u8]) -> Pushed {
        if self.out_of_memory {
            return Pushed::Memory;
        }
        match rules::push(&mut *self.inner, self.keyed, &self.state, link, bytes) {
            Pushed::Memory => {
                self.out_of_memory = true;
                Pushed::Memory
            }
            pushed => {
                self.calls = self.calls.then(&(link, bytes, pushed));
                pushed
            }
        }
    }

    fn close(&mut self, link: LinkId) -> Result<(), Memory> {
        if self.out_of_memory {
            return Err(Memory);
        }
        match rules::close(&mut *self.inner, self.keyed, &mut self.state, link) {
            Ok(()) => {
                self.calls = self.calls.then(&link);
                Ok(())
            }
            Err(Memory) => {
                self.out_of_memory = true;
                Err(Memory)
            }
        }
    }

    fn reply(&mut self, conn: ConnId, bytes: &[u8]) -> Replied {
        if self.out_of_memory {
            return Replied::Memory;
        }
        match self.inner.reply(conn, bytes) {
            Replied::Memory => {
                self.out_of_memory = true;
                Replied::Memory
            }
            replied => {
                self.calls = self.calls.then(&(conn, bytes, replied));
                replied
            }
        }
    }

    fn drop_conn(&mut self, conn: ConnId) -> Result<(), Memory> {
        if self.out_of_memory {
            return Err(Memory);
        }
        match rules::drop_conn(&mut *self.inner, self.keyed, &mut self.state, conn) {
            Ok(()) => {
                self.calls = self.calls.then(&conn);
                Ok(())
            }
            Err(Memory) => {
                self.out_of_memory = true;
                Err(Memory)
            }
        }
    }

    fn word(&mut self) -> Result<u64, Memory> {
        if self.out_of_memory {
            return Err(Memory);
        }
        match self.inner.word() {
            Ok(word) => {
                self.calls = self.calls.then(&word);
                Ok(word)
            }
            Err(Memory) => {
                self.out_of_memory = true;
                Err(Memory)
            }
        }
    }
}
