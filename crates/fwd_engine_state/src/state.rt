//! The state of an engine: its chunks, routes, connections in flight, clock and counters.

ghost use Rattle.std.specs.Prelude.{◌≡◌, ◌<◌, ◌≤◌, ◌+◌, ℕ, List, [], ◌∷◌, length, map, filter, Bool, true, IfOk, IfSome, MatchOption, OnOk};
ghost use Rattle.fwd_base.specs.Limits.{most_inputs};
ghost use Rattle.fwd_outside.specs.declared.happening.Happening.TheVariants as happening;
ghost use Rattle.fwd_settings.specs.declared.settings_types.AllSettings.{AllSettings};
ghost use Rattle.fwd_settings.specs.declared.settings_types.InputSet.{InputSet};
ghost use Rattle.fwd_limits.specs.Evictions.{next_eviction};
ghost use Rattle.fwd_model.specs.Fact.{History, Batch, NoChunk, NewChunk, AppendedTo, Reason, Happened, Malformed, Found, Accepted, Refused, ChunkClosed, Sent, OnRoute, InFlight, Evicted, IoFailed};
ghost use Rattle.fwd_model.specs.Settings.{saturating_plus, outputs_for, home_at, reads_stdin_at, output_at, slots_at};
ghost use Rattle.fwd_model.specs.Clock.{clock, tick_count, stopped, is_close_due};
ghost use Rattle.fwd_model.specs.RecoveredFile.{recovered_chunk};
ghost use Rattle.fwd_model.specs.Chunks.{next, size as size_of, encoded};
ghost use Rattle.fwd_model.specs.Routes.{tries, wait_for, is_idle, flights_to, owes, rows_of};
ghost use Rattle.fwd_model.specs.Dispatch.{has_place, fits, may_start};
ghost use Rattle.fwd_model.specs.Limits.{paused};
ghost use Rattle.fwd_model.specs.Notes.{is_empty};
ghost use Rattle.fwd_model.specs.Counters.{file_fate, Unrouted, LeftAsIs, tally_of};
ghost use Rattle.fwd_retry.specs.Timer.{is_after, IsFirst};
ghost use Rattle.fwd_table.specs.Routes.{is_next_to};
ghost use Rattle.fwd_table.specs.Rows.{idle_timers_of};
ghost use Rattle.fwd_table.specs.Outcomes.{may_retry, is_tried_again};
ghost use Rattle.fwd_engine_state.specs.FlushOutcome.{outcome_after};
ghost use Rattle.fwd_engine_state.specs.Views.{route_of};
ghost use Rattle.fwd_engine_state.specs.StateRepresents.{StateRepresentsIdle, StateAnswers, StateUnchanged, StateNotes, StateNotesWhere, StateNotesOutcome, IsFlightOf, IsClosedRoute, IsPending, IsTakenOut, IsMaskOf, IsLoaded, IsNew};

use crate::capacity::{InFlightLimits, chunk_fits};
use crate::chunks::Chunks;
use crate::counts::Counts;
use crate::flush_attempts::{FlushAttempt, FlushAttempts, RouteId};
use crate::input_mask::first_inputs;
use fwd_base::limits::LATEST_TIME;
use fwd_base::{Bytes, ChunkId, InputId, LinkId, Memory, OutputId, Retries};
use fwd_limits::{Loss, MemLimits, next_loss, paused};
use fwd_outside::Home;
use fwd_retry::Timer;
use fwd_table::{Answer, Table, Tally};
use std::alloc::Global;

/// A reserved entry for a chunk: its tag, and memory for its row.
#[derive(Debug, Drop)]
pub struct Place {
    pub tag: Bytes,
}

/// The state of an engine: its pending chunks, flush attempts, clock and counters.
#[derive(Drop)]
pub struct State {
    chunks: Chunks,
    flights: FlushAttempts,
    clock: u64,
    ticks: u64,
    closing: u64,
    stopped: Option<u64>,
    counts: Counts,
    /// How many reads for a flush found damaged content. The history doesn't have them.
    damaged: u64,
    alloc: Global,
}

impl State {
    /// Returns the initial state of an engine with `inputs` inputs and `outputs` outputs.
    pub fn new(alloc: Global, inputs: usize, outputs: usize) -> Result<State, Memory>
        ensures represents { IfOk result (λ state. (s : AllSettings) → length s.inputs ≡ inputs → length s.outputs ≡ outputs → StateRepresentsIdle s state []) }
        ensures damaged { IfOk result (λ state. state.damaged ≡ 0) }
    {
        Ok(State {
            chunks: Chunks::new(alloc),
            flights: FlushAttempts::new(alloc),
            clock: 0,
            ticks: 0,
            closing: 0,
            stopped: None,
            counts: Counts::new(alloc, inputs, outputs)?,
            damaged: 0,
            alloc,
        })
    }

    // ---- clock and stop

    /// Advances the clock to `now` milliseconds. Returns whether the open chunks are to close; if so, the
    /// next closing is `flush_ms` milliseconds later.
    pub fn advance_clock(&mut self, now: u64, flush_ms: u64) -> bool
        ensures notes { StateNotesWhere self.old self.new (λ s h. s.service.flush_ms ≡ flush_ms) (Happened (happening.Tick now)) }
        ensures closing { StateAnswers self.old (λ s h. result ≡ is_close_due s h now) }
    {
        self.clock = self.clock.max(now.min(LATEST_TIME));
        self.ticks = self.ticks.saturating_add(1);
        let closes = self.closing <= self.clock;
        if closes {
            self.closing = self.clock.saturating_add(flush_ms);
        }
        closes
    }

    /// Stops the run, at `Stop` or at the end of standard input. Later stops change nothing.
    pub fn stop(&mut self)
        ensures stop { StateNotes self.old self.new (Happened happening.Stop) }
        ensures end { (input : InputId) → StateNotesWhere self.old self.new (λ s h. reads_stdin_at s input.0 ≡ true) (Happened (happening.InputEnd input)) }
    {
        if self.stopped.is_none() {
            self.stopped = Some(self.clock);
        }
    }

    // ---- recovered chunks

    /// Reserves memory for a chunk of a tag, so that the calls after it allocate nothing.
    pub fn reserve(&mut self, tag: &[u8]) -> Result<Place, Memory>
        ensures keeps { StateUnchanged self.old self.new }
        ensures place { IfOk result (λ place. place.tag ≡ tag.now) }
        ensures room { OnOk result (1 ≤ self.new.chunks.spare) }
    {
        self.chunks.reserve()?;
        let tag = Bytes::from_slice(self.alloc, tag)?;
        Ok(Place { tag })
    }

    /// Adds a chunk that was recovered from a file, with a number that wasn't given out yet. Its content
    /// has `size` bytes, and it is pending for the outputs whose bits are set in `owed`.
    pub fn add_recovered(&mut self, place: Place, chunk: ChunkId, size: u64, owed: u64)
        requires room { 1 ≤ self.old.chunks.spare }
        ensures { (stream name bytes : List ℕ) → StateNotesWhere self.old self.new (λ s h. (next h ≤ chunk.0) × IsLoaded s place.tag size owed bytes) (Found chunk.0 stream name bytes) }
    {
        self.chunks
            .insert(chunk, None, Home::Disk, place.tag, size, owed);
        self.chunks.close(chunk, 0);
        self.counts.add_loaded();
    }

    /// Counts a recovered chunk that matches no output.
    pub fn count_unrouted(&mut self)
        ensures { (number : ℕ) (stream name bytes : List ℕ) → StateNotesWhere self.old self.new (λ s h. (next h ≤ number) × (file_fate s (recovered_chunk bytes) ≡ Unrouted)) (Found number stream name bytes) }
    {
        self.counts.add_unrouted();
    }

    /// Counts a recovered file that stays as it is.
    pub fn count_left(&mut self)
        ensures { (number : ℕ) (stream name bytes : List ℕ) → StateNotesWhere self.old self.new (λ s h. (next h ≤ number) × (file_fate s (recovered_chunk bytes) ≡ LeftAsIs)) (Found number stream name bytes) }
    {
        self.counts.add_left();
    }

    // ---- batches

    /// Begins a chunk with a batch of an input: `events` events of `size` bytes. It is kept in `home`, and
    /// is pending for the outputs whose bits are set in `owed`.
    pub fn begin_chunk(
        &mut self,
        place: Place,
        chunk: ChunkId,
        input: InputId,
        home: Home,
        size: u64,
        events: usize,
        owed: u64,
    )
        requires room { 1 ≤ self.old.chunks.spare }
        ensures { (b : Batch) → b.input ≡ input.0 → b.tag ≡ place.tag → length b.events ≡ events → length (encoded b.events) ≡ size
            → StateNotesWhere self.old self.new (λ s h. (home_at s input.0 ≡ home) × IsMaskOf (outputs_for s b.tag) owed × IsNew s h chunk.0) (Accepted b (NewChunk chunk.0)) }
    {
        self.chunks
            .insert(chunk, Some(input), home, place.tag, size, owed);
        self.counts.add_accepted(input, events);
    }

    /// Appends a batch of an input with `events` events to a chunk, which has `size` bytes then.
    pub fn grow_chunk(&mut self, chunk: ChunkId, input: InputId, events: usize, size: u64)
        ensures { (b : Batch) → b.input ≡ input.0 → length b.events ≡ events
            → StateNotesWhere self.old self.new (λ s h. (chunk.0 < next h) × (size ≡ size_of (Accepted b (AppendedTo chunk.0) ∷ h) chunk.0)) (Accepted b (AppendedTo chunk.0)) }
    {
        self.chunks.grow(chunk, size);
        self.counts.add_accepted(input, events);
    }

    /// Accepts a batch of an input that matches no output.
    pub fn accept_unrouted(&mut self, input: InputId, events: usize)
        ensures { (b : Batch) → b.input ≡ input.0 → length b.events ≡ events → StateNotes self.old self.new (Accepted b NoChunk) }
    {
        self.counts.add_accepted(input, events);
    }

    /// Counts a refused batch of an input, or bytes that are no message.
    pub fn count_refused(&mut self, input: InputId)
        ensures batch { (b : Batch) (why : Reason) → b.input ≡ input.0 → StateNotes self.old self.new (Refused b why) }
        ensures misread { StateNotes self.old self.new (Malformed input.0) }
    {
        self.counts.add_refused(input);
    }

    /// Closes a chunk.
    pub fn close_chunk(&mut self, chunk: ChunkId)
        ensures { StateNotesWhere self.old self.new (λ s h. chunk.0 < next h) (ChunkClosed chunk.0) }
    {
        self.chunks.close(chunk, self.clock);
    }

    /// Adds bytes that connections of an output took.
    pub fn count_taken(&mut self, output: OutputId, bytes: u64)
        ensures notes { StateNotes self.old self.new (Sent output.0 bytes) }
        ensures damaged { self.new.damaged ≡ self.old.damaged }
    {
        self.counts.add_taken(output, bytes);
    }

    /// Counts a failed call on the disk or on files.
    pub fn count_fault(&mut self)
        ensures notes { StateNotes self.old self.new IoFailed }
        ensures damaged { self.new.damaged ≡ self.old.damaged }
    {
        self.counts.add_fault();
    }

    /// Counts a read for a flush that found damaged content: other than as many bytes as were recorded, or
    /// bytes that are no list of events. The count saturates at 2^64 - 1.
    pub fn count_damaged(&mut self)
        ensures keeps { StateUnchanged self.old self.new }
        ensures damaged { self.new.damaged ≡ saturating_plus self.old.damaged 1 }
        ensures grows { self.old.damaged ≤ self.new.damaged }
    {
        self.damaged = self.damaged.saturating_add(1);
    }

    // ---- routes

    /// Evicts an idle route: a limit has no room for it.
    pub fn evict(&mut self, route: RouteId)
        ensures { StateNotesWhere self.old self.new (λ s h. is_idle s h (route_of route) ≡ true) (OnRoute (route_of route) Evicted) }
    {
        self.chunks.resolve(route.chunk, route.output);
        self.counts.add_evicted(route.output);
    }

    /// Removes and returns the flush attempt over a connection.
    pub fn take(&mut self, link: LinkId) -> Option<FlushAttempt>
        ensures taken { (s : AllSettings) (h : History) → StateRepresentsIdle s self.old h → IsTakenOut s h self.new link.0 result }
        ensures damaged { self.new.damaged ≡ self.old.damaged }
    {
        self.flights.take(link)
    }

    /// Keeps the flush attempt of the route that is out: it is still in flight.
    pub fn keep_attempt(&mut self, flight: FlushAttempt) -> Result<(), Memory>
        ensures damaged { self.new.damaged ≡ self.old.damaged }
        ensures notes { OnOk result (StateNotesOutcome self.old self.new (route_of flight.route) (λ s h. IsFlightOf s h flight (route_of flight.route)) (OnRoute (route_of flight.route) (InFlight flight.flush.progress))) }
    {
        self.chunks.start(flight.route.chunk, flight.route.output);
        self.flights.put(flight)?;
        Ok(())
    }

    /// Applies the answer of an output to the route that is out. If the route may be retried, it waits
    /// `wait_s` seconds, as a random word gives them; otherwise it is resolved.
    pub fn apply_answer(&mut self, route: RouteId, answer: Answer, limit: Retries, wait_s: u64)
        ensures damaged { self.new.damaged ≡ self.old.damaged }
        ensures notes { (again : Bool) (word : ℕ) → StateNotesOutcome self.old self.new (route_of route) (λ s h. IsClosedRoute h (route_of route) × IsPending s h (route_of route)
            × (is_tried_again answer limit (tries h (route_of route)) ≡ again)
            × (again ≡ true → wait_s ≡ wait_for s (saturating_plus (tries h (route_of route)) 1) word)) (OnRoute (route_of route) (outcome_after answer again word)) }
    {
        let again = self.chunks.answer(
            route.chunk,
            route.output,
            answer,
            limit,
            wait_s,
            self.clock,
        );
        self.counts.add_answer(route.output, answer, again);
    }

    // ---- getters

    pub fn clock(&self) -> u64
        ensures { StateAnswers self.now (λ s h. result ≡ clock h) }
    {
        self.clock
    }

    /// Returns the number of ticks so far.
    pub fn ticks(&self) -> u64
        ensures { StateAnswers self.now (λ s h. result ≡ tick_count h) }
    {
        self.ticks
    }

    /// The clock at the stop, if there was one.
    pub fn stopped(&self) -> Option<u64>
        ensures { StateAnswers self.now (λ s h. result ≡ stopped s h) }
    {
        self.stopped
    }

    /// Returns the first of the idle routes to the outputs of a mask that are due and come after `after`, by
    /// due time, chunk and output. The state represents what it did. The only error is out of memory.
    pub fn next_due_to(
        &mut self,
        outputs: u64,
        after: Option<Timer>,
    ) -> Result<Option<Timer>, Memory>
        ensures keeps { StateUnchanged self.old self.new }
        ensures damaged { self.new.damaged ≡ self.old.damaged }
        ensures next { StateAnswers self.old (λ s h. let due = filter (is_next_to (clock h) outputs after) (idle_timers_of (rows_of s h)) in IfOk result (λ next. MatchOption next (due ≡ []) (IsFirst due))) }
        ensures later { IfOk result (λ next. IfSome next (λ timer. is_after after timer ≡ true)) }
    {
        self.chunks.next_due_to(self.clock, outputs, after)
    }

    /// Whether a route is idle.
    pub fn is_idle(&self, route: RouteId) -> bool
        ensures { StateAnswers self.now (λ s h. result ≡ is_idle s h (route_of route)) }
    {
        self.chunks.table().is_idle(route.chunk, route.output)
    }

    /// Whether an output with `places` places has a free one.
    pub fn has_place(&self, route: RouteId, places: u64) -> bool
        ensures { StateAnswers self.now (λ s h. slots_at (output_at s route.output.0) ≡ places → result ≡ has_place s h (route_of route)) }
    {
        self.flights_to(route.output) < places
    }

    /// Returns whether the chunk of a route fits within the limits on what is in flight.
    pub fn fits(&self, route: RouteId, limits: InFlightLimits) -> bool
        ensures { StateAnswers self.now (λ s h. s.service.max_up ≡ limits.max_up → s.service.backlog_limit ≡ limits.backlog_limit → result ≡ fits s h (route_of route)) }
    {
        chunk_fits(self.chunks.table(), route.chunk, limits)
    }

    /// Whether a flush of a route may start: the route is still idle, its output has a free place, and its
    /// chunk fits.
    pub fn may_start(&self, route: RouteId, places: u64, limits: InFlightLimits) -> bool
        ensures { StateAnswers self.now (λ s h. slots_at (output_at s route.output.0) ≡ places → s.service.max_up ≡ limits.max_up → s.service.backlog_limit ≡ limits.backlog_limit
            → result ≡ may_start s h (route_of route)) }
    {
        if !self.is_idle(route) {
            return false;
        }
        if !self.has_place(route, places) {
            return false;
        }
        self.fits(route, limits)
    }

    /// Returns whether a pending route may be retried if its flush fails now.
    pub fn may_retry(&self, route: RouteId, limit: Retries) -> bool
        ensures { StateAnswers self.now (λ s h. IsPending s h (route_of route) → result ≡ may_retry limit (tries h (route_of route))) }
    {
        self.chunks
            .table()
            .may_retry(route.chunk, route.output, limit)
    }

    /// Returns how many tries of a pending route have failed.
    pub fn tries(&self, route: RouteId) -> u64
        ensures { StateAnswers self.now (λ s h. IsPending s h (route_of route) → result ≡ tries h (route_of route)) }
    {
        self.chunks.table().tries(route.chunk, route.output)
    }

    /// Returns how many chunks are in flight to an output.
    pub fn flights_to(&self, output: OutputId) -> u64
        ensures { StateAnswers self.now (λ s h. result ≡ flights_to s h output.0) }
    {
        self.chunks.table().flights_to(output)
    }

    /// Whether a chunk is pending for an output.
    pub fn is_pending(&self, chunk: ChunkId) -> bool
        ensures { StateAnswers self.now (λ s h. result ≡ owes s h chunk.0) }
    {
        self.chunks.table().has(chunk)
    }

    /// Returns the mask of the paused inputs, by their memory limits in the order of the configuration:
    /// those that have reached their limit, or all of them after a stop.
    pub fn paused(&self, limits: &MemLimits) -> u64
        requires { length limits.now ≤ most_inputs }
        ensures { StateAnswers self.now (λ s h. limits.now ≡ map (λ (set : InputSet). set.mem_limit) s.inputs → result ≡ paused s h) }
    {
        if self.stopped.is_some() {
            return first_inputs(limits.as_slice().len());
        }
        paused(self.chunks.table(), limits)
    }

    /// Returns what an output with this limit evicts next, after a chunk has closed.
    pub fn next_loss(&self, output: OutputId, limit: u64, chunk: ChunkId) -> Loss
        ensures { StateAnswers self.now (λ s h. result ≡ next_eviction output limit chunk (rows_of s h)) }
    {
        next_loss(self.chunks.table(), output, limit, chunk)
    }

    /// Whether no chunk is pending.
    pub fn is_done(&self) -> bool
        ensures { StateAnswers self.now (λ s h. result ≡ is_empty (rows_of s h)) }
    {
        self.chunks.table().len() == 0
    }

    /// The pending chunks, each with the outputs that it is pending for.
    pub fn table(&self) -> &Table
        ensures { StateAnswers self.now (λ s h. result.now.rows ≡ rows_of s h) }
    {
        self.chunks.table()
    }

    pub fn tally(&self) -> &Tally
        ensures { StateAnswers self.now (λ s h. result.now ≡ tally_of s h) }
    {
        self.counts.tally()
    }

    /// Returns how many reads for a flush found damaged content.
    pub fn damaged_reads(&self) -> u64
        ensures { result ≡ self.now.damaged }
    {
        self.damaged
    }

    pub fn alloc(&self) -> Global {
        self.alloc
    }
}
