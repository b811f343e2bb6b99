ghost use Rattle.std.specs.Prelude.{◌≡◌, ◌<◌, ◌≤◌, [], ◌∷◌, ◌++◌, filter, IfOk, MatchOption, OnOk};
ghost use Rattle.fwd_retry.specs.Timer.{IsFirst};
ghost use Rattle.fwd_table.specs.Outcomes.{due_after, is_tried_again};
ghost use Rattle.fwd_table.specs.Routes.{is_next_to};
ghost use Rattle.fwd_table.specs.Rows.{opened, on_chunk, grown, shut_at, started_to, resolved_to, owed_rows, tries_of, idle_timers_of};
ghost use Rattle.fwd_engine_state.specs.FlushOutcome.{rows_answered};

use fwd_base::{Bytes, ChunkId, InputId, Memory, OutputId, Retries};
use fwd_outside::Home;
use fwd_retry::Timer;
use fwd_table::{Answer, Outcome, Table};
use std::alloc::Global;
use std::marker::Model;

/// The chunks that are open or pending, each with the outputs that it is pending for. A new chunk gets a
/// number above all numbers so far.
#[derive(Debug, Drop)]
pub struct Chunks {
    table: Table,
    /// The greatest chunk number so far, 0 if there was none.
    top: u64,
}

impl Model for Chunks {
    ghost use Rattle.std.specs.Prelude.{◌≤◌, All};
    ghost use Rattle.fwd_engine_state.specs.Views.{ChunksSeen};

    ghost Value = { ChunksSeen };

    ghost view = { λ c. record { rows = c.table.rows; top = c.top; spare = c.table.spare } };

    ghost invariant = { λ c. All (λ row. row.chunk.0 ≤ c.top) c.table.rows };
}

impl Chunks {
    pub fn new(alloc: Global) -> Self
        ensures { (result.rows ≡ []) × (result.top ≡ 0) }
    {
        Chunks {
            table: Table::new(alloc),
            top: 0,
        }
    }

    /// Reserves memory for one more chunk.
    pub fn reserve(&mut self) -> Result<(), Memory>
        ensures rows { self.new.rows ≡ self.old.rows }
        ensures top { self.new.top ≡ self.old.top }
        ensures room { OnOk result (1 ≤ self.new.spare) }
    {
        self.table.reserve()
    }

    /// Adds an open chunk that is pending for the outputs whose bits are set. Does nothing unless its
    /// number is above all numbers so far.
    pub fn insert(
        &mut self,
        chunk: ChunkId,
        input: Option<InputId>,
        home: Home,
        tag: Bytes,
        size: u64,
        owed: u64,
    )
        requires room { 1 ≤ self.old.spare }
        ensures rows { self.old.top < chunk.0 → self.new.rows ≡ self.old.rows ++ opened chunk input home tag size owed ∷ [] }
        ensures top { self.old.top < chunk.0 → self.new.top ≡ chunk.0 }
    {
        if self.top < chunk.0 {
            self.top = chunk.0;
            self.table.took(chunk, input, home, tag, size, owed);
        }
    }

    /// Sets the size of a chunk's content in bytes.
    pub fn grow(&mut self, chunk: ChunkId, size: u64)
        ensures rows { self.new.rows ≡ on_chunk chunk (grown size) self.old.rows }
        ensures top { self.new.top ≡ self.old.top }
    {
        self.table.grew(chunk, size);
    }

    /// Closes a chunk: its routes are due at `now`.
    pub fn close(&mut self, chunk: ChunkId, now: u64)
        ensures rows { self.new.rows ≡ on_chunk chunk (shut_at now) self.old.rows }
        ensures top { self.new.top ≡ self.old.top }
    {
        self.table.shut(chunk, now);
    }

    /// Marks a route as in flight.
    pub fn start(&mut self, chunk: ChunkId, output: OutputId)
        ensures rows { self.new.rows ≡ on_chunk chunk (started_to output) self.old.rows }
        ensures top { self.new.top ≡ self.old.top }
    {
        self.table.started(chunk, output);
    }

    /// Applies the answer of an output, and returns whether the route is retried. If it is, it is due again
    /// `wait_s` seconds after `now`. Otherwise it is removed, and its chunk if no other output is pending.
    pub fn answer(
        &mut self,
        chunk: ChunkId,
        output: OutputId,
        answer: Answer,
        limit: Retries,
        wait_s: u64,
        now: u64,
    ) -> bool
        ensures again { result ≡ is_tried_again answer limit (tries_of chunk output self.old.rows) }
        ensures rows { self.new.rows ≡ rows_answered result chunk output (due_after now wait_s) self.old.rows }
        ensures top { self.new.top ≡ self.old.top }
    {
        let outcome = self
            .table
            .answered(chunk, output, answer, limit, wait_s, now);
        match outcome {
            Outcome::Retrying => true,
            Outcome::Resolved | Outcome::Last | Outcome::Spent | Outcome::SpentLast => {
                self.table.keep_owed(chunk);
                false
            }
        }
    }

    /// Removes a pending route, and its chunk if no other output is pending.
    pub fn resolve(&mut self, chunk: ChunkId, output: OutputId)
        ensures rows { self.new.rows ≡ owed_rows (on_chunk chunk (resolved_to output) self.old.rows) }
        ensures top { self.new.top ≡ self.old.top }
    {
        self.table.lose(chunk, output);
        self.table.keep_owed(chunk);
    }

    /// Returns the first of the idle routes to the outputs of a mask that are due at `now` and come after
    /// `after`, by due time, then chunk, then output. The chunks stay as they are.
    pub fn next_due_to(
        &mut self,
        now: u64,
        outputs: u64,
        after: Option<Timer>,
    ) -> Result<Option<Timer>, Memory>
        ensures rows { self.new.rows ≡ self.old.rows }
        ensures top { self.new.top ≡ self.old.top }
        ensures next { let due = filter (is_next_to now outputs after) (idle_timers_of self.old.rows) in
            IfOk result (λ next. MatchOption next (due ≡ []) (IsFirst due)) }
    {
        self.table.next_due_to(now, outputs, after)
    }

    pub fn table(&self) -> &Table
        ensures { result.now.rows ≡ self.now.rows }
    {
        &self.table
    }
}
