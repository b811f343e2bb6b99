//! The table of chunks and their routes.

ghost use Rattle.std.specs.Prelude.{◌≡◌, ◌↔◌, ◌+◌, ◌*◌, ◌<◌, ◌≤◌, [], ◌∷◌, ◌++◌, length, get_or, None, All};
ghost use Rattle.std.specs.Prelude.{filter, option_map, IfOk, IfSome, IsTrue, MatchOption, OnOk, nat_le};
ghost use Rattle.std.specs.Prelude.{option_to_list};
ghost use Rattle.std.specs.Option.{option_map_or};
ghost use Rattle.fwd_retry.specs.declared.timer.Timer.{Timer};
ghost use Rattle.fwd_retry.specs.Timer.{first, in_time, is_next, IsFirst};
ghost use Rattle.fwd_table_rows.specs.declared.row.Row.{Row};
ghost use Rattle.fwd_table.specs.Outcomes.{due_after, may_retry, is_tried_again, outcome_of};
ghost use Rattle.fwd_table.specs.Outcomes.{resolved_outcome};
ghost use Rattle.fwd_table_rows.specs.Routes.{flying_of, is_next_to, mask_of, IsMaskOf};
ghost use Rattle.fwd_table_rows.specs.Changes.{row_with_change};
ghost use Rattle.fwd_table_rows.specs.Usage.{size_of, flying_to, waiting_for, memory_of, files_up, found_up};
ghost use Rattle.fwd_base.specs.Limits.{most_inputs};
ghost use Rattle.fwd_table_rows.specs.Rows.{IsIdle, IsOwedToNobody, rows_at, has_row, is_row_of};
ghost use Rattle.fwd_table_rows.specs.Rows.{is_route_idle, flights_to, owed_rows, row_at, routes_at};
ghost use Rattle.fwd_table_rows.specs.Rows.{tries_of, owes_nothing, idle_timers_of, seen_of, opened};
ghost use Rattle.fwd_table_rows.specs.Rows.{on_chunk, without_chunk, grown, shut_at, started_to, stayed_to};
ghost use Rattle.fwd_table_rows.specs.Rows.{answered_by, resolved_to};

use crate::due_index::{DueIndex, insert_timers, remove_timers, take_index};
use crate::outcome::{due_after, may_retry, resolved_outcome, spent_outcome};
use crate::{Answer, Outcome, RowSeen};
use fwd_base::{Bytes, ChunkId, InputId, Memory, OutputId, Retries};
use fwd_outside::Home;
use fwd_retry::Timer;
use fwd_table_rows::{
    Change, Route, Routes, Row, RowChange, Slot, Sums, Way, change_row, clear_row, close_gaps,
    drop_first_gaps, drop_unowed_places, due_in, find_row, free_end, make_storage, next_in,
    sums_of,
};
use std::alloc::Global;
use std::collections::VecDeque;
use std::marker::Model;
use std::mem;

/// The chunks that are open or pending, ordered by id, each with the outputs that it is pending for.
/// Contracts see the rows, the slots that hold them, and how many more rows are reserved.
///
/// A row is found by its id or by binary search. Removing a row leaves its slot empty. Empty slots are removed
/// once they outnumber the rows, so removing rows in any order takes linear time.
///
/// An index orders the idle routes by output and due time. `shut`, `stayed` and `answered` allocate as routes
/// come into it. If memory runs out there, that is no error: the table drops the index, and the next
/// `next_due_to` builds it anew. Besides, only `reserve`, `due` and such a `next_due_to` allocate. They return
/// an error if memory runs out.
#[derive(Debug, Drop)]
pub struct Table {
    places: VecDeque<Slot>,
    /// The list for the routes of the next row.
    storage: Vec<Route>,
    /// The timers of the idle routes. `None` if memory ran out for it.
    index: Option<DueIndex>,
    sums: Sums,
    alloc: Global,
}

impl Model for Table {
    ghost use Rattle.std.specs.Prelude.{◌-◌, vec_capacity};
    ghost use Rattle.std.specs.VecDeque.{deque_len, deque_capacity};
    ghost use Rattle.fwd_table_rows.specs.Slots.{slot_rows, rows_in};
    ghost use Rattle.fwd_table.specs.TableModel.{SlotsInvariant, TableModel, spare_of};

    ghost Value = { TableModel };

    ghost view = { λ t. record {
      rows = rows_in t.places.items;
      places = slot_rows t.places.items;
      spare = spare_of (vec_capacity t.storage) (deque_capacity t.places - deque_len t.places);
    } };

    ghost invariant = { λ t. SlotsInvariant t.index t.sums t.places.items };
}

impl Table {
    /// Returns an empty table.
    pub fn new(alloc: Global) -> Self
        ensures { result.rows ≡ [] }
    {
        Table {
            places: VecDeque::new(alloc),
            storage: Vec::new(alloc),
            index: Some(DueIndex::new(alloc)),
            sums: Sums::new(),
            alloc,
        }
    }

    /// Reserves one more row with its routes. The rows stay the same.
    pub fn reserve(&mut self) -> Result<(), Memory>
        ensures rows { self.new.rows ≡ self.old.rows }
        ensures room { OnOk result (1 ≤ self.new.spare) }
        ensures spare { self.old.spare ≤ self.new.spare }
    {
        self.places.reserve(1)?;
        make_storage(self.alloc, &mut self.places, &mut self.storage)
    }

    /// Adds an open row at the end, pending for the outputs whose bits are set in `owed`. Requires a
    /// reserved row and an id above those of all rows.
    pub fn took(
        &mut self,
        chunk: ChunkId,
        input: Option<InputId>,
        home: Home,
        tag: Bytes,
        size: u64,
        owed: u64,
    )
        requires room { 1 ≤ self.old.spare }
        requires above { All (λ row. row.chunk.0 < chunk.0) self.old.rows }
        ensures rows { self.new.rows ≡ self.old.rows ++ opened chunk input home tag size owed ∷ [] }
        ensures owed { IsMaskOf (opened chunk input home tag size owed).routes owed }
        ensures spare { self.old.spare ≤ self.new.spare + 1 }
    {
        free_end(&mut self.places, chunk);
        let storage = mem::replace(&mut self.storage, Vec::new(self.alloc));
        let row = Row {
            chunk,
            input,
            home,
            tag,
            size,
            shut: false,
            routes: Routes::to(storage, owed),
        };
        self.sums.shift(&row, Way::In);
        self.places.push_back_reserved(Slot {
            chunk,
            row: Some(row),
        });
    }

    /// Returns whether a chunk has a row.
    pub fn has(&self, chunk: ChunkId) -> bool
        ensures { result ≡ has_row chunk self.now.rows }
    {
        find_row(&self.places, chunk).is_some()
    }

    /// Returns whether a route is pending, its row is closed, and no flush of it is in flight.
    pub fn is_idle(&self, chunk: ChunkId, output: OutputId) -> bool
        ensures value { result ≡ is_route_idle chunk output self.now.rows }
        ensures means { IsTrue result ↔ IsIdle chunk output self.now.rows }
    {
        match find_row(&self.places, chunk) {
            Some(row) => row.waits_for(output),
            None => false,
        }
    }

    /// Returns whether a chunk has a row without routes.
    pub fn is_owed_to_nobody(&self, chunk: ChunkId) -> bool
        ensures { IsTrue result ↔ IsOwedToNobody chunk self.now.rows }
    {
        match find_row(&self.places, chunk) {
            Some(row) => row.routes.is_empty(),
            None => false,
        }
    }

    /// Sets the size of a chunk's whole content in bytes, if it has a row.
    pub fn grew(&mut self, chunk: ChunkId, size: u64)
        ensures rows { self.new.rows ≡ on_chunk chunk (grown size) self.old.rows }
        ensures spare { self.old.spare ≤ self.new.spare }
    {
        self.change(chunk, RowChange::Grows { size });
    }

    /// Closes the row of a chunk, if there is one: its routes are due at `now`.
    pub fn shut(&mut self, chunk: ChunkId, now: u64)
        ensures rows { self.new.rows ≡ on_chunk chunk (shut_at now) self.old.rows }
        ensures spare { self.old.spare ≤ self.new.spare }
    {
        self.change(chunk, RowChange::Shuts { now });
    }

    /// Returns the first of the idle routes that are due at `now` and come after `after`, ordered by due
    /// time, then chunk, then output. It looks at all rows. The engine asks `next_due_to`, for the outputs with a free
    /// place; this is for callers that want the routes to all, as the log of a live run does.
    pub fn next_due(&self, now: u64, after: Option<Timer>) -> Option<Timer>
        ensures value { result ≡ first (filter (is_next now after) (idle_timers_of self.now.rows)) }
        ensures first { let due = filter (is_next now after) (idle_timers_of self.now.rows) in
            MatchOption result (due ≡ []) (IsFirst due) }
    {
        next_in(&self.places, now, after)
    }

    /// Returns the timers of the idle routes that are due at `now`, ordered by due time, then chunk, then
    /// output. The rows stay the same. It looks at all rows, and allocates the list. The program asks `next_due_to`,
    /// for one route at a time: this is for callers that want them all.
    pub fn due(&mut self, now: u64) -> Result<Vec<Timer>, Memory>
        ensures rows { self.new.rows ≡ self.old.rows }
        ensures spare { self.old.spare ≤ self.new.spare }
        ensures due { IfOk result
            (λ timers. timers.items
            ≡ in_time (filter (λ (t : Timer). nat_le t.due now) (idle_timers_of self.old.rows))) }
    {
        due_in(self.alloc, &self.places, now)
    }

    /// Returns the first of the idle routes to the outputs of a mask that are due at `now` and come after
    /// `after`, ordered by due time, then chunk, then output. The rows stay the same. It takes logarithmic time
    /// for each output of the mask, unless memory ran out before: then it orders the routes anew. This
    /// allocates only in that case.
    pub fn next_due_to(
        &mut self,
        now: u64,
        outputs: u64,
        after: Option<Timer>,
    ) -> Result<Option<Timer>, Memory>
        ensures rows { self.new.rows ≡ self.old.rows }
        ensures spare { self.old.spare ≤ self.new.spare }
        ensures next { let due = filter (is_next_to now outputs after) (idle_timers_of self.old.rows) in
            IfOk result (λ next. MatchOption next (due ≡ []) (IsFirst due)) }
    {
        if outputs == 0 {
            return Ok(None);
        }
        let index = take_index(self.alloc, &mut self.index, &self.places)?;
        let next = index.next(now, outputs, after);
        self.index = Some(index);
        Ok(next)
    }

    /// Records that a flush of a route starts, if the route is pending.
    pub fn started(&mut self, chunk: ChunkId, output: OutputId)
        ensures rows { self.new.rows ≡ on_chunk chunk (started_to output) self.old.rows }
        ensures spare { self.old.spare ≤ self.new.spare }
    {
        let change = Change::Starts;
        self.change(chunk, RowChange::Changes { output, change });
    }

    /// Records that a flush of a route is over without an outcome, if the route is pending. Its due time
    /// and tries stay. The program doesn't use it: each of its flushes has an outcome.
    pub fn stayed(&mut self, chunk: ChunkId, output: OutputId)
        ensures rows { self.new.rows ≡ on_chunk chunk (stayed_to output) self.old.rows }
        ensures spare { self.old.spare ≤ self.new.spare }
    {
        let change = Change::Stays;
        self.change(chunk, RowChange::Changes { output, change });
    }

    /// Returns how many flushes of a route have failed; 0 if it isn't pending. The count saturates at 2^64
    /// - 1.
    pub fn tries(&self, chunk: ChunkId, output: OutputId) -> u64
        ensures { result ≡ tries_of chunk output self.now.rows }
    {
        self.tries_so_far(chunk, output)
    }

    /// Returns whether a route may be retried if its flush fails now.
    pub fn may_retry(&self, chunk: ChunkId, output: OutputId, limit: Retries) -> bool
        ensures { result ≡ may_retry limit (tries_of chunk output self.now.rows) }
    {
        may_retry(limit, self.tries_so_far(chunk, output))
    }

    /// Records the outcome of a flush. If the route may be retried, it is due `wait_s` seconds after `now`;
    /// else it is resolved.
    pub fn answered(
        &mut self,
        chunk: ChunkId,
        output: OutputId,
        answer: Answer,
        limit: Retries,
        wait_s: u64,
        now: u64,
    ) -> Outcome
        ensures rows { let again = is_tried_again answer limit (tries_of chunk output self.old.rows) in
            self.new.rows ≡ on_chunk chunk (answered_by again output (due_after now wait_s)) self.old.rows }
        ensures outcome { let again = is_tried_again answer limit (tries_of chunk output self.old.rows) in
            result ≡ outcome_of answer again (owes_nothing chunk self.new.rows) }
        ensures spare { self.old.spare ≤ self.new.spare }
    {
        match answer {
            Answer::Good | Answer::Bad => resolved_outcome(self.resolve(chunk, output)),
            Answer::Retry => self.fail(chunk, output, limit, due_after(now, wait_s)),
        }
    }

    /// Evicts a route: it is resolved.
    pub fn lose(&mut self, chunk: ChunkId, output: OutputId) -> Outcome
        ensures rows { self.new.rows ≡ on_chunk chunk (resolved_to output) self.old.rows }
        ensures outcome { result ≡ resolved_outcome (owes_nothing chunk self.new.rows) }
        ensures spare { self.old.spare ≤ self.new.spare }
    {
        resolved_outcome(self.resolve(chunk, output))
    }

    /// Returns the outputs that a chunk is pending for: bit `i` is output `i`. It is 0 if there is no such
    /// row.
    pub fn owed(&self, chunk: ChunkId) -> u64
        ensures value { result ≡ mask_of (routes_at chunk self.now.rows) }
        ensures bits { IsMaskOf (routes_at chunk self.now.rows) result }
    {
        match find_row(&self.places, chunk) {
            Some(row) => row.routes.owed(),
            None => 0,
        }
    }

    /// Removes a row. Requires that it is pending for no output.
    pub fn forget(&mut self, chunk: ChunkId)
        requires { IsOwedToNobody chunk self.old.rows }
        ensures rows { self.new.rows ≡ without_chunk chunk self.old.rows }
        ensures owed { owed_rows self.new.rows ≡ owed_rows self.old.rows }
        ensures spare { self.old.spare ≤ self.new.spare }
    {
        clear_row(&mut self.places, &mut self.sums, chunk);
        drop_first_gaps(&mut self.places);
        self.close_many_gaps();
    }

    /// Removes the rows that are pending for no output. It looks at the row of this chunk first; most calls
    /// look at no other.
    pub fn keep_owed(&mut self, chunk: ChunkId)
        ensures rows { self.new.rows ≡ owed_rows self.old.rows }
        ensures spare { self.old.spare ≤ self.new.spare }
    {
        if self.is_owed_to_nobody(chunk) {
            self.forget(chunk);
        }
        self.sweep();
    }

    /// Returns the tag of a chunk; empty if the chunk has no row.
    pub fn tag_of(&self, chunk: ChunkId) -> &[u8]
        ensures { result.now ≡ option_map_or (λ (row : Row). row.tag) (row_at chunk self.now.rows) [] }
    {
        match find_row(&self.places, chunk) {
            Some(row) => row.tag.as_slice(),
            None => &[],
        }
    }

    /// Returns the number of chunks in flight to an output.
    pub fn flights_to(&self, output: OutputId) -> u64
        ensures { result ≡ flights_to output self.now.rows }
    {
        self.sums.flights(output) as u64
    }

    /// Returns the bytes of chunks in files that are in flight to an output.
    pub fn flying_bytes(&self, output: OutputId) -> u128
        ensures { result ≡ size_of (flying_to output self.now.rows) }
    {
        self.sums.flying_bytes(output)
    }

    /// Returns the bytes of closed chunks in files that wait for an output.
    pub fn waiting_bytes(&self, output: OutputId) -> u128
        ensures { result ≡ size_of (waiting_for output self.now.rows) }
    {
        self.sums.waiting_bytes(output)
    }

    /// Returns the bytes of memory that the open and pending chunks of an input use. Requires an input
    /// below `MOST_INPUTS`.
    pub fn memory_bytes(&self, input: InputId) -> u128
        requires { input.0 < most_inputs }
        ensures { result ≡ memory_of input.0 self.now.rows }
    {
        self.sums.memory(input)
    }

    /// Returns the number of chunks in files that are in flight, to whatever outputs.
    pub fn files_up(&self) -> u64
        ensures { result ≡ files_up self.now.rows }
    {
        self.sums.files_up() as u64
    }

    /// Returns the bytes of recovered chunks that are in flight, to whatever outputs. Each chunk counts
    /// once.
    pub fn found_bytes(&self) -> u128
        ensures { result ≡ found_up self.now.rows }
    {
        self.sums.found_up()
    }

    /// Returns the row of a chunk, if there is one. It is the only one of that chunk.
    pub fn find(&self, chunk: ChunkId) -> Option<RowSeen>
        ensures value { result ≡ option_map seen_of (row_at chunk self.now.rows) }
        ensures alone { filter (is_row_of chunk) self.now.rows ≡ option_to_list (row_at chunk self.now.rows) }
        ensures owed { IfSome (row_at chunk self.now.rows)
            (λ row. IfSome result (λ seen. IsMaskOf row.routes seen.owed)) }
        ensures flying { IfSome (row_at chunk self.now.rows)
            (λ row. IfSome result (λ seen. IsMaskOf (flying_of row.routes) seen.flying)) }
    {
        let row = find_row(&self.places, chunk)?;
        Some(row.seen())
    }

    /// Returns the number of rows.
    pub fn len(&self) -> u64
        ensures { result ≡ length self.now.rows }
    {
        self.sums.rows() as u64
    }

    /// Returns the number of slots, which are ordered by chunk id and may be empty.
    pub fn places(&self) -> u64
        ensures count { result ≡ length self.now.places }
        ensures rows { self.now.rows ≡ rows_at self.now.places }
    {
        self.places.len() as u64
    }

    /// Returns the row of the slot at an index, from 0, if the slot isn't empty. It is the only one of that
    /// chunk.
    pub fn row(&self, place: u64) -> Option<RowSeen>
        ensures value { result ≡ option_map seen_of (get_or self.now.places place None) }
        ensures only { IfSome result
            (λ seen. get_or self.now.places place None ≡ row_at seen.chunk self.now.rows) }
        ensures owed { IfSome (get_or self.now.places place None)
            (λ row. IfSome result (λ seen. IsMaskOf row.routes seen.owed)) }
        ensures flying { IfSome (get_or self.now.places place None)
            (λ row. IfSome result (λ seen. IsMaskOf (flying_of row.routes) seen.flying)) }
    {
        let place = self.places.get(place as usize)?;
        let row = place.row.as_ref()?;
        Some(row.seen())
    }

    /// Returns the tag of the row of the slot at an index, from 0; empty if the slot is empty.
    pub fn tag(&self, place: u64) -> &[u8]
        ensures { result.now ≡ option_map_or (λ row. row.tag) (get_or self.now.places place None) [] }
    {
        match self.places.get(place as usize) {
            Some(place) => place.tag(),
            None => &[],
        }
    }

    /// Removes the rows that are pending for no output, if there are any.
    fn sweep(&mut self)
        ensures rows { self.new.rows ≡ owed_rows self.old.rows }
        ensures spare { self.old.spare ≤ self.new.spare }
    {
        if self.sums.has_unowed() {
            drop_unowed_places(&mut self.places);
            self.sums = sums_of(&self.places);
        }
    }

    /// Removes the empty slots if they outnumber the rows.
    fn close_many_gaps(&mut self)
        ensures rows { self.new.rows ≡ self.old.rows }
        ensures spare { self.old.spare ≤ self.new.spare }
    {
        if self.sums.rows() < (self.places.len() / 2) as u128 {
            close_gaps(&mut self.places);
        }
    }

    /// Changes the row of a chunk, if there is one.
    fn change(&mut self, chunk: ChunkId, change: RowChange)
        ensures rows { self.new.rows ≡ on_chunk chunk (row_with_change change) self.old.rows }
        ensures spare { self.old.spare ≤ self.new.spare }
    {
        let scope = change.scope();
        remove_timers(&mut self.index, &self.places, chunk, scope);
        change_row(&mut self.places, &mut self.sums, chunk, change);
        insert_timers(&mut self.index, &self.places, chunk, scope);
    }

    fn tries_so_far(&self, chunk: ChunkId, output: OutputId) -> u64
        ensures { result ≡ tries_of chunk output self.now.rows }
    {
        match find_row(&self.places, chunk) {
            Some(row) => row.routes.tries(output),
            None => 0,
        }
    }

    /// Records that the flush of a route has failed.
    fn fail(&mut self, chunk: ChunkId, output: OutputId, limit: Retries, due: u64) -> Outcome
        ensures rows { let again = may_retry limit (tries_of chunk output self.old.rows) in
            self.new.rows ≡ on_chunk chunk (answered_by again output due) self.old.rows }
        ensures outcome { let again = may_retry limit (tries_of chunk output self.old.rows) in
            result ≡ outcome_of Answer.Retry again (owes_nothing chunk self.new.rows) }
        ensures spare { self.old.spare ≤ self.new.spare }
    {
        if may_retry(limit, self.tries_so_far(chunk, output)) {
            let change = Change::Retries { due };
            self.change(chunk, RowChange::Changes { output, change });
            Outcome::Retrying
        } else {
            spent_outcome(self.resolve(chunk, output))
        }
    }

    /// Removes a route, and returns whether its chunk has no pending route left.
    fn resolve(&mut self, chunk: ChunkId, output: OutputId) -> bool
        ensures rows { self.new.rows ≡ on_chunk chunk (resolved_to output) self.old.rows }
        ensures last { result ≡ owes_nothing chunk self.new.rows }
        ensures spare { self.old.spare ≤ self.new.spare }
    {
        self.change(chunk, RowChange::Resolves { output });
        self.owes_nothing(chunk)
    }

    fn owes_nothing(&self, chunk: ChunkId) -> bool
        ensures { result ≡ owes_nothing chunk self.now.rows }
    {
        match find_row(&self.places, chunk) {
            Some(row) => row.routes.is_empty(),
            None => true,
        }
    }
}
