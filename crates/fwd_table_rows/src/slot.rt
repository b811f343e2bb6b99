//! Slots of a table. Removing a row leaves its slot empty, so that no other row moves.

ghost use Rattle.std.specs.Prelude.{◌≡◌, ℕ, [], ◌++◌, ◌+◌, ◌<◌, ◌≤◌, ◌^◌, None, Some, get_or, length, map, filter};
ghost use Rattle.std.specs.Prelude.{fold, is_some, nat_le, option_copied, option_map, vec_capacity, All};
ghost use Rattle.std.specs.Prelude.{IfOk, IfSome, IsTrue, OnOk};
ghost use Rattle.std.specs.List.{flat_map};
ghost use Rattle.std.specs.Option.{option_map_or};
ghost use Rattle.std.specs.VecDeque.{deque_capacity, deque_len};
ghost use Rattle.fwd_base.specs.Limits.{most_outputs};
ghost use Rattle.fwd_retry.specs.declared.timer.Timer.{Timer};
ghost use Rattle.fwd_retry.specs.Timer.{earlier as earlier_of, first, in_time, is_next};
ghost use Rattle.fwd_table_rows.specs.Changes.{row_with_change};
ghost use Rattle.fwd_table_rows.specs.declared.slot.Slot.{Slot};
ghost use Rattle.fwd_table_rows.specs.Slots.{HasOwnRow, IsPlaceOf, NumbersRise, is_owed_at, rows_in};
ghost use Rattle.fwd_table_rows.specs.Slots.{timers_of_slot};
ghost use Rattle.fwd_table_rows.specs.Rows.{on_chunk, owed_rows, row_at, without_chunk};
ghost use Rattle.fwd_table_rows.specs.Sums.{AreSums, Counted, IsValidRow, part_of, total};

use crate::route::Route;
use crate::row::{Row, RowChange};
use crate::sums::{Sums, Way};
use fwd_base::limits::MOST_OUTPUTS;
use fwd_base::{ChunkId, Memory};
use fwd_retry::Timer;
use std::alloc::Global;
use std::collections::VecDeque;

/// The slot of a chunk's row, which may have been removed.
#[derive(Debug, Drop)]
pub struct Slot {
    pub chunk: ChunkId,
    pub row: Option<Row>,
}

impl Slot {
    /// Returns whether the slot has a row that is pending for an output.
    fn is_owed(&self) -> bool
        ensures { result ≡ is_owed_at self.now }
    {
        match &self.row {
            Some(row) => !row.routes.is_empty(),
            None => false,
        }
    }

    /// Returns the tag of the slot's row; empty if the slot is empty.
    pub fn tag(&self) -> &[u8]
        ensures { result.now ≡ option_map_or (λ row. row.tag) self.now.row [] }
    {
        match &self.row {
            Some(row) => row.tag.as_slice(),
            None => &[],
        }
    }

    /// Changes the slot's row, if there is one, and the sums with it.
    fn change(&mut self, sums: &mut Sums, change: RowChange)
        requires sound { IfSome self.old.row IsValidRow }
        requires held { (counted : Counted) (key : ℕ) → key < 64
            → part_of counted key self.old.row ≤ total counted key sums.old }
        requires room { (counted : Counted) (key : ℕ) → key < 64
            → total counted key sums.old + 2 ^ 64 ≤ 2 ^ 128 }
        ensures place { self.new
            ≡ record self.old { row = option_map (row_with_change change) self.old.row } }
        ensures sound { IfSome self.new.row IsValidRow }
        ensures sums { (counted : Counted) (key : ℕ) → key < 64
            → total counted key sums.new + part_of counted key self.old.row
            ≡ total counted key sums.old + part_of counted key self.new.row }
    {
        if let Some(row) = &mut self.row {
            sums.shift(row, Way::Out);
            row.apply(change);
            sums.shift(row, Way::In);
        }
    }

    /// Removes the slot's row, if there is one, from the slot and from the sums.
    fn clear(&mut self, sums: &mut Sums)
        requires held { (counted : Counted) (key : ℕ) → key < 64
            → part_of counted key self.old.row ≤ total counted key sums.old }
        ensures place { self.new ≡ record self.old { row = None } }
        ensures sums { (counted : Counted) (key : ℕ) → key < 64
            → total counted key sums.new + part_of counted key self.old.row ≡ total counted key sums.old }
    {
        if let Some(row) = self.row.take() {
            sums.shift(&row, Way::Out);
        }
    }

    /// Adds the slot's row, if there is one, to the sums.
    fn count(&self, sums: &mut Sums)
        requires { (counted : Counted) (key : ℕ) → key < 64
            → total counted key sums.old + part_of counted key self.now.row < 2 ^ 128 }
        ensures { (counted : Counted) (key : ℕ) → key < 64
            → total counted key sums.new ≡ total counted key sums.old + part_of counted key self.now.row }
    {
        if let Some(row) = &self.row {
            sums.shift(row, Way::In);
        }
    }

    /// Returns the first of `first` and the timers of the idle routes that are due at `now` and come after
    /// `after`.
    fn next(&self, now: u64, after: Option<Timer>, first: Option<Timer>) -> Option<Timer>
        ensures { result ≡ fold (λ found timer. Some (earlier_of found timer)) first
            (filter (is_next now after) (timers_of_slot self.now)) }
    {
        match &self.row {
            Some(row) => row.next(now, after, first),
            None => first,
        }
    }

    /// Appends the timers of the idle routes that are due at `now`.
    fn put_due(&self, now: u64, timers: &mut Vec<Timer>) -> Result<(), Memory>
        ensures { OnOk result
            (timers.new.items
            ≡ timers.old.items ++ filter (λ (t : Timer). nat_le t.due now) (timers_of_slot self.now)) }
    {
        match &self.row {
            Some(row) => row.put_due(now, timers),
            None => Ok(()),
        }
    }

    /// Moves the routes to a list of exactly their number, and returns the list that they had; an empty one
    /// if the slot is empty.
    fn tighten(&mut self, alloc: Global) -> Result<Vec<Route>, Memory>
        ensures { self.new ≡ self.old }
    {
        match &mut self.row {
            Some(row) => row.routes.tighten(alloc),
            None => Ok(Vec::new(alloc)),
        }
    }
}

/// Returns the index of a chunk if every number from the first one on has a slot.
fn place_by_number(places: &VecDeque<Slot>, chunk: ChunkId) -> usize {
    match places.front() {
        Some(first) => chunk.0.wrapping_sub(first.chunk.0) as usize,
        None => 0,
    }
}

/// Returns whether the slot at an index exists and is the chunk's.
fn is_at(places: &VecDeque<Slot>, place: usize, chunk: ChunkId) -> bool
    ensures { IsTrue result → IsPlaceOf chunk places.now.items (Some place) }
{
    match places.get(place) {
        Some(place) => place.chunk.0 == chunk.0,
        None => false,
    }
}

/// Returns the index of a chunk, if it has a slot. Chunk ids are mostly consecutive, so the id mostly gives
/// it.
pub fn place_of(places: &VecDeque<Slot>, chunk: ChunkId) -> Option<usize>
    requires { NumbersRise places.now.items }
    ensures { IsPlaceOf chunk places.now.items result }
{
    let place = place_by_number(places, chunk);
    if is_at(places, place, chunk) {
        return Some(place);
    }
    search_place(places, chunk)
}

/// Finds the index of a chunk, if it has a slot, by binary search.
fn search_place(places: &VecDeque<Slot>, chunk: ChunkId) -> Option<usize>
    requires { NumbersRise places.now.items }
    ensures { IsPlaceOf chunk places.now.items result }
{
    places
        .binary_search_by_key(&chunk.0, |place| place.chunk.0)
        .ok()
}

/// Returns the row of a chunk, if there is one.
pub fn find_row(places: &VecDeque<Slot>, chunk: ChunkId) -> Option<&Row>
    requires numbers { NumbersRise places.now.items }
    requires own { All HasOwnRow places.now.items }
    ensures { option_copied result ≡ row_at chunk (rows_in places.now.items) }
{
    let place = place_of(places, chunk)?;
    places[place].row.as_ref()
}

/// Changes the row of a chunk, if there is one, and the sums with it.
pub fn change_row(places: &mut VecDeque<Slot>, sums: &mut Sums, chunk: ChunkId, change: RowChange)
    requires numbers { NumbersRise places.old.items }
    requires own { All HasOwnRow places.old.items }
    requires sound { All IsValidRow (rows_in places.old.items) }
    requires sums { AreSums sums.old (rows_in places.old.items) }
    requires few { length places.old.items < 2 ^ 64 }
    ensures rows { rows_in places.new.items
        ≡ on_chunk chunk (row_with_change change) (rows_in places.old.items) }
    ensures numbers { NumbersRise places.new.items }
    ensures own { All HasOwnRow places.new.items }
    ensures sound { All IsValidRow (rows_in places.new.items) }
    ensures sums { AreSums sums.new (rows_in places.new.items) }
    ensures room { (deque_capacity places.new ≡ deque_capacity places.old)
        × (deque_len places.new ≡ deque_len places.old) }
{
    if let Some(place) = place_of(places, chunk) {
        places[place].change(sums, change);
    }
}

/// Removes the row of a chunk, if there is one, also from the sums.
pub fn clear_row(places: &mut VecDeque<Slot>, sums: &mut Sums, chunk: ChunkId)
    requires numbers { NumbersRise places.old.items }
    requires own { All HasOwnRow places.old.items }
    requires sums { AreSums sums.old (rows_in places.old.items) }
    ensures rows { rows_in places.new.items ≡ without_chunk chunk (rows_in places.old.items) }
    ensures numbers { NumbersRise places.new.items }
    ensures own { All HasOwnRow places.new.items }
    ensures sums { AreSums sums.new (rows_in places.new.items) }
    ensures room { (deque_capacity places.new ≡ deque_capacity places.old)
        × (deque_len places.new ≡ deque_len places.old) }
{
    if let Some(place) = place_of(places, chunk) {
        places[place].clear(sums);
    }
}

/// Returns whether the first slot is empty.
fn is_first_empty(places: &VecDeque<Slot>) -> bool
    ensures { IsTrue result
        → (0 < length places.now.items) × ((place : Slot) → (get_or places.now.items 0 place).row ≡ None) }
{
    match places.front() {
        Some(first) => first.row.is_none(),
        None => false,
    }
}

/// Removes empty slots from the front.
pub fn drop_first_gaps(places: &mut VecDeque<Slot>)
    ensures rows { rows_in places.new.items ≡ rows_in places.old.items }
    ensures numbers { NumbersRise places.old.items → NumbersRise places.new.items }
    ensures own { All HasOwnRow places.old.items → All HasOwnRow places.new.items }
    ensures room { (deque_capacity places.new ≡ deque_capacity places.old)
        × (deque_len places.new ≤ deque_len places.old) }
{
    while is_first_empty(places) {
        places.pop_front();
    }
}

/// Removes all empty slots.
pub fn close_gaps(places: &mut VecDeque<Slot>)
    ensures rows { rows_in places.new.items ≡ rows_in places.old.items }
    ensures numbers { NumbersRise places.old.items → NumbersRise places.new.items }
    ensures own { All HasOwnRow places.old.items → All HasOwnRow places.new.items }
    ensures full { All (λ place. IsTrue (is_some place.row)) places.new.items }
    ensures room { (deque_capacity places.new ≡ deque_capacity places.old)
        × (deque_len places.new ≤ deque_len places.old) }
{
    places.retain(|place| place.row.is_some());
}

/// Removes the slots without a pending row.
pub fn drop_unowed_places(places: &mut VecDeque<Slot>)
    ensures rows { rows_in places.new.items ≡ owed_rows (rows_in places.old.items) }
    ensures numbers { NumbersRise places.old.items → NumbersRise places.new.items }
    ensures own { All HasOwnRow places.old.items → All HasOwnRow places.new.items }
    ensures room { (deque_capacity places.new ≡ deque_capacity places.old)
        × (deque_len places.new ≤ deque_len places.old) }
{
    places.retain(|place| place.is_owed());
}

/// Returns whether all slots have numbers below a chunk's.
fn end_below(places: &VecDeque<Slot>, chunk: ChunkId) -> bool
    requires { NumbersRise places.now.items }
    ensures { IsTrue result → All (λ place. place.chunk.0 < chunk.0) places.now.items }
{
    match places.back() {
        Some(last) => last.chunk.0 < chunk.0,
        None => true,
    }
}

/// Removes all empty slots if the last slot isn't below a chunk, whose number is above those of all rows.
pub fn free_end(places: &mut VecDeque<Slot>, chunk: ChunkId)
    requires numbers { NumbersRise places.old.items }
    requires own { All HasOwnRow places.old.items }
    requires above { All (λ row. row.chunk.0 < chunk.0) (rows_in places.old.items) }
    ensures rows { rows_in places.new.items ≡ rows_in places.old.items }
    ensures numbers { NumbersRise places.new.items }
    ensures own { All HasOwnRow places.new.items }
    ensures below { All (λ place. place.chunk.0 < chunk.0) places.new.items }
    ensures room { (deque_capacity places.new ≡ deque_capacity places.old)
        × (deque_len places.new ≤ deque_len places.old) }
{
    if !end_below(places, chunk) {
        close_gaps(places);
    }
}

/// Moves the routes of the last slot to a list of exactly their number, and returns the list that they had;
/// an empty one if the slot is empty.
fn tighten_last(alloc: Global, places: &mut VecDeque<Slot>) -> Result<Vec<Route>, Memory>
    ensures places { places.new.items ≡ places.old.items }
    ensures room { (deque_capacity places.new ≡ deque_capacity places.old)
        × (deque_len places.new ≡ deque_len places.old) }
{
    let Some(last) = places.len().checked_sub(1) else {
        return Ok(Vec::new(alloc));
    };
    places[last].tighten(alloc)
}

/// Reserves the routes of one more row. A new row is built in a list with room for all outputs; the last
/// row gives that list up for one of exactly its routes.
pub fn make_storage(
    alloc: Global,
    places: &mut VecDeque<Slot>,
    storage: &mut Vec<Route>,
) -> Result<(), Memory>
    ensures places { places.new.items ≡ places.old.items }
    ensures same { (deque_capacity places.new ≡ deque_capacity places.old)
        × (deque_len places.new ≡ deque_len places.old) }
    ensures room { OnOk result (most_outputs ≤ vec_capacity storage.new) }
    ensures kept { most_outputs ≤ vec_capacity storage.old → most_outputs ≤ vec_capacity storage.new }
{
    if storage.capacity() < MOST_OUTPUTS {
        *storage = tighten_last(alloc, places)?;
        storage.clear();
        storage.reserve(MOST_OUTPUTS)?;
    }
    Ok(())
}

/// Returns the first of the timers of idle routes that are due at `now` and come after `after`.
pub fn next_in(places: &VecDeque<Slot>, now: u64, after: Option<Timer>) -> Option<Timer>
    ensures { result ≡ first (filter (is_next now after) (flat_map timers_of_slot places.now.items)) }
{
    let mut first = None;
    for index in 0..places.len() {
        first = places[index].next(now, after, first);
    }
    first
}

/// Appends the timers of the idle routes that are due at `now`.
fn put_due_in(places: &VecDeque<Slot>, now: u64, timers: &mut Vec<Timer>) -> Result<(), Memory>
    ensures { OnOk result
        (timers.new.items
        ≡ timers.old.items
        ++ filter (λ (t : Timer). nat_le t.due now) (flat_map timers_of_slot places.now.items)) }
{
    for index in 0..places.len() {
        places[index].put_due(now, timers)?;
    }
    Ok(())
}

/// Puts timers in order, each once. This takes linear time if they are in order already.
fn put_in_time(timers: &mut Vec<Timer>)
    ensures { timers.new.items ≡ in_time timers.old.items }
{
    timers.sort_unstable();
    timers.dedup();
}

/// Returns the timers of the idle routes that are due at `now`, ordered by due time, then chunk, then output.
pub fn due_in(alloc: Global, places: &VecDeque<Slot>, now: u64) -> Result<Vec<Timer>, Memory>
    ensures { IfOk result
        (λ timers. timers.items
        ≡ in_time (filter (λ (t : Timer). nat_le t.due now) (flat_map timers_of_slot places.now.items))) }
{
    let mut timers = Vec::new(alloc);
    put_due_in(places, now, &mut timers)?;
    put_in_time(&mut timers);
    Ok(timers)
}

/// Computes the sums over all rows.
pub fn sums_of(places: &VecDeque<Slot>) -> Sums
    requires sound { All IsValidRow (rows_in places.now.items) }
    requires few { length places.now.items < 2 ^ 64 }
    ensures { AreSums result (rows_in places.now.items) }
{
    let mut sums = Sums::new();
    for index in 0..places.len() {
        places[index].count(&mut sums);
    }
    sums
}
