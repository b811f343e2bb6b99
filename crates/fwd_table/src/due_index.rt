//! The index of due times, in which the first due route to an output is found without a scan of the rows.

ghost use Rattle.std.specs.Prelude.{◌≡◌, ◌≤◌, ◌↔◌, ◌==◌, ◌&&◌, ◌||◌, Bool, false, not, All, IfOk, IsTrue, OnOk, None};
ghost use Rattle.std.specs.Ordering.{eq_by_cmp};
ghost use Rattle.std.specs.BTreeMap.Range.{IsFromStart};
ghost use Rattle.fwd_retry.specs.declared.timer.Timer.{Timer};
ghost use Rattle.fwd_retry.specs.Timer.{by_time, is_after, is_next};
ghost use Rattle.fwd_table_rows.specs.Routes.{is_next_to};
ghost use Rattle.fwd_table_rows.specs.Rows.{ChunksRise, idle_timers_of};
ghost use Rattle.fwd_table_rows.specs.Slots.{HasOwnRow, NumbersRise, rows_in, timers_of_slot};
ghost use Rattle.fwd_table.specs.declared.due_index.DueKey.{DueKey};
ghost use Rattle.fwd_table.specs.DueIndex.{by_output, key_of, timer_of_key, is_listed, is_among, timers_outside};
ghost use Rattle.fwd_table.specs.DueIndex.{timers_in, IsFirstThat, IsIndexOf, IsIndexIfAny};

use fwd_base::limits::MOST_OUTPUTS;
use fwd_base::{ChunkId, Memory, OutputId, is_set};
use fwd_retry::{Timer, earlier};
use fwd_table_rows::{Row, Scope, Slot, find_row};
use std::alloc::Global;
use std::collections::{BTreeSet, VecDeque};
use std::ops::Bound;

/// A timer as the index orders it: the routes to one output stand together, in the order in which they are due.
#[derive(Clone, Copy, Debug, PartialEq, Eq, PartialOrd, Ord)]
pub struct DueKey {
    output: OutputId,
    /// The time in milliseconds from which it is due.
    due: u64,
    chunk: ChunkId,
}

impl DueKey {
    fn of(timer: Timer) -> Self
        ensures { result ≡ key_of timer }
    {
        DueKey {
            output: timer.output,
            due: timer.due,
            chunk: timer.chunk,
        }
    }

    fn timer(self) -> Timer
        ensures { result ≡ timer_of_key self }
    {
        Timer {
            due: self.due,
            chunk: self.chunk,
            output: self.output,
        }
    }
}

/// Returns where the keys of the timers to an output that come after `after` start.
fn start_after(output: OutputId, after: Option<Timer>) -> Bound<DueKey>
    ensures after { (timer : Timer) → timer.output.0 ≡ output.0
        → (IsFromStart by_output result (key_of timer) ↔ IsTrue (is_after after timer)) }
    ensures output { (key : DueKey) → IsFromStart by_output result key → output.0 ≤ key.output.0 }
{
    let (due, chunk, is_excluded) = match after {
        Some(after) => (after.due, after.chunk, output.0 <= after.output.0),
        None => (0, ChunkId(0), false),
    };
    let key = DueKey { output, due, chunk };
    if is_excluded {
        Bound::Excluded(key)
    } else {
        Bound::Included(key)
    }
}

/// Returns the earlier of two timers, if there is one.
fn earlier_of(first: Option<Timer>, second: Option<Timer>) -> Option<Timer>
    ensures { (p q : Timer → Bool) → IsFirstThat p first → IsFirstThat q second
        → IsFirstThat (λ timer. p timer || q timer) result }
{
    match second {
        Some(second) => Some(earlier(first, second)),
        None => first,
    }
}

/// The timers of the idle routes of a table.
#[derive(Debug, Drop)]
pub struct DueIndex {
    keys: BTreeSet<DueKey>,
}

impl DueIndex {
    /// Returns an index without timers.
    pub fn new(alloc: Global) -> Self
        ensures { (timer : Timer) → is_listed result timer ≡ false }
    {
        DueIndex {
            keys: BTreeSet::new(alloc),
        }
    }

    fn insert(&mut self, timer: Timer) -> Result<(), Memory>
        ensures { OnOk result ((other : Timer)
            → is_listed self.new other ≡ (eq_by_cmp by_time other timer || is_listed self.old other)) }
    {
        self.keys.insert(DueKey::of(timer))?;
        Ok(())
    }

    fn remove(&mut self, timer: Timer)
        ensures { (other : Timer)
            → is_listed self.new other ≡ (not (eq_by_cmp by_time other timer) && is_listed self.old other) }
    {
        self.keys.remove(&DueKey::of(timer));
    }

    /// Adds the timers of a row's idle routes in a scope. After an `Err`, some of them may be missing.
    fn insert_row(&mut self, row: &Row, scope: Scope) -> Result<(), Memory>
        ensures { OnOk result ((timer : Timer)
            → is_listed self.new timer
            ≡ (is_among (timers_in scope row.now) timer || is_listed self.old timer)) }
    {
        if !row.shut {
            return Ok(());
        }
        for route in row.routes.as_slice() {
            if !route.flying && scope.has(route.output) {
                self.insert(route.timer(row.chunk))?;
            }
        }
        Ok(())
    }

    /// Removes the timers of a row's idle routes in a scope.
    fn remove_row(&mut self, row: &Row, scope: Scope)
        ensures { (timer : Timer)
            → is_listed self.new timer
            ≡ (not (is_among (timers_in scope row.now) timer) && is_listed self.old timer) }
    {
        if !row.shut {
            return;
        }
        for route in row.routes.as_slice() {
            if !route.flying && scope.has(route.output) {
                self.remove(route.timer(row.chunk));
            }
        }
    }

    /// Adds the timers of the idle routes of a slot's row. After an `Err`, some of them may be missing.
    fn insert_slot(&mut self, place: &Slot) -> Result<(), Memory>
        ensures { OnOk result ((timer : Timer)
            → is_listed self.new timer
            ≡ (is_among (timers_of_slot place.now) timer || is_listed self.old timer)) }
    {
        match &place.row {
            Some(row) => self.insert_row(row, Scope::All),
            None => Ok(()),
        }
    }

    /// Returns the first of the timers to an output that are due at `now` and come after `after`.
    fn next_to(&self, now: u64, output: OutputId, after: Option<Timer>) -> Option<Timer>
        ensures { IsFirstThat
            (λ timer. is_listed self.now timer && (is_next now after timer && timer.output.0 == output.0))
            result }
    {
        let start = start_after(output, after);
        let key = *self.keys.range((start, Bound::Unbounded)).next()?;
        if key.output == output && key.due <= now {
            Some(key.timer())
        } else {
            None
        }
    }

    /// Returns the first of the timers to the outputs of a mask that are due at `now` and come after `after`.
    /// It takes logarithmic time for each output of the mask.
    pub fn next(&self, now: u64, outputs: u64, after: Option<Timer>) -> Option<Timer>
        ensures { IsFirstThat (λ timer. is_listed self.now timer && is_next_to now outputs after timer) result }
    {
        let mut first = None;
        for output in 0..MOST_OUTPUTS as u32 {
            if is_set(outputs, output) {
                first = earlier_of(first, self.next_to(now, OutputId(output), after));
            }
        }
        first
    }
}

/// Returns the index of the rows of slots.
fn index_of(alloc: Global, places: &VecDeque<Slot>) -> Result<DueIndex, Memory>
    ensures { IfOk result (IsIndexOf (idle_timers_of (rows_in places.now.items))) }
{
    let mut index = DueIndex::new(alloc);
    for place in 0..places.len() {
        index.insert_slot(&places[place])?;
    }
    Ok(index)
}

/// Takes the index out. If there is none, this builds it from the rows, and allocates.
pub fn take_index(
    alloc: Global,
    index: &mut Option<DueIndex>,
    places: &VecDeque<Slot>,
) -> Result<DueIndex, Memory>
    requires { IsIndexIfAny (idle_timers_of (rows_in places.now.items)) index.old }
    ensures none { index.new ≡ None }
    ensures index { IfOk result (IsIndexOf (idle_timers_of (rows_in places.now.items))) }
{
    match index.take() {
        Some(index) => Ok(index),
        None => index_of(alloc, places),
    }
}

/// Removes the timers of a chunk's idle routes in a scope from the index, if there is one.
pub fn remove_timers(
    index: &mut Option<DueIndex>,
    places: &VecDeque<Slot>,
    chunk: ChunkId,
    scope: Scope,
)
    requires numbers { NumbersRise places.now.items }
    requires own { All HasOwnRow places.now.items }
    requires rise { ChunksRise (rows_in places.now.items) }
    requires index { IsIndexIfAny (idle_timers_of (rows_in places.now.items)) index.old }
    ensures { IsIndexIfAny (timers_outside chunk scope (idle_timers_of (rows_in places.now.items)))
        index.new }
{
    let Some(row) = find_row(places, chunk) else {
        return;
    };
    if let Some(index) = index {
        index.remove_row(row, scope);
    }
}

/// Adds the timers of a chunk's idle routes in a scope to the index, if there is one. If memory runs out,
/// this drops the index.
pub fn insert_timers(
    index: &mut Option<DueIndex>,
    places: &VecDeque<Slot>,
    chunk: ChunkId,
    scope: Scope,
)
    requires numbers { NumbersRise places.now.items }
    requires own { All HasOwnRow places.now.items }
    requires rise { ChunksRise (rows_in places.now.items) }
    requires index { IsIndexIfAny (timers_outside chunk scope (idle_timers_of (rows_in places.now.items)))
        index.old }
    ensures { IsIndexIfAny (idle_timers_of (rows_in places.now.items)) index.new }
{
    let Some(row) = find_row(places, chunk) else {
        return;
    };
    if let Some(mut listed) = index.take() {
        if listed.insert_row(row, scope).is_ok() {
            *index = Some(listed);
        }
    }
}
