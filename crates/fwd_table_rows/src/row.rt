//! Rows: a chunk and its routes.

ghost use Rattle.std.specs.Prelude.{◌≡◌, ◌++◌, Some, fold, filter, nat_le, OnOk};
ghost use Rattle.fwd_retry.specs.declared.timer.Timer.{Timer};
ghost use Rattle.fwd_retry.specs.Timer.{earlier as earlier_of, is_next};
ghost use Rattle.fwd_table_rows.specs.Rows.{seen_of, timers_of_row, waits_for};
ghost use Rattle.fwd_table_rows.specs.Routes.{flying_of, IsMaskOf};
ghost use Rattle.fwd_table_rows.specs.Changes.{row_with_change, scope_of, is_in_scope};
ghost use Rattle.fwd_table_rows.specs.Sums.{IsValidRow};
ghost use Rattle.fwd_table_rows.specs.Usage.{is_file};

use crate::route::{Change, Routes};
use fwd_base::{Bytes, ChunkId, InputId, Memory, OutputId};
use fwd_outside::Home;
use fwd_retry::Timer;

/// A chunk, and the outputs that it is pending for.
#[derive(Debug, Drop)]
pub struct Row {
    pub chunk: ChunkId,
    /// The input that its events came from; `None` for a recovered chunk.
    pub input: Option<InputId>,
    pub home: Home,
    pub tag: Bytes,
    /// The size of its content in bytes.
    pub size: u64,
    /// Whether it is closed, and takes no more events.
    pub shut: bool,
    pub routes: Routes,
}

/// The public view of a row.
#[derive(Clone, Copy, Debug, PartialEq, Eq)]
pub struct RowSeen {
    pub chunk: ChunkId,
    /// The input that the chunk's events came from; `None` for a recovered chunk.
    pub input: Option<InputId>,
    pub home: Home,
    /// The size of its content in bytes.
    pub size: u64,
    /// The outputs that it is pending for: bit `i` is output `i`.
    pub owed: u64,
    /// The outputs with a flush of it in flight.
    pub flying: u64,
    /// Whether it is closed, and takes no more events.
    pub shut: bool,
}

/// Returns whether a chunk is kept in a file.
pub fn is_file(home: Home) -> bool
    ensures { result ≡ is_file home }
{
    match home {
        Home::Disk => true,
        Home::Ram => false,
    }
}

/// A change of a row that stays.
#[derive(Clone, Copy, Debug, PartialEq, Eq)]
pub enum RowChange {
    Grows { size: u64 },
    Shuts { now: u64 },
    Changes { output: OutputId, change: Change },
    Resolves { output: OutputId },
}

/// Some of the routes of a row.
#[derive(Clone, Copy, Debug, PartialEq, Eq)]
pub enum Scope {
    Nothing,
    /// The route to an output.
    To(OutputId),
    All,
}

impl Scope {
    /// Returns whether the route to an output is one of them.
    pub fn has(self, output: OutputId) -> bool
        ensures { result ≡ is_in_scope self output }
    {
        match self {
            Scope::Nothing => false,
            Scope::To(own) => output == own,
            Scope::All => true,
        }
    }
}

impl RowChange {
    /// Returns the routes that may be idle or due at other times after the change than before it.
    pub fn scope(self) -> Scope
        ensures { result ≡ scope_of self }
    {
        match self {
            RowChange::Grows { .. } => Scope::Nothing,
            RowChange::Shuts { .. } => Scope::All,
            RowChange::Changes { output, .. } | RowChange::Resolves { output } => Scope::To(output),
        }
    }
}

impl Row {
    pub fn apply(&mut self, change: RowChange)
        ensures row { self.new ≡ row_with_change change self.old }
        ensures sound { IsValidRow self.old → IsValidRow self.new }
    {
        match change {
            RowChange::Grows { size } => self.size = size,
            RowChange::Shuts { now } => {
                self.shut = true;
                self.routes.begin(now);
            }
            RowChange::Changes { output, change } => self.routes.change(output, change),
            RowChange::Resolves { output } => self.routes.remove(output),
        }
    }

    pub fn seen(&self) -> RowSeen
        ensures value { result ≡ seen_of self.now }
        ensures owed { IsMaskOf self.now.routes result.owed }
        ensures flying { IsMaskOf (flying_of self.now.routes) result.flying }
    {
        RowSeen {
            chunk: self.chunk,
            input: self.input,
            home: self.home,
            size: self.size,
            owed: self.routes.owed(),
            flying: self.routes.flying_mask(),
            shut: self.shut,
        }
    }

    /// Returns whether the row is closed and its route to an output is pending and not in flight.
    pub fn waits_for(&self, output: OutputId) -> bool
        ensures { result ≡ waits_for output self.now }
    {
        self.shut && self.routes.is_flying(output) == Some(false)
    }

    /// Returns the first of `first` and the timers of the row's idle routes that are due at `now` and come
    /// after `after`.
    pub fn next(&self, now: u64, after: Option<Timer>, first: Option<Timer>) -> Option<Timer>
        ensures { result ≡ fold (λ found timer. Some (earlier_of found timer)) first
            (filter (is_next now after) (timers_of_row self.now)) }
    {
        if self.shut {
            self.routes.next(self.chunk, now, after, first)
        } else {
            first
        }
    }

    /// Appends the timers of the row's idle routes that are due at `now`.
    pub fn put_due(&self, now: u64, timers: &mut Vec<Timer>) -> Result<(), Memory>
        ensures { OnOk result
            (timers.new.items
            ≡ timers.old.items ++ filter (λ (t : Timer). nat_le t.due now) (timers_of_row self.now)) }
    {
        if !self.shut {
            return Ok(());
        }
        self.routes.put_due(self.chunk, now, timers)
    }
}
