//! Totals over the rows of a table, maintained incrementally.

ghost use Rattle.std.specs.Prelude.{◌≡◌, ◌+◌, ◌<◌, ◌==◌, ◌&&◌, ◌||◌, ℕ, [], not, length, slice_index};
ghost use Rattle.std.specs.Prelude.{slice_index_or, if◌then◌else◌};
ghost use Rattle.fwd_table_rows.specs.Usage.{in_file, is_recovered_row, flies};
ghost use Rattle.fwd_table_rows.specs.Rows.{is_owed_row};
ghost use Rattle.fwd_table_rows.specs.Routes.{RiseFrom};
ghost use Rattle.fwd_table_rows.specs.Sums.{Counted, file_size, route_part, part_at, part, total, AreSums};
ghost use Rattle.fwd_table_rows.specs.Sums.{CanShift, Shifts, IsTotal, held_size};

use crate::route::Route;
use crate::row::{Row, is_file};
use fwd_base::limits::{MOST_INPUTS, MOST_OUTPUTS};
use fwd_base::{InputId, OutputId};

/// A total over the routes of each output.
#[derive(Clone, Copy, Debug, PartialEq, Eq)]
pub enum ByOutput {
    /// The number of chunks in flight.
    Flights,
    /// The bytes of chunks in files that are in flight.
    FlyingBytes,
    /// The bytes of closed chunks in files that wait for the output.
    WaitingBytes,
}

/// Whether a part is added to a total or subtracted from it.
#[derive(Clone, Copy, Debug, PartialEq, Eq)]
pub enum Way {
    In,
    Out,
}

impl Way {
    fn shift(self, sum: u128, part: u64) -> u128
        requires { CanShift self sum part }
        ensures { Shifts self sum part result }
    {
        match self {
            Way::In => sum + u128::from(part),
            Way::Out => sum - u128::from(part),
        }
    }
}

/// The totals over the rows of a table. The part of a row is subtracted before the row changes, and added
/// again after the change.
#[derive(Debug, Drop)]
pub struct Sums {
    /// The number of chunks in flight to each output.
    flights: [u128; MOST_OUTPUTS],
    /// The bytes of chunks in files that are in flight to each output.
    flying: [u128; MOST_OUTPUTS],
    /// The bytes of closed chunks in files that wait for each output.
    waiting: [u128; MOST_OUTPUTS],
    /// The bytes of memory that the chunks of each input use.
    memory: [u128; MOST_INPUTS],
    /// The number of chunks in files that are in flight.
    files_up: u128,
    /// The bytes of recovered chunks that are in flight.
    found_up: u128,
    /// The number of rows that are pending for no output.
    unowed: u128,
    /// The number of rows.
    rows: u128,
}

/// Returns the bytes that a row's chunk has in a file.
fn file_size(row: &Row) -> u64
    ensures { result ≡ file_size row.now }
{
    if is_file(row.home) { row.size } else { 0 }
}

/// Returns the part of a route in a total of its output.
fn route_part(what: ByOutput, row: &Row, route: &Route) -> u64
    ensures { result ≡ route_part what row.now route.now }
{
    match what {
        ByOutput::Flights => u64::from(route.flying),
        ByOutput::FlyingBytes if route.flying => file_size(row),
        ByOutput::WaitingBytes if row.shut && !route.flying => file_size(row),
        ByOutput::FlyingBytes | ByOutput::WaitingBytes => 0,
    }
}

/// Returns the bytes of memory that a row's chunk uses for its input.
fn held_size(row: &Row) -> u64
    ensures { result ≡ held_size row.now }
{
    let is_wanted = !row.shut || !row.routes.is_empty();
    if !is_file(row.home) && is_wanted {
        row.size
    } else {
        0
    }
}

/// Returns 1 if a row's chunk is in a file and in flight, else 0.
fn files_part(row: &Row) -> u64
    ensures { result ≡ part Counted.FilesUp 0 row.now }
{
    u64::from(is_file(row.home) && row.routes.any_flies())
}

/// Returns the bytes of a row's chunk if it is recovered and in flight, else 0.
fn found_part(row: &Row) -> u64
    ensures { result ≡ part Counted.FoundUp 0 row.now }
{
    if row.input.is_none() && row.routes.any_flies() {
        row.size
    } else {
        0
    }
}

/// Returns 1 if a row is pending for no output, else 0.
fn unowed_part(row: &Row) -> u64
    ensures { result ≡ part Counted.Unowed 0 row.now }
{
    u64::from(row.routes.is_empty())
}

/// Adds the parts of a row's routes to the totals of their outputs, or subtracts them.
fn shift_routes(sums: &mut [u128], what: ByOutput, row: &Row, way: Way)
    requires long { length sums.old ≡ 64 }
    requires can { (key : ℕ) → key < 64
        → CanShift way (slice_index sums.old key) (part (Counted.Over what) key row.now) }
    ensures long { length sums.new ≡ 64 }
    ensures shifts { (key : ℕ) → key < 64
        → Shifts way (slice_index sums.old key) (part (Counted.Over what) key row.now)
        (slice_index sums.new key) }
{
    for route in row.routes.as_slice() {
        let part = route_part(what, row, route);
        let place = route.output.0 as usize;
        sums[place] = way.shift(sums[place], part);
    }
}

/// Adds a row's part to the total of its input, or subtracts it. Inputs past the last one aren't counted.
fn shift_memory(sums: &mut [u128], row: &Row, way: Way)
    requires long { length sums.old ≡ 64 }
    requires can { (key : ℕ) → key < 64
        → CanShift way (slice_index sums.old key) (part Counted.Memory key row.now) }
    ensures long { length sums.new ≡ 64 }
    ensures shifts { (key : ℕ) → key < 64
        → Shifts way (slice_index sums.old key) (part Counted.Memory key row.now) (slice_index sums.new key) }
{
    if let Some(input) = row.input {
        let place = input.0 as usize;
        if place < sums.len() {
            sums[place] = way.shift(sums[place], held_size(row));
        }
    }
}

impl Sums {
    /// Returns the totals over no rows.
    pub fn new() -> Sums
        ensures { AreSums result [] }
    {
        Sums {
            flights: [0; MOST_OUTPUTS],
            flying: [0; MOST_OUTPUTS],
            waiting: [0; MOST_OUTPUTS],
            memory: [0; MOST_INPUTS],
            files_up: 0,
            found_up: 0,
            unowed: 0,
            rows: 0,
        }
    }

    /// Adds a row's parts, or subtracts them.
    pub fn shift(&mut self, row: &Row, way: Way)
        requires { (counted : Counted) (key : ℕ) → key < 64
            → CanShift way (total counted key self.old) (part counted key row.now) }
        ensures { (counted : Counted) (key : ℕ) → key < 64
            → Shifts way (total counted key self.old) (part counted key row.now)
            (total counted key self.new) }
    {
        shift_routes(&mut self.flights, ByOutput::Flights, row, way);
        shift_routes(&mut self.flying, ByOutput::FlyingBytes, row, way);
        shift_routes(&mut self.waiting, ByOutput::WaitingBytes, row, way);
        shift_memory(&mut self.memory, row, way);
        self.files_up = way.shift(self.files_up, files_part(row));
        self.found_up = way.shift(self.found_up, found_part(row));
        self.unowed = way.shift(self.unowed, unowed_part(row));
        self.rows = way.shift(self.rows, 1);
    }

    /// Returns the number of chunks in flight to an output.
    pub fn flights(&self, output: OutputId) -> u128
        ensures { IsTotal (Counted.Over ByOutput.Flights) output.0 self.now result }
    {
        at(&self.flights, output)
    }

    /// Returns the bytes of chunks in files that are in flight to an output.
    pub fn flying_bytes(&self, output: OutputId) -> u128
        ensures { IsTotal (Counted.Over ByOutput.FlyingBytes) output.0 self.now result }
    {
        at(&self.flying, output)
    }

    /// Returns the bytes of closed chunks in files that wait for an output.
    pub fn waiting_bytes(&self, output: OutputId) -> u128
        ensures { IsTotal (Counted.Over ByOutput.WaitingBytes) output.0 self.now result }
    {
        at(&self.waiting, output)
    }

    /// Returns the bytes of memory that the chunks of an input use.
    pub fn memory(&self, input: InputId) -> u128
        requires { input.0 < 64 }
        ensures { result ≡ total Counted.Memory input.0 self.now }
    {
        self.memory[input.0 as usize]
    }

    /// Returns the number of chunks in files that are in flight.
    pub fn files_up(&self) -> u128
        ensures { result ≡ total Counted.FilesUp 0 self.now }
    {
        self.files_up
    }

    /// Returns the bytes of recovered chunks that are in flight.
    pub fn found_up(&self) -> u128
        ensures { result ≡ total Counted.FoundUp 0 self.now }
    {
        self.found_up
    }

    /// Returns whether there is a row that is pending for no output.
    pub fn has_unowed(&self) -> bool
        ensures { result ≡ not (total Counted.Unowed 0 self.now == 0) }
    {
        self.unowed != 0
    }

    /// Returns the number of rows.
    pub fn rows(&self) -> u128
        ensures { result ≡ total Counted.Rows 0 self.now }
    {
        self.rows
    }
}

/// Returns the total of an output; 0 past the last one.
fn at(sums: &[u128], output: OutputId) -> u128
    ensures { result ≡ slice_index_or sums.now output.0 0 }
{
    match sums.get(output.0 as usize) {
        Some(sum) => *sum,
        None => 0,
    }
}
