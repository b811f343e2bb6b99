//! The rows of the table of pending deliveries: which outputs each chunk is pending for, the slots that
//! hold the rows, and totals over them.
#![tactic(auto)]

mod route;
mod row;
mod slot;
mod sums;

pub use route::{Change, Route, Routes};
pub use row::{Row, RowChange, RowSeen, Scope, is_file};
pub use slot::{
    Slot, change_row, clear_row, close_gaps, drop_first_gaps, drop_unowed_places, due_in, find_row,
    free_end, make_storage, next_in, sums_of,
};
pub use sums::{ByOutput, Sums, Way};
