//! The table of pending deliveries: which outputs each chunk is pending for, how often each of these has
//! failed, and when it is due. Also the counters of the report.
#![tactic(auto)]

mod due_index;
mod outcome;
mod table;
mod tally;

pub use fwd_table_rows::{RowSeen, is_file};
pub use outcome::{Answer, Outcome, may_retry};
pub use table::Table;
pub use tally::{InputTallies, InputTally, OutputTallies, OutputTally, Tally};
