//! Offsets in followed files, kept in databases that sqlite3 reads.
//!
//! Each name of a database is a file with one table of paths and offsets. A put is one synced commit. A
//! database that fails is closed, and opened again at a later call; the log says both. The table has the file
//! of each offset, so that a run reads on in that file if it was renamed meanwhile; and offsets of Fluent Bit
//! are taken over from its own table. The keeper has a ghost log of its calls with the answers that the
//! databases gave; nothing is stated about what a file holds.
#![tactic(auto)]

mod database;
mod databases;
mod errors;
mod keeper_log;
mod messages;
mod sqlite_keeper;
mod table;

pub use fwd_keeper::{KeepErr, Keeper, held_was_given_or_put};
pub use fwd_keeper_mem::{KeeperNote, MemKeeper};
pub use keeper_log::{KeeperCalls, LoggedCall, LoggedOffsets};
pub use sqlite_keeper::SqliteKeeper;
