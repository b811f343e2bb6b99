//! A keeper of offsets in memory, which records its calls. Any of them can be made to fail.
//!
//! Each answer is a function of the offsets that it had at first, the calls before it and the numbers of the
//! calls that are to fail (`is_played`), and is one that an honest keeper may give (`is_honest`). A keeper that
//! isn't told to fail doesn't (`only_told_calls_fail`).
#![tactic(auto)]

mod mem_keeper;
mod offsets;
mod theorems;

pub use fwd_keeper::{KeepErr, Keeper};
pub use mem_keeper::{KeeperNote, MemKeeper};
pub use theorems::only_told_calls_fail;
