//! The trait for the database of offsets.

ghost use Rattle.std.specs.Prelude.{◌≡◌, ℕ, IsErrOf};
ghost use Rattle.fwd_outside.specs.Log.{LogGrew, log_of_call};
ghost use Rattle.fwd_outside.specs.Cause.{HasCause};
ghost use Rattle.fwd_keeper.specs.Keeper.{KeeperLog, Get, Put, outcome};
ghost use Rattle.fwd_keeper.specs.declared.errors.KeepErr.TheVariants.{Failed};

use crate::KeepErr;

/// Keeps offsets in followed files, by the name of a database and the path of a file.
pub trait Keeper {
    /// The number of failed calls. The count saturates at 2^64 - 1.
    ghost faults: { Self → ℕ };

    /// The call log: the first offsets, and the calls so far with their answers, if one is kept.
    ghost call_log: { Self → KeeperLog };

    /// Returns the offset that was put last for a path, in bytes; `None` if none was put.
    fn get(&mut self, db: &[u8], path: &[u8]) -> Result<Option<u64>, KeepErr>
        ensures call_log { LogGrew (call_log self.old) (call_log self.new) (log_of_call (Get db.now path.now) (outcome result)) }
        ensures cause { HasCause (faults self.old) (faults self.new) (IsErrOf result Failed) };

    /// Puts an offset for a path. `Err` leaves the offset before, or this one.
    fn put(&mut self, db: &[u8], path: &[u8], place: u64) -> Result<(), KeepErr>
        ensures call_log { LogGrew (call_log self.old) (call_log self.new) (log_of_call (Put db.now path.now place) (outcome result)) }
        ensures cause { HasCause (faults self.old) (faults self.new) (IsErrOf result Failed) };
}
