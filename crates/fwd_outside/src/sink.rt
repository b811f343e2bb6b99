//! The trait for standard output and similar targets, which are only written.

ghost use Rattle.std.specs.Prelude.{ℕ, List, IsErrOf};
ghost use Rattle.fwd_outside.specs.Log.{LogGrew};
ghost use Rattle.fwd_outside.specs.Cause.{HasCause};
ghost use Rattle.fwd_outside.specs.Sink.{SinkLog, SinkEntry, LogsWrite};
ghost use Rattle.fwd_outside.specs.declared.errors.SinkErr.TheVariants.{Failed};

use crate::SinkErr;

/// A target that text is written to.
pub trait Sink {
    /// The number of failed writes. The count saturates at 2^64 - 1.
    ghost faults: { Self → ℕ };

    /// The writes so far with their answers, if the sink keeps a log.
    ghost call_log: { Self → SinkLog };

    /// Writes all bytes. After `Err` a prefix of them may be written.
    fn write(&mut self, bytes: &[u8]) -> Result<(), SinkErr>
        ensures call_log { (entries : List SinkEntry) × LogsWrite bytes.now result entries × LogGrew (call_log self.old) (call_log self.new) entries }
        ensures cause { HasCause (faults self.old) (faults self.new) (IsErrOf result Failed) };
}
