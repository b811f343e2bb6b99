//! The trait for the event loop that the engine runs on.

ghost use Rattle.std.specs.Prelude.{◌≡◌, ℕ, ◌≤◌, IfOk};
ghost use Rattle.fwd_outside.specs.Log.{LogGrew, log_of_call};
ghost use Rattle.fwd_outside.specs.Cause.{HasCause};
ghost use Rattle.fwd_outside.specs.Loop.{LoopLog, LoopCounts, Start, Wait, Dial, Push, Close, Reply, DropConn, Word, start_outcome, dial_outcome, push_outcome, reply_outcome, loop_outcome, counts_after_wait, counts_after_dial, IsNewLink, TakesAtMost, PushFails, WaitFails, MayOccur};
ghost use Rattle.fwd_outside.specs.declared.answers.Begun.TheVariants as begun;
ghost use Rattle.fwd_outside.specs.declared.answers.Dialed.TheVariants as dialed;
ghost use Rattle.fwd_outside.specs.declared.answers.Replied.TheVariants as replied;

use crate::{Begun, Dialed, Ends, Happening, Pushed, Replied};
use fwd_base::{ConnId, LinkId, Memory, OutputId};
use std::alloc::Global;

/// The event loop of an engine. It brings one event at a time, and accepts the bytes of outputs. The engine
/// reaches all outputs, also standard output and files, by `dial`, `push` and `close`.
pub trait Loop {
    /// The number of failed calls. The count saturates at 2^64 - 1.
    ghost faults: { Self → ℕ };

    /// The number of events so far, the greatest number of a link, and whether the loop never ends.
    ghost counts: { Self → LoopCounts };

    /// The call log: what the loop is to bring and answer, and the calls so far with their answers, if it
    /// keeps one.
    ghost call_log: { Self → LoopLog };

    /// Opens the endpoints of the inputs. Called once, before the first `wait`.
    fn start(&mut self, ends: &Ends) -> Begun
        ensures call_log { LogGrew (call_log self.old) (call_log self.new) (log_of_call (Start ends.now) (start_outcome result)) }
        ensures cause { HasCause (faults self.old) (faults self.new) (result ≡ begun.Failed) }
        ensures same { counts self.new ≡ counts self.old };

    /// Returns the next event. A `Tick` comes when the clock reads `until` at the latest. No event comes
    /// from an input whose bit is set in `paused`.
    fn wait(&mut self, alloc: Global, until: u64, paused: u64) -> Result<Happening, Memory>
        ensures call_log { LogGrew (call_log self.old) (call_log self.new) (log_of_call (Wait until paused) (loop_outcome result)) }
        ensures cause { HasCause (faults self.old) (faults self.new) (WaitFails result) }
        ensures counted { counts self.new ≡ counts_after_wait (counts self.old) result }
        ensures allowed { IfOk result (MayOccur (counts self.old).endless paused) };

    /// Opens a link to the endpoint of an output, for records of a tag.
    fn dial(&mut self, output: OutputId, tag: &[u8]) -> Dialed
        ensures call_log { LogGrew (call_log self.old) (call_log self.new) (log_of_call (Dial output.0 tag.now) (dial_outcome result)) }
        ensures cause { HasCause (faults self.old) (faults self.new) (result ≡ dialed.Refused) }
        ensures counted { counts self.new ≡ counts_after_dial (counts self.old) result }
        ensures newest { IsNewLink (counts self.old) result };

    /// Sends bytes over a link, which accepts as many of the first as it has room for. A link that accepts 0
    /// bytes of a buffer that isn't empty has failed.
    fn push(&mut self, link: LinkId, bytes: &[u8]) -> Pushed
        ensures call_log { LogGrew (call_log self.old) (call_log self.new) (log_of_call (Push link.0 bytes.now) (push_outcome result)) }
        ensures cause { HasCause (faults self.old) (faults self.new) (PushFails bytes.now result) }
        ensures same { counts self.new ≡ counts self.old }
        ensures within { TakesAtMost bytes.now result };

    /// Closes a link.
    fn close(&mut self, link: LinkId) -> Result<(), Memory>
        ensures call_log { LogGrew (call_log self.old) (call_log self.new) (log_of_call (Close link.0) (loop_outcome result)) }
        ensures later { faults self.old ≤ faults self.new }
        ensures same { counts self.new ≡ counts self.old };

    /// Writes a reply over a connection, which accepts the whole reply or is broken.
    fn reply(&mut self, conn: ConnId, bytes: &[u8]) -> Replied
        ensures call_log { LogGrew (call_log self.old) (call_log self.new) (log_of_call (Reply conn.0 bytes.now) (reply_outcome result)) }
        ensures cause { HasCause (faults self.old) (faults self.new) (result ≡ replied.Broken) }
        ensures same { counts self.new ≡ counts self.old };

    /// Closes a connection.
    fn drop_conn(&mut self, conn: ConnId) -> Result<(), Memory>
        ensures call_log { LogGrew (call_log self.old) (call_log self.new) (log_of_call (DropConn conn.0) (loop_outcome result)) }
        ensures later { faults self.old ≤ faults self.new }
        ensures same { counts self.new ≡ counts self.old };

    /// Returns a random word.
    fn word(&mut self) -> Result<u64, Memory>
        ensures call_log { LogGrew (call_log self.old) (call_log self.new) (log_of_call Word (loop_outcome result)) }
        ensures later { faults self.old ≤ faults self.new }
        ensures same { counts self.new ≡ counts self.old };
}
