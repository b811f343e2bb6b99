//! `Sink` on standard output.

ghost use Rattle.std.specs.Prelude.{Some, [], ◌≡◌};

use crate::sink_calls::SinkCalls;
use crate::whole_write::write_whole;
use fwd_outside::{Sink, SinkErr};

/// Standard output.
#[derive(Drop)]
pub struct StdSink {
    rt: HostRuntime,
    faults: u64,
    calls: SinkCalls,
}

impl StdSink {
    /// Returns the sink with an empty log.
    pub fn new(rt: HostRuntime) -> Self
        ensures { result.calls.entries ≡ [] }
    {
        StdSink {
            rt,
            faults: 0,
            calls: SinkCalls::new(),
        }
    }
}

impl Sink for StdSink {
    ghost faults = { λ sink. sink.faults };

    ghost call_log = { λ sink. Some (tt, sink.calls.entries) };

    fn write(&mut self, bytes: &[u8]) -> Result<(), SinkErr> {
        let stopped = write_whole(&mut self.rt.stdout(), bytes).err();
        self.calls = self.calls.then(&(bytes, stopped));
        match stopped {
            None => Ok(()),
            Some(_) => {
                self.faults = self.faults.saturating_add(1);
                Err(SinkErr::Failed)
            }
        }
    }
}
