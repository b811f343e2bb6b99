//! A sink that fails one call with out of memory.

use crate::faulty::Faulty;
use fwd_outside::{Sink, SinkErr};

#[tactic(auto, using(fwd_outside::proofs::LogGrowth::grew_none))]
impl<S: Sink> Sink for Faulty<'_, S> {
    ghost faults = { λ wanting. S.faults wanting.device };

    ghost call_log = { λ wanting. S.call_log wanting.device };

    fn write(&mut self, bytes: &[u8]) -> Result<(), SinkErr> {
        self.refusal.ask()?;
        self.device.write(bytes)
    }
}
