//! Files that fail one call with out of memory.

use crate::faulty::Faulty;
use fwd_outside::{Bytes, FileErr, Files};
use std::alloc::Global;

#[tactic(auto, using(fwd_outside::proofs::LogGrowth::grew_none))]
impl<F: Files> Files for Faulty<'_, F> {
    ghost faults = { λ wanting. F.faults wanting.device };

    ghost call_log = { λ wanting. F.call_log wanting.device };

    fn length(&mut self, path: &[u8]) -> Result<u64, FileErr> {
        self.refusal.ask()?;
        self.device.length(path)
    }

    fn read_at(&mut self, alloc: Global, path: &[u8], at: u64, max: u64) -> Result<Bytes, FileErr> {
        self.refusal.ask()?;
        self.device.read_at(alloc, path, at, max)
    }
}
