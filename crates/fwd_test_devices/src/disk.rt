//! A disk that fails one call with out of memory.

use crate::faulty::Faulty;
use fwd_outside::{Bytes, Disk, DiskErr, Names};
use std::alloc::Global;

#[tactic(auto, using(fwd_outside::proofs::LogGrowth::grew_none))]
impl<D: Disk> Disk for Faulty<'_, D> {
    ghost faults = { λ wanting. D.faults wanting.device };

    ghost call_log = { λ wanting. D.call_log wanting.device };

    fn place(&mut self, name: &[u8], bytes: &[u8]) -> Result<(), DiskErr> {
        self.refusal.ask()?;
        self.device.place(name, bytes)
    }

    fn write_at(&mut self, name: &[u8], at: u64, bytes: &[u8]) -> Result<(), DiskErr> {
        self.refusal.ask()?;
        self.device.write_at(name, at, bytes)
    }

    fn sync(&mut self, name: &[u8]) -> Result<(), DiskErr> {
        self.refusal.ask()?;
        self.device.sync(name)
    }

    fn remove(&mut self, name: &[u8]) -> Result<(), DiskErr> {
        self.refusal.ask()?;
        self.device.remove(name)
    }

    fn read(&mut self, alloc: Global, name: &[u8], at: u64, len: u64) -> Result<Bytes, DiskErr> {
        self.refusal.ask()?;
        self.device.read(alloc, name, at, len)
    }

    fn list(&mut self, alloc: Global, folder: &[u8]) -> Result<Names, DiskErr> {
        self.refusal.ask()?;
        self.device.list(alloc, folder)
    }
}
