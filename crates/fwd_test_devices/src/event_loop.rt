//! A loop that fails one call with out of memory.

use crate::faulty::Faulty;
use fwd_outside::{
    Begun, ConnId, Dialed, Ends, Happening, LinkId, Loop, Memory, OutputId, Pushed, Replied,
};
use std::alloc::Global;

#[tactic(auto, using(fwd_outside::proofs::LogGrowth::grew_none))]
impl<L: Loop> Loop for Faulty<'_, L> {
    ghost faults = { λ wanting. L.faults wanting.device };

    ghost counts = { λ wanting. L.counts wanting.device };

    ghost call_log = { λ wanting. L.call_log wanting.device };

    fn start(&mut self, ends: &Ends) -> Begun {
        match self.refusal.ask() {
            Ok(()) => self.device.start(ends),
            Err(Memory) => Begun::Memory,
        }
    }

    fn wait(&mut self, alloc: Global, until: u64, paused: u64) -> Result<Happening, Memory> {
        self.refusal.ask()?;
        self.device.wait(alloc, until, paused)
    }

    fn dial(&mut self, output: OutputId, tag: &[u8]) -> Dialed {
        match self.refusal.ask() {
            Ok(()) => self.device.dial(output, tag),
            Err(Memory) => Dialed::Memory,
        }
    }

    fn push(&mut self, link: LinkId, bytes: &[u8]) -> Pushed {
        match self.refusal.ask() {
            Ok(()) => self.device.push(link, bytes),
            Err(Memory) => Pushed::Memory,
        }
    }

    fn close(&mut self, link: LinkId) -> Result<(), Memory> {
        self.refusal.ask()?;
        self.device.close(link)
    }

    fn reply(&mut self, conn: ConnId, bytes: &[u8]) -> Replied {
        match self.refusal.ask() {
            Ok(()) => self.device.reply(conn, bytes),
            Err(Memory) => Replied::Memory,
        }
    }

    fn drop_conn(&mut self, conn: ConnId) -> Result<(), Memory> {
        self.refusal.ask()?;
        self.device.drop_conn(conn)
    }

    fn word(&mut self) -> Result<u64, Memory> {
        self.refusal.ask()?;
        self.device.word()
    }
}
