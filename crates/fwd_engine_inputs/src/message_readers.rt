ghost use Rattle.std.specs.Prelude.{◌≡◌, ◌==◌, ◌++◌, ◌-◌, ◌^◌, min, ℕ, List, [], All, is_some, IfOk, OnOk, OnErr, if◌then◌else◌};
ghost use Rattle.fwd_frames.specs.Streams.{conn_input};
ghost use Rattle.fwd_wire.specs.Fits.{ContentFits};
ghost use Rattle.fwd_wire.specs.Stream.{waiting};
ghost use Rattle.fwd_in_forward.specs.Received.{all_received, KeepsEncodings};
ghost use Rattle.fwd_model.specs.Messages.{completed_messages, becomes_malformed};
ghost use Rattle.fwd_engine_inputs.specs.ReaderStates.{ending, reader_in, all_unfinished, has_paused_input, droppable_bytes, IsLargest};

use fwd_base::{ConnId, Memory, is_set};
use fwd_frames::Connections;
use fwd_in_forward::{Arrivals, ForwardConn};
use std::alloc::Global;
use std::collections::BTreeMap;

/// The readers of connections that carry messages. A connection without a reader is at the start of its
/// stream, so only those have one whose last message is unfinished or malformed.
#[derive(Drop)]
pub struct MessageReaders {
    wires: BTreeMap<u64, ForwardConn>,
}

/// The unfinished messages of all connections.
#[derive(Clone, Copy, Debug)]
pub struct Unfinished {
    /// How many bytes they have together, at most `u64::MAX`.
    pub bytes: u64,
    /// The connection with the longest one, among those whose input isn't paused.
    pub largest: Option<ConnId>,
}

/// Takes the next bytes of a stream, and returns the messages that end in them.
fn receive_from(wire: &mut ForwardConn, piece: &[u8]) -> Result<Arrivals, Memory>
    ensures messages { (stream : List ℕ) → wire.old ≡ ending stream →
        IfOk result (λ arrived. all_received arrived.messages ≡ completed_messages stream piece.now) }
    ensures fault { (stream : List ℕ) → wire.old ≡ ending stream →
        IfOk result (λ arrived. is_some arrived.fault ≡ becomes_malformed stream piece.now) }
    ensures wire { (stream : List ℕ) → wire.old ≡ ending stream → OnOk result (wire.new ≡ ending (stream ++ piece.now)) }
    ensures fits { IfOk result (λ arrived. All ContentFits (all_received arrived.messages)) }
    ensures encodings { IfOk result (λ arrived. All KeepsEncodings arrived.messages) }
    ensures err { OnErr result (wire.new ≡ wire.old) }
{
    wire.receive(piece)
}

/// Whether an input is in the mask of paused inputs. No input isn't.
fn is_paused(input: Option<u32>, paused: u64) -> bool
    ensures { result ≡ has_paused_input paused input }
{
    match input {
        Some(input) => is_set(paused, input),
        None => false,
    }
}

impl MessageReaders {
    /// All streams are at their start.
    pub fn new(alloc: Global) -> Self
        ensures { (n : ℕ) → reader_in result n ≡ waiting [] }
    {
        MessageReaders {
            wires: BTreeMap::new(alloc),
        }
    }

    /// Takes the next bytes of a connection's stream. Returns the messages that end in them, and the fault
    /// that broke the stream after them, if there is one. The other streams stay as they are. After
    /// `Memory` all of them do.
    pub fn receive(&mut self, alloc: Global, conn: u64, piece: &[u8]) -> Result<Arrivals, Memory>
        ensures messages { (stream : List ℕ) → reader_in self.old conn ≡ ending stream →
            IfOk result (λ arrived. all_received arrived.messages ≡ completed_messages stream piece.now) }
        ensures fault { (stream : List ℕ) → reader_in self.old conn ≡ ending stream →
            IfOk result (λ arrived. is_some arrived.fault ≡ becomes_malformed stream piece.now) }
        ensures wires { (stream : List ℕ) → reader_in self.old conn ≡ ending stream →
            OnOk result ((n : ℕ) → reader_in self.new n ≡ (if conn == n then ending (stream ++ piece.now) else reader_in self.old n)) }
        ensures fits { IfOk result (λ arrived. All ContentFits (all_received arrived.messages)) }
        ensures encodings { IfOk result (λ arrived. All KeepsEncodings arrived.messages) }
        ensures err { OnErr result ((n : ℕ) → reader_in self.new n ≡ reader_in self.old n) }
    {
        match self.wires.get_mut(&conn) {
            Some(wire) => {
                let given = receive_from(wire, piece)?;
                if wire.is_at_start() {
                    self.wires.remove(&conn);
                }
                Ok(given)
            }
            None => {
                let mut wire = ForwardConn::new(alloc);
                let given = receive_from(&mut wire, piece)?;
                if !wire.is_at_start() {
                    self.wires.insert(conn, wire)?;
                }
                Ok(given)
            }
        }
    }

    /// Returns how many bytes all unfinished messages have together, and which connection has the longest
    /// one, among those whose input isn't in the mask of paused inputs.
    pub fn unfinished(&self, connections: &Connections, paused: u64) -> Unfinished
        ensures bytes { result.bytes ≡ min (all_unfinished self.now) (2 ^ 64 - 1) }
        ensures largest { IsLargest (droppable_bytes paused (conn_input connections.now) (reader_in self.now)) result.largest }
    {
        let mut bytes = 0u64;
        let mut most = 0;
        let mut largest = None;
        for (conn, wire) in &self.wires {
            let rest = wire.unfinished();
            bytes = bytes.saturating_add(rest as u64);
            if most < rest && !is_paused(connections.input(*conn), paused) {
                most = rest;
                largest = Some(ConnId(*conn));
            }
        }
        Unfinished { bytes, largest }
    }

    /// Removes the reader of a connection: its stream is at the start again. The other streams stay as they
    /// are.
    pub fn leave(&mut self, conn: u64)
        ensures { (n : ℕ) → reader_in self.new n ≡ (if conn == n then waiting [] else reader_in self.old n) }
    {
        self.wires.remove(&conn);
    }
}
