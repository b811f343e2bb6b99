ghost use Rattle.std.specs.Prelude.{◌≡◌, ◌-◌, ◌^◌, min, ℕ, [], All, Some, is_some, option_copied, IfOk, OnOk, OnErr};
ghost use Rattle.fwd_base.specs.declared.ids.ConnId.{ConnId};
ghost use Rattle.fwd_base.specs.declared.ids.InputId.{InputId};
ghost use Rattle.fwd_outside.specs.declared.happening.Happening.TheVariants as happening;
ghost use Rattle.fwd_frames.specs.Lines.{last_line};
ghost use Rattle.fwd_wire.specs.Fits.{ContentFits};
ghost use Rattle.fwd_in_forward.specs.Received.{all_received, KeepsEncodings};
ghost use Rattle.fwd_settings.specs.declared.settings_types.AllSettings.{AllSettings};
ghost use Rattle.fwd_model.specs.Fact.{LineStream, MessageStream, Standard, Happened, Disconnected};
ghost use Rattle.fwd_model.specs.Settings.{input_at, accepts_connections_at};
ghost use Rattle.fwd_model.specs.Streams.{input_of, is_joined, stream_by, stream_of, said};
ghost use Rattle.fwd_model.specs.Batches.{completed_lines};
ghost use Rattle.fwd_model.specs.Messages.{completed_messages, becomes_malformed};
ghost use Rattle.fwd_engine_inputs.specs.ReaderStates.{ending, all_unfinished, droppable_bytes, IsLargest};
ghost use Rattle.fwd_engine_inputs.specs.StreamsRepresent.{StreamsRepresent, StreamsAnswer, StreamsNote, StreamsNoteWhere, StreamsUnchanged, stream_of_kind};

use crate::message_readers::{MessageReaders, Unfinished};
use crate::stream_kind::StreamKind;
use fwd_base::{ConnId, InputId, Memory};
use fwd_frames::{Connections, Lines, Readers};
use fwd_in_forward::Arrivals;
use fwd_settings::{InputKind, InputSet};
use std::alloc::Global;

/// The connections, and the readers of their streams and of standard input.
#[derive(Drop)]
pub struct InputStreams {
    connections: Connections,
    peers: Readers,
    standard: Readers,
    wires: MessageReaders,
    alloc: Global,
}

impl InputStreams {
    /// No connection is there, and no bytes were read.
    pub fn new(alloc: Global) -> Self
        ensures { (s : AllSettings) → StreamsRepresent s result [] }
    {
        InputStreams {
            connections: Connections::new(alloc),
            peers: Readers::new(alloc),
            standard: Readers::new(alloc),
            wires: MessageReaders::new(alloc),
            alloc,
        }
    }

    /// Adds the connection of a peer to an input, if peers connect to that input. A connection that is
    /// there already stays with its input.
    pub fn add_connection(
        &mut self,
        input: InputId,
        conn: ConnId,
        hears: bool,
    ) -> Result<(), Memory>
        ensures notes { OnOk result (StreamsNoteWhere self.old self.new (λ s h. hears ≡ accepts_connections_at s input.0) (Happened (happening.Joined input conn))) }
        ensures err { OnErr result (StreamsUnchanged self.old self.new) }
    {
        if hears && self.connections.input(conn.0).is_none() {
            self.connections.join(conn.0, input.0)?;
        }
        Ok(())
    }

    /// Returns whether a connection belongs to an input.
    fn is_joined(&self, input: InputId, conn: ConnId) -> bool
        ensures { StreamsAnswer self.now (λ s h. result ≡ is_joined s h input.0 conn.0) }
    {
        match self.connections.input(conn.0) {
            None => false,
            Some(other) => other == input.0,
        }
    }

    /// Removes the connection of a peer that has left its input.
    pub fn leave_input(&mut self, input: InputId, conn: ConnId)
        ensures { StreamsNote self.old self.new (Happened (happening.Gone input conn)) }
    {
        if self.is_joined(input, conn) {
            self.remove_connection(conn);
        }
    }

    /// Removes a connection and its readers.
    pub fn remove_connection(&mut self, conn: ConnId)
        ensures { StreamsNote self.old self.new (Disconnected conn.0) }
    {
        self.connections.leave(conn.0);
        self.peers.leave(conn.0);
        self.wires.leave(conn.0);
    }

    /// Returns what the bytes of a connection are to an input with these settings.
    pub fn stream(&self, input: InputId, conn: ConnId, set: Option<&InputSet>) -> StreamKind
        ensures { StreamsAnswer self.now (λ s h. option_copied set.entry ≡ input_at s input.0 → stream_of_kind input.0 conn.0 result ≡ stream_of s h input.0 conn.0) }
    {
        match set {
            None => StreamKind::Nobody,
            Some(set) => kind_by(&set.kind, self.is_joined(input, conn), conn),
        }
    }

    /// Feeds bytes from a peer that sends lines, and returns the lines that end in them. After `Memory` all
    /// is unchanged.
    pub fn feed_peer_lines(&mut self, conn: ConnId, bytes: &[u8]) -> Result<Lines, Memory>
        ensures notes { OnOk result ((input : InputId) → StreamsNoteWhere self.old self.new (λ s h. stream_of s h input.0 conn.0 ≡ Some (LineStream conn.0)) (Happened (happening.Piece input conn bytes.now))) }
        ensures lines { StreamsAnswer self.old (λ s h. IfOk result (λ lines. lines ≡ completed_lines (said s h (LineStream conn.0)) bytes.now)) }
        ensures err { OnErr result (StreamsUnchanged self.old self.new) }
    {
        self.peers.feed(self.alloc, conn.0, bytes)
    }

    /// Takes bytes from a peer that sends messages, and returns the messages that end in them, and the
    /// fault that broke the stream after them, if there is one. After `Memory` all is unchanged.
    pub fn receive_peer_messages(&mut self, conn: ConnId, bytes: &[u8]) -> Result<Arrivals, Memory>
        ensures notes { OnOk result ((input : InputId) → StreamsNoteWhere self.old self.new (λ s h. stream_of s h input.0 conn.0 ≡ Some (MessageStream conn.0)) (Happened (happening.Piece input conn bytes.now))) }
        ensures messages { StreamsAnswer self.old (λ s h. IfOk result (λ arrived. all_received arrived.messages ≡ completed_messages (said s h (MessageStream conn.0)) bytes.now)) }
        ensures fault { StreamsAnswer self.old (λ s h. IfOk result (λ arrived. is_some arrived.fault ≡ becomes_malformed (said s h (MessageStream conn.0)) bytes.now)) }
        // The messages can be encoded again.
        ensures fits { IfOk result (λ arrived. All ContentFits (all_received arrived.messages)) }
        // Events that came encoded are those that the messages say.
        ensures encodings { IfOk result (λ arrived. All KeepsEncodings arrived.messages) }
        ensures err { OnErr result (StreamsUnchanged self.old self.new) }
    {
        self.wires.receive(self.alloc, conn.0, bytes)
    }

    /// Returns how many bytes all unfinished messages have together, and which connection has the longest
    /// one, among those whose input isn't in the mask of paused inputs.
    pub fn unfinished(&self, paused: u64) -> Unfinished
        ensures bytes { result.bytes ≡ min (all_unfinished self.now.wires) (2 ^ 64 - 1) }
        ensures largest { StreamsAnswer self.now (λ s h. IsLargest (droppable_bytes paused (input_of s h) (λ conn. ending (said s h (MessageStream conn)))) result.largest) }
    {
        self.wires.unfinished(&self.connections, paused)
    }

    /// Feeds bytes of standard input, and returns the lines that end in them. After `Memory` all is
    /// unchanged.
    pub fn feed_stdin(&mut self, input: InputId, bytes: &[u8]) -> Result<Lines, Memory>
        ensures notes { OnOk result ((conn : ConnId) → StreamsNoteWhere self.old self.new (λ s h. stream_of s h input.0 conn.0 ≡ Some (Standard input.0)) (Happened (happening.Piece input conn bytes.now))) }
        ensures lines { StreamsAnswer self.old (λ s h. IfOk result (λ lines. lines ≡ completed_lines (said s h (Standard input.0)) bytes.now)) }
        ensures err { OnErr result (StreamsUnchanged self.old self.new) }
    {
        self.standard.feed(self.alloc, input.0 as u64, bytes)
    }

    /// Ends standard input, and returns the rest of it as a last line. After `Memory` all is unchanged.
    pub fn finish_stdin(&mut self, input: InputId) -> Result<Lines, Memory>
        ensures notes { OnOk result (StreamsNote self.old self.new (Happened (happening.InputEnd input))) }
        ensures lines { StreamsAnswer self.old (λ s h. IfOk result (λ lines. lines ≡ last_line (said s h (Standard input.0)))) }
        ensures err { OnErr result (StreamsUnchanged self.old self.new) }
    {
        self.standard.finish(self.alloc, input.0 as u64)
    }
}

/// Returns what the bytes of a connection are to an input of a kind. Standard input is connection 0, which
/// needs no `Joined` event.
fn kind_by(kind: &InputKind, joined: bool, conn: ConnId) -> StreamKind
    ensures { (input : ℕ) → stream_of_kind input conn.0 result ≡ stream_by input conn.0 joined kind.now }
{
    match kind {
        InputKind::Tcp { .. } if joined => StreamKind::Lines,
        InputKind::Forward { .. } if joined => StreamKind::Messages,
        InputKind::Stdin if conn.0 == 0 => StreamKind::Standard,
        InputKind::Tcp { .. }
        | InputKind::Forward { .. }
        | InputKind::Tail { .. }
        | InputKind::Stdin => StreamKind::Nobody,
    }
}
