//! The state of one connection, and how a buffer changes it.

ghost use Rattle.std.specs.Prelude.{◌≡◌, ◌≤◌, ◌<◌, ◌++◌, ℕ, List, [], length, map, take, Some, All, IfOk, OnErr};
ghost use Rattle.fwd_base.specs.Limits.{longest_message};
ghost use Rattle.fwd_wire.specs.Message.{MessageContent};
ghost use Rattle.fwd_wire.specs.Answer.{front};
ghost use Rattle.fwd_wire.specs.Fits.{ContentFits};
ghost use Rattle.fwd_wire.specs.Stream.{waiting, broken, Streams};
ghost use Rattle.fwd_wire.specs.declared.fault.ConnFault.{ConnFault};
ghost use Rattle.fwd_in_forward.specs.Conn.{Scans, KnownIs, ending_of, fault_of, all_content, unfinished_bytes, is_start};
ghost use Rattle.fwd_in_forward.specs.Received.{all_received, KeepsEncodings};

use crate::message_reader::{AllRead, all_messages};
use crate::read_message::ReadMessage;
use crate::received::Received;
use fwd_base::limits::LONGEST_MESSAGE;
use fwd_base::{Bytes, Items, Memory};
use fwd_msgpack::{Scan, Scanned};
use fwd_wire::{ConnFault, Message};
use std::alloc::Global;
use std::marker::Model;

/// Messages, in order.
pub type Messages = Items<Message>;

/// The messages that ended in a buffer, and the fault that broke the stream after them, if any.
#[derive(Debug, Drop)]
pub struct Fed {
    pub messages: Messages,
    pub fault: Option<ConnFault>,
}

/// The received messages that ended in a buffer, and the fault that broke the stream after them, if any.
#[derive(Debug, Drop)]
pub struct Arrivals {
    pub messages: Items<Received>,
    pub fault: Option<ConnFault>,
}

/// The same of messages in any form.
#[derive(Drop)]
struct Cut<M> {
    messages: Items<M>,
    fault: Option<ConnFault>,
}

/// A connection of a forward peer: the bytes after the last whole message, or what broke the stream. The
/// scan saves reading these bytes again at each buffer; without it, they are read again.
#[derive(Drop)]
pub struct ForwardConn {
    alloc: Global,
    rest: Bytes,
    fault: Option<ConnFault>,
    scan: Option<Scan>,
}

impl Model for ForwardConn {
    ghost use Rattle.fwd_wire.specs.Stream.{Ending};
    ghost use Rattle.fwd_in_forward.specs.Conn.{ending_of, Scans};

    ghost Value = { Ending };

    ghost view = { λ c. ending_of c.rest c.fault };

    ghost invariant = { λ c. Scans c.scan c.rest };
}

/// What a scan says of the bytes after the last whole message.
#[derive(Clone, Copy)]
enum Known {
    /// They begin a message, and more bytes are needed.
    Waits,
    /// No message begins with them, whatever follows.
    Breaks(ConnFault),
    /// They may contain a whole value, which is to be read.
    Open,
}

/// Returns the bytes after the first `before` ones that the next message may have.
fn piece_of(rest: &[u8], before: usize) -> &[u8]
    requires within { before ≤ length rest.now }
    requires shorter { before ≤ longest_message }
    ensures joins { take before rest.now ++ result.now ≡ front rest.now }
    ensures shorter { length result.now ≤ length rest.now }
{
    let (front, _) = rest.split_at(LONGEST_MESSAGE.min(rest.len()));
    let (_, piece) = front.split_at(before);
    piece
}

/// Returns what is known of bytes whose last ones continue a message that began before. Reads no value.
fn scan_result(scan: &mut Option<Scan>, rest: &[u8], before: usize) -> Known
    requires within { before ≤ length rest.now }
    requires scan { Scans scan.old (take before rest.now) }
    ensures known { KnownIs rest.now result }
    ensures scan { Scans scan.new rest.now }
{
    let Some(going) = scan else {
        return Known::Open;
    };
    match going.feed(piece_of(rest, before)) {
        Scanned::More => {
            if rest.len() < LONGEST_MESSAGE {
                return Known::Waits;
            }
            *scan = None;
            Known::Breaks(ConnFault::TooLong)
        }
        Scanned::Whole { .. } => {
            *scan = None;
            Known::Open
        }
        Scanned::Unused { .. } | Scanned::TooDeep { .. } => {
            *scan = None;
            Known::Breaks(ConnFault::NotAMessage)
        }
    }
}

/// Returns a scan that was fed these bytes, if they begin a value.
fn new_scan(alloc: Global, rest: &[u8]) -> Result<Option<Scan>, Memory>
    requires { length rest.now < longest_message }
    ensures { IfOk result (λ scan. Scans scan rest.now) }
{
    if rest.is_empty() {
        return Ok(None);
    }
    let mut scan = Scan::new(alloc)?;
    match scan.feed(rest) {
        Scanned::More => Ok(Some(scan)),
        Scanned::Whole { .. } | Scanned::Unused { .. } | Scanned::TooDeep { .. } => Ok(None),
    }
}

impl ForwardConn {
    /// Returns the beginning of a stream.
    pub fn new(alloc: Global) -> Self
        ensures { result ≡ waiting [] }
    {
        ForwardConn {
            alloc,
            rest: Bytes::new(alloc),
            fault: None,
            scan: None,
        }
    }

    /// Returns how many bytes of a message are kept that isn't whole yet. A broken stream keeps none.
    pub fn unfinished(&self) -> usize
        ensures { result ≡ unfinished_bytes self.now }
    {
        match self.fault {
            None => self.rest.len(),
            Some(_) => 0,
        }
    }

    /// Whether nothing is kept, as at the beginning of a stream.
    pub fn is_at_start(&self) -> bool
        ensures { result ≡ is_start self.now }
    {
        match self.fault {
            None => self.rest.is_empty(),
            Some(_) => false,
        }
    }

    /// Takes the next buffer of the stream, and returns the messages that end in it: with those returned
    /// before they are the messages of the whole stream so far. The fault is what breaks the stream after
    /// them; each later call returns it again, with no message. If an allocation fails, the connection is
    /// unchanged. It is for callers that want the events as values; `receive` has the program's form.
    pub fn feed(&mut self, piece: &[u8]) -> Result<Fed, Memory>
        ensures messages { (stream : List ℕ) (before : List MessageContent) → Streams before self.old stream →
            IfOk result (λ fed. Streams (before ++ all_content fed.messages) self.new (stream ++ piece.now)) }
        ensures fault { IfOk result (λ fed. fed.fault ≡ fault_of self.new) }
        ensures stays { (fault : ConnFault) → self.old ≡ broken fault → (self.new ≡ broken fault)
            × IfOk result (λ fed. fed.messages ≡ []) }
        // What the messages say can be encoded again.
        ensures fits { IfOk result (λ fed. All ContentFits (all_content fed.messages)) }
        ensures err { OnErr result (self.new ≡ self.old) }
    {
        let Cut { messages, fault } = self.cut::<Message>(piece)?;
        Ok(Fed { messages, fault })
    }

    /// Takes the next buffer of the stream as `feed` does, and returns the same messages: the events of a
    /// batch are encoded where its bytes allow it, which takes less time and memory than their values.
    pub fn receive(&mut self, piece: &[u8]) -> Result<Arrivals, Memory>
        ensures messages { (stream : List ℕ) (before : List MessageContent) → Streams before self.old stream →
            IfOk result
            (λ arrived. Streams (before ++ all_received arrived.messages) self.new (stream ++ piece.now)) }
        ensures fault { IfOk result (λ arrived. arrived.fault ≡ fault_of self.new) }
        ensures stays { (fault : ConnFault) → self.old ≡ broken fault → (self.new ≡ broken fault)
            × IfOk result (λ arrived. arrived.messages ≡ []) }
        // What the messages say can be encoded again.
        ensures fits { IfOk result (λ arrived. All ContentFits (all_received arrived.messages)) }
        // Encoded events are those that the messages say.
        ensures encodings { IfOk result (λ arrived. All KeepsEncodings arrived.messages) }
        ensures err { OnErr result (self.new ≡ self.old) }
    {
        let Cut { messages, fault } = self.cut::<Received>(piece)?;
        Ok(Arrivals { messages, fault })
    }

    /// Takes the next buffer of the stream, and returns the messages that end in it, as `feed` does.
    fn cut<M: ReadMessage>(&mut self, piece: &[u8]) -> Result<Cut<M>, Memory>
        ensures messages { (stream : List ℕ) (before : List MessageContent) → Streams before self.old stream →
            IfOk result (λ cut. Streams (before ++ map M.content cut.messages) self.new (stream ++ piece.now)) }
        ensures fault { IfOk result (λ cut. cut.fault ≡ fault_of self.new) }
        ensures stays { (fault : ConnFault) → self.old ≡ broken fault → (self.new ≡ broken fault)
            × IfOk result (λ cut. cut.messages ≡ []) }
        ensures fits { IfOk result (λ cut. All ContentFits (map M.content cut.messages)) }
        ensures sound { IfOk result (λ cut. All M.IsSound cut.messages) }
        ensures err { OnErr result (self.new ≡ self.old) }
    {
        if self.fault.is_some() {
            return Ok(Cut {
                messages: Items::new(self.alloc),
                fault: self.fault,
            });
        }
        let before = self.rest.len();
        self.rest.extend_from_slice(piece)?;
        match scan_result(&mut self.scan, self.rest.as_slice(), before) {
            Known::Waits => Ok(Cut {
                messages: Items::new(self.alloc),
                fault: None,
            }),
            Known::Breaks(fault) => {
                self.break_stream(fault);
                Ok(Cut {
                    messages: Items::new(self.alloc),
                    fault: Some(fault),
                })
            }
            Known::Open => self.remove_messages(before),
        }
    }

    /// Marks the stream as broken, and drops its bytes.
    fn break_stream(&mut self, fault: ConnFault)
        ensures { self.new ≡ broken fault }
    {
        self.rest = Bytes::new(self.alloc);
        self.fault = Some(fault);
        self.scan = None;
    }

    /// Removes the whole messages from the rest. If an allocation fails, the rest has its earlier bytes.
    fn remove_messages<M: ReadMessage>(&mut self, before: usize) -> Result<Cut<M>, Memory>
        ensures messages { (rest : List ℕ) → self.old ≡ waiting rest →
            IfOk result (λ cut. Streams (map M.content cut.messages) self.new rest) }
        ensures fault { IfOk result (λ cut. cut.fault ≡ fault_of self.new) }
        ensures fits { IfOk result (λ cut. All ContentFits (map M.content cut.messages)) }
        ensures sound { IfOk result (λ cut. All M.IsSound cut.messages) }
        ensures err { (rest : List ℕ) → self.old ≡ waiting rest →
            OnErr result (self.new ≡ waiting (take before rest)) }
    {
        match messages_and_scan(self.alloc, self.rest.as_slice()) {
            Ok((read, scan)) => {
                let AllRead {
                    messages,
                    rest,
                    fault,
                } = read;
                self.rest = rest;
                self.fault = fault;
                self.scan = scan;
                Ok(Cut { messages, fault })
            }
            Err(Memory) => {
                self.rest.truncate(before);
                self.scan = None;
                Err(Memory)
            }
        }
    }
}

/// Returns the messages at the start of bytes, and a scan that was fed the bytes after them, if these begin
/// a value.
fn messages_and_scan<M: ReadMessage>(
    alloc: Global,
    bytes: &[u8],
) -> Result<(AllRead<M>, Option<Scan>), Memory>
    ensures streams { IfOk result
        (λ x. Streams (map M.content x.0.messages) (ending_of x.0.rest x.0.fault) bytes.now) }
    ensures fits { IfOk result (λ x. All ContentFits (map M.content x.0.messages)) }
    ensures sound { IfOk result (λ x. All M.IsSound x.0.messages) }
    ensures scan { IfOk result (λ x. Scans x.1 x.0.rest) }
{
    let read = all_messages(alloc, bytes)?;
    let scan = new_scan(alloc, read.rest.as_slice())?;
    Ok((read, scan))
}
