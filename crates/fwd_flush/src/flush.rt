//! The state machine of one flush.

ghost use Rattle.std.specs.Prelude.{◌≡◌, ◌≤◌, OnOk, OnErr};
ghost use Rattle.fwd_flush.specs.FlushProgram.{Flight, delivery, not_started, link_in, starts, polls, backs, breaks, writes, confirms_payload, ends, with_reply_bytes};
ghost use Rattle.fwd_flush.specs.Calls.{Performs, PerformsOrStays, KeepsLink, HasDialed};
ghost use Rattle.fwd_flush.specs.declared.stage.Stage.TheVariants.{Writing};

use crate::rest::{Rest, push_rest};
use crate::{Answer, Judged, Poll, ReplyReader, Stage};
use fwd_base::{Bytes, LinkId, Memory, OutputId};
use fwd_outside::{Dialed, Loop};
use std::alloc::Global;
use std::marker::Model;

/// One attempt to send a payload to an output. The events of its link drive it: room, replies, a broken
/// link. Contracts see its output, payload, reader and progress.
#[derive(Debug, Drop)]
pub struct Flush<P> {
    output: OutputId,
    payload: Bytes,
    reader: P,
    stage: Stage,
    taken: u64,
    reply: Bytes,
}

impl<P> Model for Flush<P> {
    ghost use Rattle.fwd_flush.specs.FlushProgram.{Flight};

    ghost Value = { Flight P };

    ghost view = { λ f. record {
      output = f.output;
      payload = f.payload;
      reader = f.reader;
      progress = record { stage = f.stage; taken = f.taken; reply = f.reply };
    } };
}

impl<P: ReplyReader> Flush<P> {
    /// Returns a flush that hasn't started. It allocates for replies only, once they arrive.
    pub fn new(alloc: Global, output: OutputId, payload: Bytes, reader: P) -> Flush<P>
        ensures { result ≡ record { output = output; payload = payload; reader = reader; progress = not_started } }
    {
        Flush {
            output,
            payload,
            reader,
            stage: Stage::Opening,
            taken: 0,
            reply: Bytes::new(alloc),
        }
    }

    /// Dials the output for records of a tag, once, and sends what the link takes. A flush that has started
    /// makes no call and stays as it is.
    ///
    /// Returns `Waiting` if the link is full or the reply is still awaited, and `Ended` if the flush has
    /// its outcome and closed its link. After `Err` (out of memory) the flush keeps the progress of its
    /// calls.
    pub fn start<L: Loop>(
        &mut self,
        alloc: Global,
        outside: &mut L,
        tag: &[u8],
    ) -> Result<Poll, Memory>
        ensures calls { Performs (L.call_log outside.old) (L.call_log outside.new) (starts (delivery P.wanted P.judged self.old) self.old.output.0 tag.now self.old.progress) self.old.progress self.new.progress result }
        ensures same { self.new ≡ record self.old { progress = self.new.progress } }
        ensures later { L.faults outside.old ≤ L.faults outside.new }
        ensures counts { HasDialed (L.counts outside.old) (L.counts outside.new) self.old.progress.stage self.new.progress.stage }
    {
        let Stage::Opening = self.stage else {
            return Ok(self.stage.poll());
        };
        match outside.dial(self.output, tag) {
            Dialed::Link(link) => {
                self.stage = Stage::Writing(link);
                self.write(alloc, outside, link)
            }
            Dialed::Refused => {
                self.stage = Stage::Ended(Answer::Retry);
                Ok(Poll::Ended(Answer::Retry))
            }
            Dialed::Memory => Err(Memory),
        }
    }

    /// Goes on sending, as the link has room. A flush that isn't writing makes no call and stays as it is.
    pub fn poll<L: Loop>(&mut self, alloc: Global, outside: &mut L) -> Result<Poll, Memory>
        ensures calls { Performs (L.call_log outside.old) (L.call_log outside.new) (polls (delivery P.wanted P.judged self.old) self.old.progress) self.old.progress self.new.progress result }
        ensures same { self.new ≡ record self.old { progress = self.new.progress } }
        ensures later { L.faults outside.old ≤ L.faults outside.new }
        ensures counts { L.counts outside.new ≡ L.counts outside.old }
    {
        match self.stage {
            Stage::Writing(link) => self.write(alloc, outside, link),
            stage => Ok(stage.poll()),
        }
    }

    /// Takes bytes of a reply. They are kept until the link has taken the whole payload, and judged then.
    /// After `Err` the flush is unchanged.
    pub fn back<L: Loop>(
        &mut self,
        alloc: Global,
        outside: &mut L,
        bytes: &[u8],
    ) -> Result<Poll, Memory>
        ensures calls { PerformsOrStays (L.call_log outside.old) (L.call_log outside.new) (backs (delivery P.wanted P.judged self.old) bytes.now self.old.progress) self.old.progress self.new.progress result }
        ensures same { self.new ≡ record self.old { progress = self.new.progress } }
        ensures later { L.faults outside.old ≤ L.faults outside.new }
        ensures counts { L.counts outside.new ≡ L.counts outside.old }
    {
        match self.stage {
            Stage::Writing(_) => {
                self.hear(bytes)?;
                Ok(Poll::Waiting)
            }
            Stage::AwaitingAck(link) => self.keep_and_judge(alloc, outside, link, bytes),
            stage => Ok(stage.poll()),
        }
    }

    /// Ends the flush, as its link broke. After `Err` the flush is unchanged.
    pub fn broken<L: Loop>(&mut self, outside: &mut L) -> Result<Poll, Memory>
        ensures calls { PerformsOrStays (L.call_log outside.old) (L.call_log outside.new) (breaks self.old.progress) self.old.progress self.new.progress result }
        ensures same { self.new ≡ record self.old { progress = self.new.progress } }
        ensures later { L.faults outside.old ≤ L.faults outside.new }
        ensures counts { L.counts outside.new ≡ L.counts outside.old }
    {
        match self.link() {
            Some(link) => self.end(outside, link, Answer::Retry),
            None => Ok(self.stage.poll()),
        }
    }

    /// Returns the link of a flush in flight.
    pub fn link(&self) -> Option<LinkId>
        ensures { result ≡ link_in self.now.progress.stage }
    {
        match self.stage {
            Stage::Writing(link) | Stage::AwaitingAck(link) => Some(link),
            Stage::Opening | Stage::Ended(_) => None,
        }
    }

    /// Returns how many bytes of the payload the link has taken.
    pub fn taken(&self) -> u64
        ensures { result ≡ self.now.progress.taken }
    {
        self.taken
    }

    /// Pushes the rest of the payload, and goes on to `confirm` once the link has taken all of it.
    fn write<L: Loop>(
        &mut self,
        alloc: Global,
        outside: &mut L,
        link: LinkId,
    ) -> Result<Poll, Memory>
        ensures calls { self.old.progress.stage ≡ Writing link → Performs (L.call_log outside.old) (L.call_log outside.new) (writes (delivery P.wanted P.judged self.old) link self.old.progress) self.old.progress self.new.progress result }
        ensures same { self.new ≡ record self.old { progress = self.new.progress } }
        ensures later { L.faults outside.old ≤ L.faults outside.new }
        ensures counts { L.counts outside.new ≡ L.counts outside.old }
        ensures link { KeepsLink link self.old.progress.stage self.new.progress.stage }
    {
        match push_rest(outside, link, self.payload.as_slice(), &mut self.taken)? {
            Rest::Taken => self.confirm(alloc, outside, link),
            Rest::Waits => Ok(Poll::Waiting),
            Rest::Fails => self.end(outside, link, Answer::Retry),
        }
    }

    /// Ends the flush or waits for more of the reply, after the link has taken the whole payload.
    fn confirm<L: Loop>(
        &mut self,
        alloc: Global,
        outside: &mut L,
        link: LinkId,
    ) -> Result<Poll, Memory>
        ensures calls { PerformsOrStays (L.call_log outside.old) (L.call_log outside.new) (confirms_payload (delivery P.wanted P.judged self.old) link self.old.progress) self.old.progress self.new.progress result }
        ensures same { self.new ≡ record self.old { progress = self.new.progress } }
        ensures later { L.faults outside.old ≤ L.faults outside.new }
        ensures counts { L.counts outside.new ≡ L.counts outside.old }
        ensures link { KeepsLink link self.old.progress.stage self.new.progress.stage }
    {
        if !self.reader.wanted() {
            return self.end(outside, link, Answer::Good);
        }
        match self.reader.judge(alloc, self.reply.as_slice())? {
            Judged::More => {
                self.stage = Stage::AwaitingAck(link);
                Ok(Poll::Waiting)
            }
            Judged::Right => self.end(outside, link, Answer::Good),
            Judged::Wrong => self.end(outside, link, Answer::Retry),
            Judged::Fatal => self.end(outside, link, Answer::Bad),
        }
    }

    /// Closes the link and ends the flush.
    fn end<L: Loop>(
        &mut self,
        outside: &mut L,
        link: LinkId,
        answer: Answer,
    ) -> Result<Poll, Memory>
        ensures calls { PerformsOrStays (L.call_log outside.old) (L.call_log outside.new) (ends link answer self.old.progress) self.old.progress self.new.progress result }
        ensures same { self.new ≡ record self.old { progress = self.new.progress } }
        ensures later { L.faults outside.old ≤ L.faults outside.new }
        ensures counts { L.counts outside.new ≡ L.counts outside.old }
        ensures link { KeepsLink link self.old.progress.stage self.new.progress.stage }
    {
        outside.close(link)?;
        self.stage = Stage::Ended(answer);
        Ok(Poll::Ended(answer))
    }

    /// Keeps bytes of a reply, if a reply is wanted.
    fn hear(&mut self, bytes: &[u8]) -> Result<(), Memory>
        ensures ok { OnOk result (self.new ≡ record self.old { progress = with_reply_bytes (delivery P.wanted P.judged self.old) bytes.now self.old.progress }) }
        ensures err { OnErr result (self.new ≡ self.old) }
    {
        if self.reader.wanted() {
            self.reply.extend_from_slice(bytes)
        } else {
            Ok(())
        }
    }

    /// Keeps bytes of a reply and judges the whole reply. After `Err` they aren't kept.
    fn keep_and_judge<L: Loop>(
        &mut self,
        alloc: Global,
        outside: &mut L,
        link: LinkId,
        bytes: &[u8],
    ) -> Result<Poll, Memory>
        ensures calls { let d = delivery P.wanted P.judged self.old in PerformsOrStays (L.call_log outside.old) (L.call_log outside.new) (confirms_payload d link (with_reply_bytes d bytes.now self.old.progress)) self.old.progress self.new.progress result }
        ensures same { self.new ≡ record self.old { progress = self.new.progress } }
        ensures later { L.faults outside.old ≤ L.faults outside.new }
        ensures counts { L.counts outside.new ≡ L.counts outside.old }
    {
        let kept = self.reply.len();
        self.hear(bytes)?;
        let poll = self.confirm(alloc, outside, link);
        if poll.is_err() {
            self.reply.truncate(kept);
        }
        poll
    }
}
