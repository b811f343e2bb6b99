//! The sources of the poll, and which of them may have something. `inputs` and `links` say what is done with
//! each.

ghost use Rattle.std.specs.Prelude.{◌≡◌, true, IfOk, IfSome};
ghost use Rattle.fwd_outside.specs.Loop.{MayOccur};

mod inputs;
mod links;

use fwd_base::limits::LONGEST_PIECE;
use fwd_live_http::{Again, Server};
use fwd_live_sockets::{Budget, Conn, Feed, Input, Link, Patience, Source};
use fwd_log::Journal;
use fwd_outside::{Happening, InputId, Memory};
use mio::Registry;
use mio::event::Event;
use std::alloc::Global;
use std::collections::{HashMap, VecDeque};
use std::mem;

/// All sources.
#[derive(Drop)]
pub struct Sources<'a> {
    rt: HostRuntime,
    journal: &'a Journal,
    pub server: Server<'a>,
    pub inputs: Vec<Input>,
    pub conns: HashMap<u64, Conn>,
    pub links: HashMap<u64, Link>,
    pub budget: Budget,
    /// How many descriptors the followed files hold.
    pub held_files: usize,
    /// How many connections to an output's peer were never established, by output.
    failed_dials: HashMap<u32, u64>,
    /// Sources that may have something.
    ready: VecDeque<Source>,
    /// The same, for inputs that were paused when they were looked at.
    held_back: VecDeque<Source>,
    /// Inputs that couldn't accept a peer, as no descriptor or no place for a connection was left.
    refused: VecDeque<Source>,
    /// The time at which these retry.
    retry_at: u64,
    now: u64,
    patience: Patience,
    /// The milliseconds since the clock was created, by the monotonic clock.
    uptime: u64,
    /// The time of the next scan for silent links, by that clock.
    scan_at: u64,
    paused: u64,
    /// Whether all inputs are held back, as the disk fails.
    is_holding: bool,
    /// The read buffer.
    part: Vec<u8>,
    newest: u64,
    /// Errors that no answer reports.
    misses: u64,
}

impl<'a> Sources<'a> {
    pub fn new(
        rt: HostRuntime,
        journal: &'a Journal,
        patience: Patience,
    ) -> Result<Sources<'a>, Memory> {
        let alloc = rt.alloc();
        let mut part = Vec::new(alloc);
        part.resize(LONGEST_PIECE, 0)?;
        Ok(Sources {
            rt,
            journal,
            server: Server::new(alloc, journal),
            inputs: Vec::new(alloc),
            conns: HashMap::new(alloc),
            links: HashMap::new(alloc),
            budget: Budget::without_limits(),
            held_files: 0,
            failed_dials: HashMap::new(alloc),
            ready: VecDeque::new(alloc),
            held_back: VecDeque::new(alloc),
            refused: VecDeque::new(alloc),
            retry_at: u64::MAX,
            now: 0,
            patience,
            uptime: 0,
            scan_at: u64::MAX,
            paused: 0,
            is_holding: false,
            part,
            newest: 0,
            misses: 0,
        })
    }

    /// Returns how many errors came since the last call.
    pub fn take_misses(&mut self) -> u64 {
        mem::replace(&mut self.misses, 0)
    }

    fn miss(&mut self) {
        self.misses = self.misses.saturating_add(1);
    }

    /// Returns whether no source is left to be looked at.
    pub fn is_idle(&self) -> bool {
        self.ready.is_empty()
    }

    /// Returns the time of the next retry.
    pub fn retry_at(&self) -> u64 {
        self.retry_at
    }

    /// Adds an input. One that can't be polled is queued at once.
    pub fn add_input(&mut self, input: InputId, feed: Feed, queued: bool) -> Result<(), Memory> {
        self.inputs.push(Input { feed, queued })?;
        if queued {
            self.ready.push_back(Source::Input(input))?;
        }
        Ok(())
    }

    /// Returns the time of the next scan for silent links, by the monotonic clock.
    pub fn scan_at(&self) -> u64 {
        self.scan_at
    }

    /// Sets the monotonic time, and queues links that were silent for too long.
    pub fn set_uptime(&mut self, uptime: u64) -> Result<(), Memory> {
        self.uptime = uptime;
        if self.server.expire(uptime) {
            self.ready.push_back(Source::Page(0))?;
        }
        if self.scan_at <= uptime {
            self.scan_links()?;
        }
        Ok(())
    }

    /// Sets the time, and queues the inputs whose retry is due.
    pub fn set_now(&mut self, now: u64) -> Result<(), Memory> {
        self.now = now;
        if self.retry_at <= now {
            self.retry_at = u64::MAX;
            for _ in 0..self.refused.len() {
                if let Some(source) = self.refused.pop_front() {
                    self.ready.push_back(source)?;
                }
            }
        }
        Ok(())
    }

    /// Pauses these inputs from now on. Sources that were held back are queued again.
    pub fn pause(&mut self, paused: u64) -> Result<(), Memory> {
        if paused != self.paused {
            self.paused = paused;
            self.queue_held_back()?;
        }
        Ok(())
    }

    /// Returns whether all inputs are held back.
    pub fn is_holding(&self) -> bool {
        self.is_holding
    }

    /// Holds back all inputs from now on, or lets those go on that aren't paused.
    pub fn hold(&mut self, is_holding: bool) -> Result<(), Memory> {
        if is_holding != self.is_holding {
            self.is_holding = is_holding;
            self.queue_held_back()?;
        }
        Ok(())
    }

    /// Queues the sources again that were held back.
    fn queue_held_back(&mut self) -> Result<(), Memory> {
        for _ in 0..self.held_back.len() {
            if let Some(source) = self.held_back.pop_front() {
                self.ready.push_back(source)?;
            }
        }
        Ok(())
    }

    /// Notes an event of the poll.
    pub fn mark(&mut self, event: &Event) -> Result<(), Memory> {
        let Some(source) = Source::of(event.token()) else {
            return Ok(());
        };
        let queues = match source {
            Source::Input(input) => self.mark_input(input),
            Source::Conn(conn) => self.mark_conn(conn, event),
            Source::Link(link) => self.mark_link(link, event),
            Source::Page(number) => self.server.mark(number),
        };
        if queues {
            self.ready.push_back(source)?;
        }
        Ok(())
    }

    /// Looks at the next source that may have something.
    pub fn look(
        &mut self,
        alloc: Global,
        registry: &Registry,
        paused: u64,
    ) -> Result<Option<Happening>, Memory>
        ensures { IfOk result (λ found. IfSome found (MayOccur true paused)) }
    {
        match self.ready.pop_front() {
            Some(Source::Input(input)) => self.look_at_input(alloc, registry, input, paused),
            Some(Source::Conn(conn)) => self.look_at_conn(alloc, conn, paused),
            Some(Source::Link(link)) => self.look_at_link(alloc, link),
            Some(Source::Page(number)) => {
                self.look_at_page(alloc, registry, number)?;
                Ok(None)
            }
            None => Ok(None),
        }
    }

    /// Looks at a number of the server of pages. It gives no event.
    fn look_at_page(
        &mut self,
        alloc: Global,
        registry: &Registry,
        number: u64,
    ) -> Result<(), Memory> {
        let again = self.server.look(alloc, registry, number, self.uptime)?;
        self.queue_again(again)
    }

    fn queue_again(&mut self, again: Again) -> Result<(), Memory> {
        if let Some(number) = again.asker {
            self.ready.push_back(Source::Page(number))?;
        }
        if again.listener {
            self.ready.push_back(Source::Page(0))?;
        }
        Ok(())
    }

    /// Has pages that came to the board written to those who wait for them.
    pub fn answer_pages(&mut self) -> Result<(), Memory> {
        for number in self.server.answer(self.rt.alloc())? {
            self.ready.push_back(Source::Page(number))?;
        }
        Ok(())
    }
}
