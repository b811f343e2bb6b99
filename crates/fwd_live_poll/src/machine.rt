//! The system's part of an event loop: sockets, standard input, files and the poll.

ghost use Rattle.std.specs.Prelude.{◌≡◌, true, IfOk, IfSome};
ghost use Rattle.fwd_outside.specs.Loop.{MayOccur};
ghost use Rattle.fwd_live_sockets.specs.Handed.{TakesAtMost};

use crate::clock::Clock;
use crate::signals::is_stop_pending;
use crate::sources::Sources;
use fwd_live_sockets::{
    Budget, Feed, Handed, Input, Link, Patience, Peer, Source, StandardOutput, StdoutLink,
    addresses_of, listen, open_to_append,
};
use fwd_log::{Address, Journal, Level, Source as About, Topic};
use fwd_outside::{ConnId, Ends, Happening, InEnd, InputId, LinkId, Memory, OutEnd, OutputId};
use fwd_system::{memory_error, text};
use mio::net::TcpStream;
use mio::unix::SourceFd;
use mio::{Events, Interest, Poll};
use std::alloc::Global;
use std::io::{self, ErrorKind};
use std::net::SocketAddr;
use std::os::fd::AsRawFd;
use std::random::RandomSource;
use std::time::Duration;

/// How many sources are looked at before the next poll.
const MOST_LOOKS: u32 = 32;

/// The largest number of events of one poll.
const EVENTS: usize = 256;

/// The largest age of the last tick, in milliseconds, at which another event is returned.
const MOST_TICK_AGE: u64 = 10;

/// The least number of milliseconds between two checks for signals.
const SIGNAL_CHECK_INTERVAL: u64 = 200;

/// The number of milliseconds between two tries to fill the reserve, and between a failed write and the
/// first.
const PROBE_INTERVAL: u64 = 1_000;

/// The system's part of an event loop.
#[derive(Drop)]
pub struct Machine<'a> {
    rt: HostRuntime,
    journal: &'a Journal,
    poll: Poll,
    events: Events,
    outputs: Vec<OutEnd>,
    stdout: StandardOutput,
    sources: Sources<'a>,
    looks: u32,
    clock: Clock,
    /// The time of the last tick.
    last_tick: u64,
    /// Within how many milliseconds of it the next tick comes, whatever the deadline is.
    next_within: u64,
    /// Whether no event was returned since then.
    is_after_tick: bool,
    /// How many other events come before the next tick.
    turns: u32,
    /// The time of the next check for signals, by the monotonic clock.
    next_signal_check: u64,
    /// Whether a signal was found that asks the program to stop. `Stop` is returned once.
    is_stopping: bool,
    /// The time of the next try to fill the reserve, by the monotonic clock.
    next_probe: u64,
}

impl<'a> Machine<'a> {
    /// Returns a machine with nothing open. A link breaks if its peer is silent for longer than this
    /// patience.
    pub fn new(
        rt: HostRuntime,
        journal: &'a Journal,
        patience: Patience,
    ) -> io::Result<Machine<'a>> {
        let alloc = rt.alloc();
        Ok(Machine {
            rt,
            journal,
            poll: Poll::new(&rt)?,
            events: Events::with_capacity(alloc, EVENTS)?,
            outputs: Vec::new(alloc),
            stdout: StandardOutput::new(rt)?,
            sources: Sources::new(rt, journal, patience).map_err(memory_error)?,
            looks: 0,
            clock: Clock::new(&rt)?,
            last_tick: 0,
            next_within: u64::MAX,
            is_after_tick: false,
            turns: 0,
            next_signal_check: 0,
            is_stopping: false,
            next_probe: 0,
        })
    }

    /// Returns the port of an input's listener.
    pub fn port(&self, input: InputId) -> Option<u16> {
        match self.sources.inputs.get(input.0 as usize) {
            Some(Input { feed, queued: _ }) => match feed {
                Feed::Listening(listener) => Some(listener.local_addr().ok()?.port()),
                Feed::Stdin { watched: _ } => None,
                Feed::Quiet => None,
            },
            None => None,
        }
    }

    /// Returns how many errors came since the last call that no answer reported.
    pub fn take_misses(&mut self) -> u64 {
        self.sources.take_misses()
    }

    /// Opens the listeners of the inputs, and keeps the endpoints of the outputs.
    pub fn start(&mut self, ends: &Ends) -> io::Result<()> {
        for end in ends.outputs.as_slice() {
            let copy = end.try_clone(self.rt.alloc()).map_err(memory_error)?;
            self.outputs.push(copy)?;
        }
        for end in ends.inputs.as_slice() {
            self.add_input(end)?;
        }
        self.sources.budget = Budget::of(&self.rt, ends.inputs.len(), ends.outputs.len());
        self.serve_pages();
        Ok(())
    }

    /// Listens where the pages are to be served. The log says so, or why it can't; the run goes on without
    /// them.
    fn serve_pages(&mut self) {
        let Some(Address { host, port }) = self.journal.take_server() else {
            return;
        };
        let name = text(host.as_slice()).unwrap_or("?");
        match self.open_server(host.as_slice(), port) {
            Ok(()) => {
                let said = format_args!("serves its pages at {name} port {port}");
                self.journal
                    .write(Level::Info, About::Http, Topic::Listener, &said);
            }
            Err(reason) => {
                let said = format_args!(
                    "can't listen at {name} port {port}: {reason}; no pages are served"
                );
                self.journal
                    .write(Level::Error, About::Http, Topic::Listener, &said);
            }
        }
    }

    /// Opens the server at the first address of the host that works.
    fn open_server(&mut self, host: &[u8], port: u16) -> io::Result<()> {
        let mut refusal = io::Error::from(ErrorKind::AddrNotAvailable);
        for address in addresses_of(&self.rt, host, port)? {
            match self
                .sources
                .server
                .open(&self.rt, self.poll.registry(), address)
            {
                Ok(()) => return Ok(()),
                Err(error) => refusal = error,
            }
        }
        Err(refusal)
    }

    fn add_input(&mut self, end: &InEnd) -> io::Result<()> {
        let Ok(place) = u32::try_from(self.sources.inputs.len()) else {
            return Err(io::Error::from(ErrorKind::InvalidInput));
        };
        let input = InputId(place);
        let token = Source::Input(input).token();
        let registry = self.poll.registry();
        let (feed, queued) = match end {
            InEnd::Listen { host, port } => {
                let listener = listen(
                    &self.rt,
                    registry,
                    self.journal,
                    input,
                    host.as_slice(),
                    *port,
                )?;
                (Feed::Listening(listener), false)
            }
            InEnd::Stdin => {
                let fd = self.rt.stdin().as_raw_fd();
                let asked = registry.register(&mut SourceFd(&fd), token, Interest::READABLE);
                let watched = asked.is_ok();
                (Feed::Stdin { watched }, !watched)
            }
            InEnd::Quiet => (Feed::Quiet, false),
        };
        self.sources
            .add_input(input, feed, queued)
            .map_err(memory_error)
    }

    /// Notes what the followed files say: within how many milliseconds of the last tick they are to be read
    /// again, and how many descriptors they hold.
    pub fn note_files(&mut self, read_within: u64, held: usize) {
        self.next_within = self.next_within.min(read_within);
        self.sources.held_files = held;
    }

    /// Returns the latest time of the next tick: the deadline, the next reading of followed files, or the
    /// next start of flushes.
    fn tick_at(&self, until: u64) -> u64 {
        until.min(self.last_tick.saturating_add(self.next_within))
    }

    /// Returns whether the next event has to be a tick.
    fn is_tick_due(&self, now: u64, until: u64) -> bool {
        until <= self.last_tick
            || (self.turns == 0
                && (self.tick_at(until) <= now
                    || (!self.sources.is_idle()
                        && MOST_TICK_AGE <= now.saturating_sub(self.last_tick))))
    }

    /// Notes a tick. If it is the second in a row, handling ticks is slow, and other sources come first for
    /// a while.
    fn note_tick(&mut self, now: u64) {
        if self.is_after_tick {
            self.turns = MOST_LOOKS;
        }
        self.is_after_tick = true;
        self.last_tick = now;
        self.next_within = u64::MAX;
    }

    /// Checks for signals, if a check is due. Returns whether it finds, for the first time, that one asks
    /// the program to stop.
    fn finds_stop(&mut self, uptime: u64) -> bool {
        if self.is_stopping || uptime < self.next_signal_check {
            return false;
        }
        self.next_signal_check = uptime.saturating_add(SIGNAL_CHECK_INTERVAL);
        self.is_stopping = is_stop_pending(&self.rt);
        self.is_stopping
    }

    /// Returns whether the reserve has to be tried again while the disk fails: once a second, and for the
    /// first time a second after the inputs were held back.
    pub fn take_probe(&mut self) -> bool {
        let uptime = self.clock.uptime(&self.rt);
        let is_new = !self.sources.is_holding();
        let is_due = !is_new && self.next_probe <= uptime;
        if is_new || is_due {
            self.next_probe = uptime.saturating_add(PROBE_INTERVAL);
        }
        is_due
    }

    /// Holds back all inputs from now on, or lets those go on that aren't paused.
    pub fn hold(&mut self, is_holding: bool) -> Result<(), Memory> {
        self.sources.hold(is_holding)
    }

    /// Polls for at most `most` milliseconds, and doesn't block if a source is left to be looked at.
    /// Returns false if the poll fails.
    fn ask(&mut self, most: u64) -> Result<bool, Memory> {
        let millis = if self.sources.is_idle() { most } else { 0 };
        let timeout = Duration::from_millis(millis);
        match self.poll.poll(&mut self.events, Some(timeout)) {
            Ok(()) => {}
            Err(error) if error.kind() == ErrorKind::Interrupted => return Ok(true),
            Err(_) => return Ok(false),
        }
        for event in self.events.iter() {
            self.sources.mark(event)?;
        }
        self.looks = 0;
        Ok(true)
    }

    /// Looks at sources until one has an event, but not at too many.
    fn look(&mut self, alloc: Global, paused: u64) -> Result<Option<Happening>, Memory>
        ensures { IfOk result (λ found. IfSome found (MayOccur true paused)) }
    {
        for _ in self.looks..MOST_LOOKS {
            if self.sources.is_idle() {
                return Ok(None);
            }
            self.looks = self.looks.saturating_add(1);
            let found = self.sources.look(alloc, self.poll.registry(), paused)?;
            if found.is_some() {
                return Ok(found);
            }
        }
        Ok(None)
    }

    /// Drops the connection that the journal asks for, and returns that its peer is gone. The next tick comes
    /// at once, as another connection may have to be dropped then.
    fn drop_asked(&mut self, paused: u64) -> Option<Happening>
        ensures { IfSome result (MayOccur true paused) }
    {
        let conn = self.journal.take_conn_to_drop()?;
        let gone = self.sources.drop_unfinished(conn, paused)?;
        self.is_after_tick = false;
        self.next_within = 0;
        Some(gone)
    }

    /// Waits for the next event of the loop. When a signal asks the program to stop, returns `Stop` in place
    /// of a tick, once; the next call returns the tick.
    pub fn wait(&mut self, alloc: Global, until: u64, paused: u64) -> Result<Happening, Memory>
        ensures { IfOk result (MayOccur true paused) }
    {
        self.sources.pause(paused)?;
        if let Some(gone) = self.drop_asked(paused) {
            return Ok(gone);
        }
        self.sources.answer_pages()?;
        if self.stdout.take_freed() {
            self.sources.queue_stdout_links()?;
        }
        for _ in 0..u64::MAX {
            let Ok(now) = self.clock.read(&self.rt) else {
                return Ok(Happening::Failed);
            };
            self.sources.set_now(now)?;
            let uptime = self.clock.uptime(&self.rt);
            self.sources.set_uptime(uptime)?;
            self.stdout.begin_turn(uptime);
            if self.is_tick_due(now, until) {
                if self.finds_stop(uptime) {
                    let said = "a signal asks for the end";
                    self.journal
                        .write(Level::Info, About::Engine, Topic::Signal, &said);
                    return Ok(Happening::Stop);
                }
                self.note_tick(now);
                return Ok(Happening::Tick { now });
            }
            if 0 < self.turns && self.sources.is_idle() && !self.ask(0)? {
                return Ok(Happening::Failed);
            }
            if let Some(found) = self.look(alloc, paused)? {
                self.is_after_tick = false;
                self.turns = self.turns.saturating_sub(1);
                return Ok(found);
            }
            self.turns = 0;
            let next = self.tick_at(until).min(self.sources.retry_at());
            let most = next.saturating_sub(now);
            let walk = self.sources.scan_at().saturating_sub(uptime);
            if !self.ask(most.min(walk))? {
                return Ok(Happening::Failed);
            }
        }
        Ok(Happening::Failed)
    }

    fn connect(&mut self, output: OutputId, address: SocketAddr, link: LinkId) -> io::Result<Link> {
        let mut stream = TcpStream::connect(&self.rt, address)?;
        let both = Interest::READABLE | Interest::WRITABLE;
        let token = Source::Link(link).token();
        self.poll.registry().register(&mut stream, token, both)?;
        let uptime = self.clock.uptime(&self.rt);
        self.sources.note_dial(uptime);
        Ok(Link::Connected(Peer::new(self.rt.alloc(), output, stream, uptime)))
    }

    /// Dials a peer, at its next address if the last one was never reached.
    fn dial_peer(
        &mut self,
        output: OutputId,
        addresses: &[SocketAddr],
        link: LinkId,
    ) -> io::Result<Link> {
        let turn = self.sources.failed_dials(output);
        let place = turn.checked_rem(addresses.len() as u64).unwrap_or(0);
        let Some(address) = addresses.get(place as usize) else {
            return Err(io::Error::from(ErrorKind::AddrNotAvailable));
        };
        match self.connect(output, *address, link) {
            Ok(link) => Ok(link),
            Err(error) => {
                self.sources.note_failed_dial(output).map_err(memory_error)?;
                Err(error)
            }
        }
    }

    fn open(&mut self, output: OutputId, tag: &[u8], link: LinkId) -> io::Result<Link> {
        match self.outputs.get(output.0 as usize) {
            None => Err(io::Error::from(ErrorKind::NotFound)),
            Some(OutEnd::Stdout) => Ok(Link::Stdout(StdoutLink::new(output, link))),
            Some(OutEnd::Folder { path, file }) => {
                let name = match file {
                    Some(name) => Some(name.as_slice()),
                    None => None,
                };
                let opened = open_to_append(&self.rt, path.as_slice(), name, tag)?;
                Ok(Link::Appended(output, opened))
            }
            Some(OutEnd::Peer { host, port }) => {
                let addresses = addresses_of(&self.rt, host.as_slice(), *port)?;
                self.dial_peer(output, &addresses, link)
            }
        }
    }

    /// Opens the link of this number.
    pub fn dial(&mut self, link: LinkId, output: OutputId, tag: &[u8]) -> io::Result<()> {
        let opened = match self.open(output, tag, link) {
            Ok(opened) => opened,
            Err(error) => {
                note_failure(self.journal, output, &error);
                return Err(error);
            }
        };
        self.sources.links.insert(link.0, opened)?;
        Ok(())
    }

    /// Pushes bytes to a link. A link that was broken for its silence, or for what it sent, takes nothing.
    pub fn push(&mut self, link: LinkId, bytes: &[u8]) -> Handed
        ensures { TakesAtMost bytes.now result }
    {
        let uptime = self.clock.uptime(&self.rt);
        match self.sources.links.get_mut(&link.0) {
            Some(link) => {
                let mut failure = None;
                let registry = self.poll.registry();
                let handed = link.push(&mut self.stdout, registry, bytes, uptime, &mut failure);
                if let Some(error) = failure {
                    note_failure(self.journal, link.output(), &error);
                }
                handed
            }
            None => Handed::Broken,
        }
    }

    /// Closes a link. If its output has made others wait, they start at the next tick, which comes soon.
    pub fn close(&mut self, link: LinkId) {
        if let Some(closed) = self.sources.links.remove(&link.0) {
            if closed.has_waited() {
                self.next_within = self.next_within.min(MOST_TICK_AGE);
            }
        }
        self.stdout.release(link);
    }

    /// Sends a reply over a connection: the whole reply, or it fails.
    pub fn reply(&mut self, conn: ConnId, bytes: &[u8]) -> io::Result<()> {
        match self.sources.conns.get_mut(&conn.0) {
            Some(conn) => conn.reply(bytes),
            None => Err(io::Error::from(ErrorKind::NotConnected)),
        }
    }

    /// Drops a connection. If its peer hasn't shown the shared key, writes a line.
    pub fn drop_conn(&mut self, conn: ConnId) {
        let stranger = match self.sources.conns.get(&conn.0) {
            Some(there) if there.owes_key => Some(there.input),
            Some(_) | None => None,
        };
        if let Some(input) = stranger {
            let text = "a peer is dropped, as it didn't show the shared key";
            self.sources.log_peer(Level::Warn, input, &text);
        }
        self.sources.leave(conn);
    }

    /// Returns a random word.
    pub fn word(&self) -> io::Result<u64> {
        let mut bytes = [0; 8];
        self.rt.fill_bytes(&mut bytes)?;
        Ok(u64::from_le_bytes(bytes))
    }
}

/// Keeps why a link of an output failed, for the line on its retries.
fn note_failure(journal: &Journal, output: OutputId, error: &io::Error) {
    if let Ok(text) = format!(in journal.alloc(); "{error}") {
        journal.note_reason(output, text.as_bytes());
    }
    journal.write(Level::Debug, About::Output(output), Topic::Link, error);
}
