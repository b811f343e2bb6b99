//! The journal of a run, lent to all that write.

use crate::board::{Address, Pages};
use crate::destination::{Destination, open_at_end};
use crate::series::{AllSeries, Topic};
use crate::source::{Names, Source};
use crate::texts::Texts;
use crate::{Level, limit, line_of, words_for};
use fwd_base::{Bytes, ConnId, Memory, OutputId};
use std::alloc::Global;
use std::cell::{Cell, RefCell};
use std::fmt::Display;
use std::io;
use std::time::{Duration, Instant, SystemTime, UNIX_EPOCH};

/// The most series whose lines `finish` counts.
const MOST_SERIES: u32 = 4_096;

/// The log of a run, the board on which its pages are asked for and put, and the connection that the poll is
/// asked to drop. What it has is in cells, so it is lent by shared references. A write that fails, or that comes
/// during another one, is passed over.
#[derive(Drop)]
pub struct Journal {
    rt: HostRuntime,
    level: Cell<Option<Level>>,
    destination: RefCell<Destination>,
    names: RefCell<Names>,
    series: RefCell<AllSeries>,
    /// Why a delivery of an output failed last.
    reasons: Texts,
    /// How a peer of an output refused last, which no other reason replaces.
    refusals: Texts,
    /// The time of creation, if there is a clock.
    creation: Option<Instant>,
    /// Whether somebody waits for pages.
    asked: Cell<bool>,
    /// The pages that were made last, until they are taken.
    pages: RefCell<Option<Pages>>,
    /// Where pages are to be served, if they are.
    server: RefCell<Option<Address>>,
    /// The connection that is to be dropped, until the poll takes it.
    to_drop: Cell<Option<ConnId>>,
}

fn millis_of(time: Duration) -> u64 {
    time.as_millis().min(u64::MAX as u128) as u64
}

fn without_memory(_: Memory) -> io::Error {
    io::Error::from(io::ErrorKind::OutOfMemory)
}

impl Journal {
    /// Returns a journal that writes lines of this level to standard error; none if it is off.
    pub fn new(rt: HostRuntime, level: Option<Level>) -> Journal {
        let alloc = rt.alloc();
        Journal {
            rt,
            level: Cell::new(level),
            destination: RefCell::new(Destination::Stderr),
            names: RefCell::new(Names::new(alloc)),
            series: RefCell::new(AllSeries::new(alloc)),
            reasons: Texts::new(alloc),
            refusals: Texts::new(alloc),
            creation: Instant::now(&rt).ok(),
            asked: Cell::new(false),
            pages: RefCell::new(None),
            server: RefCell::new(None),
            to_drop: Cell::new(None),
        }
    }

    pub fn alloc(&self) -> Global {
        self.rt.alloc()
    }

    /// Returns whether lines of a level are written.
    pub fn writes(&self, level: Level) -> bool {
        level.is_written(self.level.get())
    }

    /// Sets the level, and goes on in a file, if one is given. If that can't be opened, a line says so, and
    /// the log stays where it is.
    pub fn open(&self, level: Option<Level>, file: Option<&[u8]>) {
        self.level.set(level);
        let Some(path) = file else {
            return;
        };
        match open_at_end(&self.rt, path) {
            Ok(file) => {
                let _ = self.destination.try_replace(Destination::File(file));
            }
            Err(error) => {
                let path = str::from_utf8(path).unwrap_or("?");
                let source = Source::Config;
                self.write(
                    Level::Warn,
                    source,
                    Topic::File,
                    &format_args!(
                        "Log_File {path} can't be opened: {error}; the log stays on standard error"
                    ),
                );
            }
        }
    }

    /// Sets the names of inputs and outputs.
    pub fn name(&self, names: Names) {
        let _ = self.names.try_replace(names);
    }

    /// Notes why a delivery of an output failed. The next line about the output's retries has it.
    pub fn note_reason(&self, output: OutputId, reason: &[u8]) {
        self.reasons.keep(self.rt.alloc(), output, reason);
    }

    /// Notes that a delivery of an output failed as the peer refused it, in these words. Reasons that are
    /// noted later leave them.
    pub fn note_refusal(&self, output: OutputId, text: &[u8]) {
        self.note_reason(output, text);
        self.refusals.keep(self.rt.alloc(), output, text);
    }

    /// Returns a copy of the reason that was noted last for an output.
    pub fn reason_of(&self, output: OutputId) -> Option<Bytes> {
        self.reasons.of(self.rt.alloc(), output)
    }

    /// Returns a copy of the refusal that was noted last for an output.
    pub fn refusal_of(&self, output: OutputId) -> Option<Bytes> {
        self.refusals.of(self.rt.alloc(), output)
    }

    /// Forgets why deliveries of an output failed, as one has succeeded.
    pub fn forget_reason(&self, output: OutputId) {
        self.reasons.forget(output);
        self.refusals.forget(output);
    }

    /// Returns whether the limiter of a series allows a line now.
    pub fn is_due(&self, source: Source, topic: Topic) -> bool {
        match self.series.try_borrow() {
            Ok(series) => series.limiter_of(source, topic).next <= self.age(),
            Err(_) => false,
        }
    }

    /// Returns the milliseconds since creation.
    pub fn age(&self) -> u64 {
        match (self.creation, Instant::now(&self.rt)) {
            (Some(creation), Ok(now)) => millis_of(now.duration_since(creation)),
            _ => 0,
        }
    }

    /// Returns the milliseconds since 1970; 0 if there is no clock.
    pub fn now(&self) -> u64 {
        match SystemTime::now(&self.rt) {
            Ok(now) => match now.duration_since(UNIX_EPOCH) {
                Ok(time) => millis_of(time),
                Err(_) => 0,
            },
            Err(_) => 0,
        }
    }

    /// Writes a line at once.
    fn put(&self, level: Level, source: Source, text: &[u8]) -> io::Result<()> {
        let alloc = self.rt.alloc();
        let source = match self.names.try_borrow() {
            Ok(names) => source.text(alloc, &names).map_err(without_memory)?,
            Err(_) => return Ok(()),
        };
        let line = line_of(alloc, self.now(), level, source.as_slice(), text).map_err(
            without_memory,
        )?;
        match self.destination.try_borrow_mut() {
            Ok(mut destination) => destination.write(&self.rt, line.as_slice()),
            Err(_) => Ok(()),
        }
    }

    /// Decides by the limiter of a series whether a line is written now. Returns how many were passed over, if
    /// so.
    fn admit(&self, source: Source, topic: Topic) -> Option<u64> {
        match self.series.try_borrow_mut() {
            Ok(mut series) => {
                let (passed_over, limiter) = limit(series.limiter_of(source, topic), self.age());
                let _ = series.keep(source, topic, limiter);
                passed_over
            }
            Err(_) => None,
        }
    }

    fn try_write(
        &self,
        level: Level,
        source: Source,
        topic: Topic,
        text: &impl Display,
    ) -> io::Result<()> {
        let alloc = self.rt.alloc();
        match self.admit(source, topic) {
            Some(0) => {
                let text = format!(in alloc; "{text}")?;
                self.put(level, source, text.as_bytes())
            }
            Some(more) => {
                let text = format!(in alloc; "{text} ({more} more like this)")?;
                self.put(level, source, text.as_bytes())
            }
            None => Ok(()),
        }
    }

    /// Writes a line, if the level asks for it and the limiter of its source and topic allows it.
    pub fn write(&self, level: Level, source: Source, topic: Topic, text: &impl Display) {
        if self.writes(level) {
            let _ = self.try_write(level, source, topic, text);
        }
    }

    /// Writes how many lines were passed over and not counted by a later one. The end of a run calls it.
    pub fn finish(&self) {
        for _ in 0..MOST_SERIES {
            let passed_over = match self.series.try_borrow_mut() {
                Ok(mut series) => series.take_passed_over(),
                Err(_) => None,
            };
            let Some(series) = passed_over else {
                return;
            };
            let (more, topic) = (series.limiter.passed_over, series.topic.word());
            let lines = words_for(more, "line", "lines");
            let were = words_for(more, "was", "were");
            if let Ok(text) = format!(in self.rt.alloc();
                "{more} more {lines} on {topic} {were} passed over"
            ) {
                let _ = self.put(Level::Info, series.source, text.as_bytes());
            }
        }
    }

    /// Has the pages served at this address, once the inputs are opened.
    pub fn serve(&self, host: Bytes, port: u16) {
        let _ = self.server.try_replace(Some(Address { host, port }));
    }

    /// Returns the address at which pages are to be served, once.
    pub fn take_server(&self) -> Option<Address> {
        self.server.try_take().ok().flatten()
    }

    /// Asks the poll to drop a connection. A later request replaces one that wasn't taken.
    pub fn ask_to_drop(&self, conn: ConnId) {
        self.to_drop.set(Some(conn));
    }

    /// Returns the connection that is to be dropped, once.
    pub fn take_conn_to_drop(&self) -> Option<ConnId> {
        self.to_drop.replace(None)
    }

    /// Asks for pages. They come at the next reading of the clock.
    pub fn ask(&self) {
        self.asked.set(true);
    }

    /// Returns whether somebody asks for pages.
    pub fn is_asked(&self) -> bool {
        self.asked.get()
    }

    /// Puts pages on the board. Nobody asks for them then.
    pub fn put_pages(&self, pages: Pages) {
        self.asked.set(false);
        let _ = self.pages.try_replace(Some(pages));
    }

    /// Takes the pages that were put since the last call.
    pub fn take_pages(&self) -> Option<Pages> {
        self.pages.try_take().ok().flatten()
    }
}
