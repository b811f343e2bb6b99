//! A reader of many lines.

use crate::Parser;
use crate::encoding::{put_decoded, put_plain};
use crate::event_time::timed_event;
use crate::lent_fields::put_lent;
use crate::shapes::{body_of, json_reader_of, search_of};
use fwd_base::{Bytes, Memory, Search};
use fwd_event::Event;
use fwd_json::JsonReader;
use std::alloc::Global;
use std::marker::Model;

/// Reads one line after another by a parser. It is made once for many lines. Contracts see only the parser.
#[derive(Drop)]
pub struct LineReader<'p> {
    parser: &'p Parser,
    search: Option<Search<'p>>,
    json: Option<JsonReader>,
}

impl<'p> Model for LineReader<'p> {
    ghost use Rattle.fwd_parser.specs.declared.parser.Parser.{Parser};
    ghost use Rattle.fwd_parser.specs.contracts.parser.Parser as seen;
    ghost use Rattle.fwd_parser.specs.LineReader.{IsReady};

    ghost Value = { Parser };

    ghost coded = { seen.the_row.coded };

    ghost view = { λ r. r.parser.now };

    ghost invariant = { λ r. IsReady r.parser.now.shape r.search };
}

impl<'p> LineReader<'p> {
    ghost use Rattle.std.specs.Prelude.{◌≡◌, ◌↔◌, ◌++◌, IsTrue, IfOk, OnErr, if◌then◌else◌};
    ghost use Rattle.fwd_event.specs.Event.{event_val, EventFits};
    ghost use Rattle.fwd_msgpack.specs.Canonical.{canonical};
    ghost use Rattle.fwd_msgpack.specs.KeptFront.{KeepsFront};
    ghost use Rattle.fwd_parser.specs.LineEvent.{parsed};

    pub(crate) fn new(alloc: Global, parser: &'p Parser) -> Result<Self, Memory>
        ensures { IfOk result (λ reader. reader ≡ parser.now) }
    {
        let search = search_of(alloc, &parser.shape)?;
        let json = json_reader_of(alloc, &parser.shape)?;
        Ok(LineReader {
            parser,
            search,
            json,
        })
    }

    /// Returns the event of a line. `now` is the greatest reading of the clock so far, in milliseconds
    /// since 1970 in UTC; above 4,294,967,295,999 it counts as this. A line that doesn't have the parser's
    /// shape is kept whole under `log`.
    pub fn read(&mut self, alloc: Global, line: &[u8], now: u64) -> Result<Event, Memory>
        ensures event { IfOk result (λ event. event ≡ parsed self.old line.now now) }
        ensures same { self.new ≡ self.old }
    {
        self.take(alloc, Bytes::from_slice(alloc, line)?, now)
    }

    /// Returns the event of a line, as `read` does. A line that is kept whole is moved under `log`, not
    /// copied.
    #[tactic(auto, unfolding(crate::specs::LineEvent::parsed))]
    pub fn take(&mut self, alloc: Global, line: Bytes, now: u64) -> Result<Event, Memory>
        ensures event { IfOk result (λ event. event ≡ parsed self.old line now) }
        ensures same { self.new ≡ self.old }
    {
        let body = body_of(alloc, self.parser, &mut self.search, &mut self.json, line)?;
        Ok(timed_event(alloc, &self.parser.time, now, body))
    }

    /// Appends the canonical encoding of the event of a line, which `read` would return, and returns whether the
    /// event can be encoded: each length in it must be below 2^32, and its record nested at most 63 deep. If
    /// not, or after `Err`, the bytes are unchanged. A line that is kept whole is copied once, and so are most
    /// groups.
    pub fn write(
        &mut self,
        alloc: Global,
        line: Bytes,
        now: u64,
        out: &mut Bytes,
    ) -> Result<bool, Memory>
        ensures fits { IfOk result (λ written. IsTrue written ↔ EventFits (parsed self.old line now)) }
        ensures bytes { IfOk result (λ written. out.new
            ≡ (if written then out.old ++ canonical (event_val (parsed self.old line now)) else out.old)) }
        ensures err { OnErr result (out.new ≡ out.old) }
        ensures same { self.new ≡ self.old }
    {
        let start = out.len();
        let written = self.put(alloc, line, now, out);
        if written.is_err() {
            out.truncate(start);
        }
        written
    }

    /// Does what `write` does, but after `Err` the bytes may end in a part of an event.
    #[tactic(auto, using(fwd_msgpack::proofs::KeptFront::keeps_same))]
    fn put(&mut self, alloc: Global, line: Bytes, now: u64, out: &mut Bytes) -> Result<bool, Memory>
        ensures fits { IfOk result (λ put. IsTrue put ↔ EventFits (parsed self.old line now)) }
        ensures bytes { IfOk result (λ put. out.new
            ≡ (if put then out.old ++ canonical (event_val (parsed self.old line now)) else out.old)) }
        ensures err { OnErr result (KeepsFront out.old out.new) }
        ensures same { self.new ≡ self.old }
    {
        if self.parser.keeps_lines() {
            return put_plain(line.as_slice(), now, out);
        }
        let text = line.as_slice();
        let put = put_lent(alloc, self.parser, &mut self.search, text, now, out)?;
        if let Some(put) = put {
            return Ok(put);
        }
        let event = self.take(alloc, line, now)?;
        put_decoded(&event, out)
    }
}
