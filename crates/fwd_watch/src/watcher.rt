//! The watcher over a journal.

use crate::changes::Risen;
use crate::counts::Counts;
use crate::log_keys::unread_text;
use crate::pages::PageMaker;
use crate::refusal::refusal_text;
use crate::{Snapshot, Watch};
use fwd_base::{Bytes, ChunkId, InputId, Memory, Names, OutputId, is_set};
use fwd_config::{ConfigKind, Place, Section, Sections};
use fwd_log::{Journal, Level, Source, SourceNames, Topic, words_for};
use fwd_log_settings::{LogSettings, UNFINISHED_LIMIT, log_settings};
use fwd_outside::Home;
use fwd_retry::Timer;
use fwd_settings_schema::SettingKind;
use fwd_table::{InputTally, OutputTally, Table};
use std::alloc::Global;
use std::fmt::Display;

/// How many timers are looked at for the next try of an output.
const MOST_TIMERS: u32 = 4;

/// The watcher that writes into a journal, and puts pages on its board.
#[derive(Drop)]
pub struct Watcher<'j> {
    journal: &'j Journal,
    before: Counts,
    paused: u64,
    is_stopped: bool,
    /// How many reads of chunks found damaged content.
    damaged: u64,
    /// The outputs of which a flush failed and none was delivered since: bit `i` is output `i`.
    failing: u64,
    /// The most bytes that the unfinished messages of all connections may have together.
    unfinished_limit: u64,
    pages: PageMaker,
}

/// What is left in the table at the end of a run.
#[derive(Clone, Copy, Debug)]
struct Left {
    in_memory: u64,
    bytes_in_memory: u64,
    in_files: u64,
}

fn left_in(table: &Table) -> Left {
    let mut left = Left {
        in_memory: 0,
        bytes_in_memory: 0,
        in_files: 0,
    };
    for place in 0..table.places() {
        if let Some(row) = table.row(place) {
            match row.home {
                Home::Disk => left.in_files = left.in_files.saturating_add(1),
                Home::Ram => {
                    left.in_memory = left.in_memory.saturating_add(1);
                    left.bytes_in_memory = left.bytes_in_memory.saturating_add(row.size);
                }
            }
        }
    }
    left
}

/// Returns the first timer of an output after a time, if it is among the first few of all.
fn next_try(table: &Table, output: OutputId, now: u64) -> Option<Timer> {
    let mut after = Timer {
        due: now,
        chunk: ChunkId(u64::MAX),
        output: OutputId(u32::MAX),
    };
    for _ in 0..MOST_TIMERS {
        let timer = table.next_due(u64::MAX, Some(after))?;
        if timer.output == output {
            return Some(timer);
        }
        after = timer;
    }
    None
}

/// Returns an index as the number of an input or an output, of which there are few.
fn number_of(index: usize) -> u32 {
    u32::try_from(index).unwrap_or(u32::MAX)
}

/// Returns a text, or its readable part, after a colon.
fn after_colon(alloc: Global, text: &[u8]) -> Result<String, Memory> {
    let text = String::from_utf8_lossy(alloc, text)?;
    Ok(format!(in alloc; ": {text}")?)
}

/// Returns names, or their readable parts, with commas between them.
fn join_names(alloc: Global, names: &Names) -> Result<String, Memory> {
    let mut text = String::new(alloc);
    for name in names.as_slice() {
        if !text.is_empty() {
            text.push_str(", ")?;
        }
        let name = String::from_utf8_lossy(alloc, name.as_slice())?;
        text.push_str(name.as_str())?;
    }
    Ok(text)
}

fn bit_of(output: u32) -> u64 {
    1u64.checked_shl(output).unwrap_or(0)
}

impl<'j> Watcher<'j> {
    /// Returns the watcher of a run that begins.
    pub fn new(alloc: Global, journal: &'j Journal) -> Watcher<'j> {
        Watcher {
            journal,
            before: Counts::new(alloc),
            paused: 0,
            is_stopped: false,
            damaged: 0,
            failing: 0,
            unfinished_limit: UNFINISHED_LIMIT,
            pages: PageMaker::new(alloc),
        }
    }

    fn log(&self, level: Level, source: Source, topic: Topic, text: &impl Display) {
        self.journal.write(level, source, topic, text);
    }

    /// Returns why the last delivery of an output failed, after a colon; empty if no device said why.
    fn reason(&self, output: OutputId) -> Result<String, Memory> {
        let alloc = self.journal.alloc();
        match self.journal.reason_of(output) {
            Some(reason) => after_colon(alloc, reason.as_slice()),
            None => Ok(String::new(alloc)),
        }
    }

    /// Returns how the peer of an output refused last, after a colon. If no device said how, returns why the
    /// last delivery failed.
    fn refusal(&self, output: OutputId) -> Result<String, Memory> {
        match self.journal.refusal_of(output) {
            Some(refusal) => after_colon(self.journal.alloc(), refusal.as_slice()),
            None => self.reason(output),
        }
    }

    fn log_retries(&self, output: OutputId, risen: Risen, table: &Table) -> Result<(), Memory> {
        let source = Source::Output(output);
        if !self.journal.is_due(source, Topic::Retry) {
            self.log(Level::Warn, source, Topic::Retry, &"");
            return Ok(());
        }
        let reason = self.reason(output)?;
        let count = risen.retried;
        let chunks = words_for(count, "chunk", "chunks");
        let now = self.journal.now();
        match next_try(table, output, now) {
            Some(timer) => {
                let seconds = timer.due.saturating_sub(now).saturating_add(999) / 1_000;
                let chunk = timer.chunk.0;
                let tries = table.tries(timer.chunk, output);
                let times = words_for(tries, "try", "tries");
                self.log(
                    Level::Warn,
                    source,
                    Topic::Retry,
                    &format_args!(
                        "{count} {chunks} can't be delivered{reason}; next try in {seconds} s (chunk {chunk}, {tries} {times} so far)"
                    ),
                );
            }
            None => {
                let again = words_for(count, "it is tried again", "they are tried again");
                self.log(
                    Level::Warn,
                    source,
                    Topic::Retry,
                    &format_args!("{count} {chunks} can't be delivered{reason}; {again}"),
                );
            }
        }
        Ok(())
    }

    /// Logs the chunks that the output gives up.
    fn log_discards(&self, output: OutputId, risen: Risen) -> Result<(), Memory> {
        let source = Source::Output(output);
        let (refused, spent, evicted) = (risen.refused, risen.spent, risen.evicted);
        if 0 < refused {
            let refusal = self.refusal(output)?;
            let what = words_for(
                refused,
                "chunk is given up, as the peer refused it",
                "chunks are given up, as the peer refused them",
            );
            let text = format_args!("{refused} {what}{refusal}");
            self.log(Level::Error, source, Topic::Refusal, &text);
        }
        if 0 < spent {
            let reason = self.reason(output)?;
            let what = words_for(
                spent,
                "chunk is given up, as its retries are used up",
                "chunks are given up, as their retries are used up",
            );
            let text = format_args!("{spent} {what}{reason}");
            self.log(Level::Error, source, Topic::GivenUp, &text);
        }
        if 0 < evicted {
            let what = words_for(evicted, "chunk is given up", "chunks are given up");
            let text = format_args!("{evicted} {what}, as storage.total_limit_size is reached");
            self.log(Level::Error, source, Topic::GivenUp, &text);
        }
        Ok(())
    }

    fn log_recovery(&mut self, output: OutputId) {
        let bit = bit_of(output.0);
        if self.failing & bit != 0 {
            self.failing &= !bit;
            self.journal.forget_reason(output);
            self.log(
                Level::Info,
                Source::Output(output),
                Topic::Recovery,
                &"delivers again",
            );
        }
    }

    fn compare_output(
        &mut self,
        index: usize,
        now: OutputTally,
        snapshot: Snapshot<'_>,
    ) -> Result<(), Memory> {
        let Some(before) = self.before.outputs.get(index).copied() else {
            return Ok(());
        };
        if before == now {
            return Ok(());
        }
        self.before.keep_output(index, now);
        let output = OutputId(number_of(index));
        let risen = Risen::between(before, now);
        if 0 < risen.discards() {
            self.pages.note_failure(self.journal.age());
            self.failing |= bit_of(output.0);
            self.log_discards(output, risen)?;
        }
        if 0 < risen.retried {
            self.failing |= bit_of(output.0);
            self.log_retries(output, risen, snapshot.table)?;
        } else if 0 < risen.delivered && risen.discards() == 0 {
            self.log_recovery(output);
        }
        Ok(())
    }

    fn compare_input(&mut self, index: usize, now: InputTally) {
        let Some(before) = self.before.inputs.get(index).copied() else {
            return;
        };
        if before == now {
            return;
        }
        self.before.keep_input(index, now);
        let refused = now.refused.saturating_sub(before.refused);
        if 0 < refused {
            let source = Source::Input(InputId(number_of(index)));
            let what = words_for(
                refused,
                "batch or message is refused",
                "batches or messages are refused",
            );
            let text = format_args!("{refused} {what}");
            self.log(Level::Warn, source, Topic::Batch, &text);
        }
    }

    /// Logs which inputs were paused, and which go on. At a stop all are paused, which is no news.
    fn compare_paused(&mut self, paused: u64, inputs: usize) {
        if paused == self.paused || self.is_stopped {
            return;
        }
        let before = self.paused;
        self.paused = paused;
        for index in 0..inputs {
            let input = number_of(index);
            let source = Source::Input(InputId(input));
            match (is_set(before, input), is_set(paused, input)) {
                (false, true) => self.log(
                    Level::Warn,
                    source,
                    Topic::Pause,
                    &"is paused, as its chunks in memory have reached Mem_Buf_Limit",
                ),
                (true, false) => self.log(Level::Info, source, Topic::Pause, &"goes on"),
                (false, false) | (true, true) => {}
            }
        }
    }

    fn compare_stop(&mut self, snapshot: Snapshot<'_>) {
        if self.is_stopped || snapshot.stopped.is_none() {
            return;
        }
        self.is_stopped = true;
        let left = snapshot.table.len();
        let chunks = words_for(left, "chunk is", "chunks are");
        let text = format_args!(
            "stops: inputs are closed, and {left} {chunks} waited for until Grace is over"
        );
        self.log(Level::Info, Source::Engine, Topic::Stop, &text);
    }

    /// Logs reads of chunks that found damaged content.
    fn compare_damaged(&mut self, damaged: u64) {
        let risen = damaged.saturating_sub(self.damaged);
        self.damaged = damaged;
        if 0 < risen {
            let reads = words_for(risen, "read of a chunk file", "reads of chunk files");
            let text = format_args!("{risen} {reads} found damaged content");
            self.log(Level::Error, Source::Storage, Topic::File, &text);
        }
    }

    /// Asks the poll to drop the connection with the largest unfinished message, if all of them together have
    /// too many bytes.
    fn limit_unfinished(&self, snapshot: Snapshot<'_>) {
        if snapshot.unfinished <= self.unfinished_limit {
            return;
        }
        if let Some(conn) = snapshot.largest_unfinished {
            self.journal.ask_to_drop(conn);
        }
    }

    fn compare(&mut self, snapshot: Snapshot<'_>) -> Result<(), Memory> {
        self.compare_stop(snapshot);
        self.compare_damaged(snapshot.damaged);
        for (index, tally) in snapshot.tally.outputs.as_slice().iter().enumerate() {
            self.compare_output(index, *tally, snapshot)?;
        }
        for (index, tally) in snapshot.tally.inputs.as_slice().iter().enumerate() {
            self.compare_input(index, *tally);
        }
        self.compare_paused(snapshot.paused, snapshot.tally.inputs.len());
        Ok(())
    }

    fn log_loaded(&self, snapshot: Snapshot<'_>) {
        let (loaded, unrouted, left) = (
            snapshot.tally.loaded,
            snapshot.tally.unrouted,
            snapshot.tally.left,
        );
        if 0 < loaded || 0 < unrouted || 0 < left {
            let chunks = words_for(loaded, "chunk is", "chunks are");
            let matches = words_for(unrouted, "matches", "match");
            let files = words_for(left, "file is left as it is", "files are left as they are");
            let text = format_args!(
                "{loaded} {chunks} loaded; {unrouted} {matches} no output, {left} {files}"
            );
            self.log(Level::Info, Source::Storage, Topic::Run, &text);
        }
    }

    /// Warns of names in chunk files that no output has, in one line.
    fn log_strangers(&self, names: &Names) -> Result<(), Memory> {
        if names.is_empty() {
            return Ok(());
        }
        let names = join_names(self.journal.alloc(), names)?;
        let text = format_args!(
            "chunk files name outputs that the configuration doesn't have: {names}"
        );
        self.log(Level::Warn, Source::Storage, Topic::Stranger, &text);
        Ok(())
    }

    fn log_left(&self, snapshot: Snapshot<'_>) {
        let left = left_in(snapshot.table);
        let (chunks, bytes, files) = (left.in_memory, left.bytes_in_memory, left.in_files);
        let in_memory = words_for(chunks, "chunk in memory", "chunks in memory");
        let dropped = words_for(chunks, "is dropped", "are dropped");
        let in_files = words_for(
            files,
            "chunk in a file is left to the next run",
            "chunks in files are left to the next run",
        );
        if snapshot.stopped.is_none() {
            let text = format_args!(
                "breaks off: {chunks} {in_memory} with {bytes} bytes {dropped}, and {files} {in_files}"
            );
            self.log(Level::Error, Source::Engine, Topic::GivenUp, &text);
            return;
        }
        if 0 < chunks {
            let text = format_args!("ends: {chunks} {in_memory} with {bytes} bytes {dropped}");
            self.log(Level::Warn, Source::Engine, Topic::GivenUp, &text);
        }
        if 0 < files {
            let text = format_args!("ends: {files} {in_files}");
            self.log(Level::Warn, Source::Engine, Topic::Retry, &text);
        }
        if chunks == 0 && files == 0 {
            self.log(
                Level::Info,
                Source::Engine,
                Topic::Recovery,
                &"ends: all chunks are delivered or given up",
            );
        }
    }

    /// Warns of values of the log settings that can't be read, in one line.
    fn log_unread(&self, sections: &[Section]) -> Result<(), Memory> {
        let text = unread_text(self.journal.alloc(), sections)?;
        if !text.is_empty() {
            self.log(Level::Warn, Source::Config, Topic::File, &text.as_str());
        }
        Ok(())
    }

    fn follow(&mut self, settings: LogSettings) {
        let LogSettings {
            level,
            file,
            server,
            checks_health,
            unfinished_limit,
        } = settings;
        let file = match &file {
            Some(path) => Some(path.as_slice()),
            None => None,
        };
        self.journal.open(level, file);
        self.pages.check_health(checks_health);
        self.unfinished_limit = unfinished_limit;
        if let Some(server) = server {
            self.journal.serve(server.host, server.port);
        }
    }

    fn name(&mut self, inputs: &Names, outputs: &Names) -> Result<(), Memory> {
        let alloc = self.journal.alloc();
        self.journal.name(SourceNames {
            inputs: inputs.try_clone(alloc)?,
            outputs: outputs.try_clone(alloc)?,
        });
        self.pages
            .name(inputs.try_clone(alloc)?, outputs.try_clone(alloc)?);
        Ok(())
    }

    fn log_start(&self, inputs: &Names, outputs: &Names) {
        let (inputs, outputs) = (inputs.len() as u64, outputs.len() as u64);
        let reads = words_for(inputs, "input", "inputs");
        let writes = words_for(outputs, "output", "outputs");
        let text = format_args!("fuztreb begins with {inputs} {reads} and {outputs} {writes}");
        self.log(Level::Info, Source::Engine, Topic::Run, &text);
    }
}

impl<'j> Watch for Watcher<'j> {
    fn note_refused_file(&mut self, kind: ConfigKind, place: &Place) {
        let alloc = self.journal.alloc();
        if let Ok(file) = String::from_utf8_lossy(alloc, place.file.as_slice()) {
            let line = place.line;
            self.log(
                Level::Error,
                Source::Config,
                Topic::Run,
                &format_args!("{file}:{line}: {kind}"),
            );
        }
    }

    fn note_refused_settings(&mut self, sections: &Sections, kind: SettingKind, place: &Place) {
        let alloc = self.journal.alloc();
        if let Ok(text) = refusal_text(alloc, sections.as_slice(), kind, place) {
            self.log(Level::Error, Source::Config, Topic::Run, &text.as_str());
        }
    }

    fn note_settings(&mut self, sections: &Sections) {
        if let Ok(settings) = log_settings(self.journal.alloc(), sections) {
            self.follow(settings);
        }
        let _ = self.log_unread(sections.as_slice());
    }

    fn note_start(&mut self, inputs: &Names, outputs: &Names, snapshot: Snapshot<'_>) {
        let _ = self.name(inputs, outputs);
        let _ = self.before.copy(self.journal.alloc(), snapshot.tally);
        self.paused = snapshot.paused;
        self.log_start(inputs, outputs);
        self.log_loaded(snapshot);
    }

    fn note_strangers(&mut self, names: &Names) {
        let _ = self.log_strangers(names);
    }

    fn note_clock(&mut self, snapshot: Snapshot<'_>) {
        self.limit_unfinished(snapshot);
        let _ = self.compare(snapshot);
        self.pages.answer(self.journal, snapshot);
    }

    fn note_end(&mut self, snapshot: Snapshot<'_>) {
        let _ = self.compare(snapshot);
        self.pages.answer(self.journal, snapshot);
        self.log_left(snapshot);
        self.journal.finish();
    }
}
