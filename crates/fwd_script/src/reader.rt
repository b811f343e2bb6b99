//! The reader of a schedule, line by line.

ghost use Rattle.std.specs.Prelude.{◌≡◌, ◌≢◌, ℕ, ◌∷◌, ◌++◌, [], IfErr, IfOk, OnOk};
ghost use Rattle.std.specs.Option.{option_copied};
ghost use Rattle.fwd_script.specs.Keywords.{keyword_of};
ghost use Rattle.fwd_script.specs.Schedule.{IsRead, after, next_is_happening, schedule_so_far, in_order, is_happening, is_passed_over, judge, lines_left, empty_life, reader_start, one_happening, schedule_of, ticks_of};

use crate::keywords::Keyword;
use crate::meaning::{LineMeaning, line_meaning};
use crate::words::part;
use crate::{Life, Lives, Planned, Schedule, ScheduleKind, ScheduleRefused};
use fwd_base::limits::MOST_TICKS;
use fwd_base::{Items, Memory};
use std::alloc::Global;
use std::mem;

/// The meaning of the lines read so far.
#[derive(Debug, Drop)]
pub struct ScheduleReader {
    /// The complete runs.
    pub lives: Lives,
    /// The current run. After a `crash` line it has its cut, and the next loop event completes it.
    pub life: Life,
    /// How many clock readings may still come.
    pub left: u64,
    /// Whether a loop event or a crash was read.
    pub begun: bool,
}

/// Reads the text of a schedule.
pub fn read_schedule(alloc: Global, bytes: &[u8]) -> Result<Schedule, ScheduleRefused>
    ensures schedule { IfOk result (λ schedule. schedule_of bytes.now ≡ Ok schedule) }
    ensures refused { IfErr result (λ refused. refused.kind ≢ ScheduleKind.Memory → schedule_of bytes.now ≡ Err refused) }
{
    let mut so_far = ScheduleReader::new(alloc);
    let mut rest = Some(bytes);
    let mut number = 0;
    'lines: while let Some(text) = rest {
        let (line, behind) = part(text, b'\n');
        number += 1;
        if !is_passed_over(line) {
            match so_far.read(alloc, line, behind) {
                Ok(()) => {}
                Err(kind) => return Err(ScheduleRefused { kind, line: number }),
            }
        }
        rest = behind;
    }
    Ok(so_far.finish()?)
}

/// Returns whether a line is empty or a comment, which begins with `#`.
fn is_passed_over(line: &[u8]) -> bool
    ensures { result ≡ is_passed_over line.now }
{
    match line {
        [] => true,
        [first, ..] => *first == b'#',
    }
}

/// Returns whether the keyword of the next line that isn't skipped has exactly one loop event.
fn next_is_happening(behind: Option<&[u8]>) -> bool
    ensures { result ≡ next_is_happening (lines_left (option_copied behind.entry)) }
{
    let mut rest = behind;
    'lines: while let Some(text) = rest {
        let (line, behind) = part(text, b'\n');
        if !is_passed_over(line) {
            let (first, _) = part(line, b' ');
            return is_happening_word(first);
        }
        rest = behind;
    }
    false
}

/// Returns whether a word is a keyword with exactly one loop event.
fn is_happening_word(word: &[u8]) -> bool
    ensures { result ≡ one_happening (keyword_of word.now) }
{
    match Keyword::of(word) {
        Some(keyword) => keyword.is_one_happening(),
        None => false,
    }
}

impl ScheduleReader {
    fn new(alloc: Global) -> Self
        ensures { result ≡ reader_start }
    {
        ScheduleReader {
            lives: Items::new(alloc),
            life: Life::new(alloc),
            left: MOST_TICKS,
            begun: false,
        }
    }

    /// Reads a line that isn't skipped. `behind` is the text after it.
    fn read(
        &mut self,
        alloc: Global,
        line: &[u8],
        behind: Option<&[u8]>,
    ) -> Result<(), ScheduleKind>
        ensures ok { OnOk result (IsRead (judge self.old line.now (lines_left (option_copied behind.entry))) self.old self.new) }
        ensures err { IfErr result (λ kind. kind ≢ ScheduleKind.Memory → judge self.old line.now (lines_left (option_copied behind.entry)) ≡ Err kind) }
    {
        let meaning = match line_meaning(alloc, self.left, line) {
            Ok(meaning) => meaning,
            Err(kind) => return Err(kind),
        };
        if !self.allows_line(&meaning, behind) {
            return Err(ScheduleKind::BadOrder);
        }
        self.put(alloc, meaning)?;
        Ok(())
    }

    /// Returns whether a line of this meaning is allowed here.
    fn allows_line(&self, meaning: &LineMeaning, behind: Option<&[u8]>) -> bool
        ensures { result ≡ in_order self.now meaning.now (lines_left (option_copied behind.entry)) }
    {
        match meaning {
            LineMeaning::Stores(_) => !self.begun,
            LineMeaning::Crashes(_) => next_is_happening(behind),
            LineMeaning::Plans(_) => true,
            LineMeaning::Answers(_) => true,
            LineMeaning::DiskFails(_) => true,
            LineMeaning::FileFails(_) => true,
        }
    }

    fn put(&mut self, alloc: Global, meaning: LineMeaning) -> Result<(), Memory>
        ensures { OnOk result (self.new ≡ after meaning self.old) }
    {
        match meaning {
            LineMeaning::Plans(planned) => return self.plan(alloc, planned),
            LineMeaning::Answers(given) => self.life.answers.push(given)?,
            LineMeaning::DiskFails(call) => self.life.disk_fails.push(call)?,
            LineMeaning::FileFails(call) => self.life.file_fails.push(call)?,
            LineMeaning::Stores(stored) => self.life.store.push(stored)?,
            LineMeaning::Crashes(cut) => {
                self.life.cut = Some(cut);
                self.begun = true;
            }
        }
        Ok(())
    }

    fn plan(&mut self, alloc: Global, planned: Planned) -> Result<(), Memory>
        ensures { OnOk result (self.new ≡ after (LineMeaning.Plans planned) self.old) }
    {
        self.left = self.left.saturating_sub(planned.ticks());
        if planned.is_happening() {
            self.begun = true;
        }
        self.life.lines.push(planned)?;
        if self.life.cut.is_some() {
            let life = mem::replace(&mut self.life, Life::new(alloc));
            self.lives.push(life)?;
        }
        Ok(())
    }

    fn finish(self) -> Result<Schedule, Memory>
        ensures { IfOk result (λ schedule. schedule ≡ schedule_so_far self) }
    {
        let ScheduleReader {
            mut lives,
            life,
            left: _,
            begun: _,
        } = self;
        lives.push(life)?;
        Ok(Schedule { lives })
    }
}

impl Planned {
    /// Returns the number of clock readings of a `ticks` line.
    fn ticks(&self) -> u64
        ensures { result ≡ ticks_of self.now }
    {
        match self {
            Planned::Ticks { count, .. } => *count,
            Planned::Happens(_) => 0,
            Planned::Changes(_) => 0,
        }
    }

    /// Returns whether it is loop events, not a change of a file.
    fn is_happening(&self) -> bool
        ensures { result ≡ is_happening self.now }
    {
        match self {
            Planned::Changes(_) => false,
            Planned::Happens(_) => true,
            Planned::Ticks { .. } => true,
        }
    }
}
