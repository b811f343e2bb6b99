//! The meanings of lines.

ghost use Rattle.std.specs.Prelude.{◌≡◌, ◌≢◌, IfErr, IfOk};
ghost use Rattle.fwd_script.specs.declared.refusal.ScheduleKind.TheVariants.{Memory};
ghost use Rattle.fwd_script.specs.Words.{Reads, over};
ghost use Rattle.fwd_script.specs.Table.{line_meaning, push_word, row, ok_or_word};

use crate::keywords::Keyword;
use crate::words::{Words, part};
use crate::{Cut, FileChange, Given, Planned, PushWord, ScheduleKind, Stored};
use fwd_base::{Bytes, ConnId, InputId, LinkId, OutputId};
use fwd_outside::Happening;
use std::alloc::Global;

/// The meaning of a line.
#[derive(Debug, Drop)]
pub enum LineMeaning {
    Plans(Planned),
    Answers(Given),
    DiskFails(u64),
    FileFails(u64),
    Stores(Stored),
    Crashes(Cut),
}

fn happens(words: &mut Words, happening: Happening) -> Result<LineMeaning, ScheduleKind>
    ensures { Reads (over (LineMeaning.Plans (Planned.Happens happening))) words.old result words.new }
{
    words.over(LineMeaning::Plans(Planned::Happens(happening)))
}

fn tick(words: &mut Words) -> Result<LineMeaning, ScheduleKind>
    ensures { Reads (row Keyword.Tick 0) words.old result words.new }
{
    let now = words.number()?;
    happens(words, Happening::Tick { now })
}

fn ticks(words: &mut Words, left: u64) -> Result<LineMeaning, ScheduleKind>
    ensures { Reads (row Keyword.Ticks left) words.old result words.new }
{
    let first = words.number()?;
    let step = words.number()?;
    let count = words.number_to(left)?;
    words.over(LineMeaning::Plans(Planned::Ticks { first, step, count }))
}

fn joined(words: &mut Words) -> Result<LineMeaning, ScheduleKind>
    ensures { Reads (row Keyword.Joined 0) words.old result words.new }
{
    let input = InputId(words.id()?);
    let conn = ConnId(words.number()?);
    happens(words, Happening::Joined { input, conn })
}

fn piece(alloc: Global, words: &mut Words) -> Result<LineMeaning, ScheduleKind>
    ensures { Reads (row Keyword.Piece 0) words.old result words.new }
{
    let input = InputId(words.id()?);
    let conn = ConnId(words.number()?);
    let bytes = words.piece(alloc)?;
    happens(words, Happening::Piece { input, conn, bytes })
}

fn dial(words: &mut Words) -> Result<LineMeaning, ScheduleKind>
    ensures { Reads (row Keyword.Dial 0) words.old result words.new }
{
    let output = OutputId(words.id()?);
    let taken = ok_or_word(words, b"refused")?;
    words.over(LineMeaning::Answers(Given::Dial { output, taken }))
}

/// Reads `ok`, or the word for the opposite.
fn ok_or_word(words: &mut Words, not_taken: &[u8]) -> Result<bool, ScheduleKind>
    ensures { Reads (ok_or_word not_taken.now) words.old result words.new }
{
    let word = words.word()?;
    if word == b"ok".as_slice() {
        Ok(true)
    } else if word == not_taken {
        Ok(false)
    } else {
        Err(ScheduleKind::UnknownWord)
    }
}

fn gone(words: &mut Words) -> Result<LineMeaning, ScheduleKind>
    ensures { Reads (row Keyword.Gone 0) words.old result words.new }
{
    let input = InputId(words.id()?);
    let conn = ConnId(words.number()?);
    happens(words, Happening::Gone { input, conn })
}

fn input_end(words: &mut Words) -> Result<LineMeaning, ScheduleKind>
    ensures { Reads (row Keyword.InputEnd 0) words.old result words.new }
{
    let input = InputId(words.id()?);
    happens(words, Happening::InputEnd { input })
}

fn room(words: &mut Words) -> Result<LineMeaning, ScheduleKind>
    ensures { Reads (row Keyword.Room 0) words.old result words.new }
{
    let link = LinkId(words.number()?);
    happens(words, Happening::Room { link })
}

fn back(alloc: Global, words: &mut Words) -> Result<LineMeaning, ScheduleKind>
    ensures { Reads (row Keyword.Back 0) words.old result words.new }
{
    let link = LinkId(words.number()?);
    let bytes = words.octets(alloc)?;
    happens(words, Happening::Back { link, bytes })
}

fn broken(words: &mut Words) -> Result<LineMeaning, ScheduleKind>
    ensures { Reads (row Keyword.Broken 0) words.old result words.new }
{
    let link = LinkId(words.number()?);
    happens(words, Happening::Broken { link })
}

fn append(alloc: Global, words: &mut Words) -> Result<LineMeaning, ScheduleKind>
    ensures { Reads (row Keyword.Append 0) words.old result words.new }
{
    let path = Bytes::from_slice(alloc, words.word()?)?;
    let bytes = words.octets(alloc)?;
    words.over(LineMeaning::Plans(Planned::Changes(FileChange::Append { path, bytes })))
}

fn cut_line(alloc: Global, words: &mut Words) -> Result<LineMeaning, ScheduleKind>
    ensures { Reads (row Keyword.Cut 0) words.old result words.new }
{
    let path = Bytes::from_slice(alloc, words.word()?)?;
    let length = words.number()?;
    words.over(LineMeaning::Plans(Planned::Changes(FileChange::Cut { path, length })))
}

/// Reads `took N`, `again` or `broken`.
fn push_answer(words: &mut Words) -> Result<PushWord, ScheduleKind>
    ensures { Reads push_word words.old result words.new }
{
    let word = words.word()?;
    if word == b"took".as_slice() {
        Ok(PushWord::Took(words.number()?))
    } else if word == b"again".as_slice() {
        Ok(PushWord::Again)
    } else if word == b"broken".as_slice() {
        Ok(PushWord::Broken)
    } else {
        Err(ScheduleKind::UnknownWord)
    }
}

fn push(words: &mut Words) -> Result<LineMeaning, ScheduleKind>
    ensures { Reads (row Keyword.Push 0) words.old result words.new }
{
    let output = OutputId(words.id()?);
    let push = push_answer(words)?;
    words.over(LineMeaning::Answers(Given::Push { output, push }))
}

fn reply(words: &mut Words) -> Result<LineMeaning, ScheduleKind>
    ensures { Reads (row Keyword.Reply 0) words.old result words.new }
{
    let taken = ok_or_word(words, b"broken")?;
    words.over(LineMeaning::Answers(Given::Reply { taken }))
}

fn random_word(words: &mut Words) -> Result<LineMeaning, ScheduleKind>
    ensures { Reads (row Keyword.Word 0) words.old result words.new }
{
    let word = words.number()?;
    words.over(LineMeaning::Answers(Given::Word(word)))
}

fn disk(words: &mut Words) -> Result<LineMeaning, ScheduleKind>
    ensures { Reads (row Keyword.Disk 0) words.old result words.new }
{
    let call = words.number()?;
    words.over(LineMeaning::DiskFails(call))
}

fn file(words: &mut Words) -> Result<LineMeaning, ScheduleKind>
    ensures { Reads (row Keyword.File 0) words.old result words.new }
{
    let call = words.number()?;
    words.over(LineMeaning::FileFails(call))
}

fn store(alloc: Global, words: &mut Words) -> Result<LineMeaning, ScheduleKind>
    ensures { Reads (row Keyword.Store 0) words.old result words.new }
{
    let name = Bytes::from_slice(alloc, words.word()?)?;
    let bytes = words.octets(alloc)?;
    words.over(LineMeaning::Stores(Stored { name, bytes }))
}

fn crash(words: &mut Words) -> Result<LineMeaning, ScheduleKind>
    ensures { Reads (row Keyword.Crash 0) words.old result words.new }
{
    let calls = words.number()?;
    let pick = words.number()?;
    words.over(LineMeaning::Crashes(Cut { calls, pick }))
}

/// Reads the words after a keyword. At most `left` clock readings may still come.
fn read_row(
    alloc: Global,
    keyword: Keyword,
    left: u64,
    words: &mut Words,
) -> Result<LineMeaning, ScheduleKind>
    ensures { Reads (row keyword left) words.old result words.new }
{
    match keyword {
        Keyword::Tick => tick(words),
        Keyword::Ticks => ticks(words, left),
        Keyword::Joined => joined(words),
        Keyword::Piece => piece(alloc, words),
        Keyword::Gone => gone(words),
        Keyword::InputEnd => input_end(words),
        Keyword::Room => room(words),
        Keyword::Back => back(alloc, words),
        Keyword::Broken => broken(words),
        Keyword::Stop => happens(words, Happening::Stop),
        Keyword::Failed => happens(words, Happening::Failed),
        Keyword::Append => append(alloc, words),
        Keyword::Cut => cut_line(alloc, words),
        Keyword::Dial => dial(words),
        Keyword::Push => push(words),
        Keyword::Reply => reply(words),
        Keyword::Word => random_word(words),
        Keyword::Disk => disk(words),
        Keyword::File => file(words),
        Keyword::Store => store(alloc, words),
        Keyword::Crash => crash(words),
    }
}

/// Returns the meaning of a line. At most `left` clock readings may still come.
pub fn line_meaning(alloc: Global, left: u64, line: &[u8]) -> Result<LineMeaning, ScheduleKind>
    ensures ok { IfOk result (λ meaning. line_meaning left line.now ≡ Ok meaning) }
    ensures err { IfErr result (λ kind. kind ≢ Memory → line_meaning left line.now ≡ Err kind) }
{
    let (first, behind) = part(line, b' ');
    let Some(keyword) = Keyword::of(first) else {
        return Err(ScheduleKind::UnknownWord);
    };
    let mut words = Words::new(behind);
    read_row(alloc, keyword, left, &mut words)
}
