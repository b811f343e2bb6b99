//! The text of a schedule.

ghost use Rattle.std.specs.Prelude.{◌≡◌, ◌∷◌, ◌++◌, [], codes, decimal, if◌then◌else◌, map, Some, None, IfOk, OnOk, Ok};
ghost use Rattle.std.specs.List.{flat_map, list_all};
ghost use Rattle.fwd_script.specs.Schedule.{schedule_of};
ghost use Rattle.fwd_script.specs.Writable.{IsWritable};
ghost use Rattle.fwd_script.specs.Text.{byte_text, crash_text, disk_text, ended_line, ended_lines, file_text, given_text, happening_text, is_text, life_lines, octets_text, plan_lines, planned_text, push_text, stored_text, text_of};

use crate::{Cut, FileChange, Given, Life, Planned, PushWord, Schedule, Stored};
use fwd_base::{Bytes, Memory};
use fwd_outside::Happening;
use std::alloc::Global;

/// Returns a word and a number.
fn with_number(alloc: Global, words: &[u8], number: u64) -> Result<Bytes, Memory>
    ensures { IfOk result (λ line. line ≡ words.now ++ decimal number) }
{
    let mut line = Bytes::from_slice(alloc, words)?;
    line.push_decimal(number)?;
    Ok(line)
}

/// Returns the words of an answer to a push.
fn push_words(alloc: Global, push: &PushWord) -> Result<Bytes, Memory>
    ensures { IfOk result (λ line. line ≡ push_text push.now) }
{
    match push {
        PushWord::Took(taken) => with_number(alloc, b"took ", *taken),
        PushWord::Again => Bytes::from_slice(alloc, b"again"),
        PushWord::Broken => Bytes::from_slice(alloc, b"broken"),
    }
}

/// Returns a word and two numbers.
fn with_numbers(alloc: Global, words: &[u8], first: u64, second: u64) -> Result<Bytes, Memory>
    ensures { IfOk result (λ line. line ≡ words.now ++ decimal first ++ codes " " ++ decimal second) }
{
    let mut line = with_number(alloc, words, first)?;
    line.extend_from_slice(b" ")?;
    line.push_decimal(second)?;
    Ok(line)
}

/// Appends a byte, or its escape if it has one.
fn write_byte(text: &mut Bytes, byte: u8) -> Result<(), Memory>
    ensures { OnOk result (text.new ≡ text.old ++ byte_text byte) }
{
    match byte {
        b'\n' => text.extend_from_slice(b"\\n"),
        b'\r' => text.extend_from_slice(b"\\r"),
        b'\t' => text.extend_from_slice(b"\\t"),
        b'\\' => text.extend_from_slice(b"\\\\"),
        _ => text.push(byte),
    }
}

/// Returns whether a byte is written as text.
fn is_text(byte: u8) -> bool
    ensures { result ≡ is_text byte }
{
    (32 <= byte && byte <= 126) || byte == b'\n' || byte == b'\r' || byte == b'\t'
}

/// Returns whether all bytes are written as text.
fn all_text(bytes: &[u8]) -> bool
    ensures { result ≡ list_all is_text bytes.now }
{
    bytes.iter().all(|byte| is_text(*byte))
}

/// Appends a text with escapes.
fn write_escaped(text: &mut Bytes, bytes: &[u8]) -> Result<(), Memory>
    ensures { OnOk result (text.new ≡ text.old ++ flat_map byte_text bytes.now) }
{
    for byte in bytes {
        write_byte(text, *byte)?;
    }
    Ok(())
}

/// Appends BYTES.
fn write_octets(alloc: Global, text: &mut Bytes, bytes: &[u8]) -> Result<(), Memory>
    ensures { OnOk result (text.new ≡ text.old ++ octets_text bytes.now) }
{
    if all_text(bytes) {
        text.extend_from_slice(b"t:")?;
        write_escaped(text, bytes)
    } else {
        text.extend_from_slice(b"x:")?;
        let digits = hex::encode(alloc, bytes)?;
        text.extend_from_slice(digits.as_bytes())
    }
}

/// Returns a word, a name and BYTES.
fn with_octets(alloc: Global, words: &[u8], name: &[u8], bytes: &[u8]) -> Result<Bytes, Memory>
    ensures { IfOk result (λ line. line ≡ words.now ++ name.now ++ codes " " ++ octets_text bytes.now) }
{
    let mut line = Bytes::from_slice(alloc, words)?;
    line.extend_from_slice(name)?;
    line.extend_from_slice(b" ")?;
    write_octets(alloc, &mut line, bytes)?;
    Ok(line)
}

fn piece_line(alloc: Global, input: u32, conn: u64, bytes: &[u8]) -> Result<Bytes, Memory>
    ensures { IfOk result (λ line. line ≡ codes "piece " ++ decimal input ++ codes " " ++ decimal conn ++ codes " " ++ octets_text bytes.now) }
{
    let mut line = with_numbers(alloc, b"piece ", u64::from(input), conn)?;
    line.extend_from_slice(b" ")?;
    write_octets(alloc, &mut line, bytes)?;
    Ok(line)
}

fn back_line(alloc: Global, link: u64, bytes: &[u8]) -> Result<Bytes, Memory>
    ensures { IfOk result (λ line. line ≡ codes "back " ++ decimal link ++ codes " " ++ octets_text bytes.now) }
{
    let mut line = with_number(alloc, b"back ", link)?;
    line.extend_from_slice(b" ")?;
    write_octets(alloc, &mut line, bytes)?;
    Ok(line)
}

fn happening_line(alloc: Global, happening: &Happening) -> Result<Bytes, Memory>
    ensures { IfOk result (λ line. line ≡ happening_text happening.now) }
{
    match happening {
        Happening::Tick { now } => with_number(alloc, b"tick ", *now),
        Happening::Joined { input, conn } => with_numbers(
            alloc,
            b"joined ",
            u64::from(input.0),
            conn.0,
        ),
        Happening::Piece { input, conn, bytes } => piece_line(
            alloc,
            input.0,
            conn.0,
            bytes.as_slice(),
        ),
        Happening::Gone { input, conn } => with_numbers(
            alloc,
            b"gone ",
            u64::from(input.0),
            conn.0,
        ),
        Happening::Room { link } => with_number(alloc, b"room ", link.0),
        Happening::Back { link, bytes } => back_line(alloc, link.0, bytes.as_slice()),
        Happening::Broken { link } => with_number(alloc, b"broken ", link.0),
        Happening::InputEnd { input } => with_number(alloc, b"inputend ", u64::from(input.0)),
        Happening::Stop => Bytes::from_slice(alloc, b"stop"),
        Happening::Failed => Bytes::from_slice(alloc, b"failed"),
        Happening::End => Ok(Bytes::new(alloc)),
    }
}

fn ticks_line(alloc: Global, first: u64, step: u64, count: u64) -> Result<Bytes, Memory>
    ensures { IfOk result (λ line. line ≡ codes "ticks " ++ decimal first ++ codes " " ++ decimal step ++ codes " " ++ decimal count) }
{
    let mut line = with_numbers(alloc, b"ticks ", first, step)?;
    line.extend_from_slice(b" ")?;
    line.push_decimal(count)?;
    Ok(line)
}

fn cut_line(alloc: Global, path: &[u8], length: u64) -> Result<Bytes, Memory>
    ensures { IfOk result (λ line. line ≡ codes "cut " ++ path.now ++ codes " " ++ decimal length) }
{
    let mut line = Bytes::from_slice(alloc, b"cut ")?;
    line.extend_from_slice(path)?;
    line.extend_from_slice(b" ")?;
    line.push_decimal(length)?;
    Ok(line)
}

fn planned_line(alloc: Global, planned: &Planned) -> Result<Bytes, Memory>
    ensures { IfOk result (λ line. line ≡ planned_text planned.now) }
{
    match planned {
        Planned::Happens(happening) => happening_line(alloc, happening),
        Planned::Ticks { first, step, count } => ticks_line(alloc, *first, *step, *count),
        Planned::Changes(FileChange::Append { path, bytes }) => {
            with_octets(alloc, b"append ", path.as_slice(), bytes.as_slice())
        }
        Planned::Changes(FileChange::Cut { path, length }) => cut_line(
            alloc,
            path.as_slice(),
            *length,
        ),
    }
}

fn dial_line(alloc: Global, output: u32, taken: bool) -> Result<Bytes, Memory>
    ensures { IfOk result (λ line. line ≡ codes "dial " ++ decimal output ++ (if taken then codes " ok" else codes " refused")) }
{
    let mut line = with_number(alloc, b"dial ", u64::from(output))?;
    if taken {
        line.extend_from_slice(b" ok")?;
    } else {
        line.extend_from_slice(b" refused")?;
    }
    Ok(line)
}

fn push_line(alloc: Global, output: u32, push: &PushWord) -> Result<Bytes, Memory>
    ensures { IfOk result (λ line. line ≡ codes "push " ++ decimal output ++ codes " " ++ push_text push.now) }
{
    let mut line = with_number(alloc, b"push ", u64::from(output))?;
    line.extend_from_slice(b" ")?;
    line.extend_from_slice(push_words(alloc, push)?.as_slice())?;
    Ok(line)
}

fn given_line(alloc: Global, given: &Given) -> Result<Bytes, Memory>
    ensures { IfOk result (λ line. line ≡ given_text given.now) }
{
    match given {
        Given::Dial { output, taken } => dial_line(alloc, output.0, *taken),
        Given::Push { output, push } => push_line(alloc, output.0, push),
        Given::Reply { taken: true } => Bytes::from_slice(alloc, b"reply ok"),
        Given::Reply { taken: false } => Bytes::from_slice(alloc, b"reply broken"),
        Given::Word(word) => with_number(alloc, b"word ", *word),
    }
}

fn stored_line(alloc: Global, stored: &Stored) -> Result<Bytes, Memory>
    ensures { IfOk result (λ line. line ≡ stored_text stored.now) }
{
    with_octets(
        alloc,
        b"store ",
        stored.name.as_slice(),
        stored.bytes.as_slice(),
    )
}

fn crash_line(alloc: Global, cut: Cut) -> Result<Bytes, Memory>
    ensures { IfOk result (λ line. line ≡ crash_text cut) }
{
    with_numbers(alloc, b"crash ", cut.calls, cut.pick)
}

/// Appends a line and its line feed.
fn write_line(text: &mut Bytes, line: &Bytes) -> Result<(), Memory>
    ensures { OnOk result (text.new ≡ text.old ++ ended_line line.now) }
{
    text.extend_from_slice(line.as_slice())?;
    text.push(b'\n')
}

fn write_stores(alloc: Global, text: &mut Bytes, stores: &[Stored]) -> Result<(), Memory>
    ensures { OnOk result (text.new ≡ text.old ++ ended_lines (map stored_text stores.now)) }
{
    for stored in stores {
        write_line(text, &stored_line(alloc, stored)?)?;
    }
    Ok(())
}

fn write_disk_fails(alloc: Global, text: &mut Bytes, calls: &[u64]) -> Result<(), Memory>
    ensures { OnOk result (text.new ≡ text.old ++ ended_lines (map disk_text calls.now)) }
{
    for call in calls {
        write_line(text, &with_number(alloc, b"disk ", *call)?)?;
    }
    Ok(())
}

fn write_file_fails(alloc: Global, text: &mut Bytes, calls: &[u64]) -> Result<(), Memory>
    ensures { OnOk result (text.new ≡ text.old ++ ended_lines (map file_text calls.now)) }
{
    for call in calls {
        write_line(text, &with_number(alloc, b"file ", *call)?)?;
    }
    Ok(())
}

fn write_answers(alloc: Global, text: &mut Bytes, answers: &[Given]) -> Result<(), Memory>
    ensures { OnOk result (text.new ≡ text.old ++ ended_lines (map given_text answers.now)) }
{
    for given in answers {
        write_line(text, &given_line(alloc, given)?)?;
    }
    Ok(())
}

fn write_planned(alloc: Global, text: &mut Bytes, plan: &[Planned]) -> Result<(), Memory>
    ensures { OnOk result (text.new ≡ text.old ++ ended_lines (map planned_text plan.now)) }
{
    for planned in plan {
        write_line(text, &planned_line(alloc, planned)?)?;
    }
    Ok(())
}

/// Appends the lines of a plan. The crash is before the last of them.
fn write_crashing(alloc: Global, text: &mut Bytes, cut: Cut, plan: &[Planned]) -> Result<(), Memory>
    ensures { OnOk result (text.new ≡ text.old ++ ended_lines (plan_lines (Some cut) plan.now)) }
{
    let last = plan.len().saturating_sub(1);
    write_planned(alloc, text, &plan[..last])?;
    write_line(text, &crash_line(alloc, cut)?)?;
    write_planned(alloc, text, &plan[last..])
}

fn write_plan(alloc: Global, text: &mut Bytes, life: &Life) -> Result<(), Memory>
    ensures { OnOk result (text.new ≡ text.old ++ ended_lines (plan_lines life.now.cut life.now.lines)) }
{
    match life.cut {
        None => write_planned(alloc, text, life.lines.as_slice()),
        Some(cut) => write_crashing(alloc, text, cut, life.lines.as_slice()),
    }
}

fn write_life(alloc: Global, text: &mut Bytes, life: &Life) -> Result<(), Memory>
    ensures { OnOk result (text.new ≡ text.old ++ ended_lines (life_lines life.now)) }
{
    write_stores(alloc, text, life.store.as_slice())?;
    write_disk_fails(alloc, text, life.disk_fails.as_slice())?;
    write_file_fails(alloc, text, life.file_fails.as_slice())?;
    write_answers(alloc, text, life.answers.as_slice())?;
    write_plan(alloc, text, life)
}

fn write_lives(alloc: Global, text: &mut Bytes, lives: &[Life]) -> Result<(), Memory>
    ensures { OnOk result (text.new ≡ text.old ++ flat_map (λ life. ended_lines (life_lines life)) lives.now) }
{
    for life in lives {
        write_life(alloc, text, life)?;
    }
    Ok(())
}

/// Returns the text of a schedule. For each run it has the stored files, the numbers of the disk calls and
/// of the file calls that fail, the answers, and the plan with the crash before the last loop event.
///
/// `read_schedule` reads the text back as this schedule, if a text can express it: there is a run; each run
/// but the last ends in a crash, whose loop event is the last of its lines, and the last has no crash; only
/// the first run stores files; names and paths aren't empty and have no space and no line feed; read events
/// and clock readings keep the limits of the format; and no line is `End`. Any other schedule is written by
/// the same rules, and the meaning of its text is unspecified.
///
/// The only error is out of memory.
pub fn write_schedule(alloc: Global, s: &Schedule) -> Result<Bytes, Memory>
    ensures text { IfOk result (λ text. text ≡ text_of s.now) }
    ensures read_back { IsWritable s.now → IfOk result (λ text. schedule_of text ≡ Ok s.now) }
{
    let mut text = Bytes::new(alloc);
    write_lives(alloc, &mut text, s.lives.as_slice())?;
    Ok(text)
}
