//! The words of a line, from left to right.

ghost use Rattle.std.specs.Prelude.{◌≡◌, ◌≢◌, ◌≤◌, ◌==◌, List, length, Option, Some, None, MatchResult, IfOk, IfErr};
ghost use Rattle.std.specs.List.{position_or_len};
ghost use Rattle.std.specs.Option.{option_copied};
ghost use Rattle.hex.specs.Hex.{decode_of};
ghost use Rattle.fwd_script.specs.declared.refusal.ScheduleKind.TheVariants.{BadHex, Memory};
ghost use Rattle.fwd_script.specs.Words.{Reads, decoded, escaped, id, number, number_of, number_to, octets, over, split_at_byte, piece, unescaped, word};

use crate::ScheduleKind;
use fwd_base::limits::LONGEST_PIECE;
use fwd_base::{Bytes, number};
use hex::FromHexError;
use memchr::memchr;
use std::alloc::Global;
use std::marker::Model;

/// Returns the index of the first `wanted` byte, or the length of the text if there is none. Texts are long,
/// so `memchr` compares many bytes at a time.
fn place_of(text: &[u8], wanted: u8) -> usize
    ensures place { result ≡ position_or_len (λ byte. byte == wanted) text.now }
    ensures within { result ≤ length text.now }
{
    memchr(wanted, text).unwrap_or(text.len())
}

/// Returns the text before the first `byte`, and the text after it.
pub fn part(text: &[u8], byte: u8) -> (&[u8], Option<&[u8]>)
    ensures before { result.0.now ≡ (split_at_byte byte text.entry.now).0 }
    ensures behind { option_copied result.1 ≡ (split_at_byte byte text.entry.now).1 }
{
    let place = place_of(text, byte);
    if place < text.len() {
        (&text[..place], Some(&text[place + 1..]))
    } else {
        (text, None)
    }
}

/// The rest of a line, after the words that were read.
#[derive(Drop)]
pub struct Words<'a> {
    rest: Option<&'a [u8]>,
}

impl<'a> Model for Words<'a> {
    ghost use Rattle.std.specs.Prelude.{List, ℕ, Option};
    ghost use Rattle.std.specs.Option.{option_copied};

    ghost Value = { Option (List ℕ) };

    ghost view = { λ w. option_copied w.rest };
}

impl<'a> Words<'a> {
    pub fn new(rest: Option<&'a [u8]>) -> Self
        ensures { result ≡ option_copied rest.entry }
    {
        Words { rest }
    }

    /// Returns the next word.
    pub fn word(&mut self) -> Result<&'a [u8], ScheduleKind>
        ensures { MatchResult result (λ next. word self.old ≡ Ok (next.now, self.new)) (λ kind. word self.old ≡ Err kind) }
    {
        match self.rest {
            None => Err(ScheduleKind::UnknownWord),
            Some(rest) => {
                let (next, behind) = part(rest, b' ');
                self.rest = behind;
                Ok(next)
            }
        }
    }

    /// Returns the meaning if no word is left, else a refusal.
    pub fn over<T: Drop>(&mut self, meaning: T) -> Result<T, ScheduleKind>
        ensures { Reads (over meaning) self.old result self.new }
    {
        match self.rest {
            None => Ok(meaning),
            Some(_) => Err(ScheduleKind::UnknownWord),
        }
    }

    pub fn number_to(&mut self, most: u64) -> Result<u64, ScheduleKind>
        ensures { Reads (number_to most) self.old result self.new }
    {
        let digits = self.word()?;
        number_of(digits, most).ok_or(ScheduleKind::BadNumber)
    }

    pub fn number(&mut self) -> Result<u64, ScheduleKind>
        ensures { Reads number self.old result self.new }
    {
        self.number_to(u64::MAX)
    }

    pub fn id(&mut self) -> Result<u32, ScheduleKind>
        ensures { Reads id self.old result self.new }
    {
        let number = self.number_to(4_294_967_295)?;
        Ok(number as u32)
    }

    /// Reads BYTES: `t:` and the rest of the line with escapes, or a word of `x:` and hex digits.
    pub fn octets(&mut self, alloc: Global) -> Result<Bytes, ScheduleKind>
        ensures { Reads octets self.old result self.new }
    {
        let Some(rest) = self.rest else {
            return Err(ScheduleKind::UnknownWord);
        };
        if rest.starts_with(b"t:") {
            self.rest = None;
            return unescape(alloc, &rest[2..]);
        }
        let digits = self.word()?;
        if !digits.starts_with(b"x:") {
            return Err(ScheduleKind::BadHex);
        }
        decode(alloc, &digits[2..])
    }

    /// Reads the BYTES of a read event: from 1 to `LONGEST_PIECE` bytes.
    pub fn piece(&mut self, alloc: Global) -> Result<Bytes, ScheduleKind>
        ensures { Reads piece self.old result self.new }
    {
        let bytes = self.octets(alloc)?;
        if 0 < bytes.len() && bytes.len() <= LONGEST_PIECE {
            Ok(bytes)
        } else {
            Err(ScheduleKind::BadNumber)
        }
    }
}

/// Returns the bytes of hex digits.
fn decode(alloc: Global, digits: &[u8]) -> Result<Bytes, ScheduleKind>
    ensures ok { IfOk result (λ bytes. decoded (decode_of digits.now) ≡ Some bytes) }
    ensures err { IfErr result (λ kind. kind ≢ Memory → (kind ≡ BadHex) × (decoded (decode_of digits.now) ≡ None)) }
{
    match hex::decode(alloc, digits) {
        Ok(bytes) => Ok(Bytes::from_vec(bytes)),
        Err(FromHexError::OutOfMemory) => Err(ScheduleKind::Memory),
        Err(_) => Err(ScheduleKind::BadHex),
    }
}

/// Returns the byte of an escape.
fn escaped_byte(letter: u8) -> Option<u8>
    ensures { result ≡ escaped letter }
{
    match letter {
        b'n' => Some(b'\n'),
        b'r' => Some(b'\r'),
        b't' => Some(b'\t'),
        b'\\' => Some(b'\\'),
        _ => None,
    }
}

/// Returns the bytes of a text with escapes. It copies the bytes between escapes in runs.
fn unescape(alloc: Global, text: &[u8]) -> Result<Bytes, ScheduleKind>
    ensures ok { IfOk result (λ bytes. unescaped text.now ≡ Some bytes) }
    ensures err { IfErr result (λ kind. kind ≢ Memory → (kind ≡ BadHex) × (unescaped text.now ≡ None)) }
{
    let mut bytes = Bytes::new(alloc);
    let mut rest = text;
    'escapes: loop {
        let (run, behind) = rest.split_at(place_of(rest, b'\\'));
        bytes.extend_from_slice(run)?;
        if behind.is_empty() {
            return Ok(bytes);
        }
        let [_, letter, more @ ..] = behind else {
            return Err(ScheduleKind::BadHex);
        };
        let Some(byte) = escaped_byte(*letter) else {
            return Err(ScheduleKind::BadHex);
        };
        bytes.push(byte)?;
        rest = more;
    }
}

/// Returns the value of decimal digits, if it is at most `most`.
fn number_of(digits: &[u8], most: u64) -> Option<u64>
    ensures { result ≡ number_of most digits.now }
{
    let value = number(digits)?;
    if value <= most { Some(value) } else { None }
}
