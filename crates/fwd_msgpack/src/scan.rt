//! The incremental scanner for a value that comes in several reads.

ghost use Rattle.std.specs.Prelude.{◌≡◌, ◌↔◌, ◌≤◌, ◌<◌, ◌^◌, ◌+◌, ℕ, List, [], ◌∷◌, ◌++◌, min, length, drop, IfOk, IsTrue};
ghost use Rattle.fwd_value.specs.Val.{Val};
ghost use Rattle.fwd_msgpack.specs.Levels.{MissesOne};
ghost use Rattle.fwd_msgpack.specs.DecodeAnswers.{EncodesPrefix, IsProperPrefix, FailsAtForm, IsUnused, IsListOrMap};
ghost use Rattle.fwd_msgpack.specs.ScanState.{skip_values, skip_levels, behind, after_length, from_part, outcome_after_step, StaysOpen, IsOpen, IsFed, Takes, TakesAll, may_open, scan_answer, HasTaken, IsMore, IsWholeAt, IsUnusedAt, IsTooDeepAt};
ghost use Rattle.fwd_msgpack.specs.SmallValues.{Passes};
ghost use Rattle.fwd_msgpack.specs.declared.part.Part.TheVariants as part;

use crate::form::form_of;
use crate::levels::{Levels, MOST_LEVELS};
use crate::part::{Begun, Holds, Part, PartialLength, Step, continuation_of, is_small};
use fwd_base::Memory;
use std::alloc::Global;

/// What the bytes fed so far are. `at` is an offset from the first of them, in bytes.
#[derive(Clone, Copy, Debug, PartialEq, Eq)]
pub enum Scanned {
    /// A proper prefix of an encoding.
    More,
    /// The encoding of a value, which ends at `at`, and perhaps more bytes.
    Whole { at: u64 },
    /// The byte c1 is at the beginning of a value.
    Unused { at: u64 },
    /// A list or map is nested in 64 others.
    TooDeep { at: u64 },
}

/// An incremental scanner for the first value of some bytes. It keeps none of them: it inspects each byte
/// once, and skips those inside a text, a bin or an extension.
#[derive(Drop)]
pub struct Scan {
    levels: Levels,
    part: Part,
    seen: u64,
}

/// Returns the answer after a step, if `at` bytes were taken in all.
#[inline(always)]
fn scan_answer(step: Step, at: u64) -> Scanned
    requires { HasTaken step at }
    ensures { result ≡ scan_answer step at }
{
    match step {
        Step::On => Scanned::More,
        Step::Ended => Scanned::Whole { at },
        Step::Unused => Scanned::Unused { at: at - 1 },
        Step::TooDeep => Scanned::TooDeep { at: at - 1 },
    }
}

/// Returns the lesser of two lengths.
#[inline(always)]
fn lesser_length(left: u64, length: usize) -> usize
    ensures { result ≡ min left length }
{
    if left < length as u64 {
        left as usize
    } else {
        length
    }
}

/// Returns the number of bytes at the front that are a value each, at most `most`.
#[inline(always)]
fn small_values(bytes: &[u8], most: usize) -> usize
    requires { most ≤ length bytes.now }
    ensures most { result ≤ most }
    ensures same { (d k : ℕ) (more : List ℕ) → skip_values d (result + k) (bytes.now ++ more)
        ≡ skip_values d k (drop result bytes.now ++ more) }
{
    let mut n = 0;
    while n < most {
        if !is_small(form_of(bytes[n])) {
            return n;
        }
        n += 1;
    }
    n
}

impl Scan {
    /// Creates a scanner that was fed nothing.
    pub fn new(alloc: Global) -> Result<Scan, Memory>
        ensures { IfOk result (λ scan. IsFed scan []) }
    {
        Ok(Scan {
            levels: Levels::new(alloc)?,
            part: Part::First,
            seen: 0,
        })
    }

    /// Returns the number of bytes fed so far. The program doesn't use it: it is for callers that don't count
    /// them.
    pub fn seen(&self) -> u64
        ensures { result ≡ self.now.seen }
    {
        self.seen
    }

    /// Feeds the next bytes, and returns what all bytes fed so far are. Must not be called after another
    /// answer than `More`.
    pub fn feed(&mut self, bytes: &[u8]) -> Scanned
        requires wanting { IsOpen self.old }
        requires fits { self.old.seen + length bytes.now < 2 ^ 64 }
        // More exactly if they are a proper prefix of an encoding; the scan then continues.
        ensures more { (fed : List ℕ) → IsFed self.old fed →
            (IsMore result ↔ IsProperPrefix (fed ++ bytes.now)) }
        ensures fed { (fed : List ℕ) → IsFed self.old fed → IsMore result →
            IsFed self.new (fed ++ bytes.now) }
        ensures wanting { IsMore result → IsOpen self.new }
        // Whole exactly if the first n bytes encode a value.
        ensures whole { (fed : List ℕ) (n : ℕ) → IsFed self.old fed →
            (IsWholeAt result n ↔ (v : Val) × EncodesPrefix v n (fed ++ bytes.now)) }
        // Unused and TooDeep exactly if such a byte is the first with which no encoding continues.
        ensures unused { (fed : List ℕ) (n : ℕ) → IsFed self.old fed →
            (IsUnusedAt result n ↔ FailsAtForm IsUnused n (fed ++ bytes.now)) }
        ensures too_deep { (fed : List ℕ) (n : ℕ) → IsFed self.old fed →
            (IsTooDeepAt result n ↔ FailsAtForm IsListOrMap n (fed ++ bytes.now)) }
        ensures seen { self.new.seen ≡ self.old.seen + length bytes.now }
    {
        let (step, rest) = self.take_all(bytes);
        let at = self.seen + (bytes.len() - rest.len()) as u64;
        self.seen += bytes.len() as u64;
        scan_answer(step, at)
    }

    /// Takes all bytes, or those up to the end of the scan. Returns the remaining ones.
    #[inline(always)]
    fn take_all<'b>(&mut self, bytes: &'b [u8]) -> (Step, &'b [u8])
        requires { IsOpen self.old }
        ensures { TakesAll self.old self.new bytes.now result.1.now result.0 }
    {
        let mut rest = bytes;
        while !rest.is_empty() {
            let some = self.take_small(rest);
            let (step, behind) = self.take(some);
            rest = behind;
            match step {
                Step::On => (),
                end => return (end, rest),
            }
        }
        (Step::On, rest)
    }

    /// Takes the values of one byte at the front, but neither the last byte nor the last value of the innermost
    /// level. Returns the remaining bytes.
    #[inline(always)]
    fn take_small<'b>(&mut self, bytes: &'b [u8]) -> &'b [u8]
        requires wanting { IsOpen self.old }
        requires some { 0 < length bytes.now }
        ensures { Passes self.old self.new bytes.now result.now }
    {
        match self.part {
            Part::First => {
                let missing = self.levels.missing();
                let n = small_values(bytes, lesser_length(missing - 1, bytes.len() - 1));
                self.levels.count_values(n as u64);
                let (_, rest) = bytes.split_at(n);
                rest
            }
            Part::Skip(_) | Part::Length(_, _) => bytes,
        }
    }

    /// Takes one or more bytes. Returns the remaining ones.
    #[inline(always)]
    fn take<'b>(&mut self, bytes: &'b [u8]) -> (Step, &'b [u8])
        requires wanting { IsOpen self.old }
        requires some { 0 < length bytes.now }
        ensures { Takes self.old self.new bytes.now result.1.now result.0 }
    {
        match self.part {
            Part::Skip(left) => {
                let passed = lesser_length(left, bytes.len());
                let (_, rest) = bytes.split_at(passed);
                (self.skip(left - passed as u64), rest)
            }
            Part::First => {
                let (front, rest) = bytes.split_at(1);
                (self.take_first(front[0]), rest)
            }
            Part::Length(left, holds) => {
                let (front, rest) = bytes.split_at(1);
                (self.take_length(left, holds, front[0]), rest)
            }
        }
    }

    /// Takes the first byte of a value.
    #[inline(always)]
    fn take_first(&mut self, byte: u8) -> Step
        requires { MissesOne self.old.levels }
        ensures same { (b : List ℕ) → outcome_after_step result self.new b
            ≡ skip_levels self.old.levels (byte ∷ b) }
        ensures stays { StaysOpen result self.new }
        ensures seen { self.new.seen ≡ self.old.seen }
    {
        self.levels.count_value();
        match continuation_of(form_of(byte)) {
            Begun::Unused => Step::Unused,
            Begun::Bytes(n) => self.skip(n as u64),
            Begun::Known(n, holds) => {
                if !self.may_open(holds) {
                    return Step::TooDeep;
                }
                self.begin_content(n as u32, holds)
            }
            Begun::Sized(left, holds) => {
                let length = Part::Length(left, holds);
                if !self.may_open(holds) {
                    return Step::TooDeep;
                }
                self.part = length;
                Step::On
            }
        }
    }

    /// Returns whether a list or map may be opened here: nesting may not exceed `DEEPEST`.
    #[inline(always)]
    fn may_open(&self, holds: Holds) -> bool
        ensures { result ≡ may_open holds self.now.levels }
    {
        match holds {
            Holds::Bytes | Holds::Typed => true,
            Holds::Values | Holds::Pairs => self.levels.len() < MOST_LEVELS,
        }
    }

    /// Takes the next byte of a length.
    fn take_length(&mut self, left: PartialLength, holds: Holds, byte: u8) -> Step
        requires { IsTrue (may_open holds self.old.levels) }
        ensures same { (b : List ℕ) → outcome_after_step result self.new b
            ≡ from_part (part.Length left holds) self.old.levels (byte ∷ b) }
        ensures stays { StaysOpen result self.new }
        ensures seen { self.new.seen ≡ self.old.seen }
    {
        self.part = match left {
            PartialLength::Four => Part::Length(PartialLength::Three(byte), holds),
            PartialLength::Three(n) => Part::Length(
                PartialLength::Two(n as u16 * 256 + byte as u16),
                holds,
            ),
            PartialLength::Two(n) => Part::Length(PartialLength::One(n, byte), holds),
            PartialLength::One(n, m) => {
                let number = (n as u32 * 256 + m as u32) * 256 + byte as u32;
                return self.begin_content(number, holds);
            }
        };
        Step::On
    }

    /// Begins the content that a complete length counts.
    #[inline(always)]
    fn begin_content(&mut self, n: u32, holds: Holds) -> Step
        requires { IsTrue (may_open holds self.old.levels) }
        ensures same { (b : List ℕ) → outcome_after_step result self.new b
            ≡ after_length holds n self.old.levels b }
        ensures stays { StaysOpen result self.new }
        ensures seen { self.new.seen ≡ self.old.seen }
    {
        match holds {
            Holds::Bytes => self.skip(n as u64),
            Holds::Typed => self.skip(n as u64 + 1),
            Holds::Values => self.nest(n as u64),
            Holds::Pairs => self.nest(2 * n as u64),
        }
    }

    /// Opens a list or map of `n` values.
    #[inline(always)]
    fn nest(&mut self, n: u64) -> Step
        requires { length self.old.levels < 65 }
        ensures same { (b : List ℕ) → outcome_after_step result self.new b
            ≡ skip_levels (n ∷ self.old.levels) b }
        ensures stays { StaysOpen result self.new }
        ensures seen { self.new.seen ≡ self.old.seen }
    {
        self.levels.push(n);
        self.end()
    }

    /// Skips the next `n` bytes, which end the value.
    #[inline(always)]
    fn skip(&mut self, n: u64) -> Step
        ensures same { (b : List ℕ) → outcome_after_step result self.new b ≡ behind n self.old.levels b }
        ensures stays { StaysOpen result self.new }
        ensures seen { self.new.seen ≡ self.old.seen }
    {
        if n == 0 {
            return self.end();
        }
        self.part = Part::Skip(n);
        Step::On
    }

    /// Ends a value, and each list and map that it completes.
    #[inline(always)]
    fn end(&mut self) -> Step
        ensures same { (b : List ℕ) → outcome_after_step result self.new b ≡ skip_levels self.old.levels b }
        ensures stays { StaysOpen result self.new }
        ensures seen { self.new.seen ≡ self.old.seen }
    {
        self.part = Part::First;
        self.levels.close();
        if self.levels.is_empty() {
            Step::Ended
        } else {
            Step::On
        }
    }
}
