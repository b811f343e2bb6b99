//! The line reader for a stream that comes in several reads.

ghost use Rattle.std.specs.Prelude.{◌≡◌, ℕ, ◌++◌, [], ◌∷◌, List, length, drop, IfOk, OnOk, OnErr};
ghost use Rattle.fwd_frames.specs.Lines.{kept, state_of_rest, line_of, lines, last_line};

use crate::line_steps::{first_feed, push_lines, push_unless_empty, push_within, trim_return};
use crate::{Line, Lines};
use fwd_base::{Bytes, Memory};
use std::alloc::Global;
use std::marker::Model;

/// A line reader for a stream of bytes. It keeps the bytes after the last line feed, but at most
/// `LONGEST_LINE` of them.
#[derive(Debug, Drop)]
pub struct Frames {
    rest: Bytes,
    cut: bool,
    alloc: Global,
}

impl Model for Frames {
    ghost use Rattle.std.specs.Prelude.{◌≤◌, length};
    ghost use Rattle.fwd_frames.specs.Lines.{Kept};
    ghost use Rattle.fwd_base.specs.Limits.{longest_line};

    ghost Value = { Kept };

    ghost view = { λ f. record { bytes = f.rest; cut = f.cut } };

    ghost invariant = { λ f. length f.rest ≤ longest_line };
}

impl Frames {
    /// Creates a reader at the beginning of a stream.
    pub fn new(alloc: Global) -> Self
        ensures { result ≡ kept [] }
    {
        Frames {
            rest: Bytes::new(alloc),
            cut: false,
            alloc,
        }
    }

    /// Takes the next bytes of the stream, and returns the lines that end in them: the lines of the whole
    /// stream without those of the stream before. After `Memory` the reader is unchanged.
    pub fn feed(&mut self, piece: &[u8]) -> Result<Lines, Memory>
        ensures lines { (stream : List ℕ) → self.old ≡ kept stream →
            IfOk result (λ given. lines stream ++ given ≡ lines (stream ++ piece.now)) }
        ensures behind { (stream : List ℕ) → self.old ≡ kept stream →
            IfOk result (λ given. given ≡ drop (length (lines stream)) (lines (stream ++ piece.now))) }
        ensures kept { (stream : List ℕ) → self.old ≡ kept stream →
            OnOk result (self.new ≡ kept (stream ++ piece.now)) }
        ensures err { OnErr result (self.new ≡ self.old) }
    {
        let mut lines = Lines::new(self.alloc);
        let Some(end) = first_feed(piece) else {
            self.keep(piece)?;
            return Ok(lines);
        };
        let first = self.line_with(&piece[..end])?;
        push_unless_empty(&mut lines, first)?;
        let left = push_lines(self.alloc, &mut lines, &piece[end + 1..])?;
        let mut behind = Frames::new(self.alloc);
        behind.keep(left)?;
        *self = behind;
        Ok(lines)
    }

    /// Ends the stream, and returns its rest as a last line, unless that is empty. The reader is then at the
    /// beginning of another stream. After `Memory` it is unchanged.
    pub fn finish(&mut self) -> Result<Lines, Memory>
        ensures last { (stream : List ℕ) → self.old ≡ kept stream →
            IfOk result (λ given. given ≡ last_line stream) }
        ensures as_ended { (stream : List ℕ) → self.old ≡ kept stream →
            IfOk result (λ given. lines stream ++ given ≡ lines (stream ++ 10 ∷ [])) }
        ensures anew { OnOk result (self.new ≡ kept []) }
        ensures err { OnErr result (self.new ≡ self.old) }
    {
        let mut lines = Lines::new(self.alloc);
        let last = self.line_with(&[])?;
        push_unless_empty(&mut lines, last)?;
        *self = Frames::new(self.alloc);
        Ok(lines)
    }

    /// Appends bytes without a line feed to the rest.
    fn keep(&mut self, more: &[u8]) -> Result<(), Memory>
        ensures ok { (part : List ℕ) → self.old ≡ state_of_rest part →
            OnOk result (self.new ≡ state_of_rest (part ++ more.now)) }
        ensures err { OnErr result (self.new ≡ self.old) }
    {
        self.cut = push_within(&mut self.rest, self.cut, more)?;
        Ok(())
    }

    /// Returns the line made of the rest and further bytes.
    pub(crate) fn line_with(&self, more: &[u8]) -> Result<Line, Memory>
        ensures { (part : List ℕ) → self.now ≡ state_of_rest part →
            IfOk result (λ line. line ≡ line_of (part ++ more.now)) }
    {
        let mut bytes = self.rest.try_clone(self.alloc)?;
        let cut = push_within(&mut bytes, self.cut, more)?;
        if cut {
            return Ok(Line { bytes, cut });
        }
        Ok(Line {
            bytes: trim_return(bytes),
            cut,
        })
    }
}
