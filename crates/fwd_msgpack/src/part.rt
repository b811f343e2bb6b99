//! The position of the scanner within a value, and the steps of the scanner.

ghost use Rattle.std.specs.Prelude.{◌≡◌};
ghost use Rattle.fwd_msgpack.specs.Encodings.{size};
ghost use Rattle.fwd_msgpack.specs.Continuations.{continuation_of_count, continuation_of, IsShortCount, IsTabled};
ghost use Rattle.fwd_msgpack.specs.SmallValues.{is_small};

use crate::form::{ByteWidth, Count, Form};

/// A partly read length: how many bytes of it are missing, and the ones that came.
#[derive(Clone, Copy)]
pub enum PartialLength {
    Four,
    Three(u8),
    Two(u16),
    One(u16, u8),
}

/// What a length counts: the bytes of a text or bin; the bytes of an extension, after its type; the values
/// of a list; the pairs of a map.
#[derive(Clone, Copy)]
pub enum Holds {
    Bytes,
    Typed,
    Values,
    Pairs,
}

/// The position within a value.
#[derive(Clone, Copy)]
pub enum Part {
    /// Before its first byte.
    First,
    /// This many bytes before its end, which are skipped.
    Skip(u64),
    /// Within its length.
    Length(PartialLength, Holds),
}

/// What follows a first byte.
#[derive(Clone, Copy)]
pub enum Begun {
    /// Nothing: the byte begins no value.
    Unused,
    /// This many bytes.
    Bytes(u8),
    /// Content whose length is in the first byte.
    Known(u8, Holds),
    /// A length, and then the content.
    Sized(PartialLength, Holds),
}

/// The outcome of scanning some bytes.
#[derive(Clone, Copy)]
pub enum Step {
    /// The value is incomplete.
    On,
    /// The value is complete.
    Ended,
    /// The last byte begins no value.
    Unused,
    /// The last byte begins a list or map that is nested in 64 others.
    TooDeep,
}

/// Returns the width of a number, in bytes.
#[tactic(auto, unfolding(crate::specs::Encodings::size))]
#[inline(always)]
fn bytes_of(w: ByteWidth) -> u8
    ensures { result ≡ size w }
{
    match w {
        ByteWidth::One => 1,
        ByteWidth::Two => 2,
        ByteWidth::Four => 4,
        ByteWidth::Eight => 8,
    }
}

/// Returns what follows a first byte with this length. No length has eight bytes.
#[inline(always)]
fn continuation_of_count(k: Count, holds: Holds) -> Begun
    requires { IsShortCount k }
    ensures { result ≡ continuation_of_count k holds }
{
    match k {
        Count::Known(n) => Begun::Known(n, holds),
        Count::Sized(ByteWidth::One) => Begun::Sized(PartialLength::One(0, 0), holds),
        Count::Sized(ByteWidth::Two) => Begun::Sized(PartialLength::Two(0), holds),
        Count::Sized(ByteWidth::Four) => Begun::Sized(PartialLength::Four, holds),
        Count::Sized(ByteWidth::Eight) => unreachable!(),
    }
}

/// Returns what follows a first byte of this format.
#[inline(always)]
pub fn continuation_of(form: Form) -> Begun
    requires { IsTabled form }
    ensures { result ≡ continuation_of form }
{
    match form {
        Form::Unused => Begun::Unused,
        Form::Nil | Form::Bool(_) | Form::PositiveFixint(_) | Form::NegativeFixint(_) => {
            Begun::Bytes(0)
        }
        Form::Uint(w) | Form::Int(w) => Begun::Bytes(bytes_of(w)),
        Form::Float32 => Begun::Bytes(4),
        Form::Float64 => Begun::Bytes(8),
        Form::Str(k) | Form::Bin(k) => continuation_of_count(k, Holds::Bytes),
        Form::Ext(k) => continuation_of_count(k, Holds::Typed),
        Form::Array(k) => continuation_of_count(k, Holds::Values),
        Form::Map(k) => continuation_of_count(k, Holds::Pairs),
    }
}

/// Returns whether a value of this format is its first byte alone.
#[inline(always)]
pub fn is_small(form: Form) -> bool
    ensures { result ≡ is_small form }
{
    match form {
        Form::Nil | Form::Bool(_) | Form::PositiveFixint(_) | Form::NegativeFixint(_) => true,
        Form::Unused | Form::Uint(_) | Form::Int(_) | Form::Float32 | Form::Float64 => false,
        Form::Str(_) | Form::Bin(_) | Form::Ext(_) | Form::Array(_) | Form::Map(_) => false,
    }
}
