//! The table of first bytes of the MessagePack specification.

ghost use Rattle.std.specs.Prelude.{◌≡◌};
ghost use Rattle.fwd_msgpack.specs.Table.{form_of};

/// The width of a number, in bytes: 1, 2, 4 or 8.
#[derive(Clone, Copy)]
pub enum ByteWidth {
    One,
    Two,
    Four,
    Eight,
}

/// Where a length is: in the first byte, or in a number after it.
#[derive(Clone, Copy)]
pub enum Count {
    Known(u8),
    Sized(ByteWidth),
}

/// The format that a first byte selects, in the specification's words.
#[derive(Clone, Copy)]
pub enum Form {
    Unused,
    Nil,
    Bool(bool),
    PositiveFixint(u8),
    NegativeFixint(i8),
    Uint(ByteWidth),
    /// In two's complement.
    Int(ByteWidth),
    Float32,
    Float64,
    Str(Count),
    Bin(Count),
    Ext(Count),
    Array(Count),
    Map(Count),
}

/// Returns the format that a first byte selects.
#[inline(always)]
#[tactic(auto, unfolding(crate::specs::Table::form_of))]
pub fn form_of(first: u8) -> Form
    ensures { result ≡ form_of first }
{
    match first {
        0x00..=0x7f => Form::PositiveFixint(first),
        0x80..=0x8f => Form::Map(Count::Known(first - 0x80)),
        0x90..=0x9f => Form::Array(Count::Known(first - 0x90)),
        0xa0..=0xbf => Form::Str(Count::Known(first - 0xa0)),
        0xc0 => Form::Nil,
        0xc1 => Form::Unused,
        0xc2 => Form::Bool(false),
        0xc3 => Form::Bool(true),
        0xc4 => Form::Bin(Count::Sized(ByteWidth::One)),
        0xc5 => Form::Bin(Count::Sized(ByteWidth::Two)),
        0xc6 => Form::Bin(Count::Sized(ByteWidth::Four)),
        0xc7 => Form::Ext(Count::Sized(ByteWidth::One)),
        0xc8 => Form::Ext(Count::Sized(ByteWidth::Two)),
        0xc9 => Form::Ext(Count::Sized(ByteWidth::Four)),
        0xca => Form::Float32,
        0xcb => Form::Float64,
        0xcc => Form::Uint(ByteWidth::One),
        0xcd => Form::Uint(ByteWidth::Two),
        0xce => Form::Uint(ByteWidth::Four),
        0xcf => Form::Uint(ByteWidth::Eight),
        0xd0 => Form::Int(ByteWidth::One),
        0xd1 => Form::Int(ByteWidth::Two),
        0xd2 => Form::Int(ByteWidth::Four),
        0xd3 => Form::Int(ByteWidth::Eight),
        0xd4 => Form::Ext(Count::Known(1)),
        0xd5 => Form::Ext(Count::Known(2)),
        0xd6 => Form::Ext(Count::Known(4)),
        0xd7 => Form::Ext(Count::Known(8)),
        0xd8 => Form::Ext(Count::Known(16)),
        0xd9 => Form::Str(Count::Sized(ByteWidth::One)),
        0xda => Form::Str(Count::Sized(ByteWidth::Two)),
        0xdb => Form::Str(Count::Sized(ByteWidth::Four)),
        0xdc => Form::Array(Count::Sized(ByteWidth::Two)),
        0xdd => Form::Array(Count::Sized(ByteWidth::Four)),
        0xde => Form::Map(Count::Sized(ByteWidth::Two)),
        0xdf => Form::Map(Count::Sized(ByteWidth::Four)),
        0xe0..=0xff => Form::NegativeFixint(first.cast_signed()),
    }
}
