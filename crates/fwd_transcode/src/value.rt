//! Copies of encoded values in their canonical encoding.

ghost use Rattle.std.specs.Prelude.{◌≡◌, ◌++◌, IfOk, IfSome, OnOk, OnErr};
ghost use Rattle.std.specs.Int.{cast_signed};
ghost use Rattle.fwd_msgpack.specs.Canonical.{whole_bytes};
ghost use Rattle.fwd_msgpack.specs.Encodings.{IsWithin, width as number_width};
ghost use Rattle.fwd_msgpack.specs.KeptFront.{KeepsFront};
ghost use Rattle.fwd_msgpack.specs.Decoder.{after, inner, value_at};
ghost use Rattle.fwd_msgpack.specs.declared.form.Form.TheVariants as form;
ghost use Rattle.fwd_transcode.specs.Transcoded.{CopiesBytes, Transcodes, TranscodesAfter, TranscodesMap, TranscodesAll, TranscodesPair, TranscodesPairs};

use fwd_base::{Bytes, Memory};
use fwd_msgpack::{
    ByteWidth, Count, Form, form_of, length_at, number_at, put_bin_head, put_byte, put_ext_head,
    put_float32, put_float64, put_list_head, put_map_head, put_number, put_text_head, put_truth,
    put_whole, sign_extended,
};

/// Copies the first `n` bytes, and returns the bytes after them.
#[inline(always)]
fn copy_bytes<'b>(bytes: &'b [u8], n: usize, out: &mut Bytes) -> Result<Option<&'b [u8]>, Memory>
    ensures given { IfOk result (λ found. IfSome found (λ rest. CopiesBytes n bytes.now rest.now out.old out.new)) }
    ensures kept { KeepsFront out.old out.new }
{
    if bytes.len() < n {
        return Ok(None);
    }
    let (front, rest) = bytes.split_at(n);
    out.extend_from_slice(front)?;
    Ok(Some(rest))
}

/// Copies a number from 0 on, given by its bytes.
fn transcode_uint<'b>(
    bytes: &'b [u8],
    width: ByteWidth,
    out: &mut Bytes,
) -> Result<Option<&'b [u8]>, Memory>
    ensures given { IfOk result (λ found. IfSome found (λ rest.
        TranscodesAfter (form.Uint width) bytes.now rest.now out.old out.new)) }
    ensures kept { KeepsFront out.old out.new }
{
    let Some((n, rest)) = number_at(bytes, width) else {
        return Ok(None);
    };
    put_number(out, n)?;
    Ok(Some(rest))
}

/// Appends the number that a number of this width stands for in two's complement.
fn put_signed(out: &mut Bytes, n: u64, width: ByteWidth) -> Result<(), Memory>
    requires { IsWithin width n }
    ensures ok { OnOk result (out.new ≡ out.old ++ whole_bytes (cast_signed (number_width width) n)) }
    ensures err { OnErr result (KeepsFront out.old out.new) }
{
    put_whole(out, sign_extended(n, width))
}

/// Copies a number in two's complement, given by its bytes.
fn transcode_int<'b>(
    bytes: &'b [u8],
    width: ByteWidth,
    out: &mut Bytes,
) -> Result<Option<&'b [u8]>, Memory>
    ensures given { IfOk result (λ found. IfSome found (λ rest.
        TranscodesAfter (form.Int width) bytes.now rest.now out.old out.new)) }
    ensures kept { KeepsFront out.old out.new }
{
    let Some((n, rest)) = number_at(bytes, width) else {
        return Ok(None);
    };
    put_signed(out, n, width)?;
    Ok(Some(rest))
}

/// Copies a float of four bytes.
fn transcode_float32<'b>(bytes: &'b [u8], out: &mut Bytes) -> Result<Option<&'b [u8]>, Memory>
    ensures given { IfOk result (λ found. IfSome found (λ rest.
        TranscodesAfter form.Float32 bytes.now rest.now out.old out.new)) }
    ensures kept { KeepsFront out.old out.new }
{
    let Some((bits, rest)) = number_at(bytes, ByteWidth::Four) else {
        return Ok(None);
    };
    put_float32(out, bits as u32)?;
    Ok(Some(rest))
}

/// Copies a float of eight bytes.
fn transcode_float64<'b>(bytes: &'b [u8], out: &mut Bytes) -> Result<Option<&'b [u8]>, Memory>
    ensures given { IfOk result (λ found. IfSome found (λ rest.
        TranscodesAfter form.Float64 bytes.now rest.now out.old out.new)) }
    ensures kept { KeepsFront out.old out.new }
{
    let Some((bits, rest)) = number_at(bytes, ByteWidth::Eight) else {
        return Ok(None);
    };
    put_float64(out, bits)?;
    Ok(Some(rest))
}

/// Copies a text, given by its length and its bytes.
fn transcode_text<'b>(
    bytes: &'b [u8],
    count: Count,
    out: &mut Bytes,
) -> Result<Option<&'b [u8]>, Memory>
    ensures given { IfOk result (λ found. IfSome found (λ rest.
        TranscodesAfter (form.Str count) bytes.now rest.now out.old out.new)) }
    ensures kept { KeepsFront out.old out.new }
{
    let Some((n, content)) = length_at(bytes, count) else {
        return Ok(None);
    };
    put_text_head(out, n)?;
    copy_bytes(content, n, out)
}

/// Copies a bin, given by its length and its bytes.
fn transcode_bin<'b>(
    bytes: &'b [u8],
    count: Count,
    out: &mut Bytes,
) -> Result<Option<&'b [u8]>, Memory>
    ensures given { IfOk result (λ found. IfSome found (λ rest.
        TranscodesAfter (form.Bin count) bytes.now rest.now out.old out.new)) }
    ensures kept { KeepsFront out.old out.new }
{
    let Some((n, content)) = length_at(bytes, count) else {
        return Ok(None);
    };
    put_bin_head(out, n)?;
    copy_bytes(content, n, out)
}

/// Copies an extension, given by its length, its type and its bytes.
fn transcode_ext<'b>(
    bytes: &'b [u8],
    count: Count,
    out: &mut Bytes,
) -> Result<Option<&'b [u8]>, Memory>
    ensures given { IfOk result (λ found. IfSome found (λ rest.
        TranscodesAfter (form.Ext count) bytes.now rest.now out.old out.new)) }
    ensures kept { KeepsFront out.old out.new }
{
    let Some((n, typed)) = length_at(bytes, count) else {
        return Ok(None);
    };
    let [kind, content @ ..] = typed else {
        return Ok(None);
    };
    put_ext_head(out, n)?;
    put_byte(out, *kind)?;
    copy_bytes(content, n, out)
}

/// Copies a value that is no list and no map, given by the format of its first byte and the bytes after it.
/// Returns the bytes after it, or `None` for a list, a map or an invalid format.
fn transcode_flat<'b>(
    form: Form,
    bytes: &'b [u8],
    out: &mut Bytes,
) -> Result<Option<&'b [u8]>, Memory>
    ensures given { IfOk result (λ found. IfSome found (λ rest.
        TranscodesAfter form bytes.now rest.now out.old out.new)) }
    ensures kept { KeepsFront out.old out.new }
{
    match form {
        Form::Unused | Form::Array(_) | Form::Map(_) => Ok(None),
        Form::Nil => {
            put_byte(out, 0xc0)?;
            Ok(Some(bytes))
        }
        Form::Bool(truth) => {
            put_truth(out, truth)?;
            Ok(Some(bytes))
        }
        Form::PositiveFixint(n) => {
            put_number(out, n as u64)?;
            Ok(Some(bytes))
        }
        Form::NegativeFixint(n) => {
            put_whole(out, n as i64)?;
            Ok(Some(bytes))
        }
        Form::Uint(width) => transcode_uint(bytes, width, out),
        Form::Int(width) => transcode_int(bytes, width, out),
        Form::Float32 => transcode_float32(bytes, out),
        Form::Float64 => transcode_float64(bytes, out),
        Form::Str(count) => transcode_text(bytes, count, out),
        Form::Bin(count) => transcode_bin(bytes, count, out),
        Form::Ext(count) => transcode_ext(bytes, count, out),
    }
}

/// Appends the canonical encoding of the value that the bytes start with, and returns the bytes after it.
/// Returns `None` if they start with no value that is nested at most `depth` deep; `out` may then end in an
/// unfinished value.
#[cycle(transcode)]
pub fn transcode_value<'b>(
    bytes: &'b [u8],
    depth: u32,
    out: &mut Bytes,
) -> Result<Option<&'b [u8]>, Memory>
    ensures given { IfOk result (λ found. IfSome found (λ rest.
        Transcodes (value_at depth bytes.now) rest.now out.old out.new)) }
    ensures kept { KeepsFront out.old out.new }
{
    let [first, rest @ ..] = bytes else {
        return Ok(None);
    };
    let form = form_of(*first);
    if let Form::Array(count) = form {
        return transcode_list(rest, count, depth, out);
    }
    if let Form::Map(count) = form {
        return transcode_map(rest, count, depth, out);
    }
    transcode_flat(form, rest, out)
}

/// Copies a list, given by its length and its values.
#[cycle(transcode)]
fn transcode_list<'b>(
    bytes: &'b [u8],
    count: Count,
    depth: u32,
    out: &mut Bytes,
) -> Result<Option<&'b [u8]>, Memory>
    ensures given { IfOk result (λ found. IfSome found (λ rest.
        Transcodes (after (inner depth) (form.Array count) bytes.now) rest.now out.old out.new)) }
    ensures kept { KeepsFront out.old out.new }
{
    if depth == 0 {
        return Ok(None);
    }
    let Some((n, content)) = length_at(bytes, count) else {
        return Ok(None);
    };
    put_list_head(out, n)?;
    transcode_values(content, n, depth - 1, out)
}

/// Copies a map, given by its length and its pairs.
#[cycle(transcode)]
fn transcode_map<'b>(
    bytes: &'b [u8],
    count: Count,
    depth: u32,
    out: &mut Bytes,
) -> Result<Option<&'b [u8]>, Memory>
    ensures given { IfOk result (λ found. IfSome found (λ rest.
        TranscodesMap (after (inner depth) (form.Map count) bytes.now) rest.now out.old out.new)) }
    ensures kept { KeepsFront out.old out.new }
{
    if depth == 0 {
        return Ok(None);
    }
    let Some((n, content)) = length_at(bytes, count) else {
        return Ok(None);
    };
    put_map_head(out, n)?;
    transcode_pairs(content, n, depth - 1, out)
}

/// Copies `n` values.
#[cycle(transcode)]
fn transcode_values<'b>(
    bytes: &'b [u8],
    n: usize,
    depth: u32,
    out: &mut Bytes,
) -> Result<Option<&'b [u8]>, Memory>
    ensures given { IfOk result (λ found. IfSome found (λ rest.
        TranscodesAll depth n bytes.now rest.now out.old out.new)) }
    ensures kept { KeepsFront out.old out.new }
{
    let mut rest = bytes;
    for _ in 0..n {
        let Some(behind) = transcode_value(rest, depth, out)? else {
            return Ok(None);
        };
        rest = behind;
    }
    Ok(Some(rest))
}

/// Copies a key and a value.
#[cycle(transcode)]
fn transcode_pair<'b>(
    bytes: &'b [u8],
    depth: u32,
    out: &mut Bytes,
) -> Result<Option<&'b [u8]>, Memory>
    ensures given { IfOk result (λ found. IfSome found (λ rest.
        TranscodesPair depth bytes.now rest.now out.old out.new)) }
    ensures kept { KeepsFront out.old out.new }
{
    let Some(middle) = transcode_value(bytes, depth, out)? else {
        return Ok(None);
    };
    transcode_value(middle, depth, out)
}

/// Copies `n` pairs.
#[cycle(transcode)]
fn transcode_pairs<'b>(
    bytes: &'b [u8],
    n: usize,
    depth: u32,
    out: &mut Bytes,
) -> Result<Option<&'b [u8]>, Memory>
    ensures given { IfOk result (λ found. IfSome found (λ rest.
        TranscodesPairs depth n bytes.now rest.now out.old out.new)) }
    ensures kept { KeepsFront out.old out.new }
{
    let mut rest = bytes;
    for _ in 0..n {
        let Some(behind) = transcode_pair(rest, depth, out)? else {
            return Ok(None);
        };
        rest = behind;
    }
    Ok(Some(rest))
}

/// Appends the canonical encoding of the map that the bytes start with, and returns the bytes after it.
/// Returns `None` if they start with no map that is nested at most `depth` deep.
pub fn transcode_record<'b>(
    bytes: &'b [u8],
    depth: u32,
    out: &mut Bytes,
) -> Result<Option<&'b [u8]>, Memory>
    ensures given { IfOk result (λ found. IfSome found (λ rest.
        TranscodesMap (value_at depth bytes.now) rest.now out.old out.new)) }
    ensures kept { KeepsFront out.old out.new }
{
    let [first, rest @ ..] = bytes else {
        return Ok(None);
    };
    if let Form::Map(count) = form_of(*first) {
        transcode_map(rest, count, depth, out)
    } else {
        Ok(None)
    }
}
