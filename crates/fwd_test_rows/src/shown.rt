//! Bytes as the programs print them.

use fwd_base::Memory;

/// How many bytes are printed whole.
const WHOLE: usize = 400;

/// How many bytes of a longer text are printed from its beginning.
const HEAD: usize = 60;

/// How many bytes of a longer text are printed from its end.
const END: usize = 30;

fn put_byte(out: &mut String, byte: u8) -> Result<(), Memory> {
    if byte.is_ascii_graphic() && byte != b'~' || byte == b' ' {
        out.push(byte as char)?;
    } else {
        write!(out, "~{byte:02x}")?;
    }
    Ok(())
}

fn put_all(out: &mut String, bytes: &[u8]) -> Result<(), Memory> {
    for byte in bytes {
        put_byte(out, *byte)?;
    }
    Ok(())
}

/// Appends bytes: `~` and two hex digits for each that is no printable ASCII. Of more than 400 bytes it
/// appends the first 60, the last 30 and their number.
pub fn put_bytes(out: &mut String, bytes: &[u8]) -> Result<(), Memory> {
    if bytes.len() <= WHOLE {
        return put_all(out, bytes);
    }
    put_all(out, bytes.get(..HEAD).unwrap_or(bytes))?;
    out.push_str(" .. ")?;
    let end = bytes.len().saturating_sub(END);
    put_all(out, bytes.get(end..).unwrap_or(bytes))?;
    write!(out, " ({} bytes)", bytes.len())?;
    Ok(())
}

/// Appends one of two words.
pub fn put_word(out: &mut String, holds: bool, yes: &str, no: &str) -> Result<(), Memory> {
    out.push_str(if holds { yes } else { no })?;
    Ok(())
}
