//! Paths of chunk files.

ghost use Rattle.std.specs.Prelude.{◌≡◌, ◌++◌, IfOk, OnOk};
ghost use Rattle.fwd_chunk.specs.Name.{digits, file_name, found_name};

use fwd_outside::{Bytes, Memory};
use std::alloc::Global;

/// Returns `ROOT/STREAM/NUMBER.flb`, with the number in twenty digits.
pub fn file_name(alloc: Global, root: &[u8], stream: &[u8], number: u64) -> Result<Bytes, Memory>
    ensures { IfOk result (λ name. name ≡ file_name root.now stream.now number) }
{
    let mut name = Bytes::new(alloc);
    name.extend_from_slice(root)?;
    name.extend_from_slice(b"/")?;
    name.extend_from_slice(stream)?;
    name.extend_from_slice(b"/")?;
    push_digits(&mut name, 20, number)?;
    name.extend_from_slice(b".flb")?;
    Ok(name)
}

/// Returns `ROOT/STREAM/NAME`, the path of a recovered file.
pub fn found_name(alloc: Global, root: &[u8], stream: &[u8], name: &[u8]) -> Result<Bytes, Memory>
    ensures { IfOk result (λ whole. whole ≡ found_name root.now stream.now name.now) }
{
    let mut whole = Bytes::new(alloc);
    whole.extend_from_slice(root)?;
    whole.extend_from_slice(b"/")?;
    whole.extend_from_slice(stream)?;
    whole.extend_from_slice(b"/")?;
    whole.extend_from_slice(name)?;
    Ok(whole)
}

// Appends the last `count` decimal digits of a number.
fn push_digits(name: &mut Bytes, count: u8, number: u64) -> Result<(), Memory>
    ensures { OnOk result (name.new ≡ name.old ++ digits count number) }
{
    if count == 0 {
        return Ok(());
    }
    push_digits(name, count - 1, number / 10)?;
    name.push(b'0' + (number % 10) as u8)
}
