//! Parts of files, and copies of names.

ghost use Rattle.std.specs.Prelude.{◌≡◌, ◌&&◌, Some, None, take, drop, IfOk};

use fwd_outside::{Bytes, Memory, Names};
use std::alloc::Global;

pub fn both(first: bool, second: bool) -> bool
    ensures { result ≡ (first && second) }
{
    first && second
}

/// Returns the bytes from an offset, at most `len` of them.
pub fn part_of(alloc: Global, bytes: &[u8], at: u64, len: u64) -> Result<Bytes, Memory>
    ensures { IfOk result (λ part. part ≡ take len (drop at bytes.now)) }
{
    if at >= bytes.len() as u64 {
        return Ok(Bytes::new(alloc));
    }
    let rest = &bytes[at as usize..];
    if len >= rest.len() as u64 {
        return Bytes::from_slice(alloc, rest);
    }
    Bytes::from_slice(alloc, &rest[..len as usize])
}

pub fn copy_of_names(alloc: Global, names: &Option<Names>) -> Result<Option<Names>, Memory>
    ensures { IfOk result (λ copy. copy ≡ names.now) }
{
    match names {
        Some(names) => Ok(Some(names.try_clone(alloc)?)),
        None => Ok(None),
    }
}
