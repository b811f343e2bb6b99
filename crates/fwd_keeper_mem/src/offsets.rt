//! Offsets by database and path.

ghost use Rattle.std.specs.Prelude.{◌≡◌, position, IfOk, OnOk, OnErr};
ghost use Rattle.fwd_keeper.specs.Keeper.{found, is_of};
ghost use Rattle.fwd_keeper_mem.specs.Offsets.{HasOffset};

use fwd_base::{Bytes, Memory};
use std::alloc::Global;

/// The offset of a database and a path.
pub type Offset = ((Bytes, Bytes), u64);

/// Returns a copy of the offsets.
pub fn copy_of(alloc: Global, offsets: &[Offset]) -> Result<Vec<Offset>, Memory>
    ensures { IfOk result (λ copy. copy.items ≡ offsets.now) }
{
    let mut copy = Vec::with_capacity(alloc, offsets.len())?;
    for ((db, path), place) in offsets {
        copy.push(((db.try_clone(alloc)?, path.try_clone(alloc)?), *place))?;
    }
    Ok(copy)
}

/// Returns the index of a database and a path.
fn index_of(offsets: &[Offset], db: &[u8], path: &[u8]) -> Option<usize>
    ensures { result ≡ position (λ row. is_of db.now path.now row.0.0 row.0.1) offsets.now }
{
    offsets.iter().position(|row| row.0.0.as_slice() == db && row.0.1.as_slice() == path)
}

/// Returns the offset of a path; `None` if there is none.
pub fn offset_of(offsets: &[Offset], db: &[u8], path: &[u8]) -> Option<u64>
    ensures { result ≡ found offsets.now db.now path.now }
{
    match index_of(offsets, db, path) {
        Some(index) => Some(offsets[index].1),
        None => None,
    }
}

/// Sets the offset of a path. `Err` leaves the offsets unchanged.
pub fn set(
    alloc: Global,
    offsets: &mut Vec<Offset>,
    db: &[u8],
    path: &[u8],
    place: u64,
) -> Result<(), Memory>
    ensures ok { OnOk result (HasOffset db.now path.now place offsets.old.items offsets.new.items) }
    ensures err { OnErr result (offsets.new.items ≡ offsets.old.items) }
{
    match index_of(offsets, db, path) {
        Some(index) => offsets[index].1 = place,
        None => offsets.push((
            (
                Bytes::from_slice(alloc, db)?,
                Bytes::from_slice(alloc, path)?,
            ),
            place,
        ))?,
    }
    Ok(())
}
