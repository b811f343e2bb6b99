//! The table of offsets in a database.

ghost use Rattle.std.specs.Prelude.{◌≡◌, ◌<◌, ◌^◌, IfOk, IfErr, OnOk};
ghost use Rattle.fwd_positions.specs.FileNumbers.{identity_of, numbers_of};

use crate::errors::{DatabaseErr, Failure};
use fwd_live_files::{Identity, identity_at};
use sqlite::{Connection, Error, File, FileStore, Row, params};

/// An open database.
pub type Opened = Connection<FileStore<File>>;

/// An offset for each path, with device and inode of the file that it is in; 0 if they aren't known.
const TABLE: &str =
    "CREATE TABLE IF NOT EXISTS place (path TEXT NOT NULL PRIMARY KEY, place INTEGER NOT NULL, device INTEGER NOT NULL DEFAULT 0, inode INTEGER NOT NULL DEFAULT 0) STRICT";

const PUT: &str =
    "INSERT INTO place (path, place, device, inode) VALUES (?1, ?2, ?3, ?4) ON CONFLICT (path) DO UPDATE SET place = excluded.place, device = excluded.device, inode = excluded.inode";

const GET: &str = "SELECT place, device, inode FROM place WHERE path = ?1";

/// The table of Fluent Bit in its own databases.
const GET_FROM_FLUENT_BIT: &str = "SELECT offset FROM in_tail_files WHERE name = ?1 AND inode = ?2";

/// Returns the bytes as text; this failure if they aren't UTF-8.
pub fn text(bytes: &[u8], failure: Failure) -> Result<&str, Failure>
    ensures ok { IfOk result (λ text. text.now ≡ bytes.entry.now) }
    ensures err { IfErr result (λ e. e ≡ failure) }
{
    match str::from_utf8(bytes) {
        Ok(text) => Ok(text),
        Err(_) => Err(failure),
    }
}

/// Opens the database of a name, and makes it if there is none. No other process can open it until it is
/// dropped.
pub fn open(rt: &HostRuntime, name: &[u8]) -> Result<Opened, DatabaseErr> {
    let mut opened = Connection::open(rt, text(name, Failure::Name)?)?;
    opened.execute(TABLE, &[])?;
    Ok(opened)
}

/// Returns the numbers of a file in the table: 0 if it isn't known, or a number is too large for the table.
fn numbers_of(identity: Option<Identity>) -> (i64, i64)
    ensures { result ≡ numbers_of identity }
{
    match identity {
        Some(Identity { device, inode }) => match (i64::try_from(device), i64::try_from(inode)) {
            (Ok(device), Ok(inode)) => (device, inode),
            (Ok(_), Err(_)) | (Err(_), Ok(_)) | (Err(_), Err(_)) => (0, 0),
        },
        None => (0, 0),
    }
}

/// Returns the file of these numbers in the table.
fn identity_of(device: u64, inode: u64) -> Option<Identity>
    ensures { result ≡ identity_of device inode }
{
    if inode == 0 {
        None
    } else {
        Some(Identity { device, inode })
    }
}

/// An offset with the file that it is in, if that is known.
#[derive(Clone, Copy, Debug, PartialEq, Eq)]
pub struct Kept {
    pub place: u64,
    pub identity: Option<Identity>,
}

fn kept_in(row: &Row) -> Result<Kept, Error> {
    Ok(Kept {
        place: row.get(0)?,
        identity: identity_of(row.get(1)?, row.get(2)?),
    })
}

/// Returns what the table has for a path; `None` if it has nothing.
fn select_kept(opened: &mut Opened, path: &str) -> Result<Option<Kept>, DatabaseErr> {
    match opened.query_row(GET, params![path]) {
        Ok(row) => Ok(Some(kept_in(&row)?)),
        Err(Error::QueryReturnedNoRows) => Ok(None),
        Err(error) => Err(DatabaseErr::from(error)),
    }
}

/// Returns the offset that Fluent Bit has kept in a file by its path, if the database has its table.
fn select_from_fluent_bit(
    opened: &mut Opened,
    path: &str,
    inode: i64,
) -> Result<Option<u64>, DatabaseErr> {
    match opened.query_row(GET_FROM_FLUENT_BIT, params![path, inode]) {
        Ok(row) => Ok(row.get(0).ok()),
        Err(Error::QueryReturnedNoRows | Error::SqlInputError(_)) => Ok(None),
        Err(error) => Err(DatabaseErr::from(error)),
    }
}

/// Returns what Fluent Bit has kept for a path, if it is of the file that has the path now.
fn take_over(
    rt: &HostRuntime,
    opened: &mut Opened,
    path: &str,
) -> Result<Option<Kept>, DatabaseErr> {
    let Ok(identity) = identity_at(rt, path) else {
        return Ok(None);
    };
    let Ok(inode) = i64::try_from(identity.inode) else {
        return Ok(None);
    };
    match select_from_fluent_bit(opened, path, inode)? {
        Some(place) => Ok(Some(Kept {
            place,
            identity: Some(identity),
        })),
        None => Ok(None),
    }
}

/// Returns what is kept for a path; `None` if nothing is. If the table has nothing, an offset of Fluent Bit
/// is taken over.
pub fn find_kept(
    rt: &HostRuntime,
    opened: &mut Opened,
    path: &str,
) -> Result<Option<Kept>, DatabaseErr> {
    match select_kept(opened, path)? {
        Some(kept) => Ok(Some(kept)),
        None => take_over(rt, opened, path),
    }
}

/// Commits what is kept for a path to the table. The table has no numbers from 2^63 on.
pub fn upsert_kept(opened: &mut Opened, path: &str, kept: Kept) -> Result<(), DatabaseErr>
    ensures { OnOk result (kept.place < 2 ^ 63) }
{
    let Ok(place) = i64::try_from(kept.place) else {
        return Err(DatabaseErr::Failed(Failure::Offset));
    };
    let (device, inode) = numbers_of(kept.identity);
    opened.execute(PUT, params![path, place, device, inode])?;
    Ok(())
}
