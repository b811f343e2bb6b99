//! Offsets in databases and in memory.

use crate::steps::{Step, are_taken, gets, puts, refuses};
use fwd_live_files::{Identities, Identity, KeptFile, identity_at};
use fwd_log::{Journal, Level};
use fwd_positions::{Keeper, MemKeeper, SqliteKeeper};
use sqlite::{Connection, Error, params};
use std::alloc::Global;
use std::test::Fail;
use std::time::Duration;
use std::{fs, io, thread};

const FIRST: &str = "fwd_test_positions.first";

const SECOND: &str = "fwd_test_positions.second";

const TAKEN: &str = "fwd_test_positions.taken";

const LOG: &str = "fwd_test_positions.log";

/// Milliseconds after which a database that failed is opened again.
const RETRIED: u64 = 5_100;

/// Databases are kept apart, and so are paths. A put replaces an offset.
const STEPS: &[Step] = &[
    Step::Gets(FIRST, "/l", None),
    Step::Puts(FIRST, "/l", 4),
    Step::Puts(FIRST, "/m", 7),
    Step::Gets(SECOND, "/l", None),
    Step::Puts(SECOND, "/l", 5),
    Step::Puts(FIRST, "/l", 6),
    Step::Gets(FIRST, "/l", Some(6)),
];

/// The offsets after these steps.
const LATER: &[Step] = &[
    Step::Gets(FIRST, "/l", Some(6)),
    Step::Gets(FIRST, "/m", Some(7)),
    Step::Gets(FIRST, "/n", None),
    Step::Gets(SECOND, "/l", Some(5)),
];

/// A folder is no database, and a database in a folder that is missing can't be opened.
const REFUSED: &[Step] = &[
    Step::Refuses("."),
    Step::Refuses("fwd_test_positions.none/d"),
];

/// What a keeper borrows.
#[derive(Drop)]
struct Lent {
    journal: Journal,
    identities: Identities,
}

/// Returns a log that writes nothing, and no identities.
fn quiet(rt: HostRuntime) -> Lent {
    Lent {
        journal: Journal::new(rt, None),
        identities: Identities::new(rt.alloc()),
    }
}

fn new_keeper(rt: HostRuntime, lent: &Lent) -> SqliteKeeper<'_> {
    SqliteKeeper::new(rt, &lent.journal, &lent.identities)
}

fn are_kept(rt: HostRuntime, steps: &[Step]) -> bool {
    let lent = quiet(rt);
    are_taken(&mut new_keeper(rt, &lent), steps)
}

/// Removes a database with its log.
fn remove(rt: HostRuntime, db: &str) -> Result<(), Fail> {
    fs::remove_file(&rt, db)?;
    fs::remove_file(&rt, format!(in rt.alloc(); "{db}-wal")?.as_str())?;
    Ok(())
}

#[test]
fn offsets_outlive_a_keeper(rt: HostRuntime) -> Result<(), Fail> {
    let kept = are_kept(rt, STEPS) && are_kept(rt, LATER);
    remove(rt, FIRST)?;
    remove(rt, SECOND)?;
    assert!(rt; kept);
    Ok(())
}

#[test]
fn what_is_no_database_fails(rt: HostRuntime) {
    assert!(rt; are_kept(rt, REFUSED));
}

/// While a keeper has the database, another one is refused.
fn is_refused_beside_another(rt: HostRuntime, lent: &Lent, late: &mut SqliteKeeper<'_>) -> bool {
    let mut early = new_keeper(rt, lent);
    puts(&mut early, TAKEN, "/l", 3) && refuses(late, TAKEN) && puts(&mut early, TAKEN, "/l", 4)
}

/// The lines of the log without their times.
const LOGGED: &[&str] = &[
    " [error] [files] offsets of followed files aren't kept in fwd_test_positions.taken: database is locked",
    " [ info] [files] offsets of followed files are kept in fwd_test_positions.taken again",
];

/// Returns whether the log has these lines and no others.
fn is_logged(rt: HostRuntime, wanted: &[&str]) -> io::Result<bool> {
    let log = fs::read_to_string(&rt, LOG)?;
    let mut lines = log.as_str().lines();
    for text in wanted {
        match lines.next() {
            Some(line) if line.ends_with(*text) => {}
            Some(_) | None => return Ok(false),
        }
    }
    Ok(lines.next().is_none())
}

/// Fails with these words unless something holds.
fn ensure(holds: bool, words: &'static str) -> Result<(), Fail> {
    if holds {
        Ok(())
    } else {
        Err(Fail::from(words))
    }
}

/// The refused keeper fails for a while after the other one is gone, and then has what that one put.
fn take_over(rt: HostRuntime, lent: &Lent) -> Result<(), Fail> {
    let mut late = new_keeper(rt, lent);
    let refused = is_refused_beside_another(rt, lent, &mut late);
    ensure(refused, "a database has two keepers")?;
    ensure(refuses(&mut late, TAKEN), "it is opened again at once")?;
    thread::sleep(&rt, Duration::from_millis(RETRIED));
    ensure(
        gets(&mut late, TAKEN, "/l", Some(4)),
        "it isn't opened again",
    )?;
    ensure(puts(&mut late, TAKEN, "/l", 5), "it isn't written again")
}

#[test]
fn a_database_has_one_keeper(rt: HostRuntime) -> Result<(), Fail> {
    let _ = fs::remove_file(&rt, LOG);
    let lent = quiet(rt);
    lent.journal.open(Some(Level::Info), Some(LOG.as_bytes()));
    take_over(rt, &lent)?;
    let logged = is_logged(rt, LOGGED)?;
    remove(rt, TAKEN)?;
    fs::remove_file(&rt, LOG)?;
    assert!(rt; logged);
    Ok(())
}

const KEPT: &str = "fwd_test_positions.kept";

/// A device and an inode, as if a file of them stood for a path.
const FILE: Identity = Identity {
    device: 3,
    inode: 1_234_567_890_123,
};

/// Puts an offset in a file, and one in a file that isn't known.
fn are_put(rt: HostRuntime) -> bool {
    let lent = quiet(rt);
    lent.identities.note(rt.alloc(), b"/l", FILE);
    let mut keeper = new_keeper(rt, &lent);
    puts(&mut keeper, KEPT, "/l", 4) && puts(&mut keeper, KEPT, "/m", 5)
}

/// Gets both. The reading of the first path goes on in its file.
fn are_got(rt: HostRuntime) -> bool {
    let lent = quiet(rt);
    let mut keeper = new_keeper(rt, &lent);
    let got = gets(&mut keeper, KEPT, "/l", Some(4)) && gets(&mut keeper, KEPT, "/m", Some(5));
    let wanted = Some(KeptFile {
        identity: FILE,
        offset: 4,
    });
    got && lent.identities.take_wanted(b"/l") == wanted
        && lent.identities.take_wanted(b"/m").is_none()
}

#[test]
fn the_file_of_an_offset_is_kept(rt: HostRuntime) -> Result<(), Fail> {
    let put = are_put(rt);
    let got = are_got(rt);
    remove(rt, KEPT)?;
    assert!(rt; put && got);
    Ok(())
}

const FLUENT_BIT: &str = "fwd_test_positions.fluent_bit";

const FOLLOWED: &str = "fwd_test_positions.followed";

const OTHER: &str = "fwd_test_positions.other";

/// The table of Fluent Bit 3.
const TABLE: &str =
    "CREATE TABLE in_tail_files (id INTEGER PRIMARY KEY, name TEXT NOT NULL, offset INTEGER, inode INTEGER, created INTEGER, rotated INTEGER DEFAULT 0)";

const ROW: &str = "INSERT INTO in_tail_files (name, offset, inode, created) VALUES (?1, ?2, ?3, 0)";

/// Makes a database of Fluent Bit, in which one file has the inode of its path, and one hasn't.
fn make_database(rt: HostRuntime, inode: i64) -> Result<(), Error> {
    let mut made = Connection::open(&rt, FLUENT_BIT)?;
    made.execute(TABLE, &[])?;
    made.execute(ROW, params![FOLLOWED, 7i64, inode])?;
    made.execute(ROW, params![OTHER, 8i64, inode])?;
    Ok(())
}

/// An offset of Fluent Bit stands until one is put. That of another file isn't taken.
const FROM_FLUENT_BIT: &[Step] = &[
    Step::Gets(FLUENT_BIT, FOLLOWED, Some(7)),
    Step::Gets(FLUENT_BIT, OTHER, None),
    Step::Gets(FLUENT_BIT, "fwd_test_positions.none", None),
    Step::Puts(FLUENT_BIT, FOLLOWED, 9),
    Step::Gets(FLUENT_BIT, FOLLOWED, Some(9)),
];

fn is_taken_from_fluent_bit(rt: HostRuntime) -> Result<bool, Fail> {
    let inode = i64::try_from(identity_at(&rt, FOLLOWED)?.inode).unwrap_or(0);
    Ok(make_database(rt, inode).is_ok() && are_kept(rt, FROM_FLUENT_BIT))
}

#[test]
fn offsets_of_fluent_bit_are_taken_over(rt: HostRuntime) -> Result<(), Fail> {
    fs::write(&rt, FOLLOWED, b"lines\n")?;
    fs::write(&rt, OTHER, b"lines\n")?;
    let taken = is_taken_from_fluent_bit(rt)?;
    remove(rt, FLUENT_BIT)?;
    fs::remove_file(&rt, FOLLOWED)?;
    fs::remove_file(&rt, OTHER)?;
    assert!(rt; taken);
    Ok(())
}

/// The first call fails, and changes nothing.
fn is_failed(keeper: &mut MemKeeper) -> bool {
    keeper.fail_at(1).is_ok() && !puts(keeper, FIRST, "/l", 3)
}

fn is_remembered(keeper: &mut MemKeeper, alloc: Global) -> bool {
    match keeper.renewed(alloc) {
        Ok(mut renewed) => are_taken(&mut renewed, LATER),
        Err(_) => false,
    }
}

#[test]
fn offsets_in_memory_are_kept(rt: HostRuntime) {
    let mut keeper = MemKeeper::new(rt.alloc());
    let kept = is_failed(&mut keeper) && are_taken(&mut keeper, STEPS);
    assert!(rt; kept && is_remembered(&mut keeper, rt.alloc()));
}
