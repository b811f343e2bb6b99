//! Followed files that are renamed, removed and truncated, polled as a tail does.

use fwd_live_files::{FollowedFiles, Identities, KeptFile};
use fwd_outside::{Bytes, Memory};
use std::alloc::Global;
use std::fs::{self, OpenOptions};
use std::io::{self, Write};
use std::test::Fail;
use std::time::Duration;

/// Milliseconds for which no test lasts.
const LONG: u64 = 600_000;

/// The most bytes of a read.
const MOST: u64 = 1_000;

const LOG: &str = "fwd_test_live_rotated/log";

const OLD: &str = "fwd_test_live_rotated/log.1";

/// What happens to a file, or a poll with the bytes that it is to give.
#[derive(Clone, Copy)]
enum Step {
    /// The log gets these bytes, which the next poll gives.
    Grow(&'static [u8]),
    Append(&'static str, &'static [u8]),
    /// Truncates the log, and writes these bytes.
    Rewrite(&'static [u8]),
    /// The log gets the other name.
    Rename,
    Remove(&'static str),
    Reads(&'static [u8]),
    /// Another reader of the log.
    OtherReads(&'static [u8]),
    Fails,
    /// The path has this length, and the only handle is still that of the log.
    HasLength(&'static str, u64),
}

/// For how many milliseconds another file has the path before the old one is left, the steps of a run, and
/// those of the next one, which goes on where the first ended.
#[derive(Clone, Copy)]
struct Scene {
    linger: u64,
    steps: &'static [Step],
    next: &'static [Step],
}

const SCENES: &[Scene] = &[
    // A renamed file is lingered at.
    Scene {
        linger: LONG,
        steps: &[
            Step::Grow(b"one\n"),
            Step::Rename,
            Step::Append(LOG, b"three\n"),
            Step::Reads(b""),
            Step::Append(OLD, b"two\n"),
            Step::Reads(b"two\n"),
            Step::Reads(b""),
        ],
        next: &[],
    },
    // A renamed file is read to its end first. An empty file means nothing. Two rotations at once lose
    // nothing.
    Scene {
        linger: 0,
        steps: &[
            Step::Grow(b"one\n"),
            Step::Rename,
            Step::Append(LOG, b""),
            Step::Reads(b""),
            Step::Append(OLD, b"late\n"),
            Step::Append(LOG, b"two\n"),
            Step::Reads(b"late\n"),
            Step::Rename,
            Step::Append(LOG, b"three\n"),
            Step::Reads(b"two\n"),
            Step::Reads(b"three\n"),
            Step::Grow(b"four\n"),
        ],
        next: &[],
    },
    // An unfinished last line is ended; what comes after it nevertheless is read.
    Scene {
        linger: 0,
        steps: &[
            Step::Grow(b"half"),
            Step::Rename,
            Step::Append(LOG, b"new\n"),
            Step::Reads(b"\n"),
            Step::Append(OLD, b"a line"),
            Step::Reads(b"a line"),
            Step::Reads(b"\n"),
            Step::Reads(b"new\n"),
        ],
        next: &[],
    },
    // The next run knows the line feed after an unfinished last line.
    Scene {
        linger: 0,
        steps: &[
            Step::Grow(b"half"),
            Step::Rename,
            Step::Append(LOG, b"new\n"),
            Step::Reads(b"\n"),
        ],
        next: &[Step::Reads(b""), Step::Reads(b"new\n")],
    },
    // A file that was removed, with another one at once, and later.
    Scene {
        linger: 0,
        steps: &[
            Step::Grow(b"one\n"),
            Step::Remove(LOG),
            Step::Grow(b"a longer one\n"),
            Step::Remove(LOG),
            Step::Reads(b""),
            Step::Fails,
            Step::Grow(b"the longest of all\n"),
        ],
        next: &[],
    },
    // A file that was truncated, and has become shorter, or longer.
    Scene {
        linger: 0,
        steps: &[
            Step::Grow(b"the first\n"),
            Step::Rewrite(b"short\n"),
            Step::Reads(b"short\n"),
            Step::Rewrite(b"longer than before\n"),
            Step::Reads(b"longer than before\n"),
            Step::Reads(b""),
        ],
        next: &[Step::Rewrite(b"short\n"), Step::Reads(b"short\n")],
    },
    // A path with two readers.
    Scene {
        linger: 0,
        steps: &[
            Step::Grow(b"one\n"),
            Step::OtherReads(b"one\n"),
            Step::Grow(b"two\n"),
            Step::OtherReads(b"two\n"),
            Step::Rewrite(b"x\n"),
            Step::Reads(b"x\n"),
            Step::OtherReads(b"x\n"),
        ],
        next: &[],
    },
    // A path beyond the limit gets no handle.
    Scene {
        linger: 0,
        steps: &[
            Step::Grow(b"one\n"),
            Step::Append(OLD, b"other\n"),
            Step::HasLength(OLD, 6),
        ],
        next: &[],
    },
    // The next run reads a file that was renamed to its end, though no file has the path at first.
    Scene {
        linger: 0,
        steps: &[Step::Grow(b"one\n")],
        next: &[
            Step::Append(LOG, b"two\n"),
            Step::Rename,
            Step::Reads(b"two\n"),
            Step::Grow(b"a longer one\n"),
        ],
    },
    // The old file is gone: the next run reads the one that has its path from its beginning.
    Scene {
        linger: 0,
        steps: &[Step::Grow(b"one\n")],
        next: &[
            Step::Rename,
            Step::Append(LOG, b"a longer one\n"),
            Step::Remove(OLD),
            Step::Reads(b"a longer one\n"),
            Step::Grow(b"two\n"),
        ],
    },
    // The same, where no file has the path at first.
    Scene {
        linger: 0,
        steps: &[Step::Grow(b"one\n")],
        next: &[
            Step::Remove(LOG),
            Step::Fails,
            Step::Grow(b"a longer one\n"),
        ],
    },
];

fn new_files(rt: HostRuntime, identities: &Identities, linger: u64) -> FollowedFiles<'_> {
    FollowedFiles::new(rt, identities, Duration::from_millis(linger), 1)
}

/// Polls from a place, which moves after what is read.
fn poll(files: &mut FollowedFiles<'_>, alloc: Global, place: &mut u64) -> io::Result<Bytes> {
    let long = files.length(LOG.as_bytes())?;
    let from = if long < *place { 0 } else { *place };
    let read = files.read_at(alloc, LOG.as_bytes(), from, MOST)?;
    *place = from.saturating_add(read.len() as u64);
    Ok(read)
}

fn reads(files: &mut FollowedFiles<'_>, alloc: Global, place: &mut u64, wanted: &[u8]) -> bool {
    match poll(files, alloc, place) {
        Ok(read) => read.as_slice() == wanted,
        Err(_) => false,
    }
}

fn has_length(files: &mut FollowedFiles<'_>, path: &str, wanted: u64) -> bool {
    match files.length(path.as_bytes()) {
        Ok(length) => length == wanted && files.handles() == 1,
        Err(_) => false,
    }
}

fn append(rt: &HostRuntime, path: &str, bytes: &[u8]) -> io::Result<()> {
    let mut how = OpenOptions::new();
    how.append(true).create(true);
    how.open(rt, path)?.write_all(bytes)
}

fn is_so(
    files: &mut FollowedFiles<'_>,
    rt: HostRuntime,
    places: &mut [u64; 2],
    step: Step,
) -> bool {
    match step {
        Step::Grow(bytes) => {
            append(&rt, LOG, bytes).is_ok() && reads(files, rt.alloc(), &mut places[0], bytes)
        }
        Step::Append(path, bytes) => append(&rt, path, bytes).is_ok(),
        Step::Rewrite(bytes) => fs::write(&rt, LOG, bytes).is_ok(),
        Step::Rename => fs::rename(&rt, LOG, OLD).is_ok(),
        Step::Remove(path) => fs::remove_file(&rt, path).is_ok(),
        Step::Reads(bytes) => reads(files, rt.alloc(), &mut places[0], bytes),
        Step::OtherReads(bytes) => reads(files, rt.alloc(), &mut places[1], bytes),
        Step::Fails => poll(files, rt.alloc(), &mut places[0]).is_err(),
        Step::HasLength(path, length) => has_length(files, path, length),
    }
}

/// Returns how many steps go as they say, up to the first that doesn't.
fn good_steps(
    files: &mut FollowedFiles<'_>,
    rt: HostRuntime,
    places: &mut [u64; 2],
    steps: &[Step],
) -> usize {
    for (place, step) in steps.iter().enumerate() {
        if !is_so(files, rt, places, *step) {
            return place;
        }
    }
    steps.len()
}

/// Plays the steps of the next run, which goes on in the file that stood for the path.
fn good_steps_of_next(
    rt: HostRuntime,
    before: &Identities,
    places: &mut [u64; 2],
    steps: &[Step],
) -> Result<usize, Memory> {
    let identities = Identities::new(rt.alloc());
    if let Some(identity) = before.current(LOG.as_bytes()) {
        let offset = places[0];
        identities.want(rt.alloc(), LOG.as_bytes(), KeptFile { identity, offset })?;
    }
    Ok(good_steps(&mut new_files(rt, &identities, 0), rt, places, steps))
}

/// Plays both runs. The first one's handles stay open, so that no inode is used again. Returns how many steps
/// of each go as they say.
fn play(rt: HostRuntime, scene: &Scene) -> Result<(usize, usize), Memory> {
    let identities = Identities::new(rt.alloc());
    let mut files = new_files(rt, &identities, scene.linger);
    let mut places = [0u64; 2];
    let first = good_steps(&mut files, rt, &mut places, scene.steps);
    let next = good_steps_of_next(rt, &identities, &mut places, scene.next)?;
    Ok((first, next))
}

#[test]
fn rotated_files_are_read(rt: HostRuntime) -> Result<(), Fail> {
    for (number, scene) in SCENES.iter().enumerate() {
        let _ = fs::remove_dir_all(&rt, "fwd_test_live_rotated");
        fs::create_dir(&rt, "fwd_test_live_rotated")?;
        let (first, next) = play(rt, scene)?;
        fs::remove_dir_all(&rt, "fwd_test_live_rotated")?;
        let is_good = first == scene.steps.len() && next == scene.next.len();
        assert!(rt; is_good, "scene {number}: step {first}, then {next}");
    }
    Ok(())
}
