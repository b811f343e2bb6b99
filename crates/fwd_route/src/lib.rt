//! Routing: which outputs get a chunk, by matching their globs against its tag. Matching is one scan without
//! allocation: on a mismatch the last star, and no earlier one, takes one byte more.
//!
//! `matches` decides whether a glob matches, and `routes` returns the mask of the globs that match. The
//! relation between globs and tags is also a computable test (`test_decides_globs`).
#![tactic(auto)]

ghost use Rattle.std.specs.Prelude.{◌↔◌, ◌≤◌, IsTrue, length};
ghost use Rattle.fwd_base.specs.Limits.{most_outputs};
ghost use Rattle.fwd_route.specs.Glob.{Glob, HasNoStar, RoutesTo};
ghost use Rattle.fwd_route.specs.NextStep.{IsSuffix, IsNextStep};

mod theorems;

use fwd_base::Names;
pub use theorems::test_decides_globs;

/// How a glob and a tag continue.
enum Step<'a> {
    /// Both have ended.
    Over,
    /// The glob continues with a star.
    Star { behind: &'a [u8] },
    /// Both continue with the same byte.
    Same { behind: &'a [u8], rest: &'a [u8] },
    /// The tag doesn't continue as the glob does.
    Other,
}

fn next_step<'a>(pattern: &'a [u8], tag: &'a [u8]) -> Step<'a>
    ensures { IsNextStep pattern.now tag.now result }
{
    let Some((wanted, behind)) = pattern.split_first() else {
        return if tag.is_empty() {
            Step::Over
        } else {
            Step::Other
        };
    };
    if *wanted == b'*' {
        return Step::Star { behind };
    }
    match tag.split_first() {
        Some((byte, rest)) if *byte == *wanted => Step::Same { behind, rest },
        _ => Step::Other,
    }
}

/// Where the scan resumes after a mismatch.
#[derive(Clone, Copy)]
struct Back<'a> {
    /// The glob after its last star.
    behind: &'a [u8],
    /// The tag from the end of the run of that star on.
    from: &'a [u8],
}

/// Returns whether a glob has no star.
fn is_plain(glob: &[u8]) -> bool
    ensures { IsTrue result ↔ HasNoStar glob.now }
{
    !glob.contains(&b'*')
}

/// Returns whether a text ends with `end`.
fn is_suffix(end: &[u8], text: &[u8]) -> bool
    ensures { IsTrue result ↔ IsSuffix end.now text.now }
{
    text.ends_with(end)
}

/// Returns whether a glob matches a tag. `*` matches any run of bytes, also none; every other byte matches
/// itself, in the same case. The time is at most proportional to the product of the lengths, and to their
/// sum if the glob has one star.
pub fn matches(pattern: &[u8], tag: &[u8]) -> bool
    ensures { IsTrue result ↔ Glob pattern.now tag.now }
{
    let mut glob = pattern;
    let mut text = tag;
    let mut back: Option<Back<'_>> = None;
    'steps: loop {
        match next_step(glob, text) {
            Step::Over => return true,
            Step::Star { behind } => {
                if is_plain(behind) {
                    return is_suffix(behind, text);
                }
                glob = behind;
                back = Some(Back { behind, from: text });
            }
            Step::Same { behind, rest } => {
                glob = behind;
                text = rest;
            }
            Step::Other => {
                let Some(Back { behind, from }) = back else {
                    return false;
                };
                let Some((_, rest)) = from.split_first() else {
                    return false;
                };
                glob = behind;
                text = rest;
                back = Some(Back { behind, from: rest });
            }
        }
    }
}

/// Returns the mask of the globs that match a tag: bit `i` is set exactly if glob `i` does. There may be at
/// most `MOST_OUTPUTS` globs. The program doesn't use it (it asks `matches` for each output): it is for
/// callers that have a list of globs.
pub fn routes(globs: &Names, tag: &[u8]) -> u64
    requires { length globs.now ≤ most_outputs }
    ensures { RoutesTo globs.now tag.now result }
{
    let mut mask: u64 = 0;
    for (i, glob) in globs.as_slice().iter().enumerate() {
        if matches(glob.as_slice(), tag) {
            mask |= 1 << i;
        }
    }
    mask
}
