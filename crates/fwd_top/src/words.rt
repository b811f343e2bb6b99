//! The words of the command line.

ghost use Rattle.std.specs.Prelude.{◌≡◌, map, string_bytes, option_map, IfOk};
ghost use Rattle.fwd_top.specs.Words.{command_of, count_of, gen_of, is_value, list_of, one_option, options_after, replay_of, run_of, run_with, tape_of, two_options, with_config, with_option, with_tape, with_ticks};
ghost use Rattle.fwd_top.specs.Views.{command, run_options};

use fwd_base::{Bytes, Memory, number};
use std::alloc::Global;

/// What the words of the command line ask for. Files and folders are named by their paths.
#[derive(Clone, Copy, Debug, PartialEq, Eq)]
pub enum Command<'a> {
    /// Runs a configuration until everything is done, or until it is stopped after the given number of
    /// clock ticks.
    Run {
        config: &'a [u8],
        ticks: Option<u64>,
    },
    /// Runs a configuration in the same way, and records the run.
    Record {
        config: &'a [u8],
        ticks: Option<u64>,
        tape: &'a [u8],
    },
    /// Replays a schedule with a configuration.
    Replay {
        config: &'a [u8],
        schedule: &'a [u8],
    },
    /// Lists the chunks in a folder.
    List {
        folder: &'a [u8],
    },
    /// Generates a load of `count` lines, and replays it.
    Generate {
        count: u64,
    },
}

/// The most lines of a generated load.
const MOST_LINES: u64 = 200_000;

/// Returns whether a word is a value: it isn't empty and doesn't begin with `-`.
fn is_value(word: &[u8]) -> bool
    ensures { result ≡ is_value word.now }
{
    !word.is_empty() && word[0] != b'-'
}

/// Parses a number from 1 to `most`, in digits without a leading zero.
fn count(text: &[u8], most: u64) -> Option<u64>
    ensures { result ≡ count_of most text.now }
{
    if text.is_empty() || text[0] == b'0' {
        return None;
    }
    match number(text) {
        Some(number) if number <= most => Some(number),
        _ => None,
    }
}

/// Returns the value of one option.
fn one_option<'a>(wanted: &[u8], name: &[u8], value: &'a [u8]) -> Option<&'a [u8]>
    ensures { option_map (λ found. found.now) result ≡ one_option wanted.now name.now value.now }
{
    if name == wanted && is_value(value) {
        Some(value)
    } else {
        None
    }
}

/// Returns the values of two options, which come in any order: of the first wanted one, and of the
/// second.
fn two_options<'a>(
    first: &[u8],
    second: &[u8],
    name: &[u8],
    value: &'a [u8],
    other: &[u8],
    more: &'a [u8],
) -> Option<(&'a [u8], &'a [u8])>
    ensures { option_map (λ found. (found.0.now, found.1.now)) result ≡ two_options first.now second.now name.now value.now other.now more.now }
{
    let valued = is_value(value) && is_value(more);
    if !valued {
        None
    } else if name == first && other == second {
        Some((value, more))
    } else if name == second && other == first {
        Some((more, value))
    } else {
        None
    }
}

/// The options of a run, as far as they were read.
#[derive(Clone, Copy)]
struct RunOptions<'a> {
    config: Option<&'a [u8]>,
    ticks: Option<u64>,
    tape: Option<&'a [u8]>,
}

/// Adds a configuration to the options; `None` if they have one.
fn with_config<'a>(so_far: RunOptions<'a>, config: &'a [u8]) -> Option<RunOptions<'a>>
    ensures { option_map run_options result ≡ with_config (run_options so_far.entry) config.now }
{
    match so_far.config {
        None => Some(RunOptions {
            config: Some(config),
            ..so_far
        }),
        Some(_) => None,
    }
}

/// Adds a number of clock ticks to the options; `None` if there is no number, or if they have one.
fn with_ticks<'a>(so_far: RunOptions<'a>, ticks: Option<u64>) -> Option<RunOptions<'a>>
    ensures { option_map run_options result ≡ with_ticks (run_options so_far.entry) ticks }
{
    match (ticks, so_far.ticks) {
        (Some(_), None) => Some(RunOptions { ticks, ..so_far }),
        (Some(_) | None, _) => None,
    }
}

/// Adds a file to record to; `None` if the options have one.
fn with_tape<'a>(so_far: RunOptions<'a>, tape: &'a [u8]) -> Option<RunOptions<'a>>
    ensures { option_map run_options result ≡ with_tape (run_options so_far.entry) tape.now }
{
    match so_far.tape {
        None => Some(RunOptions {
            tape: Some(tape),
            ..so_far
        }),
        Some(_) => None,
    }
}

/// Adds an option with its value; `None` if it isn't one of a run, was given before, or has no such value.
fn with_option<'a>(so_far: RunOptions<'a>, name: &[u8], value: &'a [u8]) -> Option<RunOptions<'a>>
    ensures { option_map run_options result ≡ with_option (run_options so_far.entry) name.now value.now }
{
    if !is_value(value) {
        None
    } else if name == b"-c".as_slice() {
        with_config(so_far, value)
    } else if name == b"-n".as_slice() {
        with_ticks(so_far, count(value, u64::MAX))
    } else if name == b"--record".as_slice() {
        with_tape(so_far, value)
    } else {
        None
    }
}

/// Reads options with their values, in any order, each once at most.
fn read_options<'a>(so_far: RunOptions<'a>, words: &'a [String]) -> Option<RunOptions<'a>>
    ensures { option_map run_options result ≡ options_after (run_options so_far.entry) (map string_bytes words.now) }
{
    match words {
        [] => Some(so_far),
        [_] => None,
        [name, value, rest @ ..] => match with_option(so_far, name.as_bytes(), value.as_bytes()) {
            Some(options) => read_options(options, rest),
            None => None,
        },
    }
}

/// Returns the command of these options; `None` without a configuration.
fn run_with(options: RunOptions<'_>) -> Option<Command<'_>>
    ensures { option_map command result ≡ run_with (run_options options.entry) }
{
    let RunOptions {
        config,
        ticks,
        tape,
    } = options;
    match (config, tape) {
        (Some(config), Some(tape)) => Some(Command::Record {
            config,
            ticks,
            tape,
        }),
        (Some(config), None) => Some(Command::Run { config, ticks }),
        (None, _) => None,
    }
}

/// Parses `-c FILE [-n TICKS] [--record FILE]`.
fn read_run(words: &[String]) -> Option<Command<'_>>
    ensures { option_map command result ≡ run_of (map string_bytes words.now) }
{
    let none = RunOptions {
        config: None,
        ticks: None,
        tape: None,
    };
    match read_options(none, words) {
        Some(options) => run_with(options),
        None => None,
    }
}

/// Parses `-c FILE -s FILE`.
fn read_replay(words: &[String]) -> Option<Command<'_>>
    ensures { option_map command result ≡ replay_of (map string_bytes words.now) }
{
    let [name, value, other, more] = words else {
        return None;
    };
    match two_options(
        b"-c",
        b"-s",
        name.as_bytes(),
        value.as_bytes(),
        other.as_bytes(),
        more.as_bytes(),
    ) {
        Some((config, schedule)) => Some(Command::Replay { config, schedule }),
        None => None,
    }
}

/// Parses `-p FOLDER`.
fn read_list(words: &[String]) -> Option<Command<'_>>
    ensures { option_map command result ≡ list_of (map string_bytes words.now) }
{
    let [name, value] = words else {
        return None;
    };
    match one_option(b"-p", name.as_bytes(), value.as_bytes()) {
        Some(folder) => Some(Command::List { folder }),
        None => None,
    }
}

/// Parses `-n COUNT`.
fn read_gen(words: &[String]) -> Option<Command<'_>>
    ensures { option_map command result ≡ gen_of (map string_bytes words.now) }
{
    let [name, value] = words else {
        return None;
    };
    match one_option(b"-n", name.as_bytes(), value.as_bytes()) {
        Some(text) => match count(text, MOST_LINES) {
            Some(count) => Some(Command::Generate { count }),
            None => None,
        },
        None => None,
    }
}

/// Parses the command: `run -c FILE [-n TICKS] [--record FILE]`, `replay -c FILE -s FILE`, `list -p FOLDER`
/// or `gen -n COUNT`, with options in any order. Returns `None` for any other words.
pub fn read_words(words: &[String]) -> Option<Command<'_>>
    ensures { option_map command result ≡ command_of (map string_bytes words.now) }
{
    let [name, options @ ..] = words else {
        return None;
    };
    let name = name.as_bytes();
    if name == b"run".as_slice() {
        read_run(options)
    } else if name == b"replay".as_slice() {
        read_replay(options)
    } else if name == b"list".as_slice() {
        read_list(options)
    } else if name == b"gen".as_slice() {
        read_gen(options)
    } else {
        None
    }
}

/// Returns the file that the words ask to record a run to; `None` if they aren't those of a command, or ask
/// for no record.
pub fn tape_file(alloc: Global, words: &[String]) -> Result<Option<Bytes>, Memory>
    ensures { IfOk result (λ file. file ≡ tape_of (command_of (map string_bytes words.now))) }
{
    match read_words(words) {
        Some(Command::Record { tape, .. }) => Ok(Some(Bytes::from_slice(alloc, tape)?)),
        Some(
            Command::Run { .. }
            | Command::Replay { .. }
            | Command::List { .. }
            | Command::Generate { .. },
        )
        | None => Ok(None),
    }
}
