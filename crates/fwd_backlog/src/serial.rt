//! The numbers in file names.

ghost use Rattle.std.specs.Prelude.{◌≡◌, ◌<◌, ◌≤◌};
ghost use Rattle.fwd_base.specs.Limits.{numbers_end};
ghost use Rattle.fwd_backlog.specs.Serial.{is_chunk_name, serial_number, greatest_serial, next_number};

use fwd_base::limits::NUMBERS_END;
use fwd_base::number;
use fwd_chunk::Found;

const ENDING: &[u8] = b".flb";

/// The number of digits of a serial.
const DIGITS: usize = 20;

/// Returns whether a name is that of a chunk file: it ends in `.flb`.
pub fn is_chunk_name(name: &[u8]) -> bool
    ensures { result ≡ is_chunk_name name.now }
{
    name.ends_with(ENDING)
}

/// Returns the number of a serial, a name of twenty digits and `.flb` whose number is below 2^63; 0 for
/// another name.
fn serial_number(name: &[u8]) -> u64
    ensures number { result ≡ serial_number name.now }
    ensures small { result < numbers_end }
{
    if name.len() < DIGITS {
        return 0;
    }
    if &name[DIGITS..] != ENDING {
        return 0;
    }
    match number(&name[..DIGITS]) {
        Some(number) if number < NUMBERS_END => number,
        _ => 0,
    }
}

/// Returns the greatest serial; 0 if there is none.
fn greatest_serial(found: &[Found]) -> u64
    ensures greatest { result ≡ greatest_serial found.now }
    ensures small { result < numbers_end }
{
    let mut greatest = 0u64;
    for file in found {
        greatest = greatest.max(serial_number(file.name.as_slice()));
    }
    greatest
}

/// Returns one more than the greatest serial and the number of files.
pub fn next_number(found: &[Found]) -> u64
    ensures next { result ≡ next_number found.now }
    ensures first { 1 ≤ result }
    ensures last { result ≤ numbers_end }
{
    1 + (found.len() as u64).max(greatest_serial(found))
}
