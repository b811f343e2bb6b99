//! Days and times of day as seconds since 1970.

ghost use Rattle.std.specs.Prelude.{◌≡◌, ◌+◌, ◌*◌, ◌<◌, ◌≤◌, pos, ◌+ℤ◌, ◌-ℤ◌, ◌*ℤ◌, IfSome};
ghost use Rattle.jiff.specs.Words.{IsEpochDay};
ghost use Rattle.fwd_parser.specs.Time.{day_number, day_of, clock_seconds, clock_of, civil_seconds, seconds_of};

use crate::directives::Fields;
use jiff::civil::Date;

/// Returns the days from 1970-01-01 to a day, if the calendar has it.
#[tactic(auto, unfolding(crate::specs::Time::day_number))]
fn day_number(year: u32, month: u32, day: u32) -> Option<i32>
    ensures value { result ≡ day_number year month day }
    ensures bound { IfSome result IsEpochDay }
{
    if year > 9999 || month > 12 || day > 31 {
        return None;
    }
    match Date::new(year as i16, month as i8, day as i8) {
        Ok(date) => Some(date.to_plain().to_unix_epoch_day()),
        Err(_) => None,
    }
}

/// Returns the day that was read.
fn day(fields: &Fields) -> Option<i32>
    ensures value { result ≡ day_of fields.now }
    ensures bound { IfSome result IsEpochDay }
{
    day_number(fields.year?, fields.month?, fields.day?)
}

/// Returns the seconds of a time of day.
fn clock_seconds(hour: u32, minute: u32, second: u32) -> Option<u32>
    ensures value { result ≡ clock_seconds hour minute second }
    ensures bound { IfSome result (λ n. n < 86400) }
{
    if hour > 23 || minute > 59 || second > 59 {
        return None;
    }
    Some(3600 * hour + 60 * minute + second)
}

/// Returns the time of day that was read.
fn clock(fields: &Fields) -> Option<u32>
    ensures value { result ≡ clock_of fields.now }
    ensures bound { IfSome result (λ n. n < 86400) }
{
    clock_seconds(
        fields.hour.unwrap_or(0),
        fields.minute.unwrap_or(0),
        fields.second.unwrap_or(0),
    )
}

/// Returns the seconds of the day and the time of day that were read.
fn civil_seconds(fields: &Fields) -> Option<i64>
    ensures { result ≡ civil_seconds fields.now }
{
    let day = day(fields)?;
    let clock = clock(fields)?;
    Some(since_1970(day, clock, fields.offset.unwrap_or(0)))
}

/// Returns the seconds since 1970 in UTC of a time on a day, at an offset.
fn since_1970(day: i32, clock: u32, offset: i32) -> i64
    requires day { IsEpochDay day }
    requires clock { clock < 86400 }
    ensures { result ≡ pos 86400 *ℤ day +ℤ pos clock -ℤ offset }
{
    86400 * day as i64 + clock as i64 - offset as i64
}

/// Returns the seconds since 1970 in UTC that the fields give.
#[tactic(auto, unfolding(crate::specs::Time::seconds_of))]
pub fn seconds_of(fields: &Fields) -> Option<i64>
    ensures { result ≡ seconds_of fields.now }
{
    match fields.stamp {
        Some(stamp) => Some(stamp),
        None => civil_seconds(fields),
    }
}
