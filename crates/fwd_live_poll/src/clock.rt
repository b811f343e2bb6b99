//! A clock that never goes back.

ghost use Rattle.std.specs.Prelude.{◌≡◌, ◌≤◌, IfOk};

use fwd_system::millis_of;
use std::io::{self, ErrorKind};
use std::time::{Instant, SystemTime, UNIX_EPOCH};

/// The system clock, made monotonic: if the system's time is set back, this clock goes on from its last
/// reading. If it stood still instead, no tick would come, and nothing would be sent.
#[derive(Drop)]
pub struct Clock {
    /// The last reading of the system clock that wasn't set back, and when that was.
    sure: u64,
    since: Instant,
    /// The last reading.
    last: u64,
    /// The monotonic time of creation, and the milliseconds from then to the last query.
    begun: Instant,
    uptime: u64,
}

/// Returns the system time in milliseconds.
fn read_machine(rt: &HostRuntime) -> io::Result<u64> {
    match SystemTime::now(rt)?.duration_since(UNIX_EPOCH) {
        Ok(time) => Ok(millis_of(time)),
        Err(_) => Err(io::Error::from(ErrorKind::InvalidData)),
    }
}

impl Clock {
    pub fn new(rt: &HostRuntime) -> io::Result<Clock> {
        let begun = Instant::now(rt)?;
        Ok(Clock {
            sure: 0,
            since: begun,
            last: 0,
            begun,
            uptime: 0,
        })
    }

    /// Returns the milliseconds since creation, by the monotonic clock. If that can't be read, returns the
    /// last value.
    pub fn uptime(&mut self, rt: &HostRuntime) -> u64
        ensures rises { self.old.uptime ≤ result }
        ensures kept { self.new.uptime ≡ result }
        ensures last { self.new.last ≡ self.old.last }
        ensures sure { self.new.sure ≡ self.old.sure }
    {
        if let Ok(instant) = Instant::now(rt) {
            let uptime = millis_of(instant.duration_since(self.begun));
            self.uptime = self.uptime.max(uptime);
        }
        self.uptime
    }

    /// Returns the time in milliseconds.
    pub fn read(&mut self, rt: &HostRuntime) -> io::Result<u64>
        ensures rises { IfOk result (λ now. self.old.last ≤ now) }
        ensures kept { IfOk result (λ now. self.new.last ≡ now) }
        ensures uptime { self.new.uptime ≡ self.old.uptime }
    {
        let reading = read_machine(rt)?;
        let instant = Instant::now(rt)?;
        let advance = millis_of(instant.duration_since(self.since));
        let steady = self.sure.saturating_add(advance);
        if steady <= reading {
            self.sure = reading;
            self.since = instant;
        }
        self.last = self.last.max(reading.max(steady));
        Ok(self.last)
    }
}
