//! Signals that ask the program to stop. A signal that the process blocks stays pending, and the system says
//! which ones are. A signal that isn't blocked ends the program at once.

use std::fs;

/// The mask of SIGINT and SIGTERM.
const STOP_SIGNALS: u64 = 0x4002;

/// Returns the mask of the signals that are pending for the whole process, of the text of
/// `/proc/self/status`; `None` if it has no line with one.
fn pending_in(status: &str) -> Option<u64> {
    for line in status.lines() {
        if let Some(mask) = line.strip_prefix("ShdPnd:") {
            return u64::from_str_radix(mask.trim(), 16).ok();
        }
    }
    None
}

/// Returns whether SIGINT or SIGTERM is pending; false if the system doesn't say.
pub fn is_stop_pending(rt: &HostRuntime) -> bool {
    match fs::read_to_string(rt, "/proc/self/status") {
        Ok(status) => match pending_in(&status) {
            Some(mask) => mask & STOP_SIGNALS != 0,
            None => false,
        },
        Err(_) => false,
    }
}
