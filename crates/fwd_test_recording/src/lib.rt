//! Tests of recorded runs: the program runs over devices in memory, whose loop plays a schedule.
#![tactic(auto)]

#[cfg(test)]
mod round_trips;
#[cfg(test)]
mod runs;
#[cfg(test)]
mod stage;
