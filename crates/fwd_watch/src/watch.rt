//! The watcher of a run: what it notes, and what the run shows it.

use fwd_base::{ConnId, Names};
use fwd_config::{ConfigKind, Place, Sections};
use fwd_settings_schema::SettingKind;
use fwd_table::{Table, Tally};

/// What a run shows between two turns.
#[derive(Clone, Copy)]
pub struct Snapshot<'a> {
    pub tally: &'a Tally,
    pub table: &'a Table,
    /// The paused inputs: bit `i` is input `i`.
    pub paused: u64,
    /// The clock at the stop, if there was one.
    pub stopped: Option<u64>,
    /// How many reads for a flush found damaged content.
    pub damaged: u64,
    /// How many bytes the unfinished messages of all connections have together.
    pub unfinished: u64,
    /// The connection with the largest of them, among those whose input isn't paused.
    pub largest_unfinished: Option<ConnId>,
}

/// Watches how a run goes. What it does has no effect on the engine, and no contract speaks of it.
pub trait Watch {
    /// Notes that the program refuses a file of the configuration, at this place.
    fn note_refused_file(&mut self, kind: ConfigKind, place: &Place);

    /// Notes that the program refuses the settings of these sections, at this place.
    fn note_refused_settings(&mut self, sections: &Sections, kind: SettingKind, place: &Place);

    /// Notes that the program takes the settings of these sections.
    fn note_settings(&mut self, sections: &Sections);

    /// Notes that the engine has loaded the chunks on the disk, and is about to open the inputs. The names
    /// are those of the inputs and the outputs.
    fn note_start(&mut self, inputs: &Names, outputs: &Names, snapshot: Snapshot<'_>);

    /// Notes names in recovered chunk files that stand for no output, once, after `note_start`.
    fn note_strangers(&mut self, names: &Names);

    /// Notes that the engine has read the clock.
    fn note_clock(&mut self, snapshot: Snapshot<'_>);

    /// Notes that the run is over.
    fn note_end(&mut self, snapshot: Snapshot<'_>);
}

/// The watcher that does nothing.
#[derive(Clone, Copy, Debug)]
pub struct Unwatched;

impl Watch for Unwatched {
    fn note_refused_file(&mut self, _: ConfigKind, _: &Place) {}

    fn note_refused_settings(&mut self, _: &Sections, _: SettingKind, _: &Place) {}

    fn note_settings(&mut self, _: &Sections) {}

    fn note_start(&mut self, _: &Names, _: &Names, _: Snapshot<'_>) {}

    fn note_strangers(&mut self, _: &Names) {}

    fn note_clock(&mut self, _: Snapshot<'_>) {}

    fn note_end(&mut self, _: Snapshot<'_>) {}
}
