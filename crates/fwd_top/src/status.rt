//! How a run of the program ended.

ghost use Rattle.std.specs.Prelude.{◌≡◌, ◌++◌, IfOk, OnOk};
ghost use Rattle.fwd_top.specs.Status.{config_kind_name, setting_kind_name, refusal_name, schedule_kind_name, place_text, config_line, schedule_line, line_of, number_of};

use fwd_config::{ConfigKind, Place};
use fwd_outside::{Bytes, Memory};
use fwd_script::ScheduleKind;
use fwd_settings_schema::SettingKind;
use std::alloc::Global;

/// Why a configuration is refused: its text, as it is loaded, or its settings.
#[derive(Clone, Copy, Debug, PartialEq, Eq)]
pub enum ConfigRefusal {
    Load(ConfigKind),
    Setting(SettingKind),
}

/// How a run of the program ended.
#[derive(Debug, Drop, PartialEq, Eq)]
pub enum Status {
    /// The run is over and its text was written to its end.
    Done,
    /// The words aren't those of a command.
    Usage,
    /// The configuration is refused, at this place.
    ConfigRefused { kind: ConfigRefusal, place: Place },
    /// A file can't be read.
    FileFault,
    /// A call on the disk failed during loading.
    DiskFault,
    /// The schedule is refused, at this line.
    ScheduleRefused { kind: ScheduleKind, line: u64 },
    /// The text can't be written.
    OutFault,
    /// All turns are taken and the run isn't over. The text so far was written to its end.
    TurnsSpent,
    /// Memory ran out.
    Memory,
    /// The platform failed.
    LoopFault,
    /// A kept offset of a followed file can't be read.
    KeeperFault,
    /// The run was to be recorded, and can't be: an input follows files, or the storage folder has files.
    NotRecordable,
    /// The record of the run can't be written. The text was written to its end.
    RecordFault,
}

impl Status {
    /// Returns the exit status of the program.
    pub fn number(&self) -> u8
        ensures { result ≡ number_of self.now }
    {
        match self {
            Status::Done => 0,
            Status::Usage => 1,
            Status::ConfigRefused { .. } => 2,
            Status::FileFault => 3,
            Status::DiskFault => 4,
            Status::ScheduleRefused { .. } => 5,
            Status::OutFault => 6,
            Status::TurnsSpent => 7,
            Status::Memory => 8,
            Status::LoopFault => 9,
            Status::KeeperFault => 11,
            Status::NotRecordable => 12,
            Status::RecordFault => 13,
        }
    }
}

fn config_kind_name(kind: ConfigKind) -> &'static [u8]
    ensures { result.now ≡ config_kind_name kind }
{
    match kind {
        ConfigKind::EntryOutsideSection => b"EntryOutsideSection",
        ConfigKind::NoValue => b"NoValue",
        ConfigKind::BadSection => b"BadSection",
        ConfigKind::IncludeTooDeep => b"IncludeTooDeep",
        ConfigKind::BadSet => b"BadSet",
        ConfigKind::OpenBrace => b"OpenBrace",
        ConfigKind::NotUtf8 => b"NotUtf8",
        ConfigKind::FileFault => b"FileFault",
        ConfigKind::Memory => b"Memory",
    }
}

fn schedule_kind_name(kind: ScheduleKind) -> &'static [u8]
    ensures { result.now ≡ schedule_kind_name kind }
{
    match kind {
        ScheduleKind::UnknownWord => b"UnknownWord",
        ScheduleKind::BadNumber => b"BadNumber",
        ScheduleKind::BadHex => b"BadHex",
        ScheduleKind::BadOrder => b"BadOrder",
        ScheduleKind::Memory => b"Memory",
    }
}

fn setting_kind_name(kind: SettingKind) -> &'static [u8]
    ensures { result.now ≡ setting_kind_name kind }
{
    match kind {
        SettingKind::UnknownPlugin => b"UnknownPlugin",
        SettingKind::UnknownKey => b"UnknownKey",
        SettingKind::BadNumber => b"BadNumber",
        SettingKind::BadSize => b"BadSize",
        SettingKind::BadChoice => b"BadChoice",
        SettingKind::Missing => b"Missing",
        SettingKind::TooMany => b"TooMany",
        SettingKind::PatternRefused => b"PatternRefused",
        SettingKind::Memory => b"Memory",
        SettingKind::UnknownSection => b"UnknownSection",
    }
}

fn refusal_name(refusal: ConfigRefusal) -> &'static [u8]
    ensures { result.now ≡ refusal_name refusal }
{
    match refusal {
        ConfigRefusal::Load(kind) => config_kind_name(kind),
        ConfigRefusal::Setting(kind) => setting_kind_name(kind),
    }
}

fn push_place(text: &mut Bytes, place: &Place) -> Result<(), Memory>
    ensures { OnOk result (text.new ≡ text.old ++ place_text place.now) }
{
    text.extend_from_slice(place.file.as_slice())?;
    text.extend_from_slice(b":")?;
    text.push_decimal(place.line)?;
    Ok(())
}

fn push_config_refused(
    text: &mut Bytes,
    refusal: ConfigRefusal,
    place: &Place,
) -> Result<(), Memory>
    ensures { OnOk result (text.new ≡ text.old ++ config_line refusal place.now) }
{
    text.extend_from_slice(b"config refused: ")?;
    text.extend_from_slice(refusal_name(refusal))?;
    text.extend_from_slice(b" at ")?;
    push_place(text, place)?;
    Ok(())
}

fn push_schedule_refused(text: &mut Bytes, kind: ScheduleKind, line: u64) -> Result<(), Memory>
    ensures { OnOk result (text.new ≡ text.old ++ schedule_line kind line) }
{
    text.extend_from_slice(b"schedule refused: ")?;
    text.extend_from_slice(schedule_kind_name(kind))?;
    text.extend_from_slice(b" at line ")?;
    text.push_decimal(line)?;
    Ok(())
}

const USAGE: &[u8] =
    b"usage: fwd run -c FILE [-n TICKS] [--record FILE] | replay -c FILE -s FILE | list -p FOLDER \
      | gen -n COUNT";

/// Returns the line that says how the program ended, without a line feed. It is empty if all went well.
pub fn status_line(alloc: Global, status: &Status) -> Result<Bytes, Memory>
    ensures { IfOk result (λ line. line ≡ line_of status.now) }
{
    let mut text = Bytes::new(alloc);
    match status {
        Status::Done => {}
        Status::Usage => text.extend_from_slice(USAGE)?,
        Status::ConfigRefused { kind, place } => {
            push_config_refused(&mut text, *kind, place)?;
        }
        Status::FileFault => text.extend_from_slice(b"file fault")?,
        Status::DiskFault => text.extend_from_slice(b"disk fault")?,
        Status::ScheduleRefused { kind, line } => push_schedule_refused(&mut text, *kind, *line)?,
        Status::OutFault => text.extend_from_slice(b"output fault")?,
        Status::TurnsSpent => text.extend_from_slice(b"turns spent")?,
        Status::Memory => text.extend_from_slice(b"out of memory")?,
        Status::LoopFault => text.extend_from_slice(b"loop fault")?,
        Status::KeeperFault => text.extend_from_slice(b"keeper fault")?,
        Status::NotRecordable => text.extend_from_slice(b"not recordable")?,
        Status::RecordFault => text.extend_from_slice(b"record fault")?,
    }
    Ok(text)
}
