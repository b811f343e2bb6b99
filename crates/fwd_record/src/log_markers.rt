//! Markers for what the ghost logs of this crate's devices contain.

use std::marker::Model;

/// Represents what a recorder saw at one time. No value of it is made.
pub struct SeenRecord;

impl Model for SeenRecord {
    ghost use Rattle.fwd_record.specs.Seen.{Seen, Stopped};
    ghost use Rattle.fwd_record.specs.SeenCode.{seen_code};

    ghost Value = { Seen };

    ghost coded = { seen_code };

    ghost view = { λ _. Stopped };
}

/// Represents a loop at the time when a recorder was put around it. No value of it is made.
pub struct LoopStart;

impl Model for LoopStart {
    ghost use Rattle.fwd_record.specs.LoopBelowCode.{start_code};
    ghost use Rattle.fwd_record.specs.LoopBelow.{LoopBelow, no_loop};

    ghost Value = { LoopBelow };

    ghost coded = { start_code };

    ghost view = { λ _. no_loop };
}

/// Represents a disk call with its answer. No value of it is made.
pub struct DiskRecord;

impl Model for DiskRecord {
    ghost use Rattle.std.specs.Prelude.{[], None};
    ghost use Rattle.fwd_outside.specs.Program.{entry};
    ghost use Rattle.fwd_outside.specs.Disk.{DiskEntry, Sync};
    ghost use Rattle.fwd_outside.specs.DiskCode.{disk_code};

    ghost Value = { DiskEntry };

    ghost coded = { disk_code };

    ghost view = { λ _. entry (Sync []) None };
}

/// Represents a disk at the time when a counted disk was put around it. No value of it is made.
pub struct DiskStart;

impl Model for DiskStart {
    ghost use Rattle.std.specs.Prelude.{None};
    ghost use Rattle.fwd_outside.specs.Disk.{DiskLog};
    ghost use Rattle.fwd_record.specs.DiskBelowCode.{disk_log_code};

    ghost Value = { DiskLog };

    ghost coded = { disk_log_code };

    ghost view = { λ _. None };
}
