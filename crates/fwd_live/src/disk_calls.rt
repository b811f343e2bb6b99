//! The call log of a disk.

use fwd_outside::Calls;
use std::marker::Model;

/// Represents the initial files of a disk. No value of it is made.
pub struct DiskStart;

impl Model for DiskStart {
    ghost use Rattle.fwd_outside.specs.Disk.{DiskGiven};
    ghost use Rattle.fwd_outside.specs.DiskCode.{stood_code};
    ghost use base.Stored.{gnil};
    ghost use Rattle.std.specs.Prelude.{[]};

    ghost Value = { DiskGiven };

    ghost coded = { stood_code };

    ghost view = { λ _. record { files = []; round = gnil } };
}

/// Represents a disk call with its answer. No value of it is made.
pub struct DiskRecord;

impl Model for DiskRecord {
    ghost use Rattle.fwd_outside.specs.Program.{entry};
    ghost use Rattle.fwd_outside.specs.Disk.{DiskEntry, FailAt};
    ghost use Rattle.fwd_outside.specs.DiskCode.{disk_code};

    ghost Value = { DiskEntry };

    ghost coded = { disk_code };

    ghost view = { λ _. entry (FailAt 0) tt };
}

/// The call log of a disk.
pub type DiskCalls = Calls<DiskStart, DiskRecord>;
