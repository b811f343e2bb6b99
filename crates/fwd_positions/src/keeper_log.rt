//! The call log of a keeper.

use fwd_outside::Calls;
use std::marker::Model;

/// Stands for the offsets that a keeper had at first. No value of it is made.
pub struct LoggedOffsets;

impl Model for LoggedOffsets {
    ghost use Rattle.fwd_keeper.specs.Keeper.{KeeperGiven};
    ghost use Rattle.fwd_positions.specs.KeeperCode.{offsets_code};
    ghost use Rattle.std.specs.Prelude.{[]};

    ghost Value = { KeeperGiven };

    ghost coded = { offsets_code };

    ghost view = { λ _. [] };
}

/// Stands for a call on a keeper with its answer. No value of it is made.
pub struct LoggedCall;

impl Model for LoggedCall {
    ghost use Rattle.fwd_outside.specs.Program.{entry};
    ghost use Rattle.fwd_keeper.specs.Keeper.{KeeperEntry, Get};
    ghost use Rattle.fwd_positions.specs.KeeperCode.{call_code};
    ghost use Rattle.std.specs.Prelude.{[], None};

    ghost Value = { KeeperEntry };

    ghost coded = { call_code };

    ghost view = { λ _. entry (Get [] []) None };
}

/// The call log of a keeper.
pub type KeeperCalls = Calls<LoggedOffsets, LoggedCall>;
