//! Markers for what the call logs of a keyed loop contain.

use std::marker::Model;

/// Represents a loop call with its answer. No value of it is made.
pub struct LoopRecord;

impl Model for LoopRecord {
    ghost use Rattle.fwd_outside.specs.Program.{entry};
    ghost use Rattle.fwd_outside.specs.Loop.{LoopEntry, Word};
    ghost use Rattle.fwd_outside.specs.LoopCode.{loop_code};

    ghost Value = { LoopEntry };

    ghost coded = { loop_code };

    ghost view = { λ _. entry Word 0 };
}

/// Represents a loop at the time when another was put around it. No value of it is made.
pub struct LoopStart;

impl Model for LoopStart {
    ghost use Rattle.fwd_secure.specs.LoopCode.{start_code};
    ghost use Rattle.fwd_secure.specs.LoopBelow.{LoopBelow, no_loop};

    ghost Value = { LoopBelow };

    ghost coded = { start_code };

    ghost view = { λ _. no_loop };
}
