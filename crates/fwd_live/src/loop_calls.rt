//! The call log of a loop.

use fwd_outside::Calls;
use std::marker::Model;

/// Represents the events and answers that a loop will give. No value of it is made.
pub struct LoopScript;

impl Model for LoopScript {
    ghost use Rattle.fwd_outside.specs.Loop.{LoopGiven};
    ghost use Rattle.fwd_outside.specs.LoopCode.{brought_code};
    ghost use base.Stored.{gnil};
    ghost use Rattle.std.specs.Prelude.{[]};

    ghost Value = { LoopGiven };

    ghost coded = { brought_code };

    ghost view = { λ _. record {
      happenings = [];
      places = [];
      dials = [];
      pushes = [];
      replies = [];
      words = [];
      round = gnil;
    } };
}

/// Represents a loop call with its answer. No value of it is made.
pub struct LoopRecord;

impl Model for LoopRecord {
    ghost use Rattle.fwd_outside.specs.Program.{entry};
    ghost use Rattle.fwd_outside.specs.Loop.{LoopEntry, Word};
    ghost use Rattle.fwd_outside.specs.LoopCode.{loop_code};

    ghost Value = { LoopEntry };

    ghost coded = { loop_code };

    ghost view = { λ _. entry Word 0 };
}

/// The call log of a loop.
pub type LoopCalls = Calls<LoopScript, LoopRecord>;
