//! How a run or a replay ended, and its text.

ghost use Rattle.std.specs.Prelude.{◌≡◌, IfOk};
ghost use Rattle.fwd_settings.specs.declared.settings_types.AllSettings.{AllSettings};
ghost use Rattle.fwd_model.specs.Fact.{History};
ghost use Rattle.fwd_engine_run.specs.EngineSteps.{IsAt};
ghost use Rattle.fwd_replay.specs.Names.{IsNamed, IsNamedOf};
ghost use Rattle.fwd_replay.specs.Text.{report};

use crate::names::Named;
use fwd_base::{Bytes, Memory};
use fwd_engine_run::Engine;
use fwd_report::report;
use std::alloc::Global;

/// How a run or a replay ended.
#[derive(Clone, Copy, Debug, PartialEq, Eq)]
pub enum Ending {
    /// Everything is done.
    Over,
    /// All turns are taken.
    TurnsSpent,
    /// A call on the disk failed while a run began.
    DiskFailed,
    /// An offset couldn't be got from the keeper when a run began.
    KeeperFailed,
    /// The platform failed.
    LoopFailed,
    /// Memory ran out.
    Memory,
}

/// What is written of a run.
#[derive(Clone, Copy, Debug, PartialEq, Eq)]
pub enum Shown {
    /// The bytes that its standard outputs took, and its report.
    All,
    /// Its report alone.
    Report,
}

/// The text of a run or of the runs of a replay, and how it ended. A run that ended because the disk, the
/// keeper, the loop or an allocation failed has no text.
#[derive(Debug, Drop, PartialEq, Eq)]
pub struct Reported {
    pub text: Bytes,
    pub ending: Ending,
}

/// Returns the report of an engine.
pub fn report_text(alloc: Global, named: &Named, engine: &Engine) -> Result<Bytes, Memory>
    requires { IsNamedOf named.now engine.now }
    ensures { (s : AllSettings) (h : History) → IsAt engine.now s h → IsNamed named.now s → IfOk result (λ text. text ≡ report s h) }
{
    report(
        alloc,
        &named.inputs,
        &named.outputs,
        engine.table(),
        engine.tally(),
    )
}
