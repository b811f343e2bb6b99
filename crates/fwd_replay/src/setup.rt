//! What a live run is made with beside its devices.

ghost use Rattle.std.specs.Prelude.{◌≡◌, IfOk};
ghost use Rattle.fwd_settings.specs.Requirements.{MeetsRequirements};
ghost use Rattle.fwd_replay.specs.LiveRun.{IsSetup};

use crate::names::Named;
use crate::report::Shown;
use fwd_base::Memory;
use fwd_engine_run::KeptOffsets;
use fwd_outside::Ends;
use fwd_settings::{AllSettings, ends};
use std::alloc::Global;

/// What a live run is made with beside its devices and its settings: names for its text, the endpoints of its
/// loop, the offsets that it keeps, and how long it may go on.
#[derive(Drop)]
pub struct Setup {
    pub named: Named,
    pub ends: Ends,
    pub offsets: KeptOffsets,
    /// The number of clock ticks after which it is stopped, if there is one.
    pub ticks: Option<u64>,
    /// The most events that it takes.
    pub most: u64,
}

impl Setup {
    /// Takes from settings what their run is made with.
    pub fn of(
        alloc: Global,
        settings: &AllSettings,
        ticks: Option<u64>,
        most: u64,
    ) -> Result<Setup, Memory>
        requires { MeetsRequirements settings.now }
        ensures setup { IfOk result (IsSetup settings.now) }
        ensures ticks { IfOk result (λ setup. setup.ticks ≡ ticks) }
        ensures most { IfOk result (λ setup. setup.most ≡ most) }
    {
        Ok(Setup {
            named: Named::of(alloc, settings, Shown::Report)?,
            ends: ends(alloc, settings)?,
            offsets: KeptOffsets::of(alloc, settings)?,
            ticks,
            most,
        })
    }
}
