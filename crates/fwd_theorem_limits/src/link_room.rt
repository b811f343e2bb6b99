//! What a flush does when its link has room.

ghost use Rattle.std.specs.Prelude.{◌≡◌, List, ◌∷◌, drop};
ghost use Rattle.fwd_base.specs.declared.ids.LinkId.{LinkId};
ghost use Rattle.fwd_outside.specs.Program.{entry, Return, Execution};
ghost use Rattle.fwd_outside.specs.Loop.{PushAnswer, Push};
ghost use Rattle.fwd_outside.specs.declared.happening.Happening.TheVariants.{Room};
ghost use Rattle.fwd_flush.specs.FlushProgram.{Progress};
ghost use Rattle.fwd_settings.specs.declared.settings_types.AllSettings.{AllSettings};
ghost use Rattle.fwd_model.specs.Fact.{History, Route, Happened};
ghost use Rattle.fwd_model.specs.Trace.{TraceEntry, OnLoop, Note};
ghost use Rattle.fwd_model.specs.Payloads.{delivery};
ghost use Rattle.fwd_model.specs.StepActions.{step};
ghost use Rattle.fwd_theorem_limits.specs.Room.{IsWriting, HasRest};

/// If a link has room again, the flush that writes on it pushes all that is left of its payload, before
/// anything else.
pub fn room_pushes_the_rest()
    ensures { (s : AllSettings) (h new : History) (r : Route) (link : LinkId) (progress : Progress) (entries : List TraceEntry)
        → IsWriting h r link progress → HasRest s h r progress → Execution (step s (Room link) h) entries (Return new)
        → (taken : PushAnswer) × (more : List TraceEntry)
        × (entries ≡ entry (Note (Happened (Room link))) tt ∷ entry (OnLoop (Push link.0 (drop progress.taken (delivery s h r).payload))) taken ∷ more) }
{}
