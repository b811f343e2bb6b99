//! Which outputs a dispatch dials.

ghost use Rattle.std.specs.Prelude.{List};
ghost use Rattle.fwd_outside.specs.Program.{Return, Execution};
ghost use Rattle.fwd_settings.specs.declared.settings_types.AllSettings.{AllSettings};
ghost use Rattle.fwd_model.specs.Fact.{History};
ghost use Rattle.fwd_model.specs.Trace.{TraceEntry};
ghost use Rattle.fwd_model.specs.FlushActions.{walk};
ghost use Rattle.fwd_model.specs.Dispatch.{due_routes};
ghost use Rattle.fwd_theorem_trace.specs.Dispatch.{IsDispatched};

/// A dispatch gives one turn to each route that was due when it began, in their order. A route that may
/// not start is skipped. For any other, one flush begins and its output is dialled once, with the tag of
/// its chunk, unless the read of its chunk's file failed or gave something other than whole events.
pub fn dispatch_dials_started()
    ensures { (s : AllSettings) (h new : History) (entries : List TraceEntry)
        → Execution (walk s h) entries (Return new) → IsDispatched s (due_routes s h) h entries new }
{}
