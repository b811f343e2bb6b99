//! The trace of the engine and that of the devices.

ghost use Rattle.std.specs.Prelude.{◌≡◌, false, List};
ghost use Rattle.fwd_model.specs.Trace.{TraceEntry, loop_part};
ghost use Rattle.fwd_secure.specs.declared.keys.Keys.{Keys};
ghost use Rattle.fwd_secure.specs.Carried.{Carries};
ghost use Rattle.fwd_secure.specs.Handshakes.{Handshakes};
ghost use Rattle.fwd_secure.specs.Keys.{has_keys};
ghost use Rattle.fwd_secure_trace.specs.Secured.{IsSecured};

/// Without keys the devices are asked what the engine asks.
pub fn without_keys_both_traces_are_one()
    ensures { (keys : Keys) (k t : Handshakes) (above below : List TraceEntry) → has_keys keys ≡ false → IsSecured keys k above below t → below ≡ above }
{}

/// The engine's calls on the loop are answered from the calls on the devices, by the rules of the keyed loop.
/// So the theorems on shared keys hold of each run.
pub fn secured_calls_are_carried()
    ensures { (keys : Keys) (k t : Handshakes) (above below : List TraceEntry) → IsSecured keys k above below t
        → Carries keys k (loop_part below) (loop_part above) t }
{}
