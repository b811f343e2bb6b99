//! Runs over a keyed loop whose links have other numbers.

ghost use Rattle.std.specs.Prelude.{ℕ, List};
ghost use Rattle.fwd_model.specs.Trace.{TraceEntry, loop_part};
ghost use Rattle.fwd_secure.specs.declared.keys.Keys.{Keys};
ghost use Rattle.fwd_secure.specs.Handshakes.{Handshakes, no_handshakes};
ghost use Rattle.fwd_secure_trace.specs.Secured.{IsSecured};
ghost use Rattle.fwd_theorem_links.specs.DialedLinks.{IsAmong, KeepsApart, dialed_links};
ghost use Rattle.fwd_theorem_recorded.specs.RenamedHandshakes.{IsSecuredRenamed};

/// A keyed loop doesn't depend on the numbers of links. If each link that a dial of the devices returned gets
/// a number that no other link gets, the devices' calls with these numbers are those that the loop makes for
/// the engine's calls with these numbers, and its state is the same but for the numbers.
pub fn keyed_loops_keep_renamed_traces()
    ensures { (rename : ℕ → ℕ) (keys : Keys) (above below : List TraceEntry) (t : Handshakes)
        → IsSecured keys no_handshakes above below t → KeepsApart rename (IsAmong (dialed_links (loop_part below))) → IsSecuredRenamed rename keys above below t }
{}
