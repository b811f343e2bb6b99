//! Connections of keyed inputs.

ghost use Rattle.std.specs.Prelude.{◌≡◌, ℕ, false, List, [], ◌∷◌, ◌++◌, Some};
ghost use Rattle.fwd_base.specs.declared.ids.InputId.{InputId};
ghost use Rattle.fwd_base.specs.declared.ids.ConnId.{ConnId};
ghost use Rattle.fwd_outside.specs.Program.{entry};
ghost use Rattle.fwd_outside.specs.Loop.{LoopEntry, Wait, DropConn};
ghost use Rattle.fwd_outside.specs.declared.happening.Happening.{Happening};
ghost use Rattle.fwd_handshake.specs.declared.ring.Ring.{Ring};
ghost use Rattle.fwd_handshake.specs.declared.received.Received.TheVariants.{Right};
ghost use Rattle.fwd_handshake.specs.Judgement.{ping_received};
ghost use Rattle.fwd_secure.specs.declared.keys.Keys.{Keys};
ghost use Rattle.fwd_secure.specs.declared.handshakes.RandomBytes.{RandomBytes};
ghost use Rattle.fwd_secure.specs.RandomBytes.{random_bytes};
ghost use Rattle.fwd_secure.specs.Keys.{ring_at};
ghost use Rattle.fwd_secure.specs.Handshakes.{Handshakes, no_handshakes, held_at};
ghost use Rattle.fwd_secure.specs.Carried.{Carries};
ghost use Rattle.fwd_secure.specs.Allowed.{AllMayOccur};
ghost use Rattle.fwd_theorem_keys.specs.Traffic.{said_by, has_ended, was_dropped};
ghost use Rattle.fwd_theorem_keys.specs.Streams.{Gives, BeganRightly, GotConn};
ghost use Rattle.fwd_theorem_keys.specs.Drops.{WhyDropped};

/// A keyed input gives the engine a connection, or bytes of it, only if the connection's stream began
/// rightly: with a PING that shows the key, in answer to the HELO that it got when it connected. All bytes
/// that the engine was given of the connection since are a prefix of those after the PING. No wait of the
/// loop below brings an event of an input that it pauses.
pub fn keyed_streams_begin_rightly()
    ensures { (keys : Keys) (ring : Ring) (input : InputId) (conn : ConnId) (below above : List LoopEntry)
        (until paused : ℕ) (x : Happening) (k : Handshakes)
        → Carries keys no_handshakes below (above ++ entry (Wait until paused) x ∷ []) k
        → AllMayOccur below → ring_at keys.inputs input.0 ≡ Some ring → Gives input conn x
        → BeganRightly keys ring input conn below (above ++ entry (Wait until paused) x ∷ []) }
{}

/// The loop below is asked to drop a connection only if the engine dropped it, a message to it broke, or the
/// bytes that a keyed input got since its HELO are wrong.
pub fn only_wrong_is_dropped()
    ensures { (keys : Keys) (conn : ConnId) (front rest above : List LoopEntry) (k : Handshakes)
        → Carries keys no_handshakes (front ++ entry (DropConn conn.0) tt ∷ rest) above k
        → WhyDropped keys conn front above }
{}

/// A connection that got a HELO, and that neither its peer nor a call has ended since, is given to the engine
/// once its stream begins with a right PING. If the reply with the PONG breaks, a call ends it.
pub fn rightly_begun_is_joined()
    ensures { (keys : Keys) (ring : Ring) (input : InputId) (conn : ConnId) (nonce : RandomBytes)
        (at k : Handshakes) (since above_since : List LoopEntry) (len : ℕ) (salt : List ℕ)
        → ring_at keys.inputs input.0 ≡ Some ring
        → held_at at conn.0 ≡ Some (record { input = input; nonce = nonce; received = [] })
        → Carries keys at since above_since k
        → has_ended input conn since ≡ false → was_dropped conn since ≡ false
        → ping_received ring (random_bytes nonce) (said_by input conn since) ≡ Right len salt
        → GotConn input conn above_since }
{}
