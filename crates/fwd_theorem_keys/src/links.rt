//! Links of keyed outputs.

ghost use Rattle.std.specs.Prelude.{◌≡◌, ℕ, false, List, [], ◌∷◌, ◌++◌, Some};
ghost use Rattle.fwd_outside.specs.Program.{entry};
ghost use Rattle.fwd_outside.specs.Loop.{LoopEntry, Dial, Push, Again};
ghost use Rattle.fwd_outside.specs.NewLinks.{AreNewLinks};
ghost use Rattle.fwd_handshake.specs.declared.ring.Ring.{Ring};
ghost use Rattle.fwd_secure.specs.declared.keys.Keys.{Keys};
ghost use Rattle.fwd_secure.specs.RandomBytes.{random_bytes};
ghost use Rattle.fwd_secure.specs.Keys.{ring_at};
ghost use Rattle.fwd_secure.specs.Handshakes.{Handshakes, no_handshakes};
ghost use Rattle.fwd_secure.specs.Carried.{Carries};
ghost use Rattle.fwd_theorem_keys.specs.Traffic.{was_closed};
ghost use Rattle.fwd_theorem_keys.specs.Links.{GreetsFirst, WhyAgain, PongIsRight, HasRoom};

/// Each link of a keyed output first takes a PING, in answer to a right HELO. It takes bytes of the engine
/// only after a right PONG, and exactly those that the engine's pushes handed over. The engine hasn't closed
/// it.
pub fn keyed_links_greet_first()
    ensures { (keys : Keys) (ring : Ring) (output : ℕ) (tag : List ℕ) (link : ℕ)
        (below before since : List LoopEntry) (k : Handshakes)
        → Carries keys no_handshakes below (before ++ entry (Dial output tag) (Some link) ∷ since) k
        → AreNewLinks 0 below → ring_at keys.outputs output ≡ Some ring → was_closed link since ≡ false
        → GreetsFirst keys ring output tag link below before since }
{}

/// A push on a link of a keyed output returns `Again` only if the same push on the loop below did, or if the
/// link's PONG isn't right yet.
pub fn again_before_the_pong()
    ensures { (keys : Keys) (ring : Ring) (output : ℕ) (tag : List ℕ) (link : ℕ) (bytes : List ℕ)
        (below before since : List LoopEntry) (k : Handshakes)
        → Carries keys no_handshakes below
        (before ++ entry (Dial output tag) (Some link) ∷ (since ++ entry (Push link bytes) Again ∷ [])) k
        → AreNewLinks 0 below → ring_at keys.outputs output ≡ Some ring → was_closed link since ≡ false
        → WhyAgain keys ring output tag link bytes below before
        (since ++ entry (Push link bytes) Again ∷ []) }
{}

/// Once a link of a keyed output has taken the whole PING and a right PONG has come, a wait has given the
/// engine room on it, when the PONG was right.
pub fn right_pong_has_room()
    ensures { (keys : Keys) (ring : Ring) (output : ℕ) (tag : List ℕ) (link : ℕ)
        (below before since : List LoopEntry) (k : Handshakes)
        → Carries keys no_handshakes below (before ++ entry (Dial output tag) (Some link) ∷ since) k
        → AreNewLinks 0 below → ring_at keys.outputs output ≡ Some ring → was_closed link since ≡ false
        → (greets : GreetsFirst keys ring output tag link below before since)
        × (PongIsRight ring (random_bytes greets.salt) link greets.below_since
        → HasRoom keys ring (random_bytes greets.salt) link greets.at greets.below_since since) }
{}
