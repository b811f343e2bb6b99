//! Theorems about encodings. Each is the contract of a function that does nothing.

ghost use Rattle.std.specs.Prelude.{◌≡◌, ℕ, List, [], ◌++◌, ◌≤◌, length};
ghost use Rattle.fwd_base.specs.Limits.{deepest};
ghost use Rattle.fwd_value.specs.Val.{Val};
ghost use Rattle.fwd_value.specs.Limits.{nesting, IsInRange, LengthsFit};
ghost use Rattle.fwd_msgpack.specs.Encodings.{Encodes, AllBytes};
ghost use Rattle.fwd_msgpack.specs.Canonical.{canonical};
ghost use Rattle.fwd_msgpack.specs.DecodeAnswers.{EncodesPrefix};

/// No encoding is a proper prefix of another, and none encodes two values.
pub fn encodings_are_prefix_free()
    ensures { (v w : Val) (a b x y : List ℕ) → Encodes v a → Encodes w b → a ++ x ≡ b ++ y →
        (v ≡ w) × (a ≡ b) }
{}

/// The canonical encoding of a value is one of its encodings.
pub fn canonical_is_encoding()
    ensures { (v : Val) → IsInRange v → LengthsFit v → Encodes v (canonical v) }
{}

/// The canonical encoding decodes to its value and length, whatever bytes follow.
pub fn canonical_decodes()
    ensures { (v : Val) (rest : List ℕ) → IsInRange v → LengthsFit v → nesting v ≤ deepest →
        EncodesPrefix v (length (canonical v)) (canonical v ++ rest) }
{}

/// No encoding of a value is shorter than the canonical one.
pub fn canonical_is_shortest()
    ensures { (v : Val) (b : List ℕ) → AllBytes b → Encodes v b → length (canonical v) ≤ length b }
{}
