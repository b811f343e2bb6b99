//! Theorems on the messages of the handshake. Each is the contract of a function that does nothing.

ghost use Rattle.std.specs.Prelude.{◌≡◌, ◌↔◌, ℕ, ◌<◌, ◌≤◌, ◌^◌, List, ◌++◌, length};
ghost use Rattle.fwd_value.specs.Val.{Val, list, no_vals, val};
ghost use Rattle.fwd_msgpack.specs.DecodeAnswers.{EncodesPrefix, IsProperPrefix};
ghost use Rattle.fwd_handshake.specs.declared.ring.Ring.{Ring};
ghost use Rattle.fwd_handshake.specs.declared.received.Greeted.TheVariants as greeted;
ghost use Rattle.fwd_handshake.specs.declared.received.Received.TheVariants as received;
ghost use Rattle.fwd_handshake.specs.Judgement.{longest_greeting, helo_received, ping_received, pong_received, helo_judged, ping_judged, pong_judged};
ghost use Rattle.fwd_handshake.specs.Messages.{helo, ping, pong};
ghost use Rattle.fwd_handshake.specs.Right.{IsBytes, IsHelo, IsPing, IsPong};

/// A stream begins with a right HELO exactly if its first value is one, and so long is that value.
pub fn right_is_a_helo()
    ensures content { (nonce stream : List ℕ) (len : ℕ) →
        (helo_received stream ≡ received.Right len nonce)
        ↔ ((v : Val) × EncodesPrefix v len stream × IsHelo nonce v) }
    ensures judged { (stream : List ℕ) (len : ℕ) →
        (helo_judged stream ≡ greeted.Right len)
        ↔ ((nonce : List ℕ) × (helo_received stream ≡ received.Right len nonce)) }
{}

/// A stream begins with a right PING exactly if its first value is one, and so long is that value.
pub fn right_is_a_ping()
    ensures content { (ring : Ring) (nonce salt stream : List ℕ) (len : ℕ) →
        (ping_received ring nonce stream ≡ received.Right len salt)
        ↔ ((v : Val) × EncodesPrefix v len stream × IsPing ring nonce salt v) }
    ensures judged { (ring : Ring) (nonce stream : List ℕ) (len : ℕ) →
        (ping_judged ring nonce stream ≡ greeted.Right len)
        ↔ ((salt : List ℕ) × (ping_received ring nonce stream ≡ received.Right len salt)) }
{}

/// A stream begins with a right PONG exactly if its first value is one, and so long is that value.
pub fn right_is_a_pong()
    ensures content { (ring : Ring) (salt nonce host stream : List ℕ) (len : ℕ) →
        (pong_received ring salt nonce stream ≡ received.Right len host)
        ↔ ((v : Val) × EncodesPrefix v len stream × IsPong ring salt nonce host v) }
    ensures judged { (ring : Ring) (salt nonce stream : List ℕ) (len : ℕ) →
        (pong_judged ring salt nonce stream ≡ greeted.Right len)
        ↔ ((host : List ℕ) × (pong_received ring salt nonce stream ≡ received.Right len host)) }
{}

/// More is wanted exactly if a stream of at most 4,096 bytes is a proper prefix of a value.
pub fn more_is_a_beginning()
    ensures helo { (stream : List ℕ) →
        (helo_judged stream ≡ greeted.More) ↔ (IsProperPrefix stream × (length stream ≤ longest_greeting)) }
    ensures ping { (ring : Ring) (nonce stream : List ℕ) →
        (ping_judged ring nonce stream ≡ greeted.More)
        ↔ (IsProperPrefix stream × (length stream ≤ longest_greeting)) }
    ensures pong { (ring : Ring) (salt nonce stream : List ℕ) →
        (pong_judged ring salt nonce stream ≡ greeted.More)
        ↔ (IsProperPrefix stream × (length stream ≤ longest_greeting)) }
{}

/// A HELO is right to a client, whatever comes after it.
pub fn a_helo_is_right()
    ensures { (nonce more : List ℕ) → length nonce < 2 ^ 32 →
        helo_received (helo nonce ++ more) ≡ received.Right (length (helo nonce)) nonce }
{}

/// The PING of a client is right to a server with the same key, whatever comes after it.
pub fn a_ping_is_right()
    ensures { (ring client : Ring) (salt nonce more : List ℕ) →
        client.key ≡ ring.key → length client.host < 2 ^ 32 → length salt < 2 ^ 32 →
        ping_received ring nonce (ping client salt nonce ++ more)
        ≡ received.Right (length (ping client salt nonce)) salt }
{}

/// The PONG of a server is right to a client with the same key and another host, whatever comes after it.
pub fn a_pong_is_right()
    ensures { (ring server : Ring) (salt nonce more : List ℕ) →
        server.key ≡ ring.key → (server.host ≡ ring.host → ⊥) → length server.host < 2 ^ 32 →
        pong_received ring salt nonce (pong server salt nonce ++ more)
        ≡ received.Right (length (pong server salt nonce)) server.host }
{}

/// A client refuses a PONG that names its own host.
pub fn own_host_is_refused()
    ensures { (ring : Ring) (salt nonce stream : List ℕ) (len : ℕ) (word accepted reason host digest : Val) →
        EncodesPrefix (list (val word (val accepted (val reason (val host (val digest no_vals)))))) len stream
        → IsBytes ring.host host → pong_judged ring salt nonce stream ≡ greeted.Wrong }
{}

/// If a stream wants more, and is right with a further piece, then the message ends in that piece.
pub fn right_is_new()
    ensures helo { (stream piece : List ℕ) (len : ℕ) →
        helo_judged stream ≡ greeted.More → helo_judged (stream ++ piece) ≡ greeted.Right len →
        length stream < len }
    ensures ping { (ring : Ring) (nonce stream piece : List ℕ) (len : ℕ) →
        ping_judged ring nonce stream ≡ greeted.More →
        ping_judged ring nonce (stream ++ piece) ≡ greeted.Right len →
        length stream < len }
    ensures pong { (ring : Ring) (salt nonce stream piece : List ℕ) (len : ℕ) →
        pong_judged ring salt nonce stream ≡ greeted.More →
        pong_judged ring salt nonce (stream ++ piece) ≡ greeted.Right len →
        length stream < len }
{}
