//! The rules of keyed inputs, over the loop below.

ghost use Rattle.std.specs.Prelude.{◌≡◌, ◌≤◌, ◌<◌, ◌^◌, ◌++◌, length, IfOk, Some};
ghost use Rattle.fwd_base.specs.Limits.{longest_piece};
ghost use Rattle.fwd_outside.specs.Log.{RunsProgram};
ghost use Rattle.fwd_outside.specs.Loop.{Reply, loop_outcome};
ghost use Rattle.fwd_outside.specs.Program.{Return, Ask};
ghost use Rattle.fwd_handshake.specs.Judgement.{ping_received};
ghost use Rattle.fwd_secure.specs.Handshakes.{Handshakes};
ghost use Rattle.fwd_secure.specs.RandomBytes.{random_bytes};
ghost use Rattle.fwd_secure.specs.Outcome.{with_state};
ghost use Rattle.fwd_secure.specs.Inputs.{draws, drops, challenges, joins, enters_or_drops, judges, hears};

use crate::handshakes::{HeldConn, KeptBytes, RandomBytes};
use crate::state::State;
use crate::stream::{bytes_after, read_ping};
use fwd_base::{Bytes, ConnId, InputId, Memory};
use fwd_handshake::{Received, Ring, helo, pong};
use fwd_outside::{Happening, Loop, Replied};
use std::alloc::Global;

/// Returns two random words.
pub fn draw<L: Loop>(inner: &mut L) -> Result<RandomBytes, Memory>
    ensures calls { RunsProgram (L.call_log inner.old) (L.call_log inner.new) draws (loop_outcome result) }
    ensures later { L.faults inner.old ≤ L.faults inner.new }
    ensures same { L.counts inner.new ≡ L.counts inner.old }
{
    let first = inner.word()?;
    let second = inner.word()?;
    Ok(RandomBytes { first, second })
}

/// Drops a connection that isn't held any more.
fn drop_conn<L: Loop>(inner: &mut L, input: InputId, conn: ConnId) -> Result<Happening, Memory>
    ensures calls { (k : Handshakes) → RunsProgram (L.call_log inner.old) (L.call_log inner.new) (drops k input conn) (with_state (loop_outcome result) k) }
    ensures later { L.faults inner.old ≤ L.faults inner.new }
    ensures same { L.counts inner.new ≡ L.counts inner.old }
{
    inner.drop_conn(conn)?;
    Ok(Happening::Gone { input, conn })
}

/// Sends a HELO to a new connection, and holds its bytes.
fn challenge<L: Loop>(
    alloc: Global,
    inner: &mut L,
    state: &mut State,
    input: InputId,
    conn: ConnId,
) -> Result<Happening, Memory>
    ensures calls { RunsProgram (L.call_log inner.old) (L.call_log inner.new) (challenges state.old input conn) (with_state (loop_outcome result) state.new) }
    ensures later { L.faults inner.old ≤ L.faults inner.new }
    ensures same { L.counts inner.new ≡ L.counts inner.old }
    ensures wrongs { state.old.wrongs ≤ state.new.wrongs }
{
    let nonce = draw(inner)?;
    let nonce_bytes = nonce.to_bytes(alloc)?;
    let message = helo(alloc, nonce_bytes.as_slice())?;
    match inner.reply(conn, message.as_slice()) {
        Replied::Taken => {
            let received = Bytes::new(alloc);
            state.hold(
                conn,
                HeldConn {
                    input,
                    nonce,
                    received,
                },
            )?;
            Ok(Happening::Gone { input, conn })
        }
        Replied::Broken => drop_conn(inner, input, conn),
        Replied::Memory => Err(Memory),
    }
}

/// Handles a peer that has connected to a keyed input.
pub fn join<L: Loop>(
    alloc: Global,
    inner: &mut L,
    state: &mut State,
    input: InputId,
    conn: ConnId,
) -> Result<Happening, Memory>
    ensures calls { RunsProgram (L.call_log inner.old) (L.call_log inner.new) (joins state.old input conn) (with_state (loop_outcome result) state.new) }
    ensures later { L.faults inner.old ≤ L.faults inner.new }
    ensures same { L.counts inner.new ≡ L.counts inner.old }
    ensures wrongs { state.old.wrongs ≤ state.new.wrongs }
{
    if state.is_held(conn) {
        return Ok(Happening::Gone { input, conn });
    }
    match state.joined_input(conn) {
        Some(other) if other == input.0 => Ok(Happening::Joined { input, conn }),
        Some(_) => Ok(Happening::Gone { input, conn }),
        None => challenge(alloc, inner, state, input, conn),
    }
}

/// Gives a connection whose PONG was sent as joined, and keeps the bytes after its PING.
fn accept(state: &mut State, input: InputId, conn: ConnId, rest: Bytes) -> Result<Happening, Memory>
    requires { length rest ≤ longest_piece }
    ensures ok { IfOk result (λ brought. enters_or_drops state.old input conn rest (Some tt) ≡ Return (brought, state.new)) }
    ensures wrongs { state.old.wrongs ≤ state.new.wrongs }
{
    state.enter(input, conn)?;
    if rest.is_empty() {
        return Ok(Happening::Joined { input, conn });
    }
    state.keep(KeptBytes::OfConn {
        input,
        conn,
        bytes: rest,
    })?;
    Ok(Happening::Joined { input, conn })
}

/// Sends the PONG to a connection whose PING was right, and gives it as joined. The state is without it.
fn answer_ping<L: Loop>(
    inner: &mut L,
    state: &mut State,
    input: InputId,
    conn: ConnId,
    message: &[u8],
    rest: Bytes,
) -> Result<Happening, Memory>
    requires { length rest ≤ longest_piece }
    ensures calls { RunsProgram (L.call_log inner.old) (L.call_log inner.new) (Ask (Reply conn.0 message.now) (enters_or_drops state.old input conn rest)) (with_state (loop_outcome result) state.new) }
    ensures later { L.faults inner.old ≤ L.faults inner.new }
    ensures same { L.counts inner.new ≡ L.counts inner.old }
    ensures wrongs { state.old.wrongs ≤ state.new.wrongs }
{
    match inner.reply(conn, message) {
        Replied::Taken => accept(state, input, conn, rest),
        Replied::Broken => drop_conn(inner, input, conn),
        Replied::Memory => Err(Memory),
    }
}

/// Judges what a held connection sent so far. The state is without it.
fn judge<L: Loop>(
    alloc: Global,
    inner: &mut L,
    ring: &Ring,
    state: &mut State,
    conn: ConnId,
    mut held: HeldConn,
    piece: &[u8],
) -> Result<Happening, Memory>
    requires host { length ring.now.host < 2 ^ 32 }
    requires piece { length piece.now ≤ longest_piece }
    ensures calls { RunsProgram (L.call_log inner.old) (L.call_log inner.new) (judges ring.now state.old held.input conn held piece.now (ping_received ring.now (random_bytes held.nonce) (held.received ++ piece.now))) (with_state (loop_outcome result) state.new) }
    ensures later { L.faults inner.old ≤ L.faults inner.new }
    ensures same { L.counts inner.new ≡ L.counts inner.old }
    ensures wrongs { state.old.wrongs ≤ state.new.wrongs }
{
    let input = held.input;
    let before = held.received.len();
    held.received.extend_from_slice(piece)?;
    let nonce = held.nonce.to_bytes(alloc)?;
    match read_ping(alloc, ring, nonce.as_slice(), held.received.as_slice())? {
        Received::More => {
            state.hold(conn, held)?;
            Ok(Happening::Gone { input, conn })
        }
        Received::Right { len, content } => {
            let message = pong(alloc, ring, content.as_slice(), nonce.as_slice())?;
            let rest = bytes_after(alloc, piece, len.saturating_sub(before as u64))?;
            answer_ping(inner, state, input, conn, message.as_slice(), rest)
        }
        Received::Wrong => drop_conn(inner, input, conn),
    }
}

/// Handles bytes that came over a connection of a keyed input.
pub fn hear<L: Loop>(
    alloc: Global,
    inner: &mut L,
    ring: &Ring,
    state: &mut State,
    input: InputId,
    conn: ConnId,
    piece: Bytes,
) -> Result<Happening, Memory>
    requires host { length ring.now.host < 2 ^ 32 }
    requires piece { length piece ≤ longest_piece }
    ensures calls { RunsProgram (L.call_log inner.old) (L.call_log inner.new) (hears ring.now state.old input conn piece) (with_state (loop_outcome result) state.new) }
    ensures later { L.faults inner.old ≤ L.faults inner.new }
    ensures same { L.counts inner.new ≡ L.counts inner.old }
    ensures wrongs { state.old.wrongs ≤ state.new.wrongs }
{
    if let Some(held) = state.take_held(input, conn) {
        return judge(alloc, inner, ring, state, conn, held, piece.as_slice());
    }
    if !state.is_held(conn) && state.joined_input(conn) == Some(input.0) {
        return Ok(Happening::Piece {
            input,
            conn,
            bytes: piece,
        });
    }
    Ok(Happening::Gone { input, conn })
}
