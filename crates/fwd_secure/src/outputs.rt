//! The rules of keyed outputs, over the loop below.

ghost use Rattle.std.specs.Prelude.{◌≡◌, ◌≤◌, ◌<◌, ◌^◌, drop, length, IfOk, OnOk};
ghost use Rattle.std.specs.Option.{option_map};
ghost use Rattle.fwd_outside.specs.Log.{RunsProgram};
ghost use Rattle.fwd_outside.specs.Loop.{loop_outcome};
ghost use Rattle.fwd_secure.specs.Keys.{ring_at, FitMessages};
ghost use Rattle.fwd_secure.specs.Outcome.{with_state};
ghost use Rattle.fwd_outside.specs.Program.{Return};
ghost use Rattle.fwd_secure.specs.Outputs.{sends, stands, waits_for, breaks, keeping_back, awaits_pong, sends_ping, awaits_helo, greets_by, greets};

use crate::handshakes::{KeptBytes, LinkHandshake, Step};
use crate::keys::{Rings, ring_at};
use crate::state::State;
use crate::stream::{bytes_after, read_helo};
use fwd_base::{Bytes, LinkId, Memory};
use fwd_handshake::{Received, Ring, ping, read_pong};
use fwd_outside::{Happening, Loop, Pushed};
use std::alloc::Global;
use std::mem;

/// How the pushes of a PING ended.
#[derive(Clone, Copy)]
pub enum Pushing {
    /// The link took all of it.
    Sent,
    /// The link is full.
    Waits,
    /// The link took nothing, or broke.
    Fails,
}

/// Pushes bytes until the link took all of them, is full, or fails. Returns how it ended, and how many bytes the
/// link took.
fn send<L: Loop>(inner: &mut L, link: LinkId, bytes: &[u8]) -> Result<(Pushing, usize), Memory>
    ensures calls { RunsProgram (L.call_log inner.old) (L.call_log inner.new) (sends link.0 bytes.now) (option_map (λ r. (r.0, drop r.1 bytes.now)) (loop_outcome result)) }
    ensures within { IfOk result (λ r. r.1 ≤ length bytes.now) }
    ensures later { L.faults inner.old ≤ L.faults inner.new }
    ensures same { L.counts inner.new ≡ L.counts inner.old }
{
    let mut taken = 0;
    'pushing: while taken < bytes.len() {
        match inner.push(link, &bytes[taken..]) {
            Pushed::Took(0) => return Ok((Pushing::Fails, taken)),
            Pushed::Took(more) => taken += more as usize,
            Pushed::Again => return Ok((Pushing::Waits, taken)),
            Pushed::Broken => return Ok((Pushing::Fails, taken)),
            Pushed::Memory => return Err(Memory),
        }
    }
    Ok((Pushing::Sent, taken))
}

/// Puts a handshake, with this step next.
fn put_step(
    state: &mut State,
    link: LinkId,
    mut handshake: LinkHandshake,
    step: Step,
) -> Result<(), Memory>
    ensures ok { OnOk result (state.new ≡ stands state.old link handshake step) }
    ensures wrongs { state.old.wrongs ≤ state.new.wrongs }
{
    handshake.step = step;
    state.put_handshake(link, handshake)
}

/// Breaks a link whose message was wrong.
fn break_link(
    state: &mut State,
    link: LinkId,
    handshake: LinkHandshake,
    step: Step,
) -> Result<Happening, Memory>
    ensures ok { IfOk result (λ brought. breaks state.old link handshake step ≡ Return (brought, state.new)) }
    ensures wrongs { state.old.wrongs ≤ state.new.wrongs }
{
    put_step(state, link, handshake, step)?;
    state.count_wrong();
    Ok(Happening::Broken { link })
}

/// Waits for more bytes of a message, or for room.
fn wait_more(
    state: &mut State,
    link: LinkId,
    handshake: LinkHandshake,
    step: Step,
) -> Result<Happening, Memory>
    ensures ok { IfOk result (λ brought. waits_for state.old link handshake step ≡ Return (brought, state.new)) }
    ensures wrongs { state.old.wrongs ≤ state.new.wrongs }
{
    put_step(state, link, handshake, step)?;
    Ok(Happening::Room { link })
}

/// Keeps what came after a PONG for a later `wait`, if anything did.
fn keep_back(state: &mut State, link: LinkId, bytes: Bytes) -> Result<(), Memory>
    ensures ok { OnOk result (state.new ≡ keeping_back state.old link bytes) }
    ensures wrongs { state.old.wrongs ≤ state.new.wrongs }
{
    if bytes.is_empty() {
        return Ok(());
    }
    state.keep(KeptBytes::OfLink { link, bytes })
}

/// Judges what came after the HELO, once the link has taken the whole PING.
fn await_pong(
    alloc: Global,
    ring: &Ring,
    state: &mut State,
    link: LinkId,
    handshake: LinkHandshake,
) -> Result<Happening, Memory>
    ensures ok { IfOk result (λ brought. awaits_pong ring.now state.old link handshake ≡ Return (brought, state.new)) }
    ensures wrongs { state.old.wrongs ≤ state.new.wrongs }
{
    let stream = handshake.received.as_slice();
    let salt = handshake.salt.to_bytes(alloc)?;
    match read_pong(
        alloc,
        ring,
        salt.as_slice(),
        handshake.nonce.as_slice(),
        stream,
    )? {
        Received::More => wait_more(state, link, handshake, Step::AwaitsPong),
        Received::Right { len, .. } => {
            let rest = bytes_after(alloc, stream, len)?;
            keep_back(state, link, rest)?;
            Ok(Happening::Room { link })
        }
        Received::Wrong => break_link(state, link, handshake, Step::AwaitsPong),
    }
}

/// Pushes what is left of a PING, and judges what came back once the link has taken all of it.
fn send_ping<L: Loop>(
    alloc: Global,
    inner: &mut L,
    ring: &Ring,
    state: &mut State,
    link: LinkId,
    handshake: LinkHandshake,
    rest: Bytes,
) -> Result<Happening, Memory>
    ensures calls { RunsProgram (L.call_log inner.old) (L.call_log inner.new) (sends_ping ring.now state.old link handshake rest) (with_state (loop_outcome result) state.new) }
    ensures later { L.faults inner.old ≤ L.faults inner.new }
    ensures same { L.counts inner.new ≡ L.counts inner.old }
    ensures wrongs { state.old.wrongs ≤ state.new.wrongs }
{
    let (pushing, taken) = send(inner, link, rest.as_slice())?;
    let rest = bytes_after(alloc, rest.as_slice(), taken as u64)?;
    match pushing {
        Pushing::Sent => await_pong(alloc, ring, state, link, handshake),
        Pushing::Waits => wait_more(state, link, handshake, Step::SendsPing { rest }),
        Pushing::Fails => {
            put_step(state, link, handshake, Step::SendsPing { rest })?;
            Ok(Happening::Broken { link })
        }
    }
}

/// Answers the HELO with a PING, once the HELO is complete.
fn await_helo<L: Loop>(
    alloc: Global,
    inner: &mut L,
    ring: &Ring,
    state: &mut State,
    link: LinkId,
    mut handshake: LinkHandshake,
) -> Result<Happening, Memory>
    requires { length ring.now.host < 2 ^ 32 }
    ensures calls { RunsProgram (L.call_log inner.old) (L.call_log inner.new) (awaits_helo ring.now state.old link handshake) (with_state (loop_outcome result) state.new) }
    ensures later { L.faults inner.old ≤ L.faults inner.new }
    ensures same { L.counts inner.new ≡ L.counts inner.old }
    ensures wrongs { state.old.wrongs ≤ state.new.wrongs }
{
    match read_helo(alloc, handshake.received.as_slice())? {
        Received::More => wait_more(state, link, handshake, Step::AwaitsHelo),
        Received::Right { len, content } => {
            let salt = handshake.salt.to_bytes(alloc)?;
            let message = ping(alloc, ring, salt.as_slice(), content.as_slice())?;
            handshake.received = bytes_after(alloc, handshake.received.as_slice(), len)?;
            handshake.nonce = content;
            send_ping(alloc, inner, ring, state, link, handshake, message)
        }
        Received::Wrong => break_link(state, link, handshake, Step::AwaitsHelo),
    }
}

/// Goes on with the handshake of a link, at its next step.
fn greet_at_step<L: Loop>(
    alloc: Global,
    inner: &mut L,
    ring: &Ring,
    state: &mut State,
    link: LinkId,
    mut handshake: LinkHandshake,
) -> Result<Happening, Memory>
    requires { length ring.now.host < 2 ^ 32 }
    ensures calls { RunsProgram (L.call_log inner.old) (L.call_log inner.new) (greets_by ring.now state.old link handshake handshake.step) (with_state (loop_outcome result) state.new) }
    ensures later { L.faults inner.old ≤ L.faults inner.new }
    ensures same { L.counts inner.new ≡ L.counts inner.old }
    ensures wrongs { state.old.wrongs ≤ state.new.wrongs }
{
    match mem::replace(&mut handshake.step, Step::AwaitsHelo) {
        Step::AwaitsHelo => await_helo(alloc, inner, ring, state, link, handshake),
        Step::SendsPing { rest } => send_ping(alloc, inner, ring, state, link, handshake, rest),
        Step::AwaitsPong => await_pong(alloc, ring, state, link, handshake),
    }
}

/// Goes on with the handshake of a link that has room or brought bytes. The state is without the handshake.
pub fn greet<L: Loop>(
    alloc: Global,
    inner: &mut L,
    rings: &Rings,
    state: &mut State,
    link: LinkId,
    mut handshake: LinkHandshake,
    bytes: &[u8],
) -> Result<Happening, Memory>
    requires { FitMessages rings.now }
    ensures calls { RunsProgram (L.call_log inner.old) (L.call_log inner.new) (greets (ring_at rings.now handshake.output.0) state.old link handshake bytes.now) (with_state (loop_outcome result) state.new) }
    ensures later { L.faults inner.old ≤ L.faults inner.new }
    ensures same { L.counts inner.new ≡ L.counts inner.old }
    ensures wrongs { state.old.wrongs ≤ state.new.wrongs }
{
    let Some(ring) = ring_at(rings, handshake.output.0) else {
        return Ok(Happening::Broken { link });
    };
    handshake.received.extend_from_slice(bytes)?;
    greet_at_step(alloc, inner, ring, state, link, handshake)
}
