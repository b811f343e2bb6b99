//! The rule of each call, over the loop below.

ghost use Rattle.std.specs.Prelude.{◌≡◌, ◌≤◌, ◌&&◌, true, IfOk, length};
ghost use Rattle.std.specs.Option.{option_map};
ghost use Rattle.fwd_base.specs.Limits.{longest_piece};
ghost use Rattle.fwd_outside.specs.declared.happening.Happening.TheVariants as happening;
ghost use Rattle.fwd_outside.specs.Log.{RunsProgram};
ghost use Rattle.fwd_outside.specs.Cause.{HasCause};
ghost use Rattle.fwd_outside.specs.Loop.{Start, Wait, Dial, Push, Close, DropConn, start_outcome, dial_outcome, push_outcome, loop_outcome, TakesAtMost, PushFails, WaitFails, MayOccur};
ghost use Rattle.fwd_outside.specs.declared.answers.Begun.TheVariants as begun;
ghost use Rattle.fwd_outside.specs.declared.answers.Dialed.TheVariants as dialed;
ghost use Rattle.fwd_secure.specs.Keys.{AreShort};
ghost use Rattle.fwd_secure.specs.Kept.{holds};
ghost use Rattle.fwd_secure.specs.Counts.{WaitCounts, DialCounts};
ghost use Rattle.fwd_secure.specs.Allowed.{RunsAllowed};
ghost use Rattle.fwd_secure.specs.Outcome.{with_state};
ghost use Rattle.fwd_secure.specs.Rules.{answers_by, brings, waits, begins};
ghost use Rattle.fwd_secure.specs.Readable.{IsReadable};

use crate::handshakes::{LinkHandshake, Step};
use crate::inputs::{draw, hear, join};
use crate::keys::{Keys, ring_at};
use crate::outputs::greet;
use crate::state::State;
use fwd_base::{Bytes, ConnId, InputId, LinkId, Memory, OutputId};
use fwd_outside::{Begun, Dialed, Ends, Happening, Loop, Pushed};
use std::alloc::Global;

/// Opens the endpoints, and learns to which inputs peers connect.
pub fn start<L: Loop>(
    alloc: Global,
    inner: &mut L,
    keyed: bool,
    state: &mut State,
    ends: &Ends,
) -> Begun
    ensures calls { (keys : Keys) → RunsProgram (L.call_log inner.old) (L.call_log inner.new) (answers_by keyed keys state.old (Start ends.now)) (with_state (start_outcome result) state.new) }
    ensures cause { HasCause (L.faults inner.old) (L.faults inner.new) (result ≡ begun.Failed) }
    ensures same { L.counts inner.new ≡ L.counts inner.old }
    ensures wrongs { state.old.wrongs ≤ state.new.wrongs }
{
    if !keyed {
        return inner.start(ends);
    }
    match state.listen(alloc, ends) {
        Ok(()) => inner.start(ends),
        Err(Memory) => Begun::Memory,
    }
}

/// Handles a peer that has connected.
fn bring_joined<L: Loop>(
    alloc: Global,
    inner: &mut L,
    keys: &Keys,
    state: &mut State,
    input: InputId,
    conn: ConnId,
) -> Result<Happening, Memory>
    ensures calls { RunsProgram (L.call_log inner.old) (L.call_log inner.new) (brings keys.now state.old (happening.Joined input conn)) (with_state (loop_outcome result) state.new) }
    ensures later { L.faults inner.old ≤ L.faults inner.new }
    ensures same { L.counts inner.new ≡ L.counts inner.old }
    ensures wrongs { state.old.wrongs ≤ state.new.wrongs }
{
    if ring_at(&keys.inputs, input.0).is_some() {
        return join(alloc, inner, state, input, conn);
    }
    if !state.listens(input) {
        return Ok(Happening::Joined { input, conn });
    }
    state.enter(input, conn)?;
    Ok(Happening::Joined { input, conn })
}

/// Handles bytes that came over a connection.
fn bring_piece<L: Loop>(
    alloc: Global,
    inner: &mut L,
    keys: &Keys,
    state: &mut State,
    input: InputId,
    conn: ConnId,
    bytes: Bytes,
) -> Result<Happening, Memory>
    requires short { AreShort keys.now }
    requires piece { length bytes ≤ longest_piece }
    ensures calls { RunsProgram (L.call_log inner.old) (L.call_log inner.new) (brings keys.now state.old (happening.Piece input conn bytes)) (with_state (loop_outcome result) state.new) }
    ensures later { L.faults inner.old ≤ L.faults inner.new }
    ensures same { L.counts inner.new ≡ L.counts inner.old }
    ensures wrongs { state.old.wrongs ≤ state.new.wrongs }
{
    match ring_at(&keys.inputs, input.0) {
        Some(ring) => hear(alloc, inner, ring, state, input, conn, bytes),
        None => Ok(Happening::Piece { input, conn, bytes }),
    }
}

/// Handles a link that has room.
fn bring_room<L: Loop>(
    alloc: Global,
    inner: &mut L,
    keys: &Keys,
    state: &mut State,
    link: LinkId,
) -> Result<Happening, Memory>
    requires { AreShort keys.now }
    ensures calls { RunsProgram (L.call_log inner.old) (L.call_log inner.new) (brings keys.now state.old (happening.Room link)) (with_state (loop_outcome result) state.new) }
    ensures later { L.faults inner.old ≤ L.faults inner.new }
    ensures same { L.counts inner.new ≡ L.counts inner.old }
    ensures wrongs { state.old.wrongs ≤ state.new.wrongs }
{
    match state.take_handshake(link) {
        Some(handshake) => greet(alloc, inner, &keys.outputs, state, link, handshake, &[]),
        None => Ok(Happening::Room { link }),
    }
}

/// Handles bytes that came back over a link.
fn bring_back<L: Loop>(
    alloc: Global,
    inner: &mut L,
    keys: &Keys,
    state: &mut State,
    link: LinkId,
    bytes: Bytes,
) -> Result<Happening, Memory>
    requires { AreShort keys.now }
    ensures calls { RunsProgram (L.call_log inner.old) (L.call_log inner.new) (brings keys.now state.old (happening.Back link bytes)) (with_state (loop_outcome result) state.new) }
    ensures later { L.faults inner.old ≤ L.faults inner.new }
    ensures same { L.counts inner.new ≡ L.counts inner.old }
    ensures wrongs { state.old.wrongs ≤ state.new.wrongs }
{
    match state.take_handshake(link) {
        Some(handshake) => {
            greet(
                alloc,
                inner,
                &keys.outputs,
                state,
                link,
                handshake,
                bytes.as_slice(),
            )
        }
        None => Ok(Happening::Back { link, bytes }),
    }
}

/// Handles an event of the loop below.
fn bring<L: Loop>(
    alloc: Global,
    inner: &mut L,
    keys: &Keys,
    state: &mut State,
    brought: Happening,
) -> Result<Happening, Memory>
    requires short { AreShort keys.now }
    requires piece { IsReadable brought }
    ensures calls { RunsProgram (L.call_log inner.old) (L.call_log inner.new) (brings keys.now state.old brought) (with_state (loop_outcome result) state.new) }
    ensures later { L.faults inner.old ≤ L.faults inner.new }
    ensures same { L.counts inner.new ≡ L.counts inner.old }
    ensures wrongs { state.old.wrongs ≤ state.new.wrongs }
{
    match brought {
        Happening::Joined { input, conn } => bring_joined(alloc, inner, keys, state, input, conn),
        Happening::Piece { input, conn, bytes } => {
            bring_piece(alloc, inner, keys, state, input, conn, bytes)
        }
        Happening::Gone { input, conn } => {
            state.leave(input, conn);
            Ok(Happening::Gone { input, conn })
        }
        Happening::Room { link } => bring_room(alloc, inner, keys, state, link),
        Happening::Back { link, bytes } => bring_back(alloc, inner, keys, state, link, bytes),
        other => Ok(other),
    }
}

/// Gives kept bytes, or else the next event.
fn wait_keyed<L: Loop>(
    alloc: Global,
    inner: &mut L,
    keys: &Keys,
    state: &mut State,
    until: u64,
    paused: u64,
) -> Result<Happening, Memory>
    requires { AreShort keys.now }
    ensures calls { RunsAllowed (L.call_log inner.old) (L.call_log inner.new) (waits keys.now state.old until paused) (with_state (loop_outcome result) state.new) }
    ensures cause { HasCause (L.faults inner.old) (L.faults inner.new) (WaitFails result) }
    ensures counted { WaitCounts (holds paused state.old.kept) (L.counts inner.old) (L.counts inner.new) result }
    ensures allowed { IfOk result (MayOccur (L.counts inner.old).endless paused) }
    ensures wrongs { state.old.wrongs ≤ state.new.wrongs }
{
    match state.take_given(paused) {
        Some(bytes) => Ok(bytes.into_event()),
        None => {
            let brought = inner.wait(alloc, until, paused)?;
            bring(alloc, inner, keys, state, brought)
        }
    }
}

/// Returns the next event.
pub fn wait<L: Loop>(
    alloc: Global,
    inner: &mut L,
    keyed: bool,
    keys: &Keys,
    state: &mut State,
    until: u64,
    paused: u64,
) -> Result<Happening, Memory>
    requires { AreShort keys.now }
    ensures calls { RunsAllowed (L.call_log inner.old) (L.call_log inner.new) (answers_by keyed keys.now state.old (Wait until paused)) (with_state (loop_outcome result) state.new) }
    ensures cause { HasCause (L.faults inner.old) (L.faults inner.new) (WaitFails result) }
    ensures counted { WaitCounts (keyed && holds paused state.old.kept) (L.counts inner.old) (L.counts inner.new) result }
    ensures allowed { IfOk result (MayOccur (L.counts inner.old).endless paused) }
    ensures wrongs { state.old.wrongs ≤ state.new.wrongs }
{
    if keyed {
        wait_keyed(alloc, inner, keys, state, until, paused)
    } else {
        inner.wait(alloc, until, paused)
    }
}

/// Begins the handshake of a new link.
fn begin_handshake<L: Loop>(
    alloc: Global,
    inner: &mut L,
    state: &mut State,
    output: OutputId,
    link: LinkId,
) -> Result<(), Memory>
    ensures calls { RunsProgram (L.call_log inner.old) (L.call_log inner.new) (begins state.old output.0 link.0) (with_state (option_map (λ _. Some link.0) (loop_outcome result)) state.new) }
    ensures later { L.faults inner.old ≤ L.faults inner.new }
    ensures same { L.counts inner.new ≡ L.counts inner.old }
    ensures wrongs { state.old.wrongs ≤ state.new.wrongs }
{
    let salt = draw(inner)?;
    let handshake = LinkHandshake {
        output,
        salt,
        nonce: Bytes::new(alloc),
        received: Bytes::new(alloc),
        step: Step::AwaitsHelo,
    };
    state.put_handshake(link, handshake)
}

/// Opens a link, and begins its handshake if the output has a ring.
fn dial_keyed<L: Loop>(
    alloc: Global,
    inner: &mut L,
    keys: &Keys,
    state: &mut State,
    output: OutputId,
    tag: &[u8],
) -> Dialed
    ensures calls { RunsProgram (L.call_log inner.old) (L.call_log inner.new) (answers_by true keys.now state.old (Dial output.0 tag.now)) (with_state (dial_outcome result) state.new) }
    ensures cause { HasCause (L.faults inner.old) (L.faults inner.new) (result ≡ dialed.Refused) }
    ensures counted { DialCounts (L.counts inner.old) (L.counts inner.new) result }
    ensures wrongs { state.old.wrongs ≤ state.new.wrongs }
{
    match inner.dial(output, tag) {
        Dialed::Link(link) => {
            if ring_at(&keys.outputs, output.0).is_none() {
                return Dialed::Link(link);
            }
            match begin_handshake(alloc, inner, state, output, link) {
                Ok(()) => Dialed::Link(link),
                Err(Memory) => Dialed::Memory,
            }
        }
        Dialed::Refused => Dialed::Refused,
        Dialed::Memory => Dialed::Memory,
    }
}

/// Opens a link.
pub fn dial<L: Loop>(
    alloc: Global,
    inner: &mut L,
    keyed: bool,
    keys: &Keys,
    state: &mut State,
    output: OutputId,
    tag: &[u8],
) -> Dialed
    ensures calls { RunsProgram (L.call_log inner.old) (L.call_log inner.new) (answers_by keyed keys.now state.old (Dial output.0 tag.now)) (with_state (dial_outcome result) state.new) }
    ensures cause { HasCause (L.faults inner.old) (L.faults inner.new) (result ≡ dialed.Refused) }
    ensures counted { DialCounts (L.counts inner.old) (L.counts inner.new) result }
    ensures wrongs { state.old.wrongs ≤ state.new.wrongs }
{
    if keyed {
        dial_keyed(alloc, inner, keys, state, output, tag)
    } else {
        inner.dial(output, tag)
    }
}

/// Sends bytes over a link, unless its handshake is under way.
fn push_keyed<L: Loop>(inner: &mut L, state: &State, link: LinkId, bytes: &[u8]) -> Pushed
    ensures calls { (keys : Keys) → RunsProgram (L.call_log inner.old) (L.call_log inner.new) (answers_by true keys state.now (Push link.0 bytes.now)) (with_state (push_outcome result) state.now) }
    ensures cause { HasCause (L.faults inner.old) (L.faults inner.new) (PushFails bytes.now result) }
    ensures same { L.counts inner.new ≡ L.counts inner.old }
    ensures within { TakesAtMost bytes.now result }
{
    if state.has_handshake(link) {
        return Pushed::Again;
    }
    inner.push(link, bytes)
}

/// Sends bytes over a link.
pub fn push<L: Loop>(
    inner: &mut L,
    keyed: bool,
    state: &State,
    link: LinkId,
    bytes: &[u8],
) -> Pushed
    ensures calls { (keys : Keys) → RunsProgram (L.call_log inner.old) (L.call_log inner.new) (answers_by keyed keys state.now (Push link.0 bytes.now)) (with_state (push_outcome result) state.now) }
    ensures cause { HasCause (L.faults inner.old) (L.faults inner.new) (PushFails bytes.now result) }
    ensures same { L.counts inner.new ≡ L.counts inner.old }
    ensures within { TakesAtMost bytes.now result }
{
    if keyed {
        push_keyed(inner, state, link, bytes)
    } else {
        inner.push(link, bytes)
    }
}

/// Closes a link, and forgets it.
pub fn close<L: Loop>(
    inner: &mut L,
    keyed: bool,
    state: &mut State,
    link: LinkId,
) -> Result<(), Memory>
    ensures calls { (keys : Keys) → RunsProgram (L.call_log inner.old) (L.call_log inner.new) (answers_by keyed keys state.old (Close link.0)) (with_state (loop_outcome result) state.new) }
    ensures later { L.faults inner.old ≤ L.faults inner.new }
    ensures same { L.counts inner.new ≡ L.counts inner.old }
    ensures wrongs { state.old.wrongs ≤ state.new.wrongs }
{
    inner.close(link)?;
    if !keyed {
        return Ok(());
    }
    state.close(link);
    Ok(())
}

/// Closes a connection, and forgets it.
pub fn drop_conn<L: Loop>(
    inner: &mut L,
    keyed: bool,
    state: &mut State,
    conn: ConnId,
) -> Result<(), Memory>
    ensures calls { (keys : Keys) → RunsProgram (L.call_log inner.old) (L.call_log inner.new) (answers_by keyed keys state.old (DropConn conn.0)) (with_state (loop_outcome result) state.new) }
    ensures later { L.faults inner.old ≤ L.faults inner.new }
    ensures same { L.counts inner.new ≡ L.counts inner.old }
    ensures wrongs { state.old.wrongs ≤ state.new.wrongs }
{
    inner.drop_conn(conn)?;
    if !keyed {
        return Ok(());
    }
    state.drop_conn(conn);
    Ok(())
}
