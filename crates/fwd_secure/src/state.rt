//! The state of a keyed loop between two calls.

ghost use Rattle.std.specs.Prelude.{◌≡◌, ◌≤◌, not, map, filter, IfOk, OnOk, IfSome, IfNone};
ghost use Rattle.std.specs.Option.{is_some};
ghost use Rattle.std.specs.List.{position};
ghost use Rattle.fwd_secure.specs.Kept.{IsPiece, is_given, is_of_conn, is_of_link, first_given, holds};
ghost use Rattle.fwd_secure.specs.Handshakes.{no_handshakes, is_listener, listens_at, is_held, held_under, joined_at, link_at, listening, holding, released, entered, left, dropped, greeting, ungreeted, closed, keeping, counting_wrong, without_given};

use crate::handshakes::{HeldConn, KeptBytes, LinkHandshake};
use fwd_base::{ConnId, InputId, LinkId, Memory};
use fwd_outside::{Ends, InEnd};
use std::alloc::Global;
use std::collections::BTreeMap;
use std::marker::Model;

/// The handshakes under way, the connections that were given as joined, and the bytes that a later `wait` gives.
#[derive(Drop)]
pub struct State {
    listens: Vec<bool>,
    held: BTreeMap<u64, HeldConn>,
    joined: BTreeMap<u64, u32>,
    links: BTreeMap<u64, LinkHandshake>,
    kept: Vec<KeptBytes>,
    wrongs: u64,
}

impl Model for State {
    ghost use Rattle.fwd_secure.specs.Handshakes.{Handshakes};
    ghost use Rattle.fwd_secure.specs.HandshakesCode.{handshakes_code};
    ghost use Rattle.fwd_secure.specs.Kept.{ArePieces};

    ghost Value = { Handshakes };

    ghost coded = { handshakes_code };

    ghost view = { λ s. record {
      listens = s.listens.items;
      held = s.held.entries;
      joined = s.joined.entries;
      links = s.links.entries;
      kept = s.kept.items;
      wrongs = s.wrongs;
    } };

    ghost invariant = { λ s. ArePieces s.kept.items };
}

/// Returns whether peers connect to an endpoint.
fn is_listener(end: &InEnd) -> bool
    ensures { result ≡ is_listener end.now }
{
    match end {
        InEnd::Listen { .. } => true,
        _ => false,
    }
}

/// Returns whether peers connect to the endpoint of each input.
fn listeners(alloc: Global, ends: &[InEnd]) -> Result<Vec<bool>, Memory>
    ensures { IfOk result (λ listens. listens.items ≡ map is_listener ends.now) }
{
    let listens: Vec<bool> = ends.iter().map(|end| is_listener(end)).collect(alloc)?;
    Ok(listens)
}

/// Removes the bytes that came over a connection.
fn forget_conn(kept: &mut Vec<KeptBytes>, conn: ConnId)
    ensures { kept.new.items ≡ filter (λ bytes. not (is_of_conn conn.0 bytes)) kept.old.items }
{
    kept.retain(|bytes| !bytes.is_of_conn(conn));
}

/// Removes the bytes that came back over a link.
fn forget_link(kept: &mut Vec<KeptBytes>, link: LinkId)
    ensures { kept.new.items ≡ filter (λ bytes. not (is_of_link link.0 bytes)) kept.old.items }
{
    kept.retain(|bytes| !bytes.is_of_link(link));
}

/// Returns the index of the first kept bytes that a `wait` with this mask may give.
fn index_of_given(kept: &[KeptBytes], paused: u64) -> Option<usize>
    ensures { result ≡ position (is_given paused) kept.now }
{
    kept.iter().position(|bytes| bytes.is_given(paused))
}

impl State {
    /// Returns the state before the first call.
    pub fn new(alloc: Global) -> State
        ensures { result ≡ no_handshakes }
    {
        State {
            listens: Vec::new(alloc),
            held: BTreeMap::new(alloc),
            joined: BTreeMap::new(alloc),
            links: BTreeMap::new(alloc),
            kept: Vec::new(alloc),
            wrongs: 0,
        }
    }

    /// Learns from the endpoints to which inputs peers connect.
    pub fn listen(&mut self, alloc: Global, ends: &Ends) -> Result<(), Memory>
        ensures ok { OnOk result (self.new ≡ listening self.old ends.now) }
        ensures wrongs { self.new.wrongs ≡ self.old.wrongs }
    {
        self.listens = listeners(alloc, ends.inputs.as_slice())?;
        Ok(())
    }

    /// Returns whether peers connect to an input.
    pub fn listens(&self, input: InputId) -> bool
        ensures { result ≡ listens_at self.now input.0 }
    {
        match self.listens.get(input.0 as usize) {
            Some(listens) => *listens,
            None => false,
        }
    }

    /// Returns whether the bytes of a connection are held.
    pub fn is_held(&self, conn: ConnId) -> bool
        ensures { result ≡ is_held self.now conn.0 }
    {
        self.held.contains_key(&conn.0)
    }

    /// Holds the bytes of a connection.
    pub fn hold(&mut self, conn: ConnId, held: HeldConn) -> Result<(), Memory>
        ensures ok { OnOk result (self.new ≡ holding self.old conn.0 held) }
        ensures wrongs { self.new.wrongs ≡ self.old.wrongs }
    {
        self.held.insert(conn.0, held)?;
        Ok(())
    }

    /// Removes and returns a held connection, if it is held under this input.
    pub fn take_held(&mut self, input: InputId, conn: ConnId) -> Option<HeldConn>
        ensures held { result ≡ held_under self.old input.0 conn.0 }
        ensures some { IfSome result (λ _. self.new ≡ released self.old conn.0) }
        ensures none { IfNone result (self.new ≡ self.old) }
    {
        match self.held.get(&conn.0) {
            Some(held) if held.input.0 == input.0 => self.held.remove(&conn.0),
            _ => None,
        }
    }

    /// Returns the input under which a connection was given as joined.
    pub fn joined_input(&self, conn: ConnId) -> Option<u32>
        ensures { result ≡ joined_at self.now conn.0 }
    {
        self.joined.get(&conn.0).copied()
    }

    /// Notes that a connection was given as joined. One that has joined keeps its input.
    pub fn enter(&mut self, input: InputId, conn: ConnId) -> Result<(), Memory>
        ensures ok { OnOk result (self.new ≡ entered self.old input.0 conn.0) }
        ensures wrongs { self.new.wrongs ≡ self.old.wrongs }
    {
        if self.joined.contains_key(&conn.0) {
            return Ok(());
        }
        self.joined.insert(conn.0, input.0)?;
        Ok(())
    }

    /// Forgets a connection under this input, which has ended.
    pub fn leave(&mut self, input: InputId, conn: ConnId)
        ensures { self.new ≡ left self.old input.0 conn.0 }
    {
        self.take_held(input, conn);
        if self.joined_input(conn) == Some(input.0) {
            self.joined.remove(&conn.0);
        }
    }

    /// Forgets a connection, which was dropped.
    pub fn drop_conn(&mut self, conn: ConnId)
        ensures { self.new ≡ dropped self.old conn.0 }
    {
        self.held.remove(&conn.0);
        self.joined.remove(&conn.0);
        forget_conn(&mut self.kept, conn);
    }

    /// Returns whether the handshake of a link is under way.
    pub fn has_handshake(&self, link: LinkId) -> bool
        ensures { result ≡ is_some (link_at self.now link.0) }
    {
        self.links.contains_key(&link.0)
    }

    /// Puts the handshake of a link.
    pub fn put_handshake(&mut self, link: LinkId, handshake: LinkHandshake) -> Result<(), Memory>
        ensures ok { OnOk result (self.new ≡ greeting self.old link.0 handshake) }
        ensures wrongs { self.new.wrongs ≡ self.old.wrongs }
    {
        self.links.insert(link.0, handshake)?;
        Ok(())
    }

    /// Removes and returns the handshake of a link, if it is under way.
    pub fn take_handshake(&mut self, link: LinkId) -> Option<LinkHandshake>
        ensures handshake { result ≡ link_at self.old link.0 }
        ensures some { IfSome result (λ _. self.new ≡ ungreeted self.old link.0) }
        ensures none { IfNone result (self.new ≡ self.old) }
    {
        self.links.remove(&link.0)
    }

    /// Forgets a link, which was closed.
    pub fn close(&mut self, link: LinkId)
        ensures { self.new ≡ closed self.old link.0 }
    {
        self.links.remove(&link.0);
        forget_link(&mut self.kept, link);
    }

    /// Keeps bytes for a later `wait`, after those that are kept already.
    pub fn keep(&mut self, bytes: KeptBytes) -> Result<(), Memory>
        requires { IsPiece bytes }
        ensures ok { OnOk result (self.new ≡ keeping self.old bytes) }
        ensures wrongs { self.new.wrongs ≡ self.old.wrongs }
    {
        self.kept.push(bytes)?;
        Ok(())
    }

    /// Returns whether a `wait` with this mask gives kept bytes.
    pub fn holds(&self, paused: u64) -> bool
        ensures { result ≡ holds paused self.now.kept }
    {
        self.kept.iter().any(|bytes| bytes.is_given(paused))
    }

    /// Removes and returns the first kept bytes that a `wait` with this mask may give.
    pub fn take_given(&mut self, paused: u64) -> Option<KeptBytes>
        ensures first { result ≡ first_given paused self.old.kept }
        ensures rest { self.new ≡ without_given self.old paused }
        ensures none { IfNone result (self.new ≡ self.old) }
        ensures piece { IfSome result IsPiece }
    {
        match index_of_given(&self.kept, paused) {
            Some(index) => Some(self.kept.remove(index)),
            None => None,
        }
    }

    /// Counts a wrong message of a server. The count saturates at 2^64 - 1.
    pub fn count_wrong(&mut self)
        ensures counted { self.new ≡ counting_wrong self.old }
        ensures wrongs { self.old.wrongs ≤ self.new.wrongs }
    {
        self.wrongs = self.wrongs.saturating_add(1);
    }
}
