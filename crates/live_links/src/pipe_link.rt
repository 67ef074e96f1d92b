// A link in memory whose ends hear each other.
ghost use Rattle.std.specs.Prelude.{◌≡◌, ◌<◌, ℕ, [], List, map, length, OnOk, OnErr, IfOk};
ghost use Rattle.live_model.specs.Outside.{Peer as PeerSeen};
ghost use Rattle.live_links.specs.Told.{heard_value, at_end, hears, heard_at, sent_at};
ghost use Rattle.live_links.specs.InMemory.{PipeEndSeen, told_of, peer_at, other_end, waiting_at, next_waiting, hears_first, sends_on, arrives, after_send};

use crate::datagram::Datagram;
use crate::link::{Heard, Link, LinkRefusal, Peer};
use crate::pipe_end::PipeEnd;
use bit_io::Memory;
use std::alloc::Global;
use std::marker::Model;

/// Two ends that hear each other. The peer of an end is 127.0.0.1 with the port that it was opened
/// at, 0 included. What one sends to the other's peer is heard there in order; what it sends to
/// another is dropped. No call fails.
#[derive(Debug, Drop)]
pub struct PipeLink {
    alloc: Global,
    ends: Vec<PipeEnd>,
}

impl Model for PipeLink {
    ghost use Rattle.std.specs.Prelude.{List};
    ghost use Rattle.live_links.specs.InMemory.{PipeEndSeen};

    ghost Value = { List PipeEndSeen };

    ghost view = { λ p. p.ends.items };
}

impl PipeLink {
    /// A link with no open end.
    pub fn new(alloc: Global) -> PipeLink
        ensures { result ≡ [] }
    {
        PipeLink {
            alloc,
            ends: Vec::new(alloc),
        }
    }

    /// What an end heard; nothing where it isn't open.
    pub fn heard(&self, end: usize) -> &[Heard]
        ensures { map heard_value result.now ≡ heard_at (told_of self.now) end }
    {
        match self.ends.get(end) {
            Some(pipe_end) => pipe_end.heard(),
            None => &[],
        }
    }

    /// What was sent on an end; nothing where it isn't open.
    pub fn sent(&self, end: usize) -> &[Datagram]
        ensures { result.now ≡ sent_at (told_of self.now) end }
    {
        match self.ends.get(end) {
            Some(pipe_end) => pipe_end.sent(),
            None => &[],
        }
    }
}

/// The other of two ends.
fn other_than(end: usize) -> usize
    ensures { result ≡ other_end end }
{
    if end == 0 { 1 } else { 0 }
}

/// An end hears what waits there first.
fn hear_at(alloc: Global, ends: &mut Vec<PipeEnd>, end: usize) -> Result<Heard, Memory>
    requires { end < length ends.old.items }
    ensures heard { IfOk result (λ heard.
        heard_value heard ≡ next_waiting (waiting_at ends.old.items end)) }
    ensures ok { OnOk result (ends.new.items ≡ at_end hears_first end ends.old.items) }
    ensures told { IfOk result (λ heard. told_of ends.new.items
        ≡ at_end (hears (heard_value heard)) end (told_of ends.old.items)) }
    ensures err { OnErr result (ends.new.items ≡ ends.old.items) }
    ensures len { length ends.new.items ≡ length ends.old.items }
{
    let heard = ends[end].hear(alloc)?;
    Ok(heard)
}

/// A datagram is sent on an end.
fn send_at(ends: &mut Vec<PipeEnd>, end: usize, sent: Datagram) -> Result<(), Memory>
    requires { end < length ends.old.items }
    ensures ok { OnOk result (ends.new.items ≡ at_end (sends_on sent.0 sent.1) end ends.old.items) }
    ensures err { OnErr result (ends.new.items ≡ ends.old.items) }
    ensures len { length ends.new.items ≡ length ends.old.items }
{
    ends[end].send(sent)
}

/// Takes back the last datagram sent on an end.
fn withdraw_at(ends: &mut Vec<PipeEnd>, end: usize)
    requires { end < length ends.old.items }
    ensures len { length ends.new.items ≡ length ends.old.items }
    ensures before { (to : PeerSeen) (bytes : List ℕ) (before : List PipeEndSeen)
        → ends.old.items ≡ at_end (sends_on to bytes) end before → ends.new.items ≡ before }
{
    ends[end].withdraw();
}

/// A datagram arrives at an end, if it is open and its peer is the one that it was sent to.
fn arrive_at(
    alloc: Global,
    ends: &mut Vec<PipeEnd>,
    end: usize,
    to: Peer,
    from: Peer,
    bytes: &[u8],
) -> Result<(), Memory>
    ensures ok { OnOk result
        (ends.new.items ≡ at_end (arrives to from bytes.now) end ends.old.items) }
    ensures err { OnErr result (ends.new.items ≡ ends.old.items) }
    ensures len { length ends.new.items ≡ length ends.old.items }
{
    if end < ends.len() {
        return ends[end].arrive(alloc, to, from, bytes);
    }
    Ok(())
}

/// A datagram is sent on one end, and arrives at the other or nowhere.
fn send_between(
    alloc: Global,
    ends: &mut Vec<PipeEnd>,
    end: usize,
    to: Peer,
    bytes: &[u8],
) -> Result<(), Memory>
    requires { end < length ends.old.items }
    ensures ok { OnOk result (ends.new.items ≡ after_send end to bytes.now ends.old.items) }
    ensures err { OnErr result (ends.new.items ≡ ends.old.items) }
    ensures len { length ends.new.items ≡ length ends.old.items }
{
    let from = ends[end].peer();
    let sent = Datagram::copied(alloc, to, bytes)?;
    send_at(ends, end, sent)?;
    if arrive_at(alloc, ends, other_than(end), to, from, bytes).is_err() {
        withdraw_at(ends, end);
        return Err(Memory);
    }
    Ok(())
}

impl Link for PipeLink {
    ghost use Rattle.std.specs.Prelude.{◌≡◌, ◌<◌, ◌∷◌, ◌++◌, [], IfOk, OnOk, OnErr, Some, length};
    ghost use Rattle.live_links.specs.Told.{heard_value, at_end, Opens, Counts, Hears, Sends, LinkCause};
    ghost use Rattle.live_links.specs.InMemory.{told_of, new_pipe_end, waiting_at, next_waiting, hears_first, after_send};

    ghost told = { λ ends. Some (told_of ends) };

    ghost count = { length };

    ghost faults = { λ _. 0 };

    ghost use Rattle.std.proofs.lemmas.List.{length-map};

    ghost tells_each = { λ ends. length-map ends (λ e. e.told) };

    /// Opens one more end, whose peer is 127.0.0.1 at this port, 0 included. It doesn't fail.
    #[tactic(auto, using(crate::proofs::Pipes::told_of_new))]
    fn open_end(&mut self, port: u16) -> Result<(), LinkRefusal>
        requires { length self.old < 2 }
        ensures ok { OnOk result (self.new ≡ self.old ++ new_pipe_end port ∷ []) }
        ensures err { OnErr result (self.new ≡ self.old) }
        ensures told { Opens (Some (told_of self.old)) (Some (told_of self.new)) result }
        ensures open { Counts (length self.old) (length self.new) result }
        ensures cause { LinkCause 0 0 result }
    {
        match self.ends.push(PipeEnd::new(self.alloc, port)) {
            Ok(()) => Ok(()),
            Err(_) => Err(LinkRefusal::Memory),
        }
    }

    fn ends(&self) -> usize
        ensures { result ≡ length self.now }
    {
        self.ends.len()
    }

    /// What waits at the end first; `Quiet` exactly where nothing does. It doesn't fail.
    fn recv(&mut self, end: usize) -> Result<Heard, LinkRefusal>
        requires { end < length self.old }
        ensures heard { IfOk result (λ heard.
            heard_value heard ≡ next_waiting (waiting_at self.old end)) }
        ensures ok { OnOk result (self.new ≡ at_end hears_first end self.old) }
        ensures err { OnErr result (self.new ≡ self.old) }
        ensures told { Hears (Some (told_of self.old)) (Some (told_of self.new)) end result }
        ensures open { length self.new ≡ length self.old }
        ensures cause { LinkCause 0 0 result }
    {
        match hear_at(self.alloc, &mut self.ends, end) {
            Ok(heard) => Ok(heard),
            Err(_) => Err(LinkRefusal::Memory),
        }
    }

    /// The datagram waits at the other end if that end is its peer. It doesn't fail.
    #[tactic(auto, using(crate::proofs::Pipes::told_of_after_send))]
    fn send(&mut self, end: usize, to: Peer, bytes: &[u8]) -> Result<(), LinkRefusal>
        requires { end < length self.old }
        ensures ok { OnOk result (self.new ≡ after_send end to bytes.now self.old) }
        ensures err { OnErr result (self.new ≡ self.old) }
        ensures told { Sends (Some (told_of self.old)) (Some (told_of self.new)) end to
            bytes.now result }
        ensures open { length self.new ≡ length self.old }
        ensures cause { LinkCause 0 0 result }
    {
        match send_between(self.alloc, &mut self.ends, end, to, bytes) {
            Ok(()) => Ok(()),
            Err(_) => Err(LinkRefusal::Memory),
        }
    }
}
