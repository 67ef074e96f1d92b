// A link in memory whose ends hear by a script.
ghost use Rattle.std.specs.Prelude.{◌≡◌, ◌<◌, ℕ, map, length, IfOk, OnOk, OnErr};
ghost use Rattle.live_links.specs.Told.{heard_value, at_end, hears, sends, heard_at, sent_at};
ghost use Rattle.live_links.specs.InMemory.{scripted, item_at};

use crate::counted::Calls;
use crate::datagram::Datagram;
use crate::end_log::EndLog;
use crate::link::{Heard, Link, LinkRefusal, Peer};
use bit_io::Memory;
use net_core::Items;
use std::alloc::Global;
use std::marker::Model;

/// What ends hear, in order.
pub type HeardList = Items<Heard>;

/// Each end hears the items of its script, and `Quiet` past them. Calls of given numbers fail: the
/// first is number 1, and `open_end`, `recv` and `send` are counted together. Each of these that
/// was made is one fault.
#[derive(Debug, Drop)]
pub struct MemLink {
    alloc: Global,
    scripts: Vec<HeardList>,
    ends: Vec<EndLog>,
    calls: Calls,
}

impl Model for MemLink {
    ghost use Rattle.live_links.specs.InMemory.{MemoryLink};

    ghost Value = { MemoryLink };

    ghost view = { λ m. record {
      scripts = m.scripts.items;
      ends = m.ends.items;
      calls = m.calls;
    } };
}

impl MemLink {
    /// A link with no open end. The first script is of the first end; an end without one hears
    /// nothing. The calls of these numbers are to fail.
    pub fn new(alloc: Global, scripts: Vec<HeardList>, failing: Vec<u64>) -> MemLink
        ensures { result ≡ scripted scripts.items failing.items }
    {
        MemLink {
            alloc,
            scripts,
            ends: Vec::new(alloc),
            calls: Calls::new(failing),
        }
    }

    /// What an end heard; nothing where it isn't open.
    pub fn heard(&self, end: usize) -> &[Heard]
        ensures { map heard_value result.now ≡ heard_at self.now.ends end }
    {
        match self.ends.get(end) {
            Some(log) => log.heard(),
            None => &[],
        }
    }

    /// What was sent on an end; nothing where it isn't open.
    pub fn sent(&self, end: usize) -> &[Datagram]
        ensures { result.now ≡ sent_at self.now.ends end }
    {
        match self.ends.get(end) {
            Some(log) => log.sent(),
            None => &[],
        }
    }
}

/// A copy of the item of an end's script at a place, `Quiet` past them.
fn item(alloc: Global, scripts: &[HeardList], end: usize, place: usize) -> Result<Heard, Memory>
    ensures { IfOk result (λ heard. heard ≡ item_at scripts.now end place) }
{
    let Some(script) = scripts.get(end) else {
        return Ok(Heard::Quiet);
    };
    match script.get(place) {
        Some(heard) => heard.copied(alloc),
        None => Ok(Heard::Quiet),
    }
}

/// An end heard one thing more.
fn hear_at(ends: &mut Vec<EndLog>, end: usize, heard: Heard) -> Result<(), Memory>
    requires { end < length ends.old.items }
    ensures ok { OnOk result
        (ends.new.items ≡ at_end (hears (heard_value heard)) end ends.old.items) }
    ensures err { OnErr result (ends.new.items ≡ ends.old.items) }
    ensures len { length ends.new.items ≡ length ends.old.items }
{
    ends[end].hear(heard)
}

/// A datagram more was sent on an end.
fn send_at(ends: &mut Vec<EndLog>, end: usize, sent: Datagram) -> Result<(), Memory>
    requires { end < length ends.old.items }
    ensures ok { OnOk result (ends.new.items ≡ at_end (sends sent.0 sent.1) end ends.old.items) }
    ensures err { OnErr result (ends.new.items ≡ ends.old.items) }
    ensures len { length ends.new.items ≡ length ends.old.items }
{
    ends[end].send(sent)
}

/// The next item of an end's script, which it heard.
fn hear_next(
    alloc: Global,
    scripts: &[HeardList],
    ends: &mut Vec<EndLog>,
    end: usize,
) -> Result<Heard, Memory>
    requires { end < length ends.old.items }
    ensures heard { IfOk result (λ heard.
        heard ≡ item_at scripts.now end (length (heard_at ends.old.items end))) }
    ensures ok { IfOk result (λ heard.
        ends.new.items ≡ at_end (hears (heard_value heard)) end ends.old.items) }
    ensures err { OnErr result (ends.new.items ≡ ends.old.items) }
    ensures len { length ends.new.items ≡ length ends.old.items }
{
    let heard = item(alloc, scripts, end, ends[end].count())?;
    hear_at(ends, end, heard.copied(alloc)?)?;
    Ok(heard)
}

impl Link for MemLink {
    ghost use Rattle.std.specs.Prelude.{◌≡◌, ◌<◌, ◌↔◌, IfOk, IsErrOf, Some, true, length, refl};
    ghost use Rattle.net_core.specs.Failing.{after_call, next_fails};
    ghost use Rattle.live_links.specs.Told.{Opens, Counts, Hears, Sends, LinkCause};
    ghost use Rattle.live_links.specs.InMemory.{next_item};

    ghost told = { λ m. Some m.ends };

    ghost count = { λ m. length m.ends };

    ghost faults = { λ m. m.calls.faults };

    ghost tells_each = { λ _. refl };

    /// Opens one more end, which hears its script whatever the port. `Failed` comes exactly at a
    /// call that is to fail.
    fn open_end(&mut self, _port: u16) -> Result<(), LinkRefusal>
        requires { length self.old.ends < 2 }
        ensures told { Opens (Some self.old.ends) (Some self.new.ends) result }
        ensures open { Counts (length self.old.ends) (length self.new.ends) result }
        ensures scripts { self.new.scripts ≡ self.old.scripts }
        ensures calls { self.new.calls ≡ after_call self.old.calls }
        ensures failed { IsErrOf result LinkRefusal.Failed
            ↔ (next_fails self.old.calls ≡ true) }
        ensures cause { LinkCause self.old.calls.faults self.new.calls.faults result }
    {
        if self.calls.fails() {
            return Err(LinkRefusal::Failed);
        }
        match self.ends.push(EndLog::new(self.alloc)) {
            Ok(()) => Ok(()),
            Err(_) => Err(LinkRefusal::Memory),
        }
    }

    fn ends(&self) -> usize
        ensures { result ≡ length self.now.ends }
    {
        self.ends.len()
    }

    /// The next item of the end's script; `Quiet` past its items. `Failed` comes exactly at a call
    /// that is to fail.
    fn recv(&mut self, end: usize) -> Result<Heard, LinkRefusal>
        requires { end < length self.old.ends }
        ensures heard { IfOk result (λ heard. heard ≡ next_item self.old end) }
        ensures told { Hears (Some self.old.ends) (Some self.new.ends) end result }
        ensures open { length self.new.ends ≡ length self.old.ends }
        ensures scripts { self.new.scripts ≡ self.old.scripts }
        ensures calls { self.new.calls ≡ after_call self.old.calls }
        ensures failed { IsErrOf result LinkRefusal.Failed
            ↔ (next_fails self.old.calls ≡ true) }
        ensures cause { LinkCause self.old.calls.faults self.new.calls.faults result }
    {
        if self.calls.fails() {
            return Err(LinkRefusal::Failed);
        }
        match hear_next(self.alloc, &self.scripts, &mut self.ends, end) {
            Ok(heard) => Ok(heard),
            Err(_) => Err(LinkRefusal::Memory),
        }
    }

    /// Keeps a copy of the datagram. `Failed` comes exactly at a call that is to fail.
    fn send(&mut self, end: usize, to: Peer, bytes: &[u8]) -> Result<(), LinkRefusal>
        requires { end < length self.old.ends }
        ensures told { Sends (Some self.old.ends) (Some self.new.ends) end to bytes.now result }
        ensures open { length self.new.ends ≡ length self.old.ends }
        ensures scripts { self.new.scripts ≡ self.old.scripts }
        ensures calls { self.new.calls ≡ after_call self.old.calls }
        ensures failed { IsErrOf result LinkRefusal.Failed
            ↔ (next_fails self.old.calls ≡ true) }
        ensures cause { LinkCause self.old.calls.faults self.new.calls.faults result }
    {
        if self.calls.fails() {
            return Err(LinkRefusal::Failed);
        }
        let sent = Datagram::copied(self.alloc, to, bytes)?;
        send_at(&mut self.ends, end, sent)?;
        Ok(())
    }
}
