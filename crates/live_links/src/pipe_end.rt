// An end of a pipe.
ghost use Rattle.std.specs.Prelude.{◌≡◌, ℕ, List, map, drop, IfOk, OnOk, OnErr};
ghost use Rattle.live_model.specs.Outside.{Peer as PeerSeen, same_peer};
ghost use Rattle.live_links.specs.Told.{heard_value};
ghost use Rattle.live_links.specs.InMemory.{PipeEndSeen, local_peer, new_pipe_end, next_waiting, hears_first, sends_on, arrives};

use crate::datagram::Datagram;
use crate::end_log::EndLog;
use crate::link::{Heard, Peer};
use bit_io::{Blob, Memory};
use std::alloc::Global;
use std::collections::VecDeque;
use std::marker::Model;

/// An end at a port of the machine itself, with the datagrams that wait there.
#[derive(Debug, Drop)]
pub(crate) struct PipeEnd {
    port: u16,
    waiting: VecDeque<Datagram>,
    log: EndLog,
}

impl Model for PipeEnd {
    ghost use Rattle.live_links.specs.InMemory.{PipeEndSeen};

    ghost Value = { PipeEndSeen };

    ghost view = { λ e. record { port = e.port; waiting = e.waiting.items; told = e.log } };
}

impl PipeEnd {
    /// An end where nothing waits.
    pub(crate) fn new(alloc: Global, port: u16) -> PipeEnd
        ensures { result ≡ new_pipe_end port }
    {
        PipeEnd {
            port,
            waiting: VecDeque::new(alloc),
            log: EndLog::new(alloc),
        }
    }

    /// The peer that the end is.
    pub(crate) fn peer(&self) -> Peer
        ensures { result ≡ local_peer self.now.port }
    {
        Peer {
            ip: [127, 0, 0, 1],
            port: self.port,
        }
    }

    /// Hears what waits first, or `Quiet` where nothing does. `Memory` leaves the end as it was.
    pub(crate) fn hear(&mut self, alloc: Global) -> Result<Heard, Memory>
        ensures heard { IfOk result (λ heard.
            heard_value heard ≡ next_waiting self.old.waiting) }
        ensures ok { OnOk result (self.new ≡ hears_first self.old) }
        ensures err { OnErr result (self.new ≡ self.old) }
    {
        let copy = first_in(alloc, &self.waiting)?;
        self.log.hear(copy)?;
        Ok(take_first(&mut self.waiting))
    }

    /// A datagram is sent on the end. `Memory` leaves the end as it was.
    pub(crate) fn send(&mut self, sent: Datagram) -> Result<(), Memory>
        ensures ok { OnOk result (self.new ≡ sends_on sent.0 sent.1 self.old) }
        ensures err { OnErr result (self.new ≡ self.old) }
    {
        self.log.send(sent)
    }

    /// Takes back the last datagram sent.
    pub(crate) fn withdraw(&mut self)
        ensures { (to : PeerSeen) (bytes : List ℕ) (before : PipeEndSeen)
            → self.old ≡ sends_on to bytes before → self.new ≡ before }
    {
        self.log.withdraw();
    }

    /// A datagram arrives if it was sent to this end's peer. `Memory` leaves the end as it was.
    pub(crate) fn arrive(
        &mut self,
        alloc: Global,
        to: Peer,
        from: Peer,
        bytes: &[u8],
    ) -> Result<(), Memory>
        ensures ok { OnOk result (self.new ≡ arrives to from bytes.now self.old) }
        ensures err { OnErr result (self.new ≡ self.old) }
    {
        if self.peer() == to {
            self.waiting
                .push_back(Datagram::copied(alloc, from, bytes)?)?;
        }
        Ok(())
    }

    /// What it heard.
    pub(crate) fn heard(&self) -> &[Heard]
        ensures { map heard_value result.now ≡ self.now.told.heard }
    {
        self.log.heard()
    }

    /// What was sent on it.
    pub(crate) fn sent(&self) -> &[Datagram]
        ensures { result.now ≡ self.now.told.sent }
    {
        self.log.sent()
    }
}

/// A copy of what waits first, or `Quiet` where nothing does.
fn first_in(alloc: Global, waiting: &VecDeque<Datagram>) -> Result<Heard, Memory>
    ensures { IfOk result (λ heard. heard_value heard ≡ next_waiting waiting.now.items) }
{
    match waiting.front() {
        Some(datagram) => Ok(Heard::Datagram {
            from: datagram.peer,
            bytes: Blob::from_vec(datagram.bytes.as_slice().to_vec(alloc)?),
        }),
        None => Ok(Heard::Quiet),
    }
}

/// Takes what waits first, or `Quiet` where nothing does.
fn take_first(waiting: &mut VecDeque<Datagram>) -> Heard
    ensures heard { heard_value result ≡ next_waiting waiting.old.items }
    ensures rest { waiting.new.items ≡ drop 1 waiting.old.items }
{
    match waiting.pop_front() {
        Some(datagram) => {
            let Datagram { peer, bytes } = datagram;
            Heard::Datagram { from: peer, bytes }
        }
        None => Heard::Quiet,
    }
}
