// What one end heard, and what was sent on it.
ghost use Rattle.std.specs.Prelude.{◌≡◌, ℕ, List, map, length, OnOk, OnErr};
ghost use Rattle.live_model.specs.Outside.{Peer};
ghost use Rattle.live_links.specs.Told.{EndTold, heard_value, new_end, hears, sends};

use crate::datagram::Datagram;
use crate::link::Heard;
use bit_io::Memory;
use std::alloc::Global;
use std::marker::Model;

/// What an end heard, and what was sent on it, in order.
#[derive(Debug, Drop)]
pub(crate) struct EndLog {
    heard: Vec<Heard>,
    sent: Vec<Datagram>,
}

impl Model for EndLog {
    ghost use Rattle.std.specs.Prelude.{map};
    ghost use Rattle.live_links.specs.Told.{EndTold, heard_value};

    ghost Value = { EndTold };

    ghost view = { λ l. record { heard = map heard_value l.heard.items; sent = l.sent.items } };
}

impl EndLog {
    /// Nothing yet.
    pub(crate) fn new(alloc: Global) -> EndLog
        ensures { result ≡ new_end }
    {
        EndLog {
            heard: Vec::new(alloc),
            sent: Vec::new(alloc),
        }
    }

    /// It heard one thing more. `Memory` leaves it as it was.
    pub(crate) fn hear(&mut self, heard: Heard) -> Result<(), Memory>
        ensures ok { OnOk result (self.new ≡ hears (heard_value heard) self.old) }
        ensures err { OnErr result (self.new ≡ self.old) }
    {
        self.heard.push(heard)?;
        Ok(())
    }

    /// A datagram more was sent on it. `Memory` leaves it as it was.
    pub(crate) fn send(&mut self, sent: Datagram) -> Result<(), Memory>
        ensures ok { OnOk result (self.new ≡ sends sent.0 sent.1 self.old) }
        ensures err { OnErr result (self.new ≡ self.old) }
    {
        self.sent.push(sent)?;
        Ok(())
    }

    /// Takes back the last datagram sent.
    pub(crate) fn withdraw(&mut self)
        ensures { (to : Peer) (bytes : List ℕ) (before : EndTold)
            → self.old ≡ sends to bytes before → self.new ≡ before }
    {
        self.sent.pop();
    }

    /// How much it heard.
    pub(crate) fn count(&self) -> usize
        ensures { result ≡ length self.now.heard }
    {
        self.heard.len()
    }

    /// What it heard.
    pub(crate) fn heard(&self) -> &[Heard]
        ensures { map heard_value result.now ≡ self.now.heard }
    {
        self.heard.as_slice()
    }

    /// What was sent on it.
    pub(crate) fn sent(&self) -> &[Datagram]
        ensures { result.now ≡ self.now.sent }
    {
        self.sent.as_slice()
    }
}
