// The trait through which live ends hear and send.
ghost use Rattle.std.specs.Prelude.{ℕ, ◌≡◌, ◌<◌};
ghost use Rattle.std.specs.Prelude.{IfOk};
ghost use Rattle.live_links.specs.Told.{Told, Opens, Counts, Hears, Sends, LinkCause, TellsEach};

use bit_io::{Blob, Memory};
use std::alloc::Global;
use std::marker::Model;
use thiserror::Error;

/// Who sends and is sent to: an address of IPv4 and a port.
#[derive(Clone, Copy, Debug, PartialEq, Eq)]
pub struct Peer {
    pub ip: [u8; 4],
    pub port: u16,
}

impl Model for Peer {
    ghost use Rattle.live_model.specs.Outside.{Peer};

    ghost Value = { Peer };

    ghost view = { λ p. record { ip = p.ip; port = p.port } };

    ghost inverse = { λ p. record { ip = p.ip; port = p.port } };
}

/// What an end hears.
#[derive(Debug, Drop)]
pub enum Heard {
    /// A datagram, of any number of bytes.
    Datagram { from: Peer, bytes: Blob },
    /// None came in a while.
    Quiet,
}

impl Heard {
    /// The same, with a copy of its bytes.
    pub fn copied(&self, alloc: Global) -> Result<Heard, Memory>
        ensures { IfOk result (λ heard. heard ≡ self.now) }
    {
        match self {
            Heard::Datagram { from, bytes } => Ok(Heard::Datagram {
                from: *from,
                bytes: Blob::from_vec(bytes.as_slice().to_vec(alloc)?),
            }),
            Heard::Quiet => Ok(Heard::Quiet),
        }
    }
}

/// Why a link did nothing.
#[derive(Clone, Copy, Debug, PartialEq, Eq, Error)]
pub enum LinkRefusal {
    /// The outside failed, and the count of faults rose by one.
    #[error("the network failed")]
    Failed,
    /// There was no memory for the datagram.
    #[error("there was no memory for a datagram")]
    Memory,
}

impl From<Memory> for LinkRefusal {
    ghost use Rattle.std.specs.Prelude.{◌≡◌};
    ghost use Rattle.live_links.specs.declared.link.LinkRefusal.TheVariants as link;

    ghost from_gives = { λ _ e. e ≡ link.Memory };

    fn from(_memory: Memory) -> LinkRefusal {
        LinkRefusal::Memory
    }
}

/// Ends that hear and send datagrams, 2 at most.
pub trait Link {
    /// What each end heard and what was sent on it, where that is told.
    ghost told: { Self → Told };

    /// How many ends are open.
    ghost count: { Self → ℕ };

    /// How many calls have failed. One kept in a `u64` stays at the greatest value.
    ghost faults: { Self → ℕ };

    /// Opens one more end at a port, numbered by the ends that were open before; port 0 takes any.
    /// `Failed` comes exactly where the count of faults rose, by one; every other answer leaves it.
    /// A refusal opens nothing.
    fn open_end(&mut self, port: u16) -> Result<(), LinkRefusal>
        requires { count self.old < 2 }
        ensures told { Opens (told self.old) (told self.new) result }
        ensures open { Counts (count self.old) (count self.new) result }
        ensures cause { LinkCause (faults self.old) (faults self.new) result };

    /// How many ends are open.
    fn ends(&self) -> usize
        ensures { result ≡ count self.now };

    /// What an end hears next. `Failed` comes as of `open_end`; after a refusal nothing was heard.
    fn recv(&mut self, end: usize) -> Result<Heard, LinkRefusal>
        requires { end < count self.old }
        ensures told { Hears (told self.old) (told self.new) end result }
        ensures open { count self.new ≡ count self.old }
        ensures cause { LinkCause (faults self.old) (faults self.new) result };

    /// Sends a datagram on an end. `Failed` comes as of `open_end`; a refusal sends nothing.
    fn send(&mut self, end: usize, to: Peer, bytes: &[u8]) -> Result<(), LinkRefusal>
        requires { end < count self.old }
        ensures told { Sends (told self.old) (told self.new) end to bytes.now result }
        ensures open { count self.new ≡ count self.old }
        ensures cause { LinkCause (faults self.old) (faults self.new) result };

    /// A link that tells its ends tells each open one.
    ghost tells_each: { (l : Self) → TellsEach (told l) (count l) };
}
