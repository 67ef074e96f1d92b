// What a packet that was taken brings.
ghost use Rattle.std.specs.Prelude.{◌≡◌, length};

use ack_book::BadAck;
use bit_io::Memory;
use packet_codec::{Bunch, Why};
use std::marker::Model;
use thiserror::Error;

/// Fates that became known: packet `to` arrived, and those above `from` and below `to` are lost.
#[derive(Clone, Copy, Debug, PartialEq, Eq)]
pub struct FateMove {
    pub from: u64,
    pub to: u64,
}

/// An entry of a packet, for the layer above.
#[derive(Clone, Copy, Debug)]
pub enum Entry<'a> {
    Moved(FateMove),
    Bunch(Bunch<'a>),
}

/// Entries, seen as a list.
#[derive(Debug, Drop)]
pub struct EntryList<'a> {
    entries: Vec<Entry<'a>>,
}

impl<'a> Model for EntryList<'a> {
    ghost use Rattle.std.specs.Prelude.{List};
    ghost use Rattle.link_end.specs.declared.arrival.Entry.{Entry};

    ghost Value = { List Entry };

    ghost view = { λ l. l.entries.items };
}

impl<'a> EntryList<'a> {
    /// The entries of a vector, which isn't copied.
    pub(crate) fn from_vec(entries: Vec<Entry<'a>>) -> EntryList<'a>
        ensures { result ≡ entries.entry.items }
    {
        EntryList { entries }
    }

    /// The entries, lent.
    pub fn as_slice(&self) -> &[Entry<'a>]
        ensures { result.now ≡ self.now }
    {
        self.entries.as_slice()
    }

    /// How many entries there are.
    pub fn len(&self) -> usize
        ensures { result ≡ length self.now }
    {
        self.entries.len()
    }
}

/// What a packet that was taken brings: its number, its entries in order up to the first
/// acknowledgement of a packet that wasn't sent, and that one.
#[derive(Debug, Drop)]
pub struct Arrival<'a> {
    pub number: u64,
    pub entries: EntryList<'a>,
    pub bad: Option<BadAck>,
}

/// Why a datagram isn't taken.
#[derive(Clone, Copy, Debug, PartialEq, Eq, Error)]
pub enum TakeRefusal {
    /// It is no packet: the first rule that it breaks, and the bit where it is broken.
    #[error("no packet: {why:?} at bit {at}")]
    Malformed { at: usize, why: Why },
    /// Its number isn't above the greatest one taken.
    #[error("packet {number} is not above {last}")]
    Old { number: i64, last: u64 },
    /// There was no memory for its entries; the link is spent.
    #[error("out of memory")]
    Memory,
}

/// Why an entry isn't packed.
#[derive(Clone, Copy, Debug, PartialEq, Eq, Error)]
pub enum OfferRefusal {
    /// The current packet has no room, and no new one may begin: the budget is used up, or 4,096
    /// packets are open.
    #[error("no room in this tick")]
    NoRoom,
    /// There was no memory for a new packet; the link is spent.
    #[error("out of memory")]
    Memory,
}
