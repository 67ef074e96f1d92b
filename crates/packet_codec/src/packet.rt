// Packets as code sees them.
ghost use Rattle.std.specs.Prelude.{◌≡◌, ◌==◌, length};

use bit_io::{BitSlice, Head};
use protocol_model::{Part, Why};
use std::marker::Model;
use thiserror::Error;

/// A payload, or a part of one, as it goes on a channel.
#[derive(Clone, Copy, Debug)]
pub struct Bunch<'a> {
    /// The channel begins with this bunch.
    pub opens: bool,
    /// The channel ends with this bunch.
    pub closes: bool,
    /// The close puts the actor to sleep, and its copy stays. Only where `closes`.
    pub sleeps: bool,
    /// It is sent again until it has arrived.
    pub reliable: bool,
    /// The channel's index, below 10,240 in version one and below 32,768 in version two.
    pub channel: u16,
    /// The payload begins with names that it introduces. Only where `opens`.
    pub exports: bool,
    /// Where it stands in its payload. `Part::Whole` unless `reliable`.
    pub part: Part,
    /// Its number among the channel's reliable bunches modulo 1,024; 0 unless `reliable`.
    pub seq: u16,
    /// 1 for the control channel and 2 for an actor's; 0 unless `reliable`.
    pub kind: u8,
    /// The payload's bits, at most 8,191.
    pub payload: BitSlice<'a>,
}

/// An entry of a packet.
#[derive(Clone, Copy, Debug)]
pub enum Rec<'a> {
    /// The packet with this number modulo 16,384 has arrived. In version one alone.
    Ack(u16),
    /// A bunch.
    Bunch(Bunch<'a>),
}

/// Entries, seen as a list.
#[derive(Debug, Drop)]
pub struct RecList<'a> {
    recs: Vec<Rec<'a>>,
}

impl<'a> Model for RecList<'a> {
    ghost use Rattle.std.specs.Prelude.{List};
    ghost use Rattle.packet_codec.specs.declared.packet.Rec.{Rec};

    ghost Value = { List Rec };

    ghost view = { λ l. l.recs.items };
}

impl<'a> RecList<'a> {
    /// The entries of a vector, which isn't copied.
    pub fn from_vec(recs: Vec<Rec<'a>>) -> RecList<'a>
        ensures { result ≡ recs.entry.items }
    {
        RecList { recs }
    }

    /// The entries as a vector, without copying them.
    pub fn into_vec(self) -> Vec<Rec<'a>>
        ensures { result.items ≡ self.entry }
    {
        let RecList { recs } = self;
        recs
    }

    /// The entries, lent.
    pub fn as_slice(&self) -> &[Rec<'a>]
        ensures { result.now ≡ self.now }
    {
        self.recs.as_slice()
    }

    /// How many entries there are.
    pub fn len(&self) -> usize
        ensures { result ≡ length self.now }
    {
        self.recs.len()
    }

    /// There are no entries.
    pub fn is_empty(&self) -> bool
        ensures { result ≡ (length self.now == 0) }
    {
        self.recs.is_empty()
    }
}

/// What a datagram carries.
#[derive(Debug, Drop)]
pub struct Packet<'a> {
    /// The packet's number modulo 16,384.
    pub number: u16,
    /// Which packets were taken, in version two; all 0 in version one.
    pub head: Head,
    /// The entries, in the order in which they stand.
    pub recs: RecList<'a>,
}

/// Why no packet was read.
#[derive(Clone, Copy, Debug, PartialEq, Eq, Error)]
pub enum DecodeRefusal {
    /// The bytes are no packet: the first rule that they break, and the bit where it is broken.
    #[error("no packet: {why:?} at bit {at}")]
    Malformed { at: usize, why: Why },
    /// There was no memory for the list of entries.
    #[error("out of memory")]
    Memory,
}
