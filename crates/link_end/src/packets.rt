// The packets of a tick, from the first to the one that is filled now.
ghost use Rattle.std.specs.Prelude.{◌≡◌, ◌<◌, ◌≤◌, ◌+◌, ◌^◌, ◌%◌, ◌==◌, [], None, Some, IfOk, OnOk, IsTrue, true, false, length, map};
ghost use Rattle.protocol_model.specs.Limits.{packet_bytes, packet_modulus, unresolved_limit};
ghost use Rattle.protocol_model.specs.Packet.{is_rec, is_head, rec_bits, start_bits};
ghost use Rattle.bit_io.specs.HeadOf.{head_of, IsHead};
ghost use Rattle.packet_codec.specs.Values.{rec_of};
ghost use Rattle.link_end.specs.Begun.{all_bytes, whole_bytes, total_size, fits_after, with_packet, with_bits};
ghost use Rattle.link_end.specs.Answers.{numbered, sent_value, sent_size};

use crate::sent::{Sent, SentList};
use bit_io::{BitWriter, Head, Memory};
use packet_codec::{Rec, bunch_bits, put_rec, put_start};
use protocol_model::Version;
use protocol_model::limits::{PACKET_BYTES, PACKET_MODULUS};
use std::alloc::Global;
use std::marker::Model;

/// The most bits of a packet, the end bit included.
const MOST_BITS: usize = 8 * PACKET_BYTES;

/// The most bits of an entry that fits into a packet by itself, whatever head that has: the number,
/// the longest head and the end bit take 288.
pub const ENTRY_MOST: usize = MOST_BITS - 288;

/// The bits of an acknowledgement, with the one before it.
const ACK_BITS: usize = 15;

/// Room for a packet, and for what each `put` asks beyond it.
const ROOM_BITS: usize = MOST_BITS + 320;

/// The packets of a tick under way. Each is built in a buffer of its own, which is handed out as it
/// is.
#[derive(Drop)]
pub struct Packets {
    first: u64,
    whole: Vec<Sent>,
    size: usize,
    current: Option<BitWriter>,
    full: bool,
}

impl Model for Packets {
    ghost use Rattle.std.specs.Prelude.{map, option_map};
    ghost use Rattle.bit_io.specs.Written.{Written};
    ghost use Rattle.link_end.specs.Link.{Begun};
    ghost use Rattle.link_end.specs.declared.sent.Sent.{Sent};

    ghost Value = { Begun };

    ghost use Rattle.link_end.specs.Holds.{Holds};

    ghost view = { λ p. record {
      first = p.first;
      whole = map (λ (s : Sent). s.bytes) p.whole.items;
      current = option_map (λ (w : Written). w.bits) p.current;
      full = p.full;
    } };

    ghost invariant = { λ p. Holds p.first p.whole.items p.size p.current };
}

/// How many bits an entry takes that has a spelling.
pub fn rec_len(version: Version, r: &Rec) -> usize
    requires { IsTrue (is_rec version (rec_of r.now)) }
    ensures { result ≡ length (rec_bits version (rec_of r.now)) }
{
    match r {
        Rec::Ack(_) => ACK_BITS,
        Rec::Bunch(bunch) => bunch_bits(version, bunch),
    }
}

impl Packets {
    /// No packet yet. The first one will have this number, which is below 2^62.
    pub fn new(alloc: Global, first: u64) -> Packets
        requires { first < 2 ^ 62 }
        ensures { result ≡ record { first = first; whole = []; current = None; full = false } }
    {
        Packets {
            first,
            whole: Vec::new(alloc),
            size: 0,
            current: None,
            full: false,
        }
    }

    /// No packet was begun.
    pub fn is_empty(&self) -> bool
        ensures { result ≡ (length (all_bytes self.now) == 0) }
    {
        self.whole.is_empty() && self.current.is_none()
    }

    /// How many bytes the packets have, the end bit of each included.
    pub fn size(&self) -> usize
        ensures total { result ≡ total_size self.now }
        ensures most { result < 2 ^ 32 }
    {
        match &self.current {
            Some(current) => self.size + (current.len() + 8) / 8,
            None => self.size,
        }
    }

    /// So many more bits fit into the current packet.
    pub fn fits(&self, more: usize) -> bool
        requires { more < 2 ^ 32 }
        ensures { result ≡ fits_after self.now.current more }
    {
        match &self.current {
            Some(current) => current.len() + more + 1 <= MOST_BITS,
            None => false,
        }
    }

    /// Begins a packet, and closes the one before it. Fewer than 4,096 were begun.
    pub fn begin(
        &mut self,
        alloc: Global,
        version: Version,
        number: u64,
        head: Head,
    ) -> Result<(), Memory>
        requires count { length (all_bytes self.old) < unresolved_limit }
        requires words { IsHead head }
        requires head { IsTrue (is_head version (head_of head)) }
        ensures { OnOk result (self.new
            ≡ with_packet (start_bits version (number % packet_modulus) (head_of head)) self.old) }
    {
        let mut next = BitWriter::with_room(alloc, ROOM_BITS)?;
        put_start(
            version,
            &mut next,
            (number % PACKET_MODULUS as u64) as u16,
            head,
        );
        self.close()?;
        self.current = Some(next);
        Ok(())
    }

    /// Closes the current packet, where there is one.
    fn close(&mut self) -> Result<(), Memory>
        requires { length (all_bytes self.old) ≤ unresolved_limit }
        ensures closed { OnOk result (self.new
            ≡ record self.old { whole = all_bytes self.old; current = None }) }
        ensures most { OnOk result (whole_bytes self.new ≤ whole_bytes self.old + packet_bytes) }
    {
        if let Some(mut current) = self.current.take() {
            current.put_bit(true);
            let bytes = current.finish();
            let size = bytes.len();
            let number = self.first + self.whole.len() as u64;
            self.whole.push(Sent { number, bytes })?;
            self.size += size;
        }
        Ok(())
    }

    /// Appends an entry that fits into the current packet, and has a spelling.
    pub fn put(&mut self, version: Version, r: &Rec)
        requires rec { IsTrue (is_rec version (rec_of r.now)) }
        requires fits { IsTrue (fits_after self.old.current
            (length (rec_bits version (rec_of r.now)))) }
        ensures { self.new ≡ with_bits (rec_bits version (rec_of r.now)) self.old }
    {
        if let Some(current) = &mut self.current {
            put_rec(version, current, r);
        }
    }

    /// An entry found no room.
    pub fn refuse(&mut self)
        ensures { self.new ≡ record self.old { full = true } }
    {
        self.full = true;
    }

    /// The packets, with their numbers.
    pub fn finish(self) -> Result<SentList, Memory>
        requires { length (all_bytes self) ≤ unresolved_limit }
        ensures sent { IfOk result (λ sent. map sent_value sent
            ≡ numbered self.first (all_bytes self)) }
        ensures most { IfOk result (λ sent. sent_size sent ≤ whole_bytes self + packet_bytes) }
    {
        let mut packets = self;
        packets.close()?;
        let Packets { whole, .. } = packets;
        Ok(SentList::from_vec(whole))
    }
}
