// One end of a connection's packets.
ghost use Rattle.std.specs.Prelude.{◌≡◌, ◌⊎◌, ◌+◌, ◌*◌, ◌/◌, ◌<◌, ◌≤◌, ◌^◌, ◌∷◌, [], ℕ, ℤ, List, map, reverse, length, true, false, None, Some, Ok, Err, IfOk, OnOk, OnErr, IsErr, IsErrOf, IsOk, IsTrue, nat_le, nat_lt, ◌&&◌};
ghost use Rattle.protocol_model.specs.Limits.{packet_bytes, packet_modulus, unresolved_limit, budget_limit};
ghost use Rattle.protocol_model.specs.Packet.{Packet};
ghost use Rattle.protocol_model.specs.PacketReading.{packet_of};
ghost use Rattle.protocol_model.specs.Sight.{Seen};
ghost use Rattle.connection_model.specs.Feed.{End, Past, Deed, Item, Delivered};
ghost use Rattle.connection_model.specs.Fates.{unresolved_count, last_sent, top_of};
ghost use Rattle.connection_model.specs.Pack.{Packing, has_room, after_offer, after_packing, rec_of};
ghost use Rattle.connection_model.specs.Verdict.{entries_in};
ghost use Rattle.protocol_model.specs.declared.Why.{Why};
ghost use Rattle.packet_codec.specs.Values.{rec_of as rec_value};
ghost use Rattle.link_end.specs.Rests.{Rests, IsSpent};
ghost use Rattle.link_end.specs.Packs.{Packs};
ghost use Rattle.link_end.specs.Answers.{IsTake, beginning, new_packets, sent_value, sent_size};
ghost use Rattle.link_end.specs.Begun.{IsPackable};

use crate::arrival::{Arrival, EntryList, OfferRefusal, TakeRefusal};
use crate::begin::{
    LAST_NUMBER, asks_for_packet, end_packets, first_packets, longer_silence, make_room, may_begin,
    silence_after, tell_tick,
};
use crate::hear::{answers, hear};
use crate::packets::{Packets, rec_len};
use crate::sent::SentList;
use ack_book::AckBook;
use bit_io::Memory;
use packet_codec::{DecodeRefusal, Rec, decode};
use protocol_model::Version;
use protocol_model::limits::UNRESOLVED_LIMIT;
use std::alloc::Global;
use std::marker::Model;

/// The packets of one end: those that it sends, within its budget, and those that it takes.
#[derive(Drop)]
pub struct LinkEnd {
    alloc: Global,
    book: AckBook,
    budget: u32,
    silent: u8,
    heard: bool,
    begun: Option<Packets>,
    spent: bool,
}

impl Model for LinkEnd {
    ghost use Rattle.std.specs.Prelude.{◌≤◌};
    ghost use Rattle.link_end.specs.Link.{Link};
    ghost use Rattle.link_end.specs.Begun.{IsWithin};

    ghost Value = { Link };

    ghost view = { λ l. record {
      book = l.book;
      budget = l.budget;
      silent = l.silent;
      heard = l.heard;
      begun = l.begun;
      spent = l.spent;
    } };

    ghost invariant = { λ l. (1 ≤ l.budget) × IsWithin l.budget l.begun };
}

impl LinkEnd {
    /// Before the first packet, with a budget of 1 to 1,000,000 bits a tick.
    pub fn new(alloc: Global, budget: u32, version: Version) -> Result<LinkEnd, Memory>
        requires least { 1 ≤ budget }
        requires most { budget ≤ budget_limit }
        ensures { IfOk result (λ l. (end : End) → end.budget ≡ budget → end.version ≡ version
            → Rests l end []) }
    {
        Ok(LinkEnd {
            alloc,
            book: AckBook::new(alloc, version)?,
            budget,
            silent: 0,
            heard: false,
            begun: None,
            spent: false,
        })
    }

    /// Takes a datagram: its number is noted, and each acknowledgement up to the first bad one. No
    /// tick is begun.
    ///
    /// `Malformed` exactly where the bytes are no packet, else `Old` exactly where its number isn't
    /// above the last one taken; both change nothing. After `Memory` the link is spent.
    pub fn take<'a>(&mut self, bytes: &'a [u8]) -> Result<Arrival<'a>, TakeRefusal>
        requires { IsSpent self.old ⊎ ((end : End) × (past : Past) × Rests self.old end past) }
        ensures after { IsSpent self.old → result ≡ Err TakeRefusal.Memory }
        ensures answer { (end : End) (past : Past) → Rests self.old end past
            → IsTake end past bytes.now result }
        ensures near { IfOk result (λ a. (end : End) (past : Past) → Rests self.old end past
            → a.number < top_of past + packet_modulus / 2) }
        ensures stands { IfOk result (λ a. (end : End) (past : Past) (p : Packet)
            (handed : List Delivered)
            → Rests self.old end past → packet_of end.version bytes.now ≡ Ok p → a.bad ≡ None
            → Rests self.new end
            (Deed.Took a.number (reverse (entries_in end.version p)) handed ∷ past)) }
        ensures malformed { (at : ℕ) (why : Why) → IsErrOf result (TakeRefusal.Malformed at why)
            → self.new ≡ self.old }
        ensures old { (number : ℤ) (last : ℕ) → IsErrOf result (TakeRefusal.Old number last)
            → self.new ≡ self.old }
        ensures spent { IsErrOf result TakeRefusal.Memory → IsSpent self.new }
    {
        if self.spent {
            return Err(TakeRefusal::Memory);
        }
        let packet = match decode(self.alloc, self.book.version(), bytes) {
            Ok(packet) => packet,
            Err(DecodeRefusal::Malformed { at, why }) => {
                return Err(TakeRefusal::Malformed { at, why });
            }
            Err(DecodeRefusal::Memory) => {
                self.spent = true;
                return Err(TakeRefusal::Memory);
            }
        };
        if self.book.top() >= LAST_NUMBER {
            self.spent = true;
            return Err(TakeRefusal::Memory);
        }
        let number = match self.book.take_number(packet.number) {
            Ok(number) => number,
            Err(old) => {
                return Err(TakeRefusal::Old {
                    number: old.number,
                    last: old.last,
                });
            }
        };
        self.heard = answers(self.book.version());
        let Ok(arrival) = hear(self.alloc, &mut self.book, number, &packet) else {
            self.spent = true;
            return Err(TakeRefusal::Memory);
        };
        Ok(arrival)
    }

    /// Begins a tick: it takes the memory of one packet, and packs the acknowledgements owed. No
    /// tick is begun, and the link isn't stalled. After `Memory` the link is spent.
    pub fn begin_tick(&mut self) -> Result<(), Memory>
        requires { IsSpent self.old ⊎ ((end : End) × (past : Past) × Rests self.old end past
            × (unresolved_count past < unresolved_limit)) }
        ensures after { IsSpent self.old → IsErr result }
        ensures stands { OnOk result ((end : End) (past : Past) (sight : List Seen)
            → Rests self.old end past
            → Packs self.new end past (beginning end past sight)) }
        ensures spent { OnErr result (IsSpent self.new) }
    {
        if self.spent {
            return Err(Memory);
        }
        let Ok(packets) = first_packets(self.alloc, &self.book) else {
            self.spent = true;
            return Err(Memory);
        };
        tell_tick(&mut self.book, !packets.is_empty());
        self.silent = longer_silence(self.silent);
        self.begun = Some(packets);
        Ok(())
    }

    /// Whether `offer` would take this entry, want of memory aside. A tick is begun, and the entry
    /// has a spelling that fits into a packet by itself. Nothing fits into a link that is spent.
    pub fn fits(&self, r: &Rec) -> bool
        requires begun { IsSpent self.now ⊎ ((end : End) × (before : Past) × (p : Packing)
            × Packs self.now end before p
            × IsPackable end.version (rec_value r.now)) }
        ensures after { IsSpent self.now → result ≡ false }
        ensures room { (end : End) (before : Past) (p : Packing) (item : Item)
            → Packs self.now end before p
            → rec_of item ≡ rec_value r.now → result ≡ has_room end p item }
    {
        if self.spent {
            return false;
        }
        let Some(packets) = &self.begun else {
            return false;
        };
        packets.fits(rec_len(self.book.version(), r)) || may_begin(self.budget, &self.book, packets)
    }

    /// Packs an entry into the current packet, or into a new one, and answers the packet's number.
    /// A tick is begun, no entry found no room in it, and the entry has a spelling that fits into a
    /// packet by itself.
    ///
    /// `NoRoom` exactly where neither the current packet has room, nor the budget and the open
    /// packets let a new one begin. After `Memory` the link is spent.
    pub fn offer(&mut self, r: &Rec) -> Result<u64, OfferRefusal>
        requires begun { IsSpent self.old ⊎ ((end : End) × (before : Past) × (p : Packing)
            × Packs self.old end before p × (p.full ≡ false)
            × IsPackable end.version (rec_value r.now)) }
        ensures after { IsSpent self.old → result ≡ Err OfferRefusal.Memory }
        ensures room { (end : End) (before : Past) (p : Packing) (item : Item)
            → Packs self.old end before p
            → rec_of item ≡ rec_value r.now → IsOk result → has_room end p item ≡ true }
        ensures number { (end : End) (before : Past) (p : Packing) (item : Item)
            → Packs self.old end before p
            → rec_of item ≡ rec_value r.now
            → IfOk result (λ n. n ≡ last_sent p.past + length (after_offer end p item).packets) }
        ensures stands { OnOk result ((end : End) (before : Past) (p : Packing) (item : Item)
            → Packs self.old end before p
            → rec_of item ≡ rec_value r.now → Packs self.new end before (after_offer end p item)) }
        ensures no_room { (end : End) (before : Past) (p : Packing) (item : Item)
            → Packs self.old end before p
            → rec_of item ≡ rec_value r.now → IsErrOf result OfferRefusal.NoRoom
            → (has_room end p item ≡ false) × Packs self.new end before (record p { full = true }) }
        ensures spent { IsErrOf result OfferRefusal.Memory → IsSpent self.new }
    {
        if self.spent {
            return Err(OfferRefusal::Memory);
        }
        let Some(packets) = &mut self.begun else {
            return Err(OfferRefusal::Memory);
        };
        let version = self.book.version();
        let bits = rec_len(version, r);
        match make_room(self.alloc, self.budget, &mut self.book, packets, bits) {
            Ok(()) => {}
            Err(OfferRefusal::NoRoom) => return Err(OfferRefusal::NoRoom),
            Err(OfferRefusal::Memory) => {
                self.spent = true;
                self.begun = None;
                return Err(OfferRefusal::Memory);
            }
        }
        packets.put(version, r);
        Ok(self.book.last_sent())
    }

    /// Ends the tick: where no packet was begun an empty one goes where one is called for. Answers
    /// the tick's packets. After `Memory` the link is spent.
    pub fn end_tick(&mut self) -> Result<SentList, Memory>
        requires { IsSpent self.old ⊎ ((end : End) × (before : Past) × (p : Packing)
            × Packs self.old end before p) }
        ensures after { IsSpent self.old → IsErr result }
        ensures sent { IfOk result (λ sent. (end : End) (before : Past) (p : Packing)
            → Packs self.old end before p
            → map sent_value sent ≡ new_packets end p.past (after_packing end before p)) }
        ensures stands { OnOk result ((end : End) (before : Past) (p : Packing)
            → Packs self.old end before p
            → Rests self.new end (after_packing end before p)) }
        ensures bits { IfOk result (λ sent.
            8 * sent_size sent < self.old.budget + 8 * packet_bytes) }
        ensures spent { OnErr result (IsSpent self.new) }
    {
        if self.spent {
            return Err(Memory);
        }
        let Some(packets) = self.begun.take() else {
            return Err(Memory);
        };
        let unresolved = self.book.unresolved();
        let asks = asks_for_packet(self.heard, self.silent, unresolved);
        let Ok(sent) = end_packets(self.alloc, &mut self.book, packets, asks) else {
            self.spent = true;
            return Err(Memory);
        };
        self.silent = silence_after(self.silent, !sent.is_empty());
        self.heard = false;
        Ok(sent)
    }

    /// Ends the link, as a want of memory does: for a caller that ran out of memory beside it.
    pub fn spend(&mut self)
        ensures { IsSpent self.new }
    {
        self.spent = true;
        self.begun = None;
    }

    /// 4,096 packets are open.
    pub fn stalled(&self) -> bool
        ensures { (end : End) (past : Past) → Rests self.now end past
            → result ≡ nat_le unresolved_limit (unresolved_count past) }
    {
        self.book.unresolved() as u64 >= UNRESOLVED_LIMIT
    }

    /// The greatest number taken, 0 at first.
    pub fn top(&self) -> u64
        ensures kept { result ≡ self.now.book.top }
    {
        self.book.top()
    }
}
