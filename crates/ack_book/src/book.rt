// The book of one end of a connection.
ghost use Rattle.std.specs.Prelude.{◌≡◌, ◌+◌, ◌-◌, ◌^◌, ◌<◌, ◌≤◌, ◌↔◌, ◌∷◌, [], ℕ, List, IsOk, IsErr, IsTrue, IfOk, IfErr, OnOk, OnErr, slice_get, pos};
ghost use Rattle.protocol_model.specs.declared.Version.{Version};
ghost use Rattle.connection_model.specs.Feed.{Past, Deed, Item, Entry, Delivered};
ghost use Rattle.connection_model.specs.Fates.{is_new, number_near, top_of, last_sent, high_of, fate_of, unresolved_count, owed_of, head_of};
ghost use Rattle.protocol_model.specs.Packet.{is_head};
ghost use Rattle.protocol_model.specs.Sight.{Seen};
ghost use Rattle.protocol_model.specs.Limits.{packet_modulus, unresolved_limit};
ghost use Rattle.ack_book.specs.Book.{fates_kept};
ghost use Rattle.ack_book.specs.Keeps.{Keeps};
ghost use Rattle.ack_book.specs.Answers.{answer_to, named_in, names_unsent};
ghost use Rattle.bit_io.specs.HeadOf.{head_of as head_told, IsHead};

use crate::FATES_KEPT;
use crate::answer::{Acked, BadAck, Old};
use crate::history::{first_set, first_words, note_number, word_count};
use crate::ring::{mark_arrived, mark_named};
use bit_io::{Head, Memory, near};
use circular_buffer::HeapCircularBuffer;
use protocol_model::limits::{OWED_LIMIT, PACKET_MODULUS, UNRESOLVED_LIMIT};
use protocol_model::{Fate, Version};
use std::alloc::Global;
use std::marker::Model;

/// What one end knows of the packets that it sent and took.
///
/// A caller gives each packet the number that `sent` answers, and tells the book of each packet
/// taken by `take_number`, and then of its acknowledgements, by `take_ack` or `take_head`.
#[derive(Drop)]
pub struct AckBook {
    version: Version,
    last_sent: u64,
    high: u64,
    top: u64,
    base: u64,
    owed: HeapCircularBuffer<u64>,
    history: [u32; 8],
    arrived: Vec<bool>,
    told: Vec<u64>,
}

impl Model for AckBook {
    ghost use Rattle.std.specs.Prelude.{◌≡◌, ◌+◌, ◌≤◌, ◌<◌, ◌^◌, vec_len, vec_capacity};
    ghost use Rattle.protocol_model.specs.Limits.{owed_limit, unresolved_limit};
    ghost use Rattle.ack_book.specs.Book.{Book, fates_kept};

    ghost Value = { Book };

    ghost view = { λ b. record {
      version = b.version;
      last_sent = b.last_sent;
      high = b.high;
      top = b.top;
      base = b.base;
      owed = b.owed.items;
      history = b.history;
      arrived = b.arrived.items;
      told = b.told.items;
      room = record {
        owed = b.owed.capacity;
        arrived = vec_capacity b.arrived;
        told = vec_capacity b.told;
      };
    } };

    ghost invariant = { λ b. (vec_len b.arrived ≡ fates_kept) × (vec_len b.told ≡ unresolved_limit)
        × (b.owed.capacity ≡ owed_limit) × (b.high ≤ b.last_sent)
        × (b.last_sent ≤ b.high + unresolved_limit)
        × (b.last_sent ≤ 2 ^ 61) };
}

impl AckBook {
    /// An empty book, with all the memory that it ever needs.
    pub fn new(alloc: Global, version: Version) -> Result<AckBook, Memory>
        ensures { IfOk result (λ book. Keeps book version []) }
    {
        let owed = HeapCircularBuffer::with_capacity(alloc, OWED_LIMIT)?;
        let arrived = vec![in alloc; false; FATES_KEPT as usize]?;
        let told = vec![in alloc; 0; UNRESOLVED_LIMIT as usize]?;
        Ok(AckBook {
            version,
            last_sent: 0,
            high: 0,
            top: 0,
            base: 0,
            owed,
            history: [0; 8],
            arrived,
            told,
        })
    }

    /// The version of the packets.
    pub fn version(&self) -> Version
        ensures { result ≡ self.now.version }
    {
        self.version
    }

    /// The number of the last packet sent, 0 at first.
    pub fn last_sent(&self) -> u64
        ensures kept { result ≡ self.now.last_sent }
        ensures most { result ≤ 2 ^ 61 }
        ensures number { (version : Version) (past : Past) → Keeps self.now version past
            → result ≡ last_sent past }
    {
        self.last_sent
    }

    /// The greatest number of a packet that is known to have arrived, 0 at first.
    pub fn high(&self) -> u64
        ensures kept { result ≡ self.now.high }
        ensures most { result ≤ 2 ^ 61 }
        ensures number { (version : Version) (past : Past) → Keeps self.now version past
            → result ≡ high_of past }
    {
        self.high
    }

    /// The greatest number of a packet taken, 0 at first.
    pub fn top(&self) -> u64
        ensures kept { result ≡ self.now.top }
        ensures number { (version : Version) (past : Past) → Keeps self.now version past
            → result ≡ top_of past }
    {
        self.top
    }

    /// How many packets have an open fate, at most 4,096.
    pub fn unresolved(&self) -> u32
        ensures kept { self.now.high + result ≡ self.now.last_sent }
        ensures most { result ≤ unresolved_limit }
        ensures count { (version : Version) (past : Past) → Keeps self.now version past
            → result ≡ unresolved_count past }
    {
        (self.last_sent - self.high) as u32
    }

    /// The number of the packet that is sent now, one above the last.
    ///
    /// Fewer than 4,096 packets have an open fate, and numbers are below 2^61.
    pub fn sent(&mut self) -> u64
        requires room { self.old.last_sent < self.old.high + unresolved_limit }
        requires numbers { self.old.last_sent < 2 ^ 61 }
        ensures number { (version : Version) (past : Past) → Keeps self.old version past
            → result ≡ last_sent past + 1 }
        ensures keeps { (version : Version) (past : Past) (t : ℕ) (items : List Item)
            → Keeps self.old version past
            → Keeps self.new version (Deed.Sent result t items ∷ past) }
        ensures memory { self.new.room ≡ self.old.room }
    {
        let number = self.last_sent + 1;
        self.told[(number % UNRESOLVED_LIMIT) as usize] = self.top;
        self.last_sent = number;
        number
    }

    /// Takes the packet whose number's lowest 14 bits are `n`: its number is the nearest to the
    /// greatest one taken before. In version one it is owed an acknowledgement, and where 512 are
    /// owed the oldest is dropped.
    ///
    /// `Old` comes exactly where that number isn't above the greatest one taken, and changes
    /// nothing.
    pub fn take_number(&mut self, n: u16) -> Result<u64, Old>
        requires n_below { n < packet_modulus }
        requires numbers { self.old.top < 2 ^ 61 }
        ensures taken { (version : Version) (past : Past) → Keeps self.old version past
            → (IsOk result ↔ IsTrue (is_new past n)) }
        ensures number { (version : Version) (past : Past) → Keeps self.old version past
            → IfOk result (λ number. pos number ≡ number_near past n) }
        ensures old { (version : Version) (past : Past) → Keeps self.old version past
            → IfErr result (λ old. (old.number ≡ number_near past n) × (old.last ≡ top_of past)) }
        ensures keeps { IfOk result (λ number. (version : Version) (past : Past)
            → Keeps self.old version past
            → Keeps self.new version (Deed.Took number [] [] ∷ past)) }
        ensures unchanged { OnErr result (self.new ≡ self.old) }
        ensures memory { self.new.room ≡ self.old.room }
    {
        let number = near(n as u32, self.top as i64, PACKET_MODULUS);
        if number <= self.top as i64 {
            return Err(Old {
                number,
                last: self.top,
            });
        }
        let number = number as u64;
        let by = number - self.top;
        note_number(self.version, &mut self.owed, &mut self.history, number, by);
        self.top = number;
        Ok(number)
    }

    /// Takes an acknowledgement of the packet whose number's lowest 14 bits are `n`: its number is
    /// the nearest to the greatest one moved before. It stands in the packet that was taken last.
    ///
    /// `BadAck` comes exactly where that number is above the last one sent, and changes nothing.
    pub fn take_ack(&mut self, n: u16) -> Result<Acked, BadAck>
        requires { n < packet_modulus }
        ensures answer { (version : Version) (past : Past) → Keeps self.old version past
            → result ≡ answer_to past n }
        ensures keeps { OnOk result ((version : Version) (past : Past) (m : ℕ)
            (entries : List Entry) (handed : List Delivered)
            → Keeps self.old version (Deed.Took m entries handed ∷ past)
            → Keeps self.new version (Deed.Took m (Entry.Acked n ∷ entries) handed ∷ past)) }
        ensures unchanged { OnErr result (self.new ≡ self.old) }
        ensures memory { self.new.room ≡ self.old.room }
    {
        let acked = near(n as u32, self.high as i64, PACKET_MODULUS);
        if acked > self.last_sent as i64 {
            return Err(BadAck {
                acked,
                sent: self.last_sent,
            });
        }
        if acked <= self.high as i64 {
            return Ok(Acked::Ignored);
        }
        let (from, to) = (self.high, acked as u64);
        mark_arrived(&mut self.arrived, from, to);
        self.base = self.told[(to % UNRESOLVED_LIMIT) as usize];
        self.high = to;
        Ok(Acked::Moved { from, to })
    }

    /// What is known of packet `n`, which was sent, and after which fewer than 8,192 were.
    pub fn fate(&self, n: u64) -> Fate
        requires first { 1 ≤ n }
        requires sent { n ≤ self.now.last_sent }
        requires kept { self.now.last_sent < n + fates_kept }
        ensures { (version : Version) (past : Past) → Keeps self.now version past
            → result ≡ fate_of past n }
    {
        if n > self.high {
            Fate::Open
        } else if self.arrived[(n % FATES_KEPT) as usize] {
            Fate::Arrived
        } else {
            Fate::Lost
        }
    }

    /// The `i`-th number that is owed an acknowledgement, oldest first, or nothing past the last
    /// one.
    pub fn owed(&self, i: usize) -> Option<u64>
        ensures kept { result ≡ slice_get self.now.owed i }
        ensures number { (version : Version) (past : Past) → Keeps self.now version past
            → result ≡ slice_get (owed_of version past) i }
    {
        self.owed.get(i).copied()
    }

    /// Owes nothing from now on, as at the beginning of a tick.
    pub fn clear_owed(&mut self)
        ensures keeps { (version : Version) (past : Past) (t : ℕ) (sight : List Seen)
            → Keeps self.old version past → Keeps self.new version (Deed.Ticked t sight ∷ past) }
        ensures memory { self.new.room ≡ self.old.room }
    {
        self.owed.clear();
    }

    /// What a packet tells of the packets taken: in version two the greatest number taken and the
    /// history below it, as far back as packets may not yet be known to be told; nothing in version
    /// one.
    pub fn head(&self) -> Head
        ensures head { (version : Version) (past : Past) → Keeps self.now version past
            → head_told result ≡ head_of version past }
        ensures whole { IsHead result }
        ensures spelled { IsTrue (is_head self.now.version (head_told result)) }
    {
        match self.version {
            Version::One => Head {
                top: 0,
                count: 0,
                words: [0; 8],
            },
            Version::Two => {
                let count = word_count(self.top.saturating_sub(self.base));
                Head {
                    top: (self.top % PACKET_MODULUS as u64) as u16,
                    count,
                    words: first_words(&self.history, count),
                }
            }
        }
    }

    /// Takes the head of the packet that was taken last: each number that it names and that is
    /// above the greatest one moved before arrived, and those between are lost.
    ///
    /// `BadAck` comes exactly where it names a number above the last one sent, and changes nothing.
    /// It keeps the greatest number named.
    pub fn take_head(&mut self, h: Head) -> Result<(), BadAck>
        requires top { h.top < packet_modulus }
        requires whole { IsHead h }
        ensures bad { (version : Version) (past : Past) → Keeps self.old version past
            → (IsErr result ↔ IsTrue (names_unsent past (head_told h))) }
        ensures values { (version : Version) (past : Past) → Keeps self.old version past
            → IfErr result (λ bad. (slice_get (named_in past (head_told h)) 0 ≡ Some bad.acked)
            × (bad.sent ≡ last_sent past)) }
        ensures keeps { OnOk result ((version : Version) (past : Past) (m : ℕ)
            (entries : List Entry) (handed : List Delivered)
            → Keeps self.old version (Deed.Took m entries handed ∷ past)
            → Keeps self.new version
            (Deed.Took m (Entry.Told (head_told h) ∷ entries) handed ∷ past)) }
        ensures unchanged { OnErr result (self.new ≡ self.old) }
        ensures memory { self.new.room ≡ self.old.room }
    {
        let top = near(h.top as u32, self.high as i64, PACKET_MODULUS);
        let Some(first) = first_set(&h.words) else {
            return Ok(());
        };
        let greatest = top - first as i64;
        if greatest > self.last_sent as i64 {
            return Err(BadAck {
                acked: greatest,
                sent: self.last_sent,
            });
        }
        if greatest <= self.high as i64 {
            return Ok(());
        }
        let (from, newest) = (self.high, greatest as u64);
        mark_named(&mut self.arrived, &h.words, first as u64, from, newest);
        self.base = self.told[(newest % UNRESOLVED_LIMIT) as usize];
        self.high = newest;
        Ok(())
    }
}
