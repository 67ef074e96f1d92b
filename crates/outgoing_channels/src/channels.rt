// The reliable bunches of one end, on all channels.
ghost use Rattle.std.specs.Prelude.{◌≡◌, ◌+◌, ◌<◌, ◌≤◌, ◌^◌, ◌∷◌, ◌++◌, [], ℕ, List, length, true, Some, Option, option_map, if◌then◌else◌, ◌==◌, IfOk, OnOk, OnErr};
ghost use Rattle.protocol_model.specs.Limits.{channels_two, payload_bits, span_limit};
ghost use Rattle.protocol_model.specs.Packet.{Bunch as BunchSpec};
ghost use Rattle.protocol_model.specs.Payload.{Message, message_bits, part_count};
ghost use Rattle.connection_model.specs.Feed.{Past, Deed, Item};
ghost use Rattle.connection_model.specs.Bunches.{room as room_of, span as span_of, made_count, is_due, after_making};
ghost use Rattle.packet_codec.specs.Values.{bunch_of};
ghost use Rattle.channel_laws.specs.Moves.{IsMove};
ghost use Rattle.reliable_window.specs.Bits.{bit_in};
ghost use Rattle.channel_laws.specs.Due.{next_due};
ghost use Rattle.channel_laws.specs.Sendings.{are_sendings};
ghost use Rattle.outgoing_channels.specs.Keeps.{KeepsMade, kept_bunch};
ghost use Rattle.outgoing_channels.specs.Made.{IsMarked};
ghost use Rattle.outgoing_channels.specs.Slots.{slot_at, WindowFits, Marks, FindsPlace};

use crate::cutting::cut_up;
use crate::index_set::IndexSet;
use crate::made_bunch::MadeBunch;
use crate::making::make_on;
use crate::mark::Mark;
use crate::settling::settle_all;
use crate::slot::{OutSlot, carried_on, slot_of};
use bit_io::{Bits, Memory};
use packet_codec::Bunch;
use partial_bunches::parts;
use protocol_model::limits::{SPAN_LIMIT, SPAN_SUM_LIMIT};
use reliable_window::OutWindow;
use std::alloc::Global;
use std::marker::Model;

/// The reliable bunches of one end, on all channels, until they have arrived.
///
/// A bunch goes through these states; `carried` is asked for a due one alone, and a bunch is
/// forgotten once it and all before it on its channel have arrived.
///
///     push -> due --carried--> under way --moved to its packet--> arrived
///              ^                   |
///              +--moved past it----+
///
/// A channel that keeps bunches has a window of its own, with memory for 256; a window that is
/// empty is put by for another channel. `due` and `moved` look at the channels that keep bunches
/// alone, and `moved` at each bunch of these; every other call takes constant time, but for the
/// payload that `push` cuts. Want of memory, which `push` alone can meet, changes nothing.
#[derive(Drop)]
pub struct OutgoingChannels {
    alloc: Global,
    slots: Vec<OutSlot>,
    spare: Vec<OutWindow<MadeBunch>>,
    active: IndexSet,
    span_sum: u32,
    high: u64,
    count: u64,
}

impl Model for OutgoingChannels {
    ghost use Rattle.std.specs.Prelude.{◌≡◌, ◌≤◌, ℕ, map, length};
    ghost use Rattle.protocol_model.specs.Limits.{channels_two};
    ghost use Rattle.outgoing_channels.specs.Made.{Made};
    ghost use Rattle.outgoing_channels.specs.Slots.{outgoing_of, slot_at, SlotFits, Marks};

    ghost Value = { Made };

    ghost view = { λ t. record {
      out = map outgoing_of t.slots.items;
      span_sum = t.span_sum;
      high = t.high;
      count = t.count;
    } };

    ghost invariant = { λ t. (length t.slots.items ≤ channels_two)
        × (Marks t.active t.slots.items)
        × ((ch : ℕ) → SlotFits t.high t.count (slot_at t.slots.items ch)) };
}

impl OutgoingChannels {
    /// No bunch was made.
    pub fn new(alloc: Global) -> Result<OutgoingChannels, Memory>
        ensures keeps { IfOk result (λ t. KeepsMade t []) }
        ensures count { IfOk result (λ t. t.count ≡ 0) }
    {
        let active = IndexSet::new(alloc)?;
        Ok(OutgoingChannels {
            alloc,
            slots: Vec::new(alloc),
            spare: Vec::new(alloc),
            active,
            span_sum: 0,
            high: 0,
            count: 0,
        })
    }

    /// How many bunches can be made on a channel before one more has to arrive: 256 less its span,
    /// or less where all spans together would pass 512.
    pub fn room(&self, channel: u16) -> u32
        ensures { (past : Past) → KeepsMade self.now past → result ≡ room_of past channel }
    {
        let most = (SPAN_SUM_LIMIT as u32).saturating_sub(self.span_sum);
        most.min(SPAN_LIMIT as u32 - self.span(channel))
    }

    /// The channel's next number less the least that hasn't arrived, from 0 to 256.
    pub fn span(&self, channel: u16) -> u32
        ensures span { (past : Past) → KeepsMade self.now past → result ≡ span_of past channel }
        ensures most { result ≤ span_limit }
    {
        match slot_of(&self.slots, channel as usize) {
            Some(slot) => slot.span(),
            None => 0,
        }
    }

    /// The channels whose span isn't 0.
    pub fn active(&self) -> &IndexSet
        ensures bits { (past : Past) (ch : ℕ) → KeepsMade self.now past → ch < channels_two
            → bit_in result.now ch ≡ (if span_of past ch == 0 then 0 else 1) }
        ensures most { (past : Past) (ch : ℕ) → KeepsMade self.now past → channels_two ≤ ch
            → span_of past ch ≡ 0 }
    {
        &self.active
    }

    /// Makes the bunches of a payload, and answers the number of the first. The payload has at most
    /// 70,000 bits and no more parts than there is room; fewer than 2^60 bunches were made so far.
    /// `Memory` changes nothing.
    pub fn push(&mut self, channel: u16, mark: Mark, payload: Bits) -> Result<u64, Memory>
        requires channel { channel < channels_two }
        requires most { length payload ≤ payload_bits }
        requires room { (past : Past) × KeepsMade self.old past
            × (part_count (length payload) ≤ room_of past channel) }
        requires few { self.old.count < 2 ^ 60 }
        ensures number { IfOk result (λ n. (past : Past) → KeepsMade self.old past
            → n ≡ made_count past channel + 1) }
        ensures keeps { OnOk result ((past : Past) (message : Message) → KeepsMade self.old past
            → message_bits message ≡ payload → IsMarked mark message
            → KeepsMade self.new (after_making past channel message)) }
        ensures count { OnOk result (self.new.count
            ≡ self.old.count + part_count (length payload)) }
        ensures high { OnOk result (self.new.high ≡ self.old.high) }
        ensures err { OnErr result (self.new ≡ self.old) }
    {
        let len = payload.len();
        let (first, rest) = cut_up(self.alloc, payload)?;
        let count = parts(len);
        let (alloc, slots, spare) = (self.alloc, &mut self.slots, &mut self.spare);
        let number = make_on(alloc, slots, spare, channel, mark, len, first, rest)?;
        self.active.put(channel as usize, true);
        self.span_sum += count as u32;
        self.count += count as u64;
        Ok(number)
    }

    /// The next due bunch by channel and number, at or after a place: one that was never carried,
    /// or that a lost packet carried last. `None` exactly where there is none.
    pub fn due(&self, channel: u16, from: u64) -> Option<(u16, u64)>
        ensures { (past : Past) → KeepsMade self.now past
            → option_map (λ (p : ℕ × ℕ). (p.0, p.1)) result ≡ next_due past channel from }
    {
        due_from(&self.slots, &self.active, channel, from)
    }

    /// A bunch as it goes into a packet; `None` exactly where it wasn't made, or it and all before
    /// it on its channel have arrived.
    pub fn bunch(&self, channel: u16, n: u64) -> Option<Bunch<'_>>
        ensures { (past : Past) → KeepsMade self.now past
            → option_map bunch_of result ≡ kept_bunch past channel n }
    {
        match slot_of(&self.slots, channel as usize) {
            Some(slot) => slot.bunch(n),
            None => None,
        }
    }

    /// A packet that is under way carries a due bunch. Its number is above each that moved.
    pub fn carried(&mut self, channel: u16, n: u64, packet: u64)
        requires due { (past : Past) × (t : ℕ) × (items : List Item)
            × KeepsMade self.old (Deed.Sent packet t items ∷ past)
            × (is_due (Deed.Sent packet t items ∷ past) channel n ≡ true) × (1 ≤ n)
            × (n ≤ made_count past channel) }
        requires above { self.old.high < packet }
        ensures keeps { (past : Past) (t : ℕ) (items : List Item) (bunch : BunchSpec)
            → KeepsMade self.old (Deed.Sent packet t items ∷ past)
            → KeepsMade self.new (Deed.Sent packet t (items ++ Item.Carries channel n bunch ∷ []) ∷
            past) }
        ensures count { self.new.count ≡ self.old.count }
        ensures high { self.new.high ≡ self.old.high }
    {
        carried_on(&mut self.slots, channel as usize, n, packet);
    }

    /// A packet arrived, and those before it of which nothing was known are lost. Its number is
    /// above each that moved.
    pub fn moved(&mut self, to: u64)
        requires above { self.old.high < to }
        ensures keeps { (past after : Past) → KeepsMade self.old past
            → IsMove self.old.high to past after → KeepsMade self.new after }
        ensures count { self.new.count ≡ self.old.count }
        ensures high { self.new.high ≡ to }
    {
        self.span_sum = settle_all(&mut self.slots, &mut self.spare, &mut self.active, to);
        self.high = to;
    }
}

/// The next due bunch of these channels by channel and number, at or after a place.
fn due_from(slots: &Vec<OutSlot>, active: &IndexSet, channel: u16, from: u64) -> Option<(u16, u64)>
    requires most { length slots.now.items ≤ channels_two }
    requires marks { Marks active.now slots.now.items }
    requires fits { (high : ℕ) × ((c : ℕ)
        → WindowFits high (slot_at slots.now.items c).next (slot_at slots.now.items c).window) }
    ensures { FindsPlace slots.now.items channel from result }
{
    let mut at = channel as usize;
    while let Some(next) = active.next(at) {
        let from = if next == channel as usize { from } else { 0 };
        if let Some(slot) = slot_of(slots, next) {
            if let Some(n) = slot.due(from) {
                return Some((next as u16, n));
            }
        }
        at = next + 1;
    }
    None
}
