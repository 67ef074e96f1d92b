// The channels of one end.
ghost use Rattle.std.specs.Prelude.{◌≡◌, ◌≢◌, ◌⊎◌, ◌+◌, ◌<◌, ◌≤◌, ◌==◌, ◌^◌, ◌∷◌, ◌++◌, [], ℕ, List, nat_lt, length, true, false, None, Some, option_map, slice_get, if◌then◌else◌, IfOk, OnOk, OnErr, IsErr};
ghost use Rattle.protocol_model.specs.Limits.{channels_two, payload_bits, part_bits, waiting_limit};
ghost use Rattle.protocol_model.specs.Side.{Side, AtServer, AtClient};
ghost use Rattle.protocol_model.specs.Packet.{Bunch as BunchSpec};
ghost use Rattle.protocol_model.specs.Payload.{Message as MessageSpec, message_bits, part_count};
ghost use Rattle.connection_model.specs.Feed.{Past, Deed, Item, Entry, Delivered as DeliveredSpec};
ghost use Rattle.connection_model.specs.Bunches.{room as room_of, span as span_of, made_count, is_due, after_making};
ghost use Rattle.packet_codec.specs.Values.{bunch_of};
ghost use Rattle.channel_laws.specs.Moves.{IsMove};
ghost use Rattle.channel_laws.specs.Due.{next_due};
ghost use Rattle.channel_laws.specs.Sendings.{are_sendings};
ghost use Rattle.outgoing_channels.specs.Keeps.{kept_bunch};
ghost use Rattle.outgoing_channels.specs.Made.{IsMarked};
ghost use Rattle.channel_table.specs.Holders.{channel_bound, actor_bound, IsPaired, other_than};
ghost use Rattle.channel_table.specs.Keeps.{Keeps, IsSpent};
ghost use Rattle.channel_table.specs.Stands.{Stands};
ghost use Rattle.receiving_laws.specs.Receiving.{raws_heard};
ghost use Rattle.incoming_channels.specs.Messages.{AreRaws};
ghost use Rattle.receiving_laws.specs.Readings.{AreRead};
ghost use Rattle.channel_table.specs.Calls.{waiting_value};

use crate::calls::{Waiting, WaitingCall};
use crate::holders::Holders;
use bit_io::{Bits, Memory};
use incoming_channels::{Delivered, IncomingChannels};
use link_end::FateMove;
use net_core::Guid;
use outgoing_channels::{Mark, OutgoingChannels};
use packet_codec::Bunch;
use protocol_model::limits::WAITING_LIMIT;
use std::alloc::Global;
use std::marker::Model;

/// The channels of one end.
///
/// A want of memory in `receive` ends the table: from then on it is spent, and each call that can
/// answer `Memory` does.
#[derive(Drop)]
pub struct ChannelTable {
    out: OutgoingChannels,
    incoming: IncomingChannels,
    holders: Holders,
    calls: Vec<WaitingCall>,
}

impl Model for ChannelTable {
    ghost use Rattle.channel_table.specs.Channels.{Channels};

    ghost Value = { Channels };

    ghost view = { λ t. record {
      made = t.out;
      got = t.incoming;
      bound = t.holders;
      waiting = t.calls.items;
      high = t.out.high;
    } };
}

impl ChannelTable {
    /// No channel is used.
    pub fn new(alloc: Global, server: bool) -> Result<ChannelTable, Memory>
        ensures server { server ≡ true → IfOk result (λ t. Stands t AtServer []) }
        ensures client { server ≡ false → IfOk result (λ t. Stands t AtClient []) }
        ensures count { IfOk result (λ t. t.made.count ≡ 0) }
    {
        let out = OutgoingChannels::new(alloc)?;
        let holders = Holders::new(alloc)?;
        Ok(ChannelTable {
            out,
            incoming: IncomingChannels::new(alloc, server),
            holders,
            calls: Vec::new(alloc),
        })
    }

    /// Ends the table, as a want of memory does: for a caller that ran out of memory beside it.
    pub fn spend(&mut self)
        ensures { IsSpent self.new }
    {
        self.incoming.spend();
    }

    // ---- what is made

    /// How many bunches can be made on a channel.
    pub fn room(&self, channel: u16) -> u32
        ensures { (side : Side) (past : Past) → Keeps self.now side past
            → result ≡ room_of past channel }
    {
        self.out.room(channel)
    }

    /// The channel's next number less the least that hasn't arrived.
    pub fn span(&self, channel: u16) -> u32
        ensures { (side : Side) (past : Past) → Keeps self.now side past
            → result ≡ span_of past channel }
    {
        self.out.span(channel)
    }

    /// The least index above 0 that no actor is bound to and whose span is 0; at most 32,768.
    pub fn free_index(&self) -> u16
        ensures free { (side : Side) (past : Past) → Keeps self.now side past
            → (span_of past result ≡ 0)
            × (actor_bound self.now.bound result ≡ None) × (1 ≤ result) }
        ensures least { (side : Side) (past : Past) (ch : ℕ) → Keeps self.now side past → 1 ≤ ch
            → ch < result
            → span_of past ch ≡ 0 → actor_bound self.now.bound ch ≢ None }
    {
        let index = self.holders.used().least_outside(self.out.active());
        index as u16
    }

    /// Makes the bunches of a payload, and answers the number of the first. The payload has at most
    /// 70,000 bits and no more parts than there is room. `Memory` changes nothing.
    pub fn push(&mut self, channel: u16, mark: Mark, payload: Bits) -> Result<u64, Memory>
        requires channel { channel < channels_two }
        requires most { length payload ≤ payload_bits }
        requires room { IsSpent self.old ⊎ ((side : Side) × (past : Past) × Keeps self.old side past
            × (part_count (length payload) ≤ room_of past channel)) }
        requires few { self.old.made.count < 2 ^ 60 }
        ensures number { IfOk result (λ n. (side : Side) (past : Past) → Keeps self.old side past
            → n ≡ made_count past channel + 1) }
        ensures keeps { OnOk result ((side : Side) (sent past : Past) (message : MessageSpec)
            → Keeps self.old side (sent ++ past) → are_sendings sent ≡ true
            → message_bits message ≡ payload → IsMarked mark message
            → Keeps self.new side (sent ++ after_making past channel message)) }
        ensures count { OnOk result (self.new.made.count
            ≡ self.old.made.count + part_count (length payload)) }
        ensures bound { OnOk result (self.new.bound ≡ self.old.bound) }
        ensures waiting { OnOk result (self.new.waiting ≡ self.old.waiting) }
        ensures err { OnErr result (self.new ≡ self.old) }
        ensures after { IsSpent self.old → IsErr result }
    {
        if self.incoming.is_spent() {
            return Err(Memory);
        }
        self.out.push(channel, mark, payload)
    }

    /// The next due bunch by channel and number, at or after a place.
    pub fn due(&self, channel: u16, from: u64) -> Option<(u16, u64)>
        ensures { (side : Side) (past : Past) → Keeps self.now side past
            → option_map (λ (p : ℕ × ℕ). (p.0, p.1)) result ≡ next_due past channel from }
    {
        self.out.due(channel, from)
    }

    /// A bunch as it goes into a packet; `None` exactly where it wasn't made, or it and all before
    /// it on its channel have arrived.
    pub fn bunch(&self, channel: u16, n: u64) -> Option<Bunch<'_>>
        ensures { (side : Side) (past : Past) → Keeps self.now side past
            → option_map bunch_of result ≡ kept_bunch past channel n }
    {
        self.out.bunch(channel, n)
    }

    /// Notes that a due bunch goes in a packet of this tick, whose number is above each that moved.
    pub fn carried(&mut self, channel: u16, n: u64, packet: u64)
        requires due { (side : Side) × (past : Past) × (t : ℕ) × (items : List Item)
            × Keeps self.old side (Deed.Sent packet t items ∷ past)
            × (is_due (Deed.Sent packet t items ∷ past) channel n ≡ true) × (1 ≤ n)
            × (n ≤ made_count past channel) }
        requires above { self.old.high < packet }
        ensures keeps { (side : Side) (past : Past) (t : ℕ) (items : List Item) (bunch : BunchSpec)
            → Keeps self.old side (Deed.Sent packet t items ∷ past)
            → Keeps self.new side (Deed.Sent packet t (items ++ Item.Carries channel n bunch ∷ [])
            ∷ past) }
        ensures count { self.new.made.count ≡ self.old.made.count }
        ensures bound { self.new.bound ≡ self.old.bound }
        ensures waiting { self.new.waiting ≡ self.old.waiting }
    {
        self.out.carried(channel, n, packet);
    }

    /// Notes the fates that a move tells. It begins where the last one ended.
    pub fn moved(&mut self, m: FateMove)
        requires from { self.old.high ≡ m.from }
        requires above { m.from < m.to }
        ensures keeps { (side : Side) (past after : Past) → Keeps self.old side past
            → IsMove m.from m.to past after → Keeps self.new side after }
        ensures count { self.new.made.count ≡ self.old.made.count }
        ensures bound { self.new.bound ≡ self.old.bound }
        ensures waiting { self.new.waiting ≡ self.old.waiting }
    {
        self.out.moved(m.to);
    }

    // ---- who holds a channel

    /// Binds a channel to an actor, neither of which is bound. `Memory` changes nothing.
    pub fn bind(&mut self, channel: u16, actor: Guid) -> Result<(), Memory>
        requires index { 1 ≤ channel }
        requires most { channel < channels_two }
        requires channel_free { IsSpent self.old ⊎ (actor_bound self.old.bound channel ≡ None) }
        requires actor_free { IsSpent self.old ⊎ (channel_bound self.old.bound actor ≡ None) }
        ensures channels { OnOk result ((a : ℕ) → channel_bound self.new.bound a
            ≡ (if a == actor then Some channel else channel_bound self.old.bound a)) }
        ensures actors { OnOk result ((ch : ℕ) → actor_bound self.new.bound ch
            ≡ (if ch == channel then Some actor else actor_bound self.old.bound ch)) }
        ensures pairs { OnOk result (IsPaired self.new.bound) }
        ensures rest { OnOk result (self.new ≡ record self.old { bound = self.new.bound }) }
        ensures err { OnErr result (self.new ≡ self.old) }
        ensures after { IsSpent self.old → IsErr result }
    {
        if self.incoming.is_spent() {
            return Err(Memory);
        }
        self.holders.bind(channel, actor)
    }

    /// The channel is bound to nothing any more, nor its actor.
    pub fn unbind(&mut self, channel: u16)
        ensures channels { (a : ℕ) → channel_bound self.new.bound a
            ≡ other_than channel (channel_bound self.old.bound a) }
        ensures actors { (ch : ℕ) → actor_bound self.new.bound ch
            ≡ (if ch == channel then None else actor_bound self.old.bound ch) }
        ensures pairs { IsPaired self.new.bound }
        ensures rest { self.new ≡ record self.old { bound = self.new.bound } }
    {
        self.holders.unbind(channel);
    }

    /// The actor that a channel is bound to.
    pub fn actor_at(&self, channel: u16) -> Option<Guid>
        ensures { result ≡ actor_bound self.now.bound channel }
    {
        self.holders.actor_at(channel)
    }

    /// The channel that is bound to an actor.
    pub fn channel_of(&self, actor: Guid) -> Option<u16>
        ensures { result ≡ channel_bound self.now.bound actor }
    {
        self.holders.channel_of(actor)
    }

    // ---- what is received

    /// Takes a bunch: the whole payloads that it hands on, and the rule that it breaks after them.
    /// After `Memory` the table is spent.
    ///
    /// The layer above reads the payloads, and the table stands for the past with whatever they
    /// were read as, as long as each is of its channel, and opens and closes it as its bunch says.
    pub fn receive(&mut self, b: &Bunch) -> Result<Delivered, Memory>
        ensures whole { IfOk result (λ d. (side : Side) (past : Past) → Keeps self.old side past
            → AreRaws (raws_heard side past (bunch_of b.now)).whole d.whole) }
        ensures cause { IfOk result (λ d. (side : Side) (past : Past) → Keeps self.old side past
            → d.cause ≡ (raws_heard side past (bunch_of b.now)).cause) }
        ensures keeps { IfOk result (λ d. (side : Side) (past : Past) (m : ℕ) (entries : List Entry)
            (handed after : List DeliveredSpec)
            → Keeps self.old side (Deed.Took m entries handed ∷ past) → d.cause ≡ None
            → AreRead (raws_heard side (Deed.Took m entries handed ∷ past) (bunch_of b.now)).whole
            handed after
            → Keeps self.new side (Deed.Took m (Entry.Heard (bunch_of b.now) ∷ entries) after ∷
            past)) }
        ensures made { self.new.made ≡ self.old.made }
        ensures bound { self.new.bound ≡ self.old.bound }
        ensures waiting { self.new.waiting ≡ self.old.waiting }
        ensures spent { OnErr result (IsSpent self.new) }
        ensures after { IsSpent self.old → IsErr result }
    {
        let delivered = self.incoming.receive(b)?;
        Ok(delivered)
    }

    // ---- calls that wait

    /// Keeps an unreliable call of at most 7,000 bits until the end of the next tick; false exactly
    /// where 256 wait. `Memory` and false change nothing.
    pub fn queue(&mut self, actor: Guid, call: u16, payload: Bits) -> Result<bool, Memory>
        requires { length payload ≤ part_bits }
        ensures full { IfOk result (λ kept. kept ≡ nat_lt (length self.old.waiting) waiting_limit) }
        ensures kept { IfOk result (λ kept. kept ≡ true → self.new
            ≡ record self.old {
              waiting = self.old.waiting ++ record {
                actor = actor;
                call = call;
                bits = payload;
              } ∷ [];
            }) }
        ensures refused { IfOk result (λ kept. kept ≡ false → self.new ≡ self.old) }
        ensures err { OnErr result (self.new ≡ self.old) }
        ensures after { IsSpent self.old → IsErr result }
    {
        if self.incoming.is_spent() {
            return Err(Memory);
        }
        if self.calls.len() >= WAITING_LIMIT {
            return Ok(false);
        }
        let waiting = WaitingCall {
            actor,
            call,
            bits: payload,
        };
        self.calls.push(waiting)?;
        Ok(true)
    }

    /// The i-th call that waits, in the order made.
    pub fn waiting(&self, i: usize) -> Option<Waiting<'_>>
        ensures { option_map waiting_value result ≡ slice_get self.now.waiting i }
    {
        if i >= self.calls.len() {
            return None;
        }
        let call = &self.calls[i];
        Some(Waiting {
            actor: call.actor,
            call: call.call,
            bits: call.bits.lend(),
        })
    }

    /// No call waits any more.
    pub fn clear_waiting(&mut self)
        ensures { self.new ≡ record self.old { waiting = [] } }
    {
        self.calls.clear();
    }
}
