// Bunches that are offered to the packets of a tick.
ghost use Rattle.std.specs.Prelude.{◌≡◌, ◌⊎◌, ◌<◌, ◌≤◌, ℕ, true, false, not, Some, IsErr, IfOk, OnOk, OnErr, length};
ghost use Rattle.protocol_model.specs.Limits.{part_bits};
ghost use Rattle.protocol_model.specs.Packet.{channel_limit};
ghost use Rattle.protocol_model.specs.Payload.{Message, message_bits};
ghost use Rattle.protocol_model.specs.Side.{Side};
ghost use Rattle.connection_model.specs.Feed.{End, Past, Item};
ghost use Rattle.connection_model.specs.Items.{loose_item, carrying_item, due_items};
ghost use Rattle.connection_model.specs.Pack.{Packing, rec_of, has_room, after_offer};
ghost use Rattle.bit_io.specs.Lent.{slice_bits};
ghost use Rattle.packet_codec.specs.Values.{bunch_of, rec_of as rec_value};
ghost use Rattle.packing_laws.specs.Beginning.{after_offers};
ghost use Rattle.link_end.specs.Rests.{IsSpent};
ghost use Rattle.link_end.specs.Packs.{Packs};
ghost use Rattle.link_end.specs.Begun.{IsPackable};
ghost use Rattle.channel_table.specs.Channels.{Channels};
ghost use Rattle.bunch_packing.specs.Both.{PacksBoth, NonePacked, IsOwing, packet_for, bare_bunch};

use bit_io::{BitSlice, Memory};
use channel_table::{Bunch, ChannelTable};
use link_end::{LinkEnd, OfferRefusal, Rec};
use protocol_model::Part;

/// Offers an entry that has a spelling, and answers the number of its packet; `None` where it found
/// no room.
pub(crate) fn offer(link: &mut LinkEnd, rec: &Rec) -> Result<Option<u64>, Memory>
    requires begun { IsSpent link.old ⊎ ((end : End) × (before : Past) × (p : Packing)
        × Packs link.old end before p × (p.full ≡ false)
        × IsPackable end.version (rec_value rec.now)) }
    ensures after { IsSpent link.old → IsErr result }
    ensures packet { IfOk result (λ packet. (end : End) (before : Past) (p : Packing) (item : Item)
        → Packs link.old end before p → rec_of item ≡ rec_value rec.now
        → packet ≡ packet_for end p item) }
    ensures packs { OnOk result ((end : End) (before : Past) (p : Packing) (item : Item)
        → Packs link.old end before p → rec_of item ≡ rec_value rec.now
        → Packs link.new end before (after_offer end p item)) }
    ensures spent { OnErr result (IsSpent link.new) }
{
    match link.offer(rec) {
        Ok(packet) => Ok(Some(packet)),
        Err(OfferRefusal::NoRoom) => Ok(None),
        Err(OfferRefusal::Memory) => Err(Memory),
    }
}

/// Offers an unreliable bunch with this payload of at most 7,000 bits, and answers the number of
/// its packet; `None` exactly where it finds no room, after which nothing more is to be offered in
/// this tick. The channel has a spelling. After `Memory` the link is spent.
pub fn offer_loose(
    link: &mut LinkEnd,
    channel: u16,
    payload: BitSlice<'_>,
) -> Result<Option<u64>, Memory>
    requires begun { IsSpent link.old ⊎ ((t : Channels) × (end : End) × (side : Side)
        × (before : Past) × (p : Packing)
        × PacksBoth link.old t end side before p × (p.full ≡ false)
        × (channel < channel_limit end.version)) }
    requires most { length (slice_bits payload) ≤ part_bits }
    ensures after { IsSpent link.old → IsErr result }
    ensures packet { IfOk result (λ packet. (t : Channels) (end : End) (side : Side) (before : Past)
        (p : Packing) (message : Message)
        → PacksBoth link.old t end side before p
        → message_bits message ≡ slice_bits payload.entry
        → packet ≡ packet_for end p (loose_item message channel)) }
    ensures packs { OnOk result ((t : Channels) (end : End) (side : Side) (before : Past)
        (p : Packing) (message : Message)
        → PacksBoth link.old t end side before p
        → message_bits message ≡ slice_bits payload.entry
        → PacksBoth link.new t end side before (after_offer end p (loose_item message channel))) }
    ensures spent { OnErr result (IsSpent link.new) }
{
    let packet = offer(link, &Rec::Bunch(loose(channel, payload)))?;
    Ok(packet)
}

/// An unreliable bunch with this payload.
fn loose(channel: u16, payload: BitSlice<'_>) -> Bunch<'_>
    ensures { bunch_of result ≡ bare_bunch channel (slice_bits payload.entry) }
{
    Bunch {
        opens: false,
        closes: false,
        sleeps: false,
        reliable: false,
        channel,
        exports: false,
        part: Part::Whole,
        seq: 0,
        kind: 0,
        payload,
    }
}

/// Offers the bunch of a number that was made on a channel and is due; false exactly where it finds
/// no room, after which nothing more is to be offered in this tick. After `Memory` the link is
/// spent.
pub fn offer_made(
    link: &mut LinkEnd,
    table: &mut ChannelTable,
    channel: u16,
    n: u64,
) -> Result<bool, Memory>
    requires { IsSpent link.old ⊎ ((end : End) × (side : Side) × (before : Past) × (p : Packing)
        × PacksBoth link.old table.old end side before p × (p.full ≡ false)
        × IsOwing p channel n) }
    ensures after { IsSpent link.old → IsErr result }
    ensures room { IfOk result (λ kept. (end : End) (side : Side) (before : Past) (p : Packing)
        (item : Item)
        → PacksBoth link.old table.old end side before p → IsOwing p channel n
        → carrying_item p.past channel n ≡ Some item → kept ≡ has_room end p item) }
    ensures packs { OnOk result ((end : End) (side : Side) (before : Past) (p : Packing)
        (item : Item)
        → PacksBoth link.old table.old end side before p → IsOwing p channel n
        → carrying_item p.past channel n ≡ Some item
        → PacksBoth link.new table.new end side before (after_offer end p item)) }
    ensures spent { OnErr result (IsSpent link.new) }
    ensures count { table.new.made.count ≡ table.old.made.count }
    ensures bound { table.new.bound ≡ table.old.bound }
    ensures waiting { table.new.waiting ≡ table.old.waiting }
{
    let Some(bunch) = table.bunch(channel, n) else {
        return Err(Memory);
    };
    let Some(packet) = offer(link, &Rec::Bunch(bunch))? else {
        return Ok(false);
    };
    table.carried(channel, n, packet);
    Ok(true)
}

/// Offers all bunches that are due, by channel and number; false exactly where one finds no room,
/// after which nothing more is to be offered in this tick. No bunch that was made is packed yet.
/// After `Memory` the link is spent.
pub fn offer_due(link: &mut LinkEnd, table: &mut ChannelTable) -> Result<bool, Memory>
    requires { IsSpent link.old ⊎ ((end : End) × (side : Side) × (before : Past) × (p : Packing)
        × PacksBoth link.old table.old end side before p × (p.full ≡ false) × NonePacked p) }
    ensures room { IfOk result (λ kept. (end : End) (side : Side) (before : Past) (p : Packing)
        → PacksBoth link.old table.old end side before p → NonePacked p
        → kept ≡ not (after_offers end p (due_items p.past)).full) }
    ensures packs { OnOk result ((end : End) (side : Side) (before : Past) (p : Packing)
        → PacksBoth link.old table.old end side before p → NonePacked p
        → PacksBoth link.new table.new end side before
        (after_offers end p (due_items p.past))) }
    ensures spent { OnErr result (IsSpent link.new) }
    ensures count { table.new.made.count ≡ table.old.made.count }
    ensures bound { table.new.bound ≡ table.old.bound }
    ensures waiting { table.new.waiting ≡ table.old.waiting }
{
    let mut channel = 0;
    let mut from = 0;
    while let Some((next, n)) = table.due(channel, from) {
        if !offer_made(link, table, next, n)? {
            return Ok(false);
        }
        channel = next;
        from = n;
    }
    Ok(true)
}
