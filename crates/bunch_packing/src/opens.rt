// Opens: a message of several parts that is made and offered in one tick.
ghost use Rattle.std.specs.Prelude.{◌≡◌, ◌+◌, ◌<◌, ◌≤◌, ◌^◌, ℕ, true, false, not, IfOk, OnOk, OnErr, length};
ghost use Rattle.protocol_model.specs.Limits.{payload_bits};
ghost use Rattle.protocol_model.specs.Packet.{channel_limit};
ghost use Rattle.protocol_model.specs.Payload.{Message, part_count};
ghost use Rattle.protocol_model.specs.Side.{Side};
ghost use Rattle.connection_model.specs.Feed.{End, Past};
ghost use Rattle.connection_model.specs.Pack.{Packing, has_room, part_item, after_open};
ghost use Rattle.packing_laws.specs.Beginning.{after_offers};
ghost use Rattle.link_end.specs.Rests.{IsSpent};
ghost use Rattle.link_end.specs.Packs.{Packs};
ghost use Rattle.bunch_packing.specs.Both.{PacksBoth};
ghost use Rattle.bunch_packing.specs.Opens.{IsOpenOf, ArePartsOf, part_items, open_first};

use crate::making::push;
use crate::offers::{offer, offer_made};
use bit_io::{Bits, Memory};
use channel_table::{Bunch, ChannelTable, Mark};
use link_end::{LinkEnd, Rec};
use partial_bunches::{cut, parts};

/// What became of an open.
#[derive(Clone, Copy, Debug, PartialEq, Eq)]
pub struct OpenOffer {
    /// The number of its first bunch, where it was made.
    pub first: Option<u64>,
    /// No bunch found no room: more may be offered in this tick.
    pub ready: bool,
}

/// Makes an open and offers its parts, where its channel has room for all of them and the first
/// finds room in a packet. One with more parts than there is room for is passed over; after one
/// that found no room nothing more is to be offered in this tick. The channel has a spelling, and
/// the payload at most 70,000 bits. After `Memory` the link is spent.
pub fn offer_open(
    link: &mut LinkEnd,
    table: &mut ChannelTable,
    channel: u16,
    exports: bool,
    payload: Bits,
) -> Result<OpenOffer, Memory>
    requires packing { (end : End) × (side : Side) × (before : Past) × (p : Packing)
        × PacksBoth link.old table.old end side before p × (p.full ≡ false)
        × (channel < channel_limit end.version) }
    requires open { (message : Message) × IsOpenOf message exports payload }
    requires index { 1 ≤ channel }
    requires most { length payload ≤ payload_bits }
    requires few { table.old.made.count < 2 ^ 60 }
    ensures packs { OnOk result ((end : End) (side : Side) (before : Past) (p : Packing)
        (message : Message)
        → PacksBoth link.old table.old end side before p → channel < channel_limit end.version
        → IsOpenOf message exports payload
        → PacksBoth link.new table.new end side before (after_open end p channel message)) }
    ensures ready { IfOk result (λ o. (end : End) (side : Side) (before : Past) (p : Packing)
        (message : Message)
        → PacksBoth link.old table.old end side before p → channel < channel_limit end.version
        → IsOpenOf message exports payload
        → o.ready ≡ not (after_open end p channel message).full) }
    ensures first { IfOk result (λ o. (end : End) (side : Side) (before : Past) (p : Packing)
        (message : Message)
        → PacksBoth link.old table.old end side before p → IsOpenOf message exports payload
        → o.first ≡ open_first end p channel message) }
    ensures spent { OnErr result (IsSpent link.new) }
    ensures count { OnOk result (table.new.made.count
        ≤ table.old.made.count + part_count (length payload)) }
    ensures bound { OnOk result (table.new.bound ≡ table.old.bound) }
    ensures waiting { OnOk result (table.new.waiting ≡ table.old.waiting) }
{
    let count = parts(payload.len());
    if count > table.room(channel) as usize {
        return Ok(OpenOffer {
            first: None,
            ready: true,
        });
    }
    if !has_first_room(link, channel, exports, &payload)? {
        return Ok(OpenOffer {
            first: None,
            ready: false,
        });
    }
    let Ok(first) = push(table, channel, Mark::Opens { exports }, payload) else {
        link.spend();
        return Err(Memory);
    };
    let ready = offer_parts(link, table, channel, first, count)?;
    Ok(OpenOffer {
        first: Some(first),
        ready,
    })
}

/// The first part of an open finds room, whatever its number will be; where it doesn't, the link is
/// told by an offer that nothing more goes.
fn has_first_room(
    link: &mut LinkEnd,
    channel: u16,
    exports: bool,
    payload: &Bits,
) -> Result<bool, Memory>
    requires packing { (end : End) × (before : Past) × (p : Packing)
        × Packs link.old end before p × (p.full ≡ false) × (channel < channel_limit end.version) }
    requires open { (message : Message) × IsOpenOf message exports payload.now }
    requires index { 1 ≤ channel }
    requires most { length payload.now ≤ payload_bits }
    ensures room { IfOk result (λ room. (end : End) (before : Past) (p : Packing)
        (message : Message) (number : ℕ)
        → Packs link.old end before p → IsOpenOf message exports payload.now
        → room ≡ has_room end p (part_item channel number message 0)) }
    ensures same { IfOk result (λ room. room ≡ true → link.new ≡ link.old) }
    ensures full { IfOk result (λ room. room ≡ false → (end : End) (before : Past) (p : Packing)
        → Packs link.old end before p → Packs link.new end before (record p { full = true })) }
    ensures spent { OnErr result (IsSpent link.new) }
{
    let piece = cut(payload.len(), 0);
    let mut reader = payload.lend().reader();
    let Ok(bits) = reader.take(piece.end) else {
        return Err(Memory);
    };
    let first = Rec::Bunch(Bunch {
        opens: true,
        closes: false,
        sleeps: false,
        reliable: true,
        channel,
        exports,
        part: piece.part,
        seq: 0,
        kind: 2,
        payload: bits,
    });
    if link.fits(&first) {
        return Ok(true);
    }
    offer(link, &first)?;
    Ok(false)
}

/// Offers the parts of a message that was made, `count` from a number on; false exactly where one
/// finds no room.
fn offer_parts(
    link: &mut LinkEnd,
    table: &mut ChannelTable,
    channel: u16,
    first: u64,
    count: usize,
) -> Result<bool, Memory>
    requires { (end : End) × (side : Side) × (before : Past) × (p : Packing) × (message : Message)
        × PacksBoth link.old table.old end side before p × (p.full ≡ false)
        × ArePartsOf p channel first count message }
    ensures ready { IfOk result (λ ready. (end : End) (side : Side) (before : Past) (p : Packing)
        (message : Message)
        → PacksBoth link.old table.old end side before p → ArePartsOf p channel first count message
        → ready ≡ not (after_offers end p (part_items channel first message count)).full) }
    ensures packs { OnOk result ((end : End) (side : Side) (before : Past) (p : Packing)
        (message : Message)
        → PacksBoth link.old table.old end side before p → ArePartsOf p channel first count message
        → PacksBoth link.new table.new end side before
        (after_offers end p (part_items channel first message count))) }
    ensures spent { OnErr result (IsSpent link.new) }
    ensures count { OnOk result (table.new.made.count ≡ table.old.made.count) }
    ensures bound { OnOk result (table.new.bound ≡ table.old.bound) }
    ensures waiting { OnOk result (table.new.waiting ≡ table.old.waiting) }
{
    for i in 0..count {
        let Some(n) = first.checked_add(i as u64) else {
            link.spend();
            return Err(Memory);
        };
        if !offer_made(link, table, channel, n)? {
            return Ok(false);
        }
    }
    Ok(true)
}
