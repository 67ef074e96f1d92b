// A client's tick.
ghost use Rattle.std.specs.Prelude.{◌≡◌, ◌≤◌, ◌<◌, ℕ, [], ◌∷◌, length, map, filter_map, false, not, Some, IfOk, OnOk, OnErr};
ghost use Rattle.protocol_model.specs.Limits.{part_bits};
ghost use Rattle.protocol_model.specs.Packet.{channel_limit};
ghost use Rattle.protocol_model.specs.Payload.{Message, actor_of, message_bits};
ghost use Rattle.protocol_model.specs.Side.{AtClient};
ghost use Rattle.connection_model.specs.CallAnswers.{call_channel};
ghost use Rattle.connection_model.specs.Feed.{End, Past, has_ended};
ghost use Rattle.connection_model.specs.Items.{call_item};
ghost use Rattle.connection_model.specs.Pack.{Packing, after_tick};
ghost use Rattle.packing_laws.specs.Beginning.{after_offers};
ghost use Rattle.bit_io.specs.Lent.{slice_bits};
ghost use Rattle.link_end.specs.Answers.{new_packets, sent_value};
ghost use Rattle.link_end.specs.Rests.{IsSpent};
ghost use Rattle.channel_table.specs.Channels.{Channels};
ghost use Rattle.channel_table.specs.Stands.{channel_bound};
ghost use Rattle.bunch_packing.specs.Both.{PacksBoth, NonePacked};
ghost use Rattle.client_sending.specs.Stands.{Stands};
ghost use Rattle.client_sending.specs.Ticking.{IsTicking, call_items, after_firsts};

use bit_io::{BitSlice, Memory};
use bunch_packing::{offer_due, offer_loose};
use channel_table::ChannelTable;
use link_end::{LinkEnd, SentList};
use net_core::Guid;
use protocol_model::limits::WAITING_LIMIT;

/// What a client's tick sends, oldest first, and whether its end stalls in it.
#[derive(Drop)]
pub struct ClientTick {
    pub sent: SentList,
    pub stalled: bool,
}

/// A tick of a client that is alive: acknowledgements, what is due, and the calls that waited go in
/// packets, within the budget; no call waits any more. The end stalls where 4,096 packets are open
/// then. After `Memory` the link is spent.
pub fn tick(link: &mut LinkEnd, table: &mut ChannelTable) -> Result<ClientTick, Memory>
    requires { (end : End) × (past : Past) × Stands link.old table.old end past }
    ensures sent { IfOk result (λ t. (end : End) (past : Past) → Stands link.old table.old end past
        → map sent_value t.sent ≡ new_packets end past (after_tick end past [])) }
    ensures stalled { IfOk result (λ t. (end : End) (past : Past)
        → Stands link.old table.old end past
        → t.stalled ≡ has_ended (after_tick end past [])) }
    ensures stands { IfOk result (λ t. (end : End) (past : Past)
        → Stands link.old table.old end past → t.stalled ≡ false
        → Stands link.new table.new end (after_tick end past [])) }
    ensures count { OnOk result (table.new.made.count ≡ table.old.made.count) }
    ensures spent { OnErr result (IsSpent link.new) }
{
    link.begin_tick()?;
    offer_firsts(link, table)?;
    table.clear_waiting();
    let sent = link.end_tick()?;
    let stalled = link.stalled();
    Ok(ClientTick { sent, stalled })
}

/// Offers what is due, and then the calls that wait, up to the first that finds no room.
fn offer_firsts(link: &mut LinkEnd, table: &mut ChannelTable) -> Result<(), Memory>
    requires { (end : End) × (before : Past) × (p : Packing)
        × IsTicking link.old table.old end before p × NonePacked p }
    ensures packs { OnOk result ((end : End) (before : Past) (p : Packing)
        → IsTicking link.old table.old end before p → NonePacked p
        → PacksBoth link.new table.new end AtClient before (after_firsts end before p)) }
    ensures count { OnOk result (table.new.made.count ≡ table.old.made.count) }
    ensures bound { OnOk result (table.new.bound ≡ table.old.bound) }
    ensures spent { OnErr result (IsSpent link.new) }
{
    if offer_due(link, table)? {
        offer_calls(link, table)?;
    }
    Ok(())
}

/// Offers the unreliable calls that wait, in the order made, each on the channel of its actor's
/// copy, up to the first that finds no room. The calls wait on. After `Memory` the link is spent.
fn offer_calls(link: &mut LinkEnd, table: &ChannelTable) -> Result<(), Memory>
    requires { (end : End) × (before : Past) × (p : Packing)
        × IsTicking link.old table.now end before p }
    ensures packs { OnOk result ((end : End) (before : Past) (p : Packing)
        → IsTicking link.old table.now end before p
        → PacksBoth link.new table.now end AtClient before
        (after_offers end p (call_items before p.past))) }
    ensures spent { OnErr result (IsSpent link.new) }
{
    for place in 0..WAITING_LIMIT {
        let Some(call) = table.waiting(place) else {
            return Ok(());
        };
        if !offer_call(link, table.channel_of(call.actor), call.bits)? {
            return Ok(());
        }
    }
    Ok(())
}

/// Offers a call with this payload on its actor's channel, if there is one; false exactly where it
/// finds no room.
fn offer_call(
    link: &mut LinkEnd,
    channel: Option<u16>,
    payload: BitSlice<'_>,
) -> Result<bool, Memory>
    requires begun { (t : Channels) × (end : End) × (before : Past) × (p : Packing)
        × PacksBoth link.old t end AtClient before p × (p.full ≡ false)
        × ((ch : ℕ) → channel ≡ Some ch → ch < channel_limit end.version) }
    requires most { length (slice_bits payload) ≤ part_bits }
    ensures room { IfOk result (λ kept. (t : Channels) (end : End) (before : Past) (p : Packing)
        (message : Message)
        → PacksBoth link.old t end AtClient before p → p.full ≡ false
        → message_bits message ≡ slice_bits payload.entry
        → channel ≡ call_channel AtClient p.past (actor_of message)
        → kept ≡ not (after_offers end p
        (filter_map (call_item AtClient p.past) (message ∷ []))).full) }
    ensures packs { OnOk result ((t : Channels) (end : End) (before : Past) (p : Packing)
        (message : Message)
        → PacksBoth link.old t end AtClient before p
        → message_bits message ≡ slice_bits payload.entry
        → channel ≡ call_channel AtClient p.past (actor_of message)
        → PacksBoth link.new t end AtClient before
        (after_offers end p (filter_map (call_item AtClient p.past) (message ∷ [])))) }
    ensures spent { OnErr result (IsSpent link.new) }
{
    let Some(channel) = channel else {
        return Ok(true);
    };
    let packet = offer_loose(link, channel, payload)?;
    Ok(packet.is_some())
}
