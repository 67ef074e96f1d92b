// The unreliable calls of a tick.
ghost use Rattle.std.specs.Prelude.{◌≡◌, ◌<◌, ◌≤◌, ℕ, [], ◌∷◌, length, filter_map, false, not, Some, IfOk, OnOk, OnErr};
ghost use Rattle.protocol_model.specs.Limits.{part_bits};
ghost use Rattle.protocol_model.specs.Packet.{channel_limit};
ghost use Rattle.protocol_model.specs.Payload.{Message, actor_of, message_bits};
ghost use Rattle.protocol_model.specs.Side.{AtServer};
ghost use Rattle.connection_model.specs.CallAnswers.{call_channel, waiting_of};
ghost use Rattle.connection_model.specs.Feed.{End, Past};
ghost use Rattle.connection_model.specs.Items.{call_item};
ghost use Rattle.connection_model.specs.Pack.{Packing};
ghost use Rattle.packing_laws.specs.Beginning.{after_offers};
ghost use Rattle.bit_io.specs.Lent.{slice_bits};
ghost use Rattle.link_end.specs.Rests.{IsSpent};
ghost use Rattle.channel_table.specs.Channels.{Channels};
ghost use Rattle.bunch_packing.specs.Both.{PacksBoth};
ghost use Rattle.sender_steps.specs.Sender.{record_in};
ghost use Rattle.sender_turns.specs.Calling.{index_opened, IsCalling};

use bit_io::{BitSlice, Memory};
use bunch_packing::offer_loose;
use channel_table::ChannelTable;
use link_end::LinkEnd;
use net_core::Guid;
use protocol_model::limits::WAITING_LIMIT;
use sender_records::ActorRecord;
use std::collections::HashMap;

/// Offers the unreliable calls that wait, in the order made, each where its actor is opened; false
/// exactly where one finds no room, after which nothing more is to be offered in this tick. The
/// calls wait on. After `Memory` the link is spent.
pub fn offer_calls(
    records: &HashMap<u32, ActorRecord>,
    link: &mut LinkEnd,
    table: &ChannelTable,
) -> Result<bool, Memory>
    requires { (end : End) × (before : Past) × (p : Packing)
        × IsCalling records.now.entries link.old table.now end before p }
    ensures room { IfOk result (λ kept. (end : End) (before : Past) (p : Packing)
        → IsCalling records.now.entries link.old table.now end before p
        → kept ≡ not (after_offers end p
        (filter_map (call_item AtServer p.past) (waiting_of before))).full) }
    ensures packs { OnOk result ((end : End) (before : Past) (p : Packing)
        → IsCalling records.now.entries link.old table.now end before p
        → PacksBoth link.new table.now end AtServer before
        (after_offers end p (filter_map (call_item AtServer p.past) (waiting_of before)))) }
    ensures spent { OnErr result (IsSpent link.new) }
{
    for place in 0..WAITING_LIMIT {
        let Some(call) = table.waiting(place) else {
            return Ok(true);
        };
        if !offer_call(records, link, call.actor, call.bits)? {
            return Ok(false);
        }
    }
    Ok(true)
}

/// Offers a call with this payload, where its actor is opened; false exactly where it finds no
/// room.
fn offer_call(
    records: &HashMap<u32, ActorRecord>,
    link: &mut LinkEnd,
    actor: Guid,
    payload: BitSlice<'_>,
) -> Result<bool, Memory>
    requires begun { (t : Channels) × (end : End) × (before : Past) × (p : Packing)
        × PacksBoth link.old t end AtServer before p × (p.full ≡ false)
        × ((ch : ℕ) → index_opened (record_in records.now.entries actor).life ≡ Some ch
        → ch < channel_limit end.version) }
    requires most { length (slice_bits payload) ≤ part_bits }
    ensures room { IfOk result (λ kept. (t : Channels) (end : End) (before : Past) (p : Packing)
        (message : Message)
        → PacksBoth link.old t end AtServer before p → p.full ≡ false
        → actor_of message ≡ actor → message_bits message ≡ slice_bits payload.entry
        → index_opened (record_in records.now.entries actor).life
        ≡ call_channel AtServer p.past actor
        → kept ≡ not (after_offers end p
        (filter_map (call_item AtServer p.past) (message ∷ []))).full) }
    ensures packs { OnOk result ((t : Channels) (end : End) (before : Past) (p : Packing)
        (message : Message)
        → PacksBoth link.old t end AtServer before p
        → actor_of message ≡ actor → message_bits message ≡ slice_bits payload.entry
        → index_opened (record_in records.now.entries actor).life
        ≡ call_channel AtServer p.past actor
        → PacksBoth link.new t end AtServer before
        (after_offers end p (filter_map (call_item AtServer p.past) (message ∷ [])))) }
    ensures spent { OnErr result (IsSpent link.new) }
{
    let Some(index) = opened_index(records, actor) else {
        return Ok(true);
    };
    let packet = offer_loose(link, index, payload)?;
    Ok(packet.is_some())
}

/// The index of an actor that is opened.
fn opened_index(records: &HashMap<u32, ActorRecord>, actor: Guid) -> Option<u16>
    ensures { result ≡ index_opened (record_in records.now.entries actor).life }
{
    let Some(record) = records.get(&actor.0) else {
        return None;
    };
    if !record.life.state.is_opened() {
        return None;
    }
    record.life.index
}
