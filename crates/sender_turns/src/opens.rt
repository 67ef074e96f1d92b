// The open of one actor, in its turn.
ghost use Rattle.std.specs.Prelude.{◌≡◌, ◌≢◌, ◌<◌, ◌≤◌, ◌+◌, ◌^◌, ℕ, List, false, not, IfOk, OnOk};
ghost use Rattle.std.specs.List.{AllByRecursion};
ghost use Rattle.protocol_model.specs.Limits.{part_limit};
ghost use Rattle.protocol_model.specs.Payload.{Message};
ghost use Rattle.protocol_model.specs.Side.{AtServer};
ghost use Rattle.connection_model.specs.Fates.{last_sent, high_of};
ghost use Rattle.connection_model.specs.Feed.{End, Past, Item};
ghost use Rattle.connection_model.specs.Items.{is_update_of, open_message};
ghost use Rattle.connection_model.specs.Pack.{Packing, after_open};
ghost use Rattle.packing_laws.specs.Beginning.{after_offers};
ghost use Rattle.packing_laws.specs.Sendings.{CarryUnarrived};
ghost use Rattle.link_end.specs.Packs.{sent_now};
ghost use Rattle.bunch_packing.specs.Both.{PacksBoth};
ghost use Rattle.shadow_changes.specs.Samples.{Samples, Shadows as Changes};
ghost use Rattle.sender_steps.specs.Sender.{Sender, record_in};
ghost use Rattle.sender_steps.specs.Sights.{seen_value};
ghost use Rattle.sender_steps.specs.Stands.{Keeps};
ghost use Rattle.sender_turns.specs.Ticking.{HasParts, InTick, IsLast, IsOpening, IsToKeep, IsUnseen, IsUnserved, after_opening};

use crate::opening::{free_channel, keep_open, spell_open};
use bit_io::Memory;
use bunch_packing::offer_open;
use channel_table::ChannelTable;
use class_layout::Classes;
use link_end::LinkEnd;
use net_core::{Guid, GuidList};
use partial_bunches::parts;
use sender_records::ActorRecord;
use sender_steps::{OpenSent, Seen};
use shadow_changes::Shadows;
use std::alloc::Global;
use std::collections::HashMap;

/// What became of the open of an actor.
#[derive(Drop)]
struct Offered {
    /// The index that was free.
    channel: u16,
    /// The number of its last part, where it was made.
    last: Option<u64>,
    /// The segments that it exports.
    guids: GuidList,
    /// No bunch found no room: more may be offered in this tick.
    ready: bool,
}

/// Makes and offers the open of an actor that wants one, on the index that is free, and keeps what
/// is to be known of it: its segments, its record with the values and changes, that it is pending
/// and live, and that it holds the channel. An open with more parts than its channel has room for
/// is passed over, and one whose first part finds no room in a packet isn't made. The answer is
/// false exactly where a bunch found no room, after which nothing more is to be offered in this
/// tick. After `Memory` nothing that was handed in is to be used again.
pub fn open_actor(
    alloc: Global,
    records: &mut HashMap<u32, ActorRecord>,
    pending: &mut Vec<Guid>,
    live: &mut Vec<Guid>,
    known: &mut Vec<bool>,
    opens: &mut Vec<OpenSent>,
    link: &mut LinkEnd,
    table: &mut ChannelTable,
    seen: &Seen,
    tick: u64,
    changes: &Shadows,
    classes: &Classes,
) -> Result<bool, Memory>
    requires opening { (s : Sender) × (end : End) × (before : Past) × (p : Packing)
        × (samples : Samples)
        × HasParts s records.old.entries pending.old.items live.old.items known.old.items
        opens.old.items
        × IsOpening classes.now changes.now seen.now s link.old table.old end before p samples
        tick }
    requires few { table.old.made.count < 2 ^ 60 }
    ensures ready { IfOk result (λ ready. (s : Sender) (end : End) (before : Past) (p : Packing)
        (samples : Samples)
        → HasParts s records.old.entries pending.old.items live.old.items known.old.items
        opens.old.items
        → IsOpening classes.now changes.now seen.now s link.old table.old end before p samples tick
        → ready ≡ not (after_opening classes.now end p seen.now).full) }
    ensures stands { OnOk result ((s : Sender) (end : End) (before : Past) (p : Packing)
        (samples : Samples)
        → HasParts s records.old.entries pending.old.items live.old.items known.old.items
        opens.old.items
        → IsOpening classes.now changes.now seen.now s link.old table.old end before p samples tick
        → InTick (record s {
          records = records.new.entries;
          pending = pending.new.items;
          live = live.new.items;
          known = known.new.items;
          opens = opens.new.items;
        }) link.new table.new end before (after_opening classes.now end p seen.now) samples) }
    ensures others { OnOk result ((a : ℕ) → seen.now.actor ≢ a
        → record_in records.new.entries a ≡ record_in records.old.entries a) }
    ensures count { OnOk result (table.new.made.count ≤ table.old.made.count + part_limit) }
{
    let offered = make_open(alloc, known.as_slice(), link, table, seen, classes)?;
    let ready = offered.ready;
    let Some(last) = offered.last else {
        return Ok(ready);
    };
    let Some(class) = classes.class(seen.class) else {
        return Err(Memory);
    };
    let sampled = changes.newest(seen.actor);
    let made = OpenSent {
        channel: offered.channel,
        last,
        guids: offered.guids,
    };
    keep_open(
        records, pending, live, known, opens, table, class, seen, tick, sampled, made,
    )?;
    Ok(ready)
}

/// Makes the open, where its channel has room for it and its first part finds room in a packet, and
/// offers its parts.
fn make_open(
    alloc: Global,
    known: &[bool],
    link: &mut LinkEnd,
    table: &mut ChannelTable,
    seen: &Seen,
    classes: &Classes,
) -> Result<Offered, Memory>
    requires opening { (s : Sender) × (end : End) × (before : Past) × (p : Packing)
        × (samples : Samples) × (changes : Changes) × (tick : ℕ) × (s.known ≡ known.now)
        × IsOpening classes.now changes seen.now s link.old table.old end before p samples tick }
    requires few { table.old.made.count < 2 ^ 60 }
    ensures ready { IfOk result (λ o. (s : Sender) (end : End) (before : Past) (p : Packing)
        (samples : Samples) (changes : Changes) (tick : ℕ) → s.known ≡ known.now
        → IsOpening classes.now changes seen.now s link.old table.old end before p samples tick
        → o.ready ≡ not (after_opening classes.now end p seen.now).full) }
    ensures packs { OnOk result ((s : Sender) (end : End) (before : Past) (p : Packing)
        (samples : Samples) (changes : Changes) (tick : ℕ) → s.known ≡ known.now
        → IsOpening classes.now changes seen.now s link.old table.old end before p samples tick
        → PacksBoth link.new table.new end AtServer before
        (after_opening classes.now end p seen.now)) }
    ensures made { IfOk result (λ o. (s : Sender) (end : End) (before : Past) (p : Packing)
        (samples : Samples) (changes : Changes) (tick : ℕ) → s.known ≡ known.now
        → IsOpening classes.now changes seen.now s link.old table.old end before p samples tick
        → IsToKeep end p (open_message p.past (seen_value classes.now seen.now)) o.channel
        o.last o.guids) }
    ensures bound { OnOk result (table.new.bound ≡ table.old.bound) }
    ensures waiting { OnOk result (table.new.waiting ≡ table.old.waiting) }
    ensures count { OnOk result (table.new.made.count ≤ table.old.made.count + part_limit) }
{
    let channel = free_channel(table)?;
    let spelled = spell_open(alloc, known, classes, seen)?;
    let count = parts(spelled.payload.len()) as u64;
    let exports = !spelled.guids.is_empty();
    let offer = offer_open(link, table, channel, exports, spelled.payload)?;
    let last = last_of(offer.first, count)?;
    Ok(Offered {
        channel,
        last,
        guids: spelled.guids,
        ready: offer.ready,
    })
}

/// The number of the last of so many parts, from a number on, where there is one.
fn last_of(first: Option<u64>, count: u64) -> Result<Option<u64>, Memory>
    ensures { IfOk result (λ last. IsLast first count last) }
{
    let Some(first) = first else {
        return Ok(None);
    };
    let Some(past) = first.checked_add(count) else {
        return Err(Memory);
    };
    let Some(last) = past.checked_sub(1) else {
        return Err(Memory);
    };
    Ok(Some(last))
}

/// Items of which none is an update and none carries a bunch that has arrived leave a sender as it
/// stands, offered one after another; and actors of which no update is among them stay unserved.
pub fn offers_are_unseen()
    ensures keeps { (end : End) (s : Sender) (samples : Samples) (p : Packing) (items : List Item)
        → high_of p.past ≤ last_sent p.past → CarryUnarrived p.past p.packets
        → AllByRecursion (IsUnseen p.past) items → Keeps s (sent_now p) samples
        → Keeps s (sent_now (after_offers end p items)) samples }
    ensures unserved { (end : End) (p : Packing) (items : List Item) (a : ℕ)
        → AllByRecursion (λ item. is_update_of a item ≡ false) items → IsUnserved a p.packets
        → IsUnserved a (after_offers end p items).packets }
{}

/// An open holds no update of any actor.
pub fn opens_serve_nobody()
    ensures { (end : End) (p : Packing) (ch : ℕ) (message : Message) (a : ℕ)
        → IsUnserved a p.packets → IsUnserved a (after_open end p ch message).packets }
{}
