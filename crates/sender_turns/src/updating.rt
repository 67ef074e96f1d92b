// The update of one actor, in its turn.
ghost use Rattle.std.specs.Prelude.{◌≡◌, ◌≢◌, ◌++◌, ℕ, List, filter, not, Some, IfOk, OnOk};
ghost use Rattle.protocol_model.specs.Side.{AtServer};
ghost use Rattle.change_model.specs.Changes.{Sample};
ghost use Rattle.connection_model.specs.Carry.{due_pairs};
ghost use Rattle.connection_model.specs.Feed.{End, Past};
ghost use Rattle.connection_model.specs.Pack.{Packing, after_update};
ghost use Rattle.class_layout.specs.Tables.{class_of};
ghost use Rattle.class_layout.specs.declared.class.Segment.{Segment};
ghost use Rattle.link_end.specs.Packs.{sent_now};
ghost use Rattle.channel_table.specs.Channels.{Channels};
ghost use Rattle.bunch_packing.specs.Both.{PacksBoth};
ghost use Rattle.sender_records.specs.Actors.{KeepsActor};
ghost use Rattle.sender_steps.specs.Sender.{record_in};
ghost use Rattle.sender_steps.specs.Sights.{seen_value};
ghost use Rattle.sender_turns.specs.Updating.{is_marked_value, IsUpdating, AreNoted, note_of};

use crate::turns::is_due;
use bit_io::Memory;
use bunch_packing::offer_loose;
use class_layout::{Class, Classes, Pair};
use link_end::LinkEnd;
use payload_writing::update_payload;
use sender_records::{ActorRecord, HandleTable};
use sender_steps::{Seen, UpdateSent};
use std::alloc::Global;
use std::collections::HashMap;

/// Offers the update of an actor that is opened and was compared in this tick, with the longest
/// prefix of what is due that has room in it, and notes what went; false exactly where it finds no
/// room, after which nothing more is to be offered in this tick.
pub fn update(
    alloc: Global,
    records: &mut HashMap<u32, ActorRecord>,
    updates: &mut Vec<UpdateSent>,
    seen: &Seen,
    tick: u64,
    link: &mut LinkEnd,
    classes: &Classes,
) -> Result<bool, Memory>
    requires { (t : Channels) × (end : End) × (before now : Past) × (p : Packing) × (ch : ℕ)
        × (samples : List Sample)
        × IsUpdating classes.now seen.now (record_in records.old.entries seen.now.actor) link.old t
        end before now p ch samples tick }
    ensures room { IfOk result (λ kept. (t : Channels) (end : End) (before now : Past)
        (p : Packing) (ch : ℕ) (samples : List Sample)
        → IsUpdating classes.now seen.now (record_in records.old.entries seen.now.actor) link.old t
        end before now p ch samples tick
        → kept ≡ not (after_update end p (seen_value classes.now seen.now) (Some ch)
        (due_pairs now (seen_value classes.now seen.now))).full) }
    ensures packs { OnOk result ((t : Channels) (end : End) (before now : Past)
        (p : Packing) (ch : ℕ) (samples : List Sample)
        → IsUpdating classes.now seen.now (record_in records.old.entries seen.now.actor) link.old t
        end before now p ch samples tick
        → PacksBoth link.new t end AtServer before
        (after_update end p (seen_value classes.now seen.now) (Some ch)
        (due_pairs now (seen_value classes.now seen.now)))) }
    ensures keeps { OnOk result ((t : Channels) (end : End) (before now : Past)
        (p : Packing) (ch : ℕ) (samples : List Sample)
        → IsUpdating classes.now seen.now (record_in records.old.entries seen.now.actor) link.old t
        end before now p ch samples tick
        → KeepsActor (sent_now (after_update end p (seen_value classes.now seen.now) (Some ch)
        (due_pairs now (seen_value classes.now seen.now)))) samples seen.now.actor
        (record_in records.new.entries seen.now.actor)) }
    ensures packets { OnOk result ((t : Channels) (end : End) (before now : Past)
        (p : Packing) (ch : ℕ) (samples : List Sample)
        → IsUpdating classes.now seen.now (record_in records.old.entries seen.now.actor) link.old t
        end before now p ch samples tick
        → AreNoted seen.now.actor (note_of seen.now.actor
        (after_update end p (seen_value classes.now seen.now) (Some ch)
        (due_pairs now (seen_value classes.now seen.now))))
        (record_in records.old.entries seen.now.actor).handles
        (record_in records.new.entries seen.now.actor).handles) }
    ensures notes { OnOk result ((t : Channels) (end : End) (before now : Past)
        (p : Packing) (ch : ℕ) (samples : List Sample)
        → IsUpdating classes.now seen.now (record_in records.old.entries seen.now.actor) link.old t
        end before now p ch samples tick
        → updates.new.items ≡ updates.old.items ++ note_of seen.now.actor
        (after_update end p (seen_value classes.now seen.now) (Some ch)
        (due_pairs now (seen_value classes.now seen.now)))) }
    ensures others { OnOk result ((a : ℕ) → seen.now.actor ≢ a
        → record_in records.new.entries a ≡ record_in records.old.entries a) }
{
    let Some(record) = records.get_mut(&seen.actor.0) else {
        return Ok(true);
    };
    let kept = update_one(alloc, record, updates, seen, tick, link, classes)?;
    Ok(kept)
}

/// The update of an actor with this record.
fn update_one(
    alloc: Global,
    kept: &mut ActorRecord,
    updates: &mut Vec<UpdateSent>,
    seen: &Seen,
    tick: u64,
    link: &mut LinkEnd,
    classes: &Classes,
) -> Result<bool, Memory>
    requires { (t : Channels) × (end : End) × (before now : Past) × (p : Packing) × (ch : ℕ)
        × (samples : List Sample)
        × IsUpdating classes.now seen.now kept.old link.old t end before now p ch samples tick }
    ensures room { IfOk result (λ room. (t : Channels) (end : End) (before now : Past)
        (p : Packing) (ch : ℕ) (samples : List Sample)
        → IsUpdating classes.now seen.now kept.old link.old t end before now p ch samples tick
        → room ≡ not (after_update end p (seen_value classes.now seen.now) (Some ch)
        (due_pairs now (seen_value classes.now seen.now))).full) }
    ensures packs { OnOk result ((t : Channels) (end : End) (before now : Past)
        (p : Packing) (ch : ℕ) (samples : List Sample)
        → IsUpdating classes.now seen.now kept.old link.old t end before now p ch samples tick
        → PacksBoth link.new t end AtServer before
        (after_update end p (seen_value classes.now seen.now) (Some ch)
        (due_pairs now (seen_value classes.now seen.now)))) }
    ensures keeps { OnOk result ((t : Channels) (end : End) (before now : Past)
        (p : Packing) (ch : ℕ) (samples : List Sample)
        → IsUpdating classes.now seen.now kept.old link.old t end before now p ch samples tick
        → KeepsActor (sent_now (after_update end p (seen_value classes.now seen.now) (Some ch)
        (due_pairs now (seen_value classes.now seen.now)))) samples seen.now.actor kept.new) }
    ensures packets { OnOk result ((t : Channels) (end : End) (before now : Past)
        (p : Packing) (ch : ℕ) (samples : List Sample)
        → IsUpdating classes.now seen.now kept.old link.old t
        end before now p ch samples tick
        → AreNoted seen.now.actor (note_of seen.now.actor
        (after_update end p (seen_value classes.now seen.now) (Some ch)
        (due_pairs now (seen_value classes.now seen.now))))
        kept.old.handles kept.new.handles) }
    ensures notes { OnOk result ((t : Channels) (end : End) (before now : Past)
        (p : Packing) (ch : ℕ) (samples : List Sample)
        → IsUpdating classes.now seen.now kept.old link.old t end before now p ch samples tick
        → updates.new.items ≡ updates.old.items ++ note_of seen.now.actor
        (after_update end p (seen_value classes.now seen.now) (Some ch)
        (due_pairs now (seen_value classes.now seen.now)))) }
{
    let Some(index) = kept.life.index else {
        return Ok(true);
    };
    let Some(class) = classes.class(seen.class) else {
        return Ok(true);
    };
    let due = marked_values(alloc, &kept.handles, class, seen)?;
    let payload = update_payload(alloc, classes, seen.class, due.as_slice())?;
    let Some(packet) = offer_loose(link, index, payload.bits.lend())? else {
        return Ok(false);
    };
    kept.carries(tick, packet, &due[..payload.count]);
    updates.push(UpdateSent {
        packet,
        actor: seen.actor,
    })?;
    Ok(true)
}

/// The values of the handles that an update may hold and that are marked.
fn marked_values(
    alloc: Global,
    handles: &HandleTable,
    class: &Class,
    seen: &Seen,
) -> Result<Vec<Pair>, Memory>
    ensures { IfOk result (λ due. (segments : List Segment) → due.items
        ≡ filter (is_marked_value (class_of segments class.now) seen.now.owns handles.now)
        seen.now.values) }
{
    let mut due = Vec::new(alloc);
    for pair in seen.values.as_slice() {
        if is_due(handles, class, seen.owns, pair) {
            due.push(*pair)?;
        }
    }
    Ok(due)
}
