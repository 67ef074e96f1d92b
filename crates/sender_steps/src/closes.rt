// The closes of a tick, actor by actor.
ghost use Rattle.std.specs.Prelude.{◌≡◌, ◌≢◌, ◌<◌, ◌≤◌, ◌+◌, ◌^◌, ℕ, List, length, unwrap_or, Some, option_map, slice_get, true, false, IfOk, OnOk};
ghost use Rattle.std.specs.Option.{option_copied};
ghost use Rattle.protocol_model.specs.Search.{is_among};
ghost use Rattle.protocol_model.specs.Side.{AtServer};
ghost use Rattle.change_model.specs.Changes.{Sample};
ghost use Rattle.connection_model.specs.Feed.{Past, tick_count, sight_of, seen_in};
ghost use Rattle.connection_model.specs.State.{is_open};
ghost use Rattle.connection_model.specs.Pack.{after_close, after_closes};
ghost use Rattle.connection_laws.specs.Run.{Ascends};
ghost use Rattle.channel_table.specs.Keeps.{Keeps as KeepsTable};
ghost use Rattle.class_layout.specs.Tables.{Layout};
ghost use Rattle.shadow_changes.specs.Samples.{Samples};
ghost use Rattle.sender_laws.specs.States.{is_pending};
ghost use Rattle.sender_records.specs.Life.{KeepsLife, state_value};
ghost use Rattle.sender_records.specs.Actors.{KeepsActor};
ghost use Rattle.sender_steps.specs.Sender.{Sender, record_in};
ghost use Rattle.sender_steps.specs.Closing.{IsTicked};
ghost use Rattle.sender_steps.specs.Sights.{seen_value, sight_value, actors_in};
ghost use Rattle.sender_steps.specs.Stands.{AreLow, KeepsBoth};
ghost use Rattle.sender_steps.specs.declared.sight.Seen.{Seen as SeenValue};

use crate::closing::{close_of, make_close};
use crate::sight::Seen;
use bit_io::Memory;
use channel_table::ChannelTable;
use class_layout::Classes;
use net_core::Guid;
use sender_records::ActorRecord;
use std::alloc::Global;
use std::collections::HashMap;

/// Makes what is called for of one actor, and answers whether a close was made.
fn end_one(
    alloc: Global,
    actor: Guid,
    kept: &mut ActorRecord,
    seen: Option<&Seen>,
    tick: u64,
    table: &mut ChannelTable,
    classes: &Classes,
) -> Result<bool, Memory>
    requires stands { (past : Past) × (samples : List Sample)
        × KeepsActor past samples actor kept.old × KeepsTable table.old AtServer past
        × AreLow past }
    requires few { table.old.made.count < 2 ^ 60 }
    ensures life { OnOk result ((past : Past) (samples : List Sample)
        → KeepsActor past samples actor kept.old → KeepsTable table.old AtServer past
        → tick ≡ tick_count past
        → option_map (seen_value classes.now) (option_copied seen.entry)
        ≡ seen_in (sight_of past) actor
        → KeepsLife (after_close past actor) actor kept.new.life) }
    ensures table { OnOk result ((past : Past) (samples : List Sample)
        → KeepsActor past samples actor kept.old → KeepsTable table.old AtServer past
        → tick ≡ tick_count past
        → option_map (seen_value classes.now) (option_copied seen.entry)
        ≡ seen_in (sight_of past) actor
        → KeepsTable table.new AtServer (after_close past actor)) }
    ensures service { kept.new.service ≡ kept.old.service }
    ensures handles { kept.new.handles ≡ kept.old.handles }
    ensures pending { IfOk result (λ made. made ≡ false
        → is_pending (state_value kept.new.life.state) ≡ true
        → is_pending (state_value kept.old.life.state) ≡ true) }
    ensures was_open { OnOk result (is_open (state_value kept.new.life.state) ≡ true
        → is_open (state_value kept.old.life.state) ≡ true) }
    ensures bound { OnOk result (table.new.bound ≡ table.old.bound) }
    ensures waiting { OnOk result (table.new.waiting ≡ table.old.waiting) }
    ensures count { OnOk result (table.new.made.count ≤ table.old.made.count + 1) }
{
    let Some(close) = close_of(kept, seen, tick, table, classes) else {
        return Ok(false);
    };
    let flush = flush_of(seen);
    let made = make_close(alloc, actor, &mut kept.life, close, flush, table)?;
    Ok(made)
}

/// The flush number that it is seen with.
fn flush_of(seen: Option<&Seen>) -> u64
    ensures { result ≡ unwrap_or (option_map (λ s. s.flush) (option_copied seen.entry)) 0 }
{
    match seen {
        Some(seen) => seen.flush,
        None => 0,
    }
}

/// The place of the first entry, from a place on, that isn't of an actor below this one.
fn seek(sight: &[Seen], from: usize, actor: Guid) -> usize
    ensures before { ((i : ℕ) (s : SeenValue) → slice_get sight.now i ≡ Some s → i < from
        → s.actor < actor)
        → (i : ℕ) (s : SeenValue) → slice_get sight.now i ≡ Some s → i < result
        → s.actor < actor }
    ensures there { (s : SeenValue) → slice_get sight.now result ≡ Some s → actor ≤ s.actor }
{
    for place in from..sight.len() {
        let seen = &sight[place];
        if seen.actor.0 >= actor.0 {
            return place;
        }
    }
    sight.len()
}

/// The entry at that place, where it is of this actor.
fn entry_at(sight: &[Seen], at: usize, actor: Guid) -> Option<&Seen>
    ensures { ((i : ℕ) (s : SeenValue) → slice_get sight.now i ≡ Some s → i < at
        → s.actor < actor)
        → ((s : SeenValue) → slice_get sight.now at ≡ Some s → actor ≤ s.actor)
        → Ascends 0 (actors_in sight.now) → (layout : Layout)
        → option_map (seen_value layout) (option_copied result)
        ≡ seen_in (sight_value layout sight.now) actor }
{
    let Some(seen) = sight.get(at) else {
        return None;
    };
    if seen.actor.0 != actor.0 {
        return None;
    }
    Some(seen)
}

/// Makes what is called for of one actor, by its record, and answers whether a close was made.
fn end_in(
    alloc: Global,
    records: &mut HashMap<u32, ActorRecord>,
    actor: Guid,
    seen: Option<&Seen>,
    tick: u64,
    table: &mut ChannelTable,
    classes: &Classes,
) -> Result<bool, Memory>
    requires stands { (past : Past) × (samples : List Sample)
        × KeepsActor past samples actor (record_in records.old.entries actor)
        × KeepsTable table.old AtServer past × AreLow past }
    requires few { table.old.made.count < 2 ^ 60 }
    ensures others { OnOk result ((a : ℕ) → actor ≢ a → record_in records.new.entries a
        ≡ record_in records.old.entries a) }
    ensures service { OnOk result ((record_in records.new.entries actor).service
        ≡ (record_in records.old.entries actor).service) }
    ensures handles { OnOk result ((record_in records.new.entries actor).handles
        ≡ (record_in records.old.entries actor).handles) }
    ensures life { OnOk result ((past : Past) (samples : List Sample)
        → KeepsActor past samples actor (record_in records.old.entries actor)
        → KeepsTable table.old AtServer past → tick ≡ tick_count past
        → option_map (seen_value classes.now) (option_copied seen.entry)
        ≡ seen_in (sight_of past) actor
        → KeepsLife (after_close past actor) actor (record_in records.new.entries actor).life) }
    ensures table { OnOk result ((past : Past) (samples : List Sample)
        → KeepsActor past samples actor (record_in records.old.entries actor)
        → KeepsTable table.old AtServer past → tick ≡ tick_count past
        → option_map (seen_value classes.now) (option_copied seen.entry)
        ≡ seen_in (sight_of past) actor
        → KeepsTable table.new AtServer (after_close past actor)) }
    ensures pending { IfOk result (λ made. made ≡ false
        → is_pending (state_value (record_in records.new.entries actor).life.state) ≡ true
        → is_pending (state_value (record_in records.old.entries actor).life.state) ≡ true) }
    ensures was_open { OnOk result (is_open (state_value (record_in records.new.entries
        actor).life.state) ≡ true
        → is_open (state_value (record_in records.old.entries actor).life.state) ≡ true) }
    ensures bound { OnOk result (table.new.bound ≡ table.old.bound) }
    ensures waiting { OnOk result (table.new.waiting ≡ table.old.waiting) }
    ensures count { OnOk result (table.new.made.count ≤ table.old.made.count + 1) }
{
    let Some(record) = records.get_mut(&actor.0) else {
        return Ok(false);
    };
    let made = end_one(alloc, actor, record, seen, tick, table, classes)?;
    Ok(made)
}

/// Makes what is called for of one actor that is live, and notes it where a close was made.
fn close_one(
    alloc: Global,
    records: &mut HashMap<u32, ActorRecord>,
    pending: &mut Vec<Guid>,
    actor: Guid,
    seen: Option<&Seen>,
    tick: u64,
    table: &mut ChannelTable,
    classes: &Classes,
) -> Result<(), Memory>
    requires stands { (s : Sender) × (past : Past) × (samples : Samples)
        × KeepsBoth s table.old past samples × (s.records ≡ records.old.entries) }
    requires few { table.old.made.count < 2 ^ 60 }
    ensures keeps { OnOk result ((s : Sender) (past : Past) (samples : Samples)
        → KeepsBoth s table.old past samples → s.records ≡ records.old.entries
        → s.pending ≡ pending.old.items → is_among actor s.live ≡ true → tick ≡ tick_count past
        → option_map (seen_value classes.now) (option_copied seen.entry)
        ≡ seen_in (sight_of past) actor
        → KeepsBoth (record s {
          records = records.new.entries;
          pending = pending.new.items;
        }) table.new (after_close past actor) samples) }
    ensures handles { OnOk result ((a : ℕ) → (record_in records.new.entries a).handles
        ≡ (record_in records.old.entries a).handles) }
    ensures was_open { OnOk result ((a : ℕ)
        → is_open (state_value (record_in records.new.entries a).life.state) ≡ true
        → is_open (state_value (record_in records.old.entries a).life.state) ≡ true) }
    ensures waiting { OnOk result (table.new.waiting ≡ table.old.waiting) }
    ensures count { OnOk result (table.new.made.count ≤ table.old.made.count + 1) }
{
    if end_in(alloc, records, actor, seen, tick, table, classes)? {
        pending.push(actor)?;
    }
    Ok(())
}

/// Makes the closes and Gones that are called for, by actor, and notes the actors with a close
/// under way.
pub fn close_all(
    alloc: Global,
    records: &mut HashMap<u32, ActorRecord>,
    pending: &mut Vec<Guid>,
    live: &[Guid],
    sight: &[Seen],
    tick: u64,
    table: &mut ChannelTable,
    classes: &Classes,
) -> Result<(), Memory>
    requires stands { (s : Sender) × (past : Past) × (samples : Samples)
        × IsTicked s table.old past samples records.old.entries pending.old.items live.now
        classes.now sight.now tick }
    requires few { table.old.made.count + length live.now < 2 ^ 60 }
    ensures keeps { OnOk result ((s : Sender) (past : Past) (samples : Samples)
        → IsTicked s table.old past samples records.old.entries pending.old.items live.now
        classes.now sight.now tick
        → KeepsBoth (record s {
          records = records.new.entries;
          pending = pending.new.items;
        }) table.new (after_closes past) samples) }
    ensures handles { OnOk result ((a : ℕ) → (record_in records.new.entries a).handles
        ≡ (record_in records.old.entries a).handles) }
    ensures was_open { OnOk result ((a : ℕ)
        → is_open (state_value (record_in records.new.entries a).life.state) ≡ true
        → is_open (state_value (record_in records.old.entries a).life.state) ≡ true) }
    ensures waiting { OnOk result (table.new.waiting ≡ table.old.waiting) }
    ensures count { OnOk result (table.new.made.count
        ≤ table.old.made.count + length live.now) }
{
    let mut at = 0;
    for actor in live {
        at = seek(sight, at, *actor);
        let seen = entry_at(sight, at, *actor);
        close_one(alloc, records, pending, *actor, seen, tick, table, classes)?;
    }
    Ok(())
}
