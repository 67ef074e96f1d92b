// Closes: plain ones, dormant ones and Gones.
ghost use Rattle.std.specs.Prelude.{◌≡◌, ◌⊎◌, ◌<◌, ◌≤◌, ◌+◌, ◌^◌, ◌&&◌, ◌||◌, ℕ, List, length, nat_le, take, Some, option_map, true, false, OnOk, IfOk};
ghost use Rattle.std.specs.List.{fold};
ghost use Rattle.std.specs.Option.{option_copied};
ghost use Rattle.protocol_model.specs.Side.{AtServer};
ghost use Rattle.protocol_model.specs.Payload.{Closes, Gone};
ghost use Rattle.connection_model.specs.Feed.{Past, tick_count, sight_of, seen_in};
ghost use Rattle.connection_model.specs.State.{state_of, index_of, is_open, is_asleep as is_asleep_in};
ghost use Rattle.connection_model.specs.Settled.{is_settled_as};
ghost use Rattle.connection_model.specs.Pack.{idle_ticks, is_shown, made_if_room};
ghost use Rattle.connection_laws.specs.Run.{Ascends};
ghost use Rattle.class_layout.specs.Tables.{Layout};
ghost use Rattle.channel_table.specs.Keeps.{Keeps as KeepsTable};
ghost use Rattle.shadow_changes.specs.Samples.{Samples};
ghost use Rattle.change_model.specs.Changes.{Sample};
ghost use Rattle.sender_laws.specs.States.{is_pending, flush_seen};
ghost use Rattle.sender_records.specs.Life.{KeepsLife, state_value};
ghost use Rattle.sender_records.specs.Service.{KeepsService};
ghost use Rattle.sender_records.specs.Actors.{KeepsActor};
ghost use Rattle.sender_steps.specs.Sender.{Sender, record_in};
ghost use Rattle.sender_steps.specs.Sights.{seen_value, sight_value, actors_in};
ghost use Rattle.sender_steps.specs.Stands.{AreLow};
ghost use Rattle.sender_steps.specs.Closing.{is_destroyed as is_destroyed_in, close_called, after_called, IsEntry, IsFlush};

use crate::settled::is_settled;
use crate::sight::Seen;
use bit_io::Memory;
use channel_table::{ChannelTable, Mark};
use class_layout::Classes;
use net_core::Guid;
use payload_writing::{close_payload, gone_payload};
use sender_records::{ActorRecord, ActorState, Life};
use std::alloc::Global;
use std::collections::HashMap;

/// After so many ticks in a row in which it wasn't relevant an open actor is closed.
const IDLE_TICKS: u64 = 5;

/// What a tick makes of an actor before anything is sent.
#[derive(Clone, Copy, Debug)]
pub enum Close {
    /// A plain close: the actor is destroyed, or was irrelevant for five ticks.
    Plain,
    /// A dormant close: the actor is dormant and settled.
    Dormant,
    /// A Gone: the actor is asleep and destroyed.
    Gone,
}

/// What is to be made of an actor that is seen so in this tick.
pub fn close_of(
    kept: &ActorRecord,
    seen: Option<&Seen>,
    tick: u64,
    table: &ChannelTable,
    classes: &Classes,
) -> Option<Close>
    ensures { (past : Past) (samples : List Sample) (actor : ℕ)
        → KeepsActor past samples actor kept.now → KeepsTable table.now AtServer past
        → tick ≡ tick_count past → IsEntry actor (option_copied seen.entry)
        → result ≡ close_called past actor
        (option_map (seen_value classes.now) (option_copied seen.entry)) }
{
    let destroyed = is_destroyed(seen);
    if is_dropped(kept, destroyed, tick) {
        return Some(Close::Plain);
    }
    if falls_asleep(kept, seen, table, classes) {
        return Some(Close::Dormant);
    }
    if !destroyed {
        return None;
    }
    if !is_asleep(kept.life.state) {
        return None;
    }
    Some(Close::Gone)
}

/// The last close put it to sleep.
fn is_asleep(state: ActorState) -> bool
    ensures { result ≡ is_asleep_in (state_value state) }
{
    match state {
        ActorState::Asleep => true,
        _ => false,
    }
}

/// It is seen, as destroyed.
fn is_destroyed(seen: Option<&Seen>) -> bool
    ensures { (layout : Layout)
        → result ≡ is_destroyed_in (option_map (seen_value layout) (option_copied seen.entry)) }
{
    match seen {
        Some(seen) => seen.destroyed,
        None => false,
    }
}

/// The actor is open, and destroyed or irrelevant for long.
fn is_dropped(kept: &ActorRecord, destroyed: bool, tick: u64) -> bool
    ensures { (past : Past) (samples : List Sample) (actor : ℕ)
        → KeepsActor past samples actor kept.now → tick ≡ tick_count past
        → result ≡ (is_open (state_of past actor)
        && (destroyed || nat_le 5 (idle_ticks past actor))) }
{
    if !kept.life.state.is_open() {
        return false;
    }
    destroyed || kept.service.idle(tick) >= IDLE_TICKS
}

/// It is seen as dormant, and settled.
fn falls_asleep(
    kept: &ActorRecord,
    seen: Option<&Seen>,
    table: &ChannelTable,
    classes: &Classes,
) -> bool
    ensures { (past : Past) (samples : List Sample) (actor : ℕ)
        → KeepsActor past samples actor kept.now → KeepsTable table.now AtServer past
        → IsEntry actor (option_copied seen.entry)
        → result ≡ is_shown (λ s. s.dormant && is_settled_as past s)
        (option_map (seen_value classes.now) (option_copied seen.entry)) }
{
    match seen {
        Some(seen) => seen.dormant && is_settled(kept, seen, table, classes),
        None => false,
    }
}

/// Makes it, where its channel has room, and answers whether a close was made.
pub fn make_close(
    alloc: Global,
    actor: Guid,
    life: &mut Life,
    close: Close,
    flush: u64,
    table: &mut ChannelTable,
) -> Result<bool, Memory>
    requires stands { (past : Past) × KeepsLife past actor life.old
        × KeepsTable table.old AtServer past × AreLow past }
    requires few { table.old.made.count < 2 ^ 60 }
    ensures life { OnOk result ((past : Past) → KeepsLife past actor life.old
        → KeepsTable table.old AtServer past → IsFlush past actor close flush
        → KeepsLife (after_called past actor (Some close)) actor life.new) }
    ensures table { OnOk result ((past : Past) → KeepsLife past actor life.old
        → KeepsTable table.old AtServer past
        → KeepsTable table.new AtServer (after_called past actor (Some close))) }
    ensures pending { IfOk result (λ made. made ≡ false
        → is_pending (state_value life.new.state) ≡ true
        → is_pending (state_value life.old.state) ≡ true) }
    ensures was_open { OnOk result (is_open (state_value life.new.state) ≡ true
        → is_open (state_value life.old.state) ≡ true) }
    ensures bound { OnOk result (table.new.bound ≡ table.old.bound) }
    ensures waiting { OnOk result (table.new.waiting ≡ table.old.waiting) }
    ensures count { OnOk result (table.new.made.count ≤ table.old.made.count + 1) }
{
    match close {
        Close::Plain => close_channel(alloc, actor, life, false, 0, table),
        Close::Dormant => close_channel(alloc, actor, life, true, flush, table),
        Close::Gone => send_gone(alloc, actor, life, table),
    }
}

/// Makes a close on the channel that the actor holds, if there is room, and answers whether it did.
fn close_channel(
    alloc: Global,
    actor: Guid,
    life: &mut Life,
    sleeps: bool,
    flush: u64,
    table: &mut ChannelTable,
) -> Result<bool, Memory>
    requires stands { (past : Past) × KeepsLife past actor life.old
        × KeepsTable table.old AtServer past × AreLow past }
    requires few { table.old.made.count < 2 ^ 60 }
    ensures life { OnOk result ((past : Past) → KeepsLife past actor life.old
        → KeepsTable table.old AtServer past
        → (sleeps ≡ true → flush_seen past actor ≡ Some flush)
        → KeepsLife (made_if_room past (index_of past actor) (Closes actor sleeps)) actor
        life.new) }
    ensures table { OnOk result ((past : Past) → KeepsLife past actor life.old
        → KeepsTable table.old AtServer past
        → KeepsTable table.new AtServer
        (made_if_room past (index_of past actor) (Closes actor sleeps))) }
    ensures unmade { IfOk result (λ made. made ≡ false → life.new ≡ life.old) }
    ensures was_open { OnOk result (is_open (state_value life.new.state) ≡ true
        → is_open (state_value life.old.state) ≡ true) }
    ensures bound { OnOk result (table.new.bound ≡ table.old.bound) }
    ensures waiting { OnOk result (table.new.waiting ≡ table.old.waiting) }
    ensures count { OnOk result (table.new.made.count ≤ table.old.made.count + 1) }
{
    let Some(index) = life.index else {
        return Ok(false);
    };
    if table.room(index) == 0 {
        return Ok(false);
    }
    let payload = close_payload(alloc)?;
    table.push(index, Mark::Closes { sleeps }, payload)?;
    life.closes(sleeps, flush);
    Ok(true)
}

/// Makes a Gone of the actor, if there is room; false, as no close is made.
fn send_gone(
    alloc: Global,
    actor: Guid,
    life: &mut Life,
    table: &mut ChannelTable,
) -> Result<bool, Memory>
    requires stands { (past : Past) × KeepsTable table.old AtServer past }
    requires few { table.old.made.count < 2 ^ 60 }
    ensures life { OnOk result ((past : Past) → KeepsLife past actor life.old
        → KeepsTable table.old AtServer past
        → KeepsLife (made_if_room past (Some 0) (Gone actor)) actor life.new) }
    ensures table { OnOk result ((past : Past) → KeepsTable table.old AtServer past
        → KeepsTable table.new AtServer (made_if_room past (Some 0) (Gone actor))) }
    ensures pending { OnOk result (is_pending (state_value life.new.state) ≡ true
        → is_pending (state_value life.old.state) ≡ true) }
    ensures was_open { OnOk result (is_open (state_value life.new.state) ≡ true
        → is_open (state_value life.old.state) ≡ true) }
    ensures bound { OnOk result (table.new.bound ≡ table.old.bound) }
    ensures waiting { OnOk result (table.new.waiting ≡ table.old.waiting) }
    ensures count { OnOk result (table.new.made.count ≤ table.old.made.count + 1) }
{
    if table.room(0) == 0 {
        return Ok(false);
    }
    let payload = gone_payload(alloc, actor)?;
    table.push(0, Mark::Plain, payload)?;
    life.goes();
    Ok(false)
}
