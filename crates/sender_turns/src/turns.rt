// The turns of a tick: the actors that have something to send, by score.
ghost use Rattle.std.specs.Prelude.{◌≡◌, ◌≢◌, ◌<◌, ◌++◌, ◌&&◌, [], ℕ, List, map, length, true, nat_lt, OnOk, IfOk};
ghost use Rattle.std.specs.Bool.{then_some};
ghost use Rattle.std.specs.List.{All, cons_option};
ghost use Rattle.std.specs.Ordering.{is_lt};
ghost use Rattle.protocol_model.specs.Sight.{Seen as SeenSpec};
ghost use Rattle.protocol_model.specs.World.{class_at};
ghost use Rattle.connection_model.specs.Feed.{Past, tick_count};
ghost use Rattle.connection_model.specs.Items.{score_of as score_in, wants_open as wants_open_in};
ghost use Rattle.class_layout.specs.Tables.{Layout, table_in, class_of};
ghost use Rattle.class_layout.specs.declared.class.Segment.{Segment};
ghost use Rattle.shadow_changes.specs.Samples.{Samples, Keeps as KeepsChanges, samples_of};
ghost use Rattle.sender_records.specs.Handles.{KeepsHandles, AreApart, pairs_of, is_updatable_in, handle_in};
ghost use Rattle.sender_records.specs.Life.{KeepsLife};
ghost use Rattle.sender_records.specs.Service.{KeepsService};
ghost use Rattle.turn_laws.specs.Turns.{turns_of};
ghost use Rattle.sender_steps.specs.Sender.{record_in, packet_in};
ghost use Rattle.sender_steps.specs.Sights.{seen_value};
ghost use Rattle.sender_steps.specs.Stands.{AreKept};
ghost use Rattle.sender_turns.specs.Turning.{goes_first, marked_pairs, turned, turn_entry, AreSampled, IsCompared, AreCompared, IsReady, HasTurned, IsTurn, AreReady, BeforeTurns};

use bit_io::Memory;
use class_layout::{Class, Classes, Pair};
use net_core::Guid;
use sender_records::{ActorRecord, ActorState, HandleTable, Life, Service, is_updatable};
use sender_steps::Seen;
use shadow_changes::Shadows;
use std::alloc::Global;
use std::cmp::Ordering;
use std::collections::HashMap;

/// The most ticks that count in a score.
const WAITED_LIMIT: u64 = 65535;

/// An actor of the sight that has something to send.
#[derive(Clone, Copy)]
pub struct Turn {
    /// The class's priority times the ticks waited, of which 65,535 count at most.
    pub score: u32,
    /// The actor.
    pub actor: Guid,
    /// Its place in the sight, counted from 0.
    pub place: usize,
    /// It is to be opened; else it is opened, and handles are due.
    pub opens: bool,
}

/// Compares the relevant actors that are opened with what changed, and answers those that have
/// something to send: the greater score first, and of two that are alike the lower guid. Memory is
/// taken for what changed and for those alone; after `Memory` some actors were compared.
pub fn find_turns(
    alloc: Global,
    records: &mut HashMap<u32, ActorRecord>,
    sight: &[Seen],
    tick: u64,
    changes: &Shadows,
    classes: &Classes,
) -> Result<Vec<Turn>, Memory>
    ensures life { OnOk result ((a : ℕ) → (record_in records.new.entries a).life
        ≡ (record_in records.old.entries a).life) }
    ensures service { OnOk result ((a : ℕ) → (record_in records.new.entries a).service
        ≡ (record_in records.old.entries a).service) }
    ensures packets { OnOk result ((sent now : Past) (samples : Samples)
        → BeforeTurns classes.now changes.now sent now samples tick records.old.entries sight.now
        → (a h : ℕ) → packet_in records.new.entries a h ≡ packet_in records.old.entries a h) }
    ensures keeps { OnOk result ((sent now : Past) (samples : Samples)
        → BeforeTurns classes.now changes.now sent now samples tick records.old.entries sight.now
        → AreKept (sent ++ now) samples records.new.entries) }
    ensures compared { OnOk result ((sent now : Past) (samples : Samples)
        → BeforeTurns classes.now changes.now sent now samples tick records.old.entries sight.now
        → AreCompared classes.now now samples records.new.entries sight.now) }
    ensures turns { IfOk result (λ turns. (sent now : Past) (samples : Samples)
        → BeforeTurns classes.now changes.now sent now samples tick records.old.entries sight.now
        → map (turn_entry classes.now sight.now) turns.items ≡ turns_of now) }
    ensures each { IfOk result (λ turns. (sent now : Past) (samples : Samples)
        → BeforeTurns classes.now changes.now sent now samples tick records.old.entries sight.now
        → All (IsTurn classes.now now sight.now) turns.items) }
{
    let mut turns = gather(alloc, records, sight, tick, changes, classes)?;
    turns.sort_unstable_by(order);
    Ok(turns)
}

/// Whether the first of two turns is the earlier one.
fn order(a: &Turn, b: &Turn) -> Ordering
    ensures { is_lt result ≡ goes_first a.now b.now }
{
    match b.score.cmp(&a.score) {
        Ordering::Equal => a.actor.0.cmp(&b.actor.0),
        other => other,
    }
}

/// The turns in the order of the sight.
fn gather(
    alloc: Global,
    records: &mut HashMap<u32, ActorRecord>,
    sight: &[Seen],
    tick: u64,
    changes: &Shadows,
    classes: &Classes,
) -> Result<Vec<Turn>, Memory>
    ensures life { OnOk result ((a : ℕ) → (record_in records.new.entries a).life
        ≡ (record_in records.old.entries a).life) }
    ensures service { OnOk result ((a : ℕ) → (record_in records.new.entries a).service
        ≡ (record_in records.old.entries a).service) }
    ensures packets { OnOk result ((past : Past) (samples : Samples)
        → AreReady classes.now changes.now past samples tick records.old.entries sight.now
        → (a h : ℕ) → packet_in records.new.entries a h ≡ packet_in records.old.entries a h) }
    ensures keeps { OnOk result ((past : Past) (samples : Samples)
        → AreReady classes.now changes.now past samples tick records.old.entries sight.now
        → AreKept past samples records.new.entries) }
    ensures compared { OnOk result ((past : Past) (samples : Samples)
        → AreReady classes.now changes.now past samples tick records.old.entries sight.now
        → AreCompared classes.now past samples records.new.entries sight.now) }
    ensures turns { IfOk result (λ turns. (past : Past) (samples : Samples)
        → AreReady classes.now changes.now past samples tick records.old.entries sight.now
        → turns.items ≡ turned classes.now past 0 sight.now) }
{
    let mut turns = Vec::new(alloc);
    for place in 0..sight.len() {
        let seen = &sight[place];
        let turn = turn_of(records, seen, place, tick, changes, classes)?;
        push_turn(&mut turns, turn)?;
    }
    Ok(turns)
}

/// Adds a turn, if there is one.
fn push_turn(turns: &mut Vec<Turn>, turn: Option<Turn>) -> Result<(), Memory>
    ensures { OnOk result (turns.new.items ≡ turns.old.items ++ cons_option turn []) }
{
    match turn {
        Some(turn) => {
            turns.push(turn)?;
            Ok(())
        }
        None => Ok(()),
    }
}

/// The turn of an actor of the sight, if it has something to send; it is compared where it is
/// opened.
fn turn_of(
    records: &mut HashMap<u32, ActorRecord>,
    seen: &Seen,
    place: usize,
    tick: u64,
    changes: &Shadows,
    classes: &Classes,
) -> Result<Option<Turn>, Memory>
    ensures others { OnOk result ((a : ℕ) → seen.now.actor ≢ a
        → record_in records.new.entries a ≡ record_in records.old.entries a) }
    ensures life { OnOk result ((record_in records.new.entries seen.now.actor).life
        ≡ (record_in records.old.entries seen.now.actor).life) }
    ensures service { OnOk result ((record_in records.new.entries seen.now.actor).service
        ≡ (record_in records.old.entries seen.now.actor).service) }
    ensures packets { OnOk result ((past : Past) (samples : Samples)
        → IsReady classes.now changes.now past samples tick seen.now
        (record_in records.old.entries seen.now.actor)
        → (h : ℕ) → packet_in records.new.entries seen.now.actor h
        ≡ packet_in records.old.entries seen.now.actor h) }
    ensures turn { IfOk result (λ turn. (past : Past) (samples : Samples)
        → IsReady classes.now changes.now past samples tick seen.now
        (record_in records.old.entries seen.now.actor)
        → HasTurned classes.now past samples place seen.now
        (record_in records.new.entries seen.now.actor) turn) }
{
    if !seen.relevant {
        return Ok(None);
    }
    let Some(class) = classes.class(seen.class) else {
        return Ok(None);
    };
    let Some(record) = records.get_mut(&seen.actor.0) else {
        return Ok(None);
    };
    let turn = own_turn(record, class, seen, place, tick, changes)?;
    Ok(turn)
}

/// The turn of an actor with this record, which is relevant.
fn own_turn(
    kept: &mut ActorRecord,
    class: &Class,
    seen: &Seen,
    place: usize,
    tick: u64,
    changes: &Shadows,
) -> Result<Option<Turn>, Memory>
    ensures actor { OnOk result (kept.new.actor ≡ kept.old.actor) }
    ensures life { OnOk result (kept.new.life ≡ kept.old.life) }
    ensures service { OnOk result (kept.new.service ≡ kept.old.service) }
    ensures packets { OnOk result ((layout : Layout) (past : Past) (samples : Samples)
        → seen.now.relevant ≡ true
        → IsReady layout changes.now past samples tick seen.now kept.old
        → (h : ℕ) → (handle_in kept.new.handles.handles h).packet
        ≡ (handle_in kept.old.handles.handles h).packet) }
    ensures turn { IfOk result (λ turn. (layout : Layout) (past : Past) (samples : Samples)
        → class_at (table_in layout) seen.now.class ≡ class_of layout.segments class.now
        → seen.now.relevant ≡ true
        → IsReady layout changes.now past samples tick seen.now kept.old
        → HasTurned layout past samples place seen.now kept.new turn) }
{
    if kept.life.state.is_opened() {
        compare(&mut kept.handles, class, seen, tick, changes)?;
        let due = has_marked(&kept.handles, class, seen);
        return Ok(turn_if(due, &kept.service, class, seen, place, tick, false));
    }
    let opens = wants_open(&kept.life, seen.dormant, seen.flush);
    Ok(turn_if(opens, &kept.service, class, seen, place, tick, true))
}

/// The turn of an actor with this service, if it has something to send.
fn turn_if(
    has: bool,
    service: &Service,
    class: &Class,
    seen: &Seen,
    place: usize,
    tick: u64,
    opens: bool,
) -> Option<Turn>
    ensures { (layout : Layout) (past : Past)
        → class_at (table_in layout) seen.now.class ≡ class_of layout.segments class.now
        → KeepsService past seen.now.actor service.now → tick ≡ tick_count past
        → result ≡ then_some has (record {
          score = score_in past (seen_value layout seen.now);
          actor = seen.now.actor;
          place = place;
          opens = opens;
        }) }
{
    if !has {
        return None;
    }
    Some(Turn {
        score: score_of(service, class.priority, tick),
        actor: seen.actor,
        place,
        opens,
    })
}

/// The class's priority times the ticks since the actor was served.
fn score_of(service: &Service, priority: u8, tick: u64) -> u32
    ensures { (past : Past) (seen : SeenSpec) → KeepsService past seen.actor service.now
        → tick ≡ tick_count past → seen.class.priority ≡ priority
        → result ≡ score_in past seen }
{
    let waited = service.waited(tick).min(WAITED_LIMIT);
    priority as u32 * waited as u32
}

/// A relevant actor in this state is to be opened.
fn wants_open(life: &Life, dormant: bool, flush: u64) -> bool
    ensures { (past : Past) (seen : SeenSpec) → KeepsLife past seen.actor life.now
        → seen.dormant ≡ dormant → seen.flush ≡ flush
        → result ≡ wants_open_in past seen }
{
    match life.state {
        ActorState::None => true,
        ActorState::Asleep => !life.is_quiet(dormant, flush),
        ActorState::Opening | ActorState::Opened | ActorState::Closing => false,
    }
}

/// Compares the values of an actor that is opened, unless that was done in this tick.
fn compare(
    handles: &mut HandleTable,
    class: &Class,
    seen: &Seen,
    tick: u64,
    changes: &Shadows,
) -> Result<(), Memory>
    ensures packets { OnOk result (AreApart (pairs_of seen.now.values) → (h : ℕ)
        → (handle_in handles.new.handles h).packet ≡ (handle_in handles.old.handles h).packet) }
    ensures keeps { OnOk result ((past : Past) (samples : Samples)
        → KeepsChanges changes.now samples → tick ≡ tick_count past
        → AreSampled (samples_of samples seen.now.actor) seen.now.values
        → KeepsHandles past (samples_of samples seen.now.actor) seen.now.actor handles.old
        → KeepsHandles past (samples_of samples seen.now.actor) seen.now.actor handles.new) }
    ensures compared { OnOk result ((layout : Layout) (past : Past) (samples : Samples)
        → class_at (table_in layout) seen.now.class ≡ class_of layout.segments class.now
        → KeepsChanges changes.now samples → handles.old.last < tick
        → AreSampled (samples_of samples seen.now.actor) seen.now.values
        → KeepsHandles past (samples_of samples seen.now.actor) seen.now.actor handles.old
        → IsCompared layout past (samples_of samples seen.now.actor) seen.now handles.new) }
{
    if handles.last() >= tick {
        return Ok(());
    }
    let changed = changes.since(seen.actor, handles.compared())?;
    handles.compares(
        tick,
        class,
        seen.owns,
        seen.values.as_slice(),
        changed.as_slice(),
    )?;
    Ok(())
}

/// An update may hold a handle that is marked.
fn has_marked(handles: &HandleTable, class: &Class, seen: &Seen) -> bool
    ensures { (layout : Layout)
        → class_at (table_in layout) seen.now.class ≡ class_of layout.segments class.now
        → result ≡ nat_lt 0 (length (marked_pairs handles.now (seen_value layout seen.now))) }
{
    for pair in seen.values.as_slice() {
        if is_due(handles, class, seen.owns, pair) {
            return true;
        }
    }
    false
}

/// An update may hold the handle, and it is marked.
pub fn is_due(handles: &HandleTable, class: &Class, owns: bool, pair: &Pair) -> bool
    ensures { (segments : List Segment)
        → result ≡ (is_updatable_in (class_of segments class.now) owns pair.now.prop
        && (handle_in handles.now.handles pair.now.prop).marked) }
{
    if !handles.is_marked(pair.prop) {
        return false;
    }
    is_updatable(class, owns, pair.prop)
}
