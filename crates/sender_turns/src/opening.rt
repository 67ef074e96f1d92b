// Parts of an open: which segments a client needs, on which channel it goes, how it is spelled, and
// what is kept of one that was made.
ghost use Rattle.std.specs.Prelude.{◌≡◌, ◌≢◌, ◌<◌, ◌≤◌, ◌+◌, ◌^◌, ◌++◌, ◌∷◌, ◌==◌, ◌||◌, [], ℕ, List, Bool, Some, true, false, map, filter, length, slice_get, slice_index_or, IfOk, IsTrue, OnErr, OnOk};
ghost use Rattle.protocol_model.specs.Limits.{channels_one, handle_limit, payload_bits};
ghost use Rattle.protocol_model.specs.Search.{is_among};
ghost use Rattle.protocol_model.specs.Payload.{Message, Opens, message_bits, parts_of};
ghost use Rattle.protocol_model.specs.World.{class_at};
ghost use Rattle.protocol_model.specs.Value.{Class as ClassSpec, Pair as PairSpec};
ghost use Rattle.protocol_model.specs.Value.{Segment as SegmentSpec};
ghost use Rattle.protocol_model.specs.Side.{Side};
ghost use Rattle.channel_table.specs.Keeps.{Keeps as KeepsTable};
ghost use Rattle.change_model.specs.Changes.{Sample};
ghost use Rattle.connection_model.specs.Feed.{Past, Deed, Item, tick_count};
ghost use Rattle.connection_model.specs.Items.{is_update_of, open_message};
ghost use Rattle.connection_model.specs.Fates.{high_of};
ghost use Rattle.connection_laws.specs.Run.{Ascends};
ghost use Rattle.connection_model.specs.Bunches.{made_count, has_arrived, span, after_making};
ghost use Rattle.connection_model.specs.Exports.{exports_segment, is_known as is_known_in, needed_segments};
ghost use Rattle.class_layout.specs.Tables.{class_of, segment_at, table_in};
ghost use Rattle.payload_writing.specs.Values.{pairs_fit};
ghost use Rattle.class_layout.specs.declared.class.Class.{Class};
ghost use Rattle.class_layout.specs.declared.class.Segment.{Segment};
ghost use Rattle.shadow_changes.specs.Samples.{Samples, samples_of};
ghost use Rattle.sender_laws.specs.Acts.{are_sent};
ghost use Rattle.sender_laws.specs.Items.{CarriesAwaited};
ghost use Rattle.sender_laws.specs.Values.{AreInTurn};
ghost use Rattle.sender_records.specs.Actors.{KeepsActor};
ghost use Rattle.sender_records.specs.Handles.{AreNewest, handle_in, pairs_of};
ghost use Rattle.sender_records.specs.Life.{state_value};
ghost use Rattle.connection_model.specs.State.{Opening, free_index, index_of};
ghost use Rattle.sender_steps.specs.Sender.{Sender, record_in};
ghost use Rattle.sender_steps.specs.Sights.{seen_value};
ghost use Rattle.sender_steps.specs.Stands.{Keeps, KeepsBoth, KnowsMade, makes};
ghost use Rattle.sender_turns.specs.Opening.{AreBound, is_unknown, with_open, MayOpen, IsOpenTold};
ghost use Rattle.sender_steps.specs.declared.sent.OpenSent.{OpenSent as OpenKept};

use bit_io::{Bits, Memory};
use channel_table::ChannelTable;
use class_layout::{Class, Classes, Pair};
use net_core::{Guid, GuidList};
use payload_writing::laws::path_may_be_exported;
use payload_writing::open_payload;
use sender_records::ActorRecord;
use sender_steps::{OpenSent, Seen};
use std::alloc::Global;
use std::collections::HashMap;

/// How many channels version one can spell.
const CHANNELS: u16 = 10_240;

/// The segments of a path that the client doesn't know, outermost first.
pub(crate) fn needed(alloc: Global, known: &[bool], path: &[Guid]) -> Result<GuidList, Memory>
    ensures { IfOk result (λ guids. guids ≡ filter (is_unknown known.now) path.now) }
{
    let mut guids = GuidList::new(alloc);
    for guid in path {
        if !is_known(known, *guid) {
            guids.push(*guid)?;
        }
    }
    Ok(guids)
}

/// An open as it is spelled: the segments that it exports, and its payload.
#[derive(Drop)]
pub(crate) struct SpelledOpen {
    pub guids: GuidList,
    pub payload: Bits,
}

/// Spells the open of an actor as it is seen, with the segments that the client doesn't know. Its
/// class is a place in the table.
pub(crate) fn spell_open(
    alloc: Global,
    known: &[bool],
    classes: &Classes,
    seen: &Seen,
) -> Result<SpelledOpen, Memory>
    requires class { seen.now.class < length classes.now.classes }
    requires few { length seen.now.values ≤ handle_limit }
    requires fit { IsTrue (pairs_fit (class_at (table_in classes.now) seen.now.class)
        seen.now.values) }
    ensures payload { IfOk result (λ o. (past : Past)
        → ((g : ℕ) → is_known_in past g ≡ slice_index_or known.now g false)
        → message_bits (open_message past (seen_value classes.now seen.now)) ≡ o.payload) }
    ensures guids { IfOk result (λ o. (past : Past)
        → ((g : ℕ) → is_known_in past g ≡ slice_index_or known.now g false) → (g : ℕ)
        → exports_segment g (open_message past (seen_value classes.now seen.now))
        ≡ is_among g o.guids) }
    ensures most { IfOk result (λ o. length o.payload ≤ payload_bits) }
{
    classes.keeps_rules();
    path_may_be_exported();
    let class = classes.class(seen.class).unwrap();
    let guids = needed(alloc, known, class.path.as_slice())?;
    let values = seen.values.as_slice();
    let payload = open_payload(
        alloc,
        classes,
        seen.class,
        seen.actor,
        guids.as_slice(),
        values,
    )?;
    Ok(SpelledOpen { guids, payload })
}

/// The segment was taken for known.
fn is_known(known: &[bool], guid: Guid) -> bool
    ensures { result ≡ slice_index_or known.now guid false }
{
    match known.get(guid.0 as usize) {
        Some(is_known) => *is_known,
        None => false,
    }
}

/// Notes an open that exports segments, with a place for each among those that are known or not.
/// After `Memory` there may be more places, but nothing else is known.
pub(crate) fn note_open(
    opens: &mut Vec<OpenSent>,
    known: &mut Vec<bool>,
    channel: u16,
    last: u64,
    guids: GuidList,
) -> Result<(), Memory>
    ensures opens { OnOk result (opens.new.items ≡ with_open opens.old.items
        (record { channel = channel; last = last; guids = guids })) }
    ensures places { OnOk result ((g : ℕ) → is_among g guids ≡ true → g < length known.new.items) }
    ensures longer { length known.old.items ≤ length known.new.items }
    ensures known { (g : ℕ) → slice_index_or known.new.items g false
        ≡ slice_index_or known.old.items g false }
{
    if guids.is_empty() {
        return Ok(());
    }
    make_places(known, past_all(guids.as_slice()))?;
    opens.push(OpenSent {
        channel,
        last,
        guids,
    })?;
    Ok(())
}

/// Where the places tell what is known, what is needed of a class's path is what the definitions
/// export; and an open that exports it makes known exactly these segments.
pub fn needed_is_exported()
    ensures needed { (segments : List Segment) (class : Class) (past : Past) (known : List Bool)
        → ((g : ℕ) → is_known_in past g ≡ slice_index_or known g false)
        → map (segment_at segments) (filter (is_unknown known) class.path)
        ≡ needed_segments past (class_of segments class) }
    ensures exports { (segments : List Segment) (guids : List ℕ) (actor : ℕ) (class : ClassSpec)
        (values : List PairSpec) (g : ℕ)
        → exports_segment g (Opens (map (segment_at segments) guids) actor class values)
        ≡ is_among g guids }
{}

/// What is known of every later past with the same bunches made stays so whatever is sent, and goes
/// on to a past with an open that is made and noted.
pub fn known_whatever_is_sent()
    ensures sent { (past next : Past) (known : List Bool) (opens : List OpenKept)
        → makes next ≡ makes past
        → ((ch n : ℕ) → has_arrived past ch n ≡ true → has_arrived next ch n ≡ true)
        → KnowsMade past known opens → KnowsMade next known opens }
    ensures opened { (sent past : Past) (m : Message) (o : OpenKept) (known : List Bool)
        (opens : List OpenKept) → are_sent sent ≡ true → span (sent ++ past) o.channel ≡ 0
        → o.last ≡ made_count past o.channel + parts_of m
        → ((g : ℕ) → exports_segment g m ≡ is_among g o.guids)
        → KnowsMade (sent ++ past) known opens
        → KnowsMade (sent ++ after_making past o.channel m) known (with_open opens o) }
{}

/// A packet that begins, and an item that goes into it and is no update, leave all that is kept as
/// it stands. A bunch that goes hasn't arrived.
pub fn packets_are_unseen()
    ensures begun { (s : Sender) (n t : ℕ) (past : Past) (samples : Samples)
        → Keeps s past samples → Keeps s (Deed.Sent n t [] ∷ past) samples }
    ensures item { (s : Sender) (n t : ℕ) (items : List Item) (item : Item) (past : Past)
        (samples : Samples) → high_of past < n → CarriesAwaited (Deed.Sent n t items ∷ past) item
        → ((a : ℕ) → is_update_of a item ≡ false)
        → Keeps s (Deed.Sent n t items ∷ past) samples
        → Keeps s (Deed.Sent n t (items ++ item ∷ []) ∷ past) samples }
{}

/// A number above each of these guids.
fn past_all(guids: &[Guid]) -> usize
    ensures { (g : ℕ) → is_among g guids.now ≡ true → g < result }
{
    let mut past = 0;
    for guid in guids {
        past = above(past, guid.0 as usize);
    }
    past
}

/// A number that isn't below one and is above the other.
fn above(least: usize, below: usize) -> usize
    requires { below < 2 ^ 32 }
    ensures least { least ≤ result }
    ensures above { below < result }
{
    if below < least { least } else { below + 1 }
}

/// Makes so many places, of segments that aren't known where there was none. `Memory` changes nothing.
fn make_places(known: &mut Vec<bool>, count: usize) -> Result<(), Memory>
    ensures enough { OnOk result (count ≤ length known.new.items) }
    ensures longer { length known.old.items ≤ length known.new.items }
    ensures known { (g : ℕ) → slice_index_or known.new.items g false
        ≡ slice_index_or known.old.items g false }
{
    if known.len() < count {
        known.resize(count, false)?;
    }
    Ok(())
}

/// The index for the next open: the least that no actor holds and on which all has arrived.
/// `Memory` where that is 10,240 or more, which no actor holds in either version.
pub(crate) fn free_channel(table: &ChannelTable) -> Result<u16, Memory>
    ensures index { IfOk result (λ ch. (s : Sender) (past : Past) (samples : Samples)
        → KeepsBoth s table.now past samples → ch ≡ free_index past) }
    ensures free { IfOk result (λ ch. (s : Sender) (past : Past) (samples : Samples) (a : ℕ)
        → KeepsBoth s table.now past samples → index_of past a ≢ Some ch) }
    ensures clear { IfOk result (λ ch. (side : Side) (past : Past) → KeepsTable table.now side past
        → (span past ch ≡ 0) × (1 ≤ ch)) }
    ensures low { IfOk result (λ ch. ch < channels_one) }
    ensures err { OnErr result ((s : Sender) (past : Past) (samples : Samples)
        → KeepsBoth s table.now past samples → channels_one ≤ free_index past) }
{
    let channel = table.free_index();
    if channel >= CHANNELS {
        return Err(Memory);
    }
    Ok(channel)
}

/// Keeps of an open that was made in this tick, with the values of this entry, what is to be known
/// of it: the actor's record, its segments, that the actor is pending and live, and that it holds
/// the channel, which no actor held. The values were sampled at the tick `sampled`. An actor that
/// was never shown has no record, and is refused.
pub(crate) fn keep_open(
    records: &mut HashMap<u32, ActorRecord>,
    pending: &mut Vec<Guid>,
    live: &mut Vec<Guid>,
    known: &mut Vec<bool>,
    opens: &mut Vec<OpenSent>,
    table: &mut ChannelTable,
    class: &Class,
    seen: &Seen,
    tick: u64,
    sampled: u64,
    made: OpenSent,
) -> Result<(), Memory>
    requires tick { 1 ≤ tick }
    requires some { 1 ≤ made.channel }
    requires low { made.channel < channels_one }
    requires stands { (past : Past) × AreBound table.old.bound past
        × ((a : ℕ) → index_of past a ≢ Some made.channel)
        × (index_of past seen.now.actor ≡ None) }
    ensures keeps { OnOk result ((s : Sender) (sent past : Past) (samples : Samples)
        (exports : List SegmentSpec) (shown : ClassSpec)
        → IsOpenTold s sent past samples seen.now.actor
        (Opens exports seen.now.actor shown (pairs_of seen.now.values)) made
        → MayOpen sent past samples seen.now.actor made.channel tick seen.now.values sampled
        → s.records ≡ records.old.entries
        → s.pending ≡ pending.old.items → s.live ≡ live.old.items
        → s.known ≡ known.old.items → s.opens ≡ opens.old.items
        → Keeps (record s {
          records = records.new.entries;
          pending = pending.new.items;
          live = live.new.items;
          known = known.new.items;
          opens = opens.new.items;
        }) (sent ++ after_making past made.channel
        (Opens exports seen.now.actor shown (pairs_of seen.now.values))) samples) }
    ensures bound { OnOk result ((sent past : Past) (exports : List SegmentSpec)
        (shown : ClassSpec) → AreBound table.old.bound (sent ++ past) → are_sent sent ≡ true
        → AreBound table.new.bound (sent ++ after_making past made.channel
        (Opens exports seen.now.actor shown (pairs_of seen.now.values)))) }
    ensures rest { OnOk result (table.new ≡ record table.old { bound = table.new.bound }) }
    ensures others { OnOk result ((a : ℕ) → seen.now.actor ≢ a
        → record_in records.new.entries a ≡ record_in records.old.entries a) }
    ensures places { OnOk result ((g : ℕ) → slice_index_or known.new.items g false
        ≡ slice_index_or known.old.items g false) }
{
    open_in(records, class, seen, tick, made.channel, sampled)?;
    pending.push(seen.actor)?;
    insert_live(live, seen.actor)?;
    table.bind(made.channel, seen.actor)?;
    note_open(opens, known, made.channel, made.last, made.guids)?;
    Ok(())
}

/// The record of the actor has its open; the others stay.
fn open_in(
    records: &mut HashMap<u32, ActorRecord>,
    class: &Class,
    seen: &Seen,
    tick: u64,
    index: u16,
    sampled: u64,
) -> Result<(), Memory>
    requires { 1 ≤ tick }
    ensures others { OnOk result ((a : ℕ) → seen.now.actor ≢ a
        → record_in records.new.entries a ≡ record_in records.old.entries a) }
    ensures keeps { OnOk result ((sent past : Past) (samples : Samples)
        (exports : List SegmentSpec) (shown : ClassSpec)
        → KeepsActor (sent ++ past) (samples_of samples seen.now.actor) seen.now.actor
        (record_in records.old.entries seen.now.actor)
        → 1 ≤ (record_in records.old.entries seen.now.actor).service.relevant_at
        → MayOpen sent past samples seen.now.actor index tick seen.now.values sampled
        → KeepsActor (sent ++ after_making past index
        (Opens exports seen.now.actor shown (pairs_of seen.now.values)))
        (samples_of samples seen.now.actor) seen.now.actor
        (record_in records.new.entries seen.now.actor)) }
    ensures state { OnOk result (state_value
        (record_in records.new.entries seen.now.actor).life.state ≡ Opening) }
    ensures unsent { OnOk result ((past : Past) (samples : List Sample) → tick ≡ tick_count past
        → AreNewest samples sampled seen.now.values → AreInTurn samples → (h : ℕ)
        → (handle_in (record_in records.new.entries seen.now.actor).handles.handles h).packet
        ≤ high_of past) }
{
    let Some(kept) = records.get_mut(&seen.actor.0) else {
        return Err(Memory);
    };
    open_record(kept, class, seen, tick, index, sampled)?;
    Ok(())
}

/// The record has an open of this entry's values, made in this tick on an index that is clear. No
/// packet carries a handle any more that isn't known of.
fn open_record(
    kept: &mut ActorRecord,
    class: &Class,
    seen: &Seen,
    tick: u64,
    index: u16,
    sampled: u64,
) -> Result<(), Memory>
    requires { 1 ≤ tick }
    ensures keeps { OnOk result ((sent past : Past) (samples : Samples)
        (exports : List SegmentSpec) (shown : ClassSpec)
        → KeepsActor (sent ++ past) (samples_of samples seen.now.actor) seen.now.actor kept.old
        → 1 ≤ kept.old.service.relevant_at
        → MayOpen sent past samples seen.now.actor index tick seen.now.values sampled
        → KeepsActor (sent ++ after_making past index
        (Opens exports seen.now.actor shown (pairs_of seen.now.values)))
        (samples_of samples seen.now.actor) seen.now.actor kept.new) }
    ensures state { OnOk result (state_value kept.new.life.state ≡ Opening) }
    ensures unsent { OnOk result ((past : Past) (samples : List Sample) → tick ≡ tick_count past
        → AreNewest samples sampled seen.now.values → AreInTurn samples → (h : ℕ)
        → (handle_in kept.new.handles.handles h).packet ≤ high_of past) }
{
    let values = seen.values.as_slice();
    kept.handles.opens(tick, class, seen.owns, values, sampled)?;
    kept.life.opens(index);
    kept.service.serves(tick);
    Ok(())
}

/// The actor is among the live ones, which ascend; it may have been so before.
fn insert_live(live: &mut Vec<Guid>, actor: Guid) -> Result<(), Memory>
    ensures ascends { OnOk result (1 ≤ actor → Ascends 0 live.old.items
        → Ascends 0 live.new.items) }
    ensures among { OnOk result ((a : ℕ) → is_among a live.new.items
        ≡ ((actor == a) || is_among a live.old.items)) }
{
    let at = place_of(live.as_slice(), actor);
    if is_at(live.as_slice(), at, actor) {
        return Ok(());
    }
    live.insert(at, actor)?;
    Ok(())
}

/// The actor stands at that place.
fn is_at(actors: &[Guid], at: usize, actor: Guid) -> bool
    ensures there { result ≡ true → slice_get actors.now at ≡ Some actor }
    ensures other { result ≡ false → slice_get actors.now at ≢ Some actor }
{
    match actors.get(at) {
        Some(other) => other.0 == actor.0,
        None => false,
    }
}

/// How many actors stand before the first that isn't below this one.
fn place_of(actors: &[Guid], actor: Guid) -> usize
    ensures most { result ≤ length actors.now }
    ensures before { (i a : ℕ) → slice_get actors.now i ≡ Some a → i < result → a < actor }
    ensures there { (a : ℕ) → slice_get actors.now result ≡ Some a → actor ≤ a }
{
    for place in 0..actors.len() {
        let other = &actors[place];
        if other.0 >= actor.0 {
            return place;
        }
    }
    actors.len()
}
