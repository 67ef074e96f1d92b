// Values given to handles, one by one.
ghost use Rattle.std.specs.Prelude.{◌≡◌, ◌≤◌, ◌<◌, ◌+◌, ◌∷◌, ◌==◌, ◌||◌, not, [], ℕ, List, map, length, slice_get, Some, None, OnOk, OnErr, IsOk, ◌^◌};
ghost use Rattle.protocol_model.specs.Value.{value_among};
ghost use Rattle.class_layout.specs.Tables.{class_of};
ghost use Rattle.class_layout.specs.declared.class.Segment.{Segment as SegmentSpec};
ghost use Rattle.value_codec.specs.declared.pair.Pair.{Pair as PairValue};
ghost use Rattle.sender_records.specs.Handles.{no_handle, handle_in, by_value, pairs_of, pair_value, AreApart, AllBelow, handle_opened, handle_carried, handle_compared, handle_changed, names_change, newest_change, is_updatable_in, handle_moved};

use crate::handle::{HandleRecord, is_updatable};
use class_layout::{Class, Pair};
use net_core::{Handle, Memory};
use shadow_changes::Change;

/// How many records the handles of these values need: one more than the greatest, 0 where there is
/// none.
fn needed(values: &[Pair]) -> usize
    ensures below { AllBelow result values.now }
    ensures least { (n : ℕ) → AllBelow n values.now → result ≤ n }
{
    let mut needed = 0;
    for p in values {
        let at = place(p.prop);
        if at >= needed {
            needed = at + 1;
        }
    }
    needed
}

/// A handle as a place in a list.
fn place(prop: Handle) -> usize
    ensures same { result ≡ prop }
    ensures most { result < 2 ^ 16 }
{
    prop.0 as usize
}

/// Takes the memory for the records of these handles, where there isn't one for each. `Memory`
/// changes nothing.
pub(crate) fn grow(handles: &mut Vec<HandleRecord>, values: &[Pair]) -> Result<(), Memory>
    ensures same { OnOk result ((h : ℕ) → handle_in handles.new.items h
        ≡ handle_in handles.old.items h) }
    ensures room { OnOk result (AllBelow (length handles.new.items) values.now) }
    ensures ok { AllBelow (length handles.old.items) values.now → IsOk result }
    ensures err { OnErr result (handles.new.items ≡ handles.old.items) }
{
    let least = needed(values);
    if handles.len() < least {
        handles.resize(least, HandleRecord::new())?;
    }
    Ok(())
}

/// Nothing is known of any handle any more; the memory stays.
pub(crate) fn forget_all(handles: &mut Vec<HandleRecord>)
    ensures len { length handles.new.items ≡ length handles.old.items }
    ensures each { (h : ℕ) → handle_in handles.new.items h ≡ no_handle }
{
    for i in 0..handles.len() {
        handles[i] = HandleRecord::new();
    }
}

/// An open of this tick carries these values.
pub(crate) fn open_all(
    handles: &mut Vec<HandleRecord>,
    tick: u64,
    class: &Class,
    owns: bool,
    values: &[Pair],
)
    requires room { AllBelow (length handles.old.items) values.now }
    ensures len { length handles.new.items ≡ length handles.old.items }
    ensures each { (segments : List SegmentSpec) (h : ℕ) → AreApart (pairs_of values.now)
        → handle_in handles.new.items h
        ≡ by_value (handle_opened tick (is_updatable_in (class_of segments class.now) owns h))
        (handle_in handles.old.items h) (value_among (pairs_of values.now) h) }
{
    for p in values {
        let updatable = is_updatable(class, owns, p.prop);
        let at = place(p.prop);
        handles[at] = HandleRecord::opened(tick, updatable, p.value);
    }
}

/// An update in this packet carries these values.
pub(crate) fn carry_all(handles: &mut Vec<HandleRecord>, packet: u64, values: &[Pair])
    requires room { AllBelow (length handles.old.items) values.now }
    ensures len { length handles.new.items ≡ length handles.old.items }
    ensures each { (h : ℕ) → AreApart (pairs_of values.now)
        → handle_in handles.new.items h ≡ by_value (handle_carried packet)
        (handle_in handles.old.items h) (value_among (pairs_of values.now) h) }
{
    for p in values {
        let at = place(p.prop);
        handles[at].carries(packet, p.value);
    }
}

/// Compares these values in this tick; `last` is the tick of the last comparison.
pub(crate) fn compare_all(
    handles: &mut Vec<HandleRecord>,
    last: u64,
    tick: u64,
    class: &Class,
    owns: bool,
    values: &[Pair],
)
    requires room { AllBelow (length handles.old.items) values.now }
    ensures len { length handles.new.items ≡ length handles.old.items }
    ensures each { (segments : List SegmentSpec) (h : ℕ) → AreApart (pairs_of values.now)
        → handle_in handles.new.items h
        ≡ by_value (handle_compared last tick
        (is_updatable_in (class_of segments class.now) owns h) (h == 3))
        (handle_in handles.old.items h) (value_among (pairs_of values.now) h) }
{
    for p in values {
        let updatable = is_updatable(class, owns, p.prop);
        let at = place(p.prop);
        handles[at].compares(last, tick, updatable, at == 3, p.value);
    }
}

/// Marks each handle that changed.
pub(crate) fn mark_all(handles: &mut Vec<HandleRecord>, changes: &[Change])
    ensures len { length handles.new.items ≡ length handles.old.items }
    ensures each { (h : ℕ) → h < length handles.old.items
        → handle_in handles.new.items h
        ≡ handle_changed (names_change changes.now h) (handle_in handles.old.items h) }
{
    for change in changes {
        let at = place(change.prop);
        if at < handles.len() {
            handles[at].marked = true;
        }
    }
}

/// The newest tick of these changes and of one before.
pub(crate) fn newest(before: u64, changes: &[Change]) -> u64
    ensures { result ≡ newest_change before changes.now }
{
    let mut newest = before;
    for change in changes {
        if change.tick > newest {
            newest = change.tick;
        }
    }
    newest
}

/// Packet `to` arrived, and those above `from` and below it are lost.
pub(crate) fn move_all(handles: &mut Vec<HandleRecord>, from: u64, to: u64)
    ensures { (h : ℕ) → handle_in handles.new.items h
        ≡ handle_moved from to (handle_in handles.old.items h) }
{
    for i in 0..handles.len() {
        handles[i].moves(from, to);
    }
}

/// The record of a handle.
pub(crate) fn record_at(handles: &Vec<HandleRecord>, prop: Handle) -> HandleRecord
    ensures { result ≡ handle_in handles.now.items prop }
{
    match handles.get(place(prop)) {
        Some(record) => *record,
        None => HandleRecord::new(),
    }
}
