// The change lists of one actor.
ghost use Rattle.std.specs.Prelude.{◌≡◌, ◌+◌, ◌<◌, ◌≤◌, ◌∷◌, ℕ, List, length, map, true, take, IfOk, OnOk};
ghost use Rattle.circular_buffer.specs.Buffer.{buffer};
ghost use Rattle.protocol_model.specs.Limits.{handle_limit};
ghost use Rattle.change_model.specs.Changes.{Sample, changes_since};
ghost use Rattle.shadow_changes.specs.Lists.{KeepsLists, AreListed, AreFalling, above, last_tick, newest_in, tick_of, no_lists, list_limit};
ghost use Rattle.shadow_changes.specs.Samples.{change_value, may_follow, sample_of};
ghost use Rattle.shadow_changes.specs.Puts.{IsEnd};

use crate::change::{Change, ChangeList, changed};
use crate::noted::{Noted, later_than, merged, note_all};
use circular_buffer::HeapCircularBuffer;
use class_layout::Value;
use net_core::Memory;
use std::alloc::Global;
use std::marker::Model;

/// How many lists are kept: the two oldest are merged before one more.
const LIST_LIMIT: usize = 64;

/// The lists of one actor, the newest first, and its newest sample, each value as a whole number.
#[derive(Drop)]
pub struct Lists {
    tick: Option<u64>,
    last: Vec<i64>,
    lists: HeapCircularBuffer<Noted>,
}

impl Model for Lists {
    ghost use Rattle.std.specs.Prelude.{◌≡◌};
    ghost use Rattle.shadow_changes.specs.Lists.{Lists, list_limit};

    ghost Value = { Lists };

    ghost view = { λ l. record { tick = l.tick; last = l.last.items; lists = l.lists.items } };

    ghost invariant = { λ l. l.lists.capacity ≡ list_limit };
}

impl Lists {
    /// No sample yet. The room for all lists is taken at once.
    pub fn new(alloc: Global) -> Result<Lists, Memory>
        ensures { IfOk result (λ l. l ≡ no_lists) }
    {
        Ok(Lists {
            tick: None,
            last: Vec::new(alloc),
            lists: HeapCircularBuffer::with_capacity(alloc, LIST_LIMIT)?,
        })
    }

    /// Notes what differs from the sample before. A sample that changes nothing keeps no list and
    /// takes no memory.
    pub fn sample(&mut self, alloc: Global, tick: u64, values: &[Value]) -> Result<(), Memory>
        requires { length values.now < handle_limit }
        ensures { OnOk result ((samples : List Sample) → KeepsLists self.old samples
            → may_follow samples tick (length values.now) ≡ true
            → KeepsLists self.new (sample_of tick values.now ∷ samples)) }
    {
        let changes = changed(alloc, &mut self.last, values, tick)?;
        self.tick = Some(tick);
        if !changes.is_empty() {
            merge_oldest(&mut self.lists)?;
            push(&mut self.lists, Noted { tick, changes });
        }
        Ok(())
    }

    /// The tick of the newest sample, 0 where there is none.
    pub fn newest(&self) -> u64
        ensures { (samples : List Sample) → KeepsLists self.now samples
            → result ≡ last_tick samples }
    {
        self.tick.unwrap_or(0)
    }

    /// Each handle noted above a tick, ascending, with its newest tick. Only lists above that tick
    /// are looked at, and where there is none no memory is taken.
    pub fn since(&self, alloc: Global, tick: u64) -> Result<ChangeList, Memory>
        ensures { IfOk result (λ changes. (samples : List Sample) → KeepsLists self.now samples
            → map change_value changes ≡ changes_since samples tick) }
    {
        let changes = gathered(alloc, &self.lists, tick)?;
        Ok(later_than(changes, tick))
    }
}

/// How many lists, from the newest on, are above a tick.
fn count_above(lists: &HeapCircularBuffer<Noted>, tick: u64) -> usize
    ensures most { result ≤ length lists.now.items }
    ensures end { IsEnd tick lists.now.items result }
{
    for i in 0..lists.len() {
        match lists.get(i) {
            Some(list) if list.tick > tick => {}
            _ => return i,
        }
    }
    lists.len()
}

/// The newest tick of each handle in the lists above a tick: from the oldest of these on, each list
/// goes over those before it.
fn gathered(
    alloc: Global,
    lists: &HeapCircularBuffer<Noted>,
    tick: u64,
) -> Result<Vec<Change>, Memory>
    ensures { IfOk result (λ changes. (count newest : ℕ) → AreFalling count newest lists.now.items
        → AreListed count newest 0 changes.items × ((h : ℕ)
        → above tick (tick_of changes.items h) ≡ above tick (newest_in lists.now.items h))) }
{
    let mut changes = Vec::new(alloc);
    let end = count_above(lists, tick);
    for i in 0..end {
        if let Some(list) = lists.get(end - 1 - i) {
            note_all(&mut changes, list.changes.as_slice())?;
        }
    }
    Ok(changes)
}

/// Makes room for a list: where there is none the two oldest are merged.
fn merge_oldest(lists: &mut HeapCircularBuffer<Noted>) -> Result<(), Memory>
    requires { lists.old.capacity ≡ list_limit }
    ensures capacity { lists.new.capacity ≡ list_limit }
    ensures room { OnOk result (length lists.new.items < list_limit) }
    ensures noted { OnOk result ((count newest : ℕ) → AreFalling count newest lists.old.items
        → (h : ℕ) → newest_in lists.new.items h ≡ newest_in lists.old.items h) }
    ensures falling { OnOk result ((count newest : ℕ) → AreFalling count newest lists.old.items
        → AreFalling count newest lists.new.items) }
{
    if lists.len() < LIST_LIMIT {
        return Ok(());
    }
    let older = lists.pop_back().unwrap();
    let newer = lists.pop_back().unwrap();
    let both = merged(newer, older)?;
    lists.push_back(both);
    Ok(())
}

/// The newest list, where there is room for it.
fn push(lists: &mut HeapCircularBuffer<Noted>, noted: Noted)
    requires { length lists.old.items < lists.old.capacity }
    ensures { lists.new ≡ buffer (noted ∷ lists.old.items) lists.old.capacity }
{
    lists.push_front(noted);
}
