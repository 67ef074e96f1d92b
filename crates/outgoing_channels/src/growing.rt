// Slots and windows for channels that come into use.
ghost use Rattle.std.specs.Prelude.{◌≡◌, ◌+◌, ◌<◌, ◌≤◌, ◌^◌, [], ℕ, length, take, max, OnOk, OnErr, IfOk};
ghost use Rattle.outgoing_channels.specs.Slots.{slot_at, CanPlace};

use crate::made_bunch::MadeBunch;
use crate::slot::OutSlot;
use bit_io::Memory;
use reliable_window::OutWindow;
use std::alloc::Global;

/// Makes slots up to `len`, as far as there is memory.
fn push_empty(slots: &mut Vec<OutSlot>, len: usize) -> Result<(), Memory>
    ensures first { take (length slots.old.items) slots.new.items ≡ slots.old.items }
    ensures same { (ch : ℕ) → slot_at slots.new.items ch ≡ slot_at slots.old.items ch }
    ensures least { OnOk result (len ≤ length slots.new.items) }
    ensures most { length slots.new.items ≤ max (length slots.old.items) len }
{
    for _count in slots.len()..len {
        slots.push(OutSlot::empty())?;
    }
    Ok(())
}

/// Makes slots up to `len`. `Memory` leaves them as they were.
pub(crate) fn grow(slots: &mut Vec<OutSlot>, len: usize) -> Result<(), Memory>
    ensures same { OnOk result ((ch : ℕ)
        → slot_at slots.new.items ch ≡ slot_at slots.old.items ch) }
    ensures least { OnOk result (len ≤ length slots.new.items) }
    ensures most { OnOk result (length slots.new.items ≤ max (length slots.old.items) len) }
    ensures err { OnErr result (slots.new.items ≡ slots.old.items) }
{
    let before = slots.len();
    match push_empty(slots, len) {
        Ok(()) => Ok(()),
        Err(memory) => {
            slots.truncate(before);
            Err(memory)
        }
    }
}

/// A window that begins with a number: one that was put by, or a new one.
fn window_for(
    alloc: Global,
    spare: &mut Vec<OutWindow<MadeBunch>>,
    first: u64,
) -> Result<OutWindow<MadeBunch>, Memory>
    requires least { 1 ≤ first }
    requires most { first < 2 ^ 61 }
    ensures { IfOk result (λ w. (w.first ≡ first) × (w.slots ≡ []) × (w.told ≡ 0)) }
{
    match spare.pop() {
        Some(mut window) => {
            window.restart(first);
            Ok(window)
        }
        None => OutWindow::new(alloc, first),
    }
}

/// A window for a channel, unless it has one.
pub(crate) fn spare_for(
    alloc: Global,
    spare: &mut Vec<OutWindow<MadeBunch>>,
    slots: &Vec<OutSlot>,
    channel: usize,
) -> Result<Option<OutWindow<MadeBunch>>, Memory>
    requires least { 1 ≤ (slot_at slots.now.items channel).next }
    requires most { (slot_at slots.now.items channel).next < 2 ^ 61 }
    ensures { IfOk result (λ o. CanPlace (slot_at slots.now.items channel).next
        (slot_at slots.now.items channel).window o) }
{
    let mut next = 1;
    if let Some(slot) = slots.get(channel) {
        if slot.window.is_some() {
            return Ok(None);
        }
        next = slot.next;
    }
    let window = window_for(alloc, spare, next)?;
    Ok(Some(window))
}
