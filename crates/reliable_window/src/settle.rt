// What the fate of a packet does to the items that may be sent again.
ghost use Rattle.std.specs.Prelude.{◌≡◌, ◌+◌, ◌-◌, ◌<◌, ◌≤◌, ◌^◌, ℕ, length, map, drop, slice_get, slice_set, Some, true, false};
ghost use Rattle.circular_buffer.specs.Buffer.{buffer};
ghost use Rattle.reliable_window.specs.Out.{Marked, carried_by, settled, moved_to, slot_arrived};

use crate::marks::put;
use crate::slot::Slot;
use circular_buffer::HeapCircularBuffer;

/// A packet carries the item that stands at this index, where the first of the items has this
/// number.
pub fn carry<T: Drop>(
    slots: &mut HeapCircularBuffer<Slot<T>>,
    due: &mut [u64; 4],
    first: u64,
    index: usize,
    packet: u64,
)
    requires first { first ≤ 2 ^ 62 }
    requires index { index < length slots.old.items }
    requires most { length slots.old.items ≤ 256 }
    requires marked { Marked due.old first slots.old.items }
    ensures slots { (s : Slot T) → slice_get slots.old.items index ≡ Some s
        → slots.new ≡ buffer (slice_set slots.old.items index (carried_by packet s))
        slots.old.capacity }
    ensures capacity { slots.new.capacity ≡ slots.old.capacity }
    ensures len { length slots.new.items ≡ length slots.old.items }
    ensures marked { Marked due.new first slots.new.items }
{
    if let Some(slot) = slots.get_mut(index) {
        slot.carrier = Some(packet);
        slot.fate = None;
        put(due, ((first + index as u64) % 256) as usize, false);
    }
}

/// Settles the items that a packet carried last, where the first of the items has this number.
pub fn settle<T: Drop>(
    slots: &mut HeapCircularBuffer<Slot<T>>,
    due: &mut [u64; 4],
    first: u64,
    packet: u64,
    arrived: bool,
)
    requires first { first ≤ 2 ^ 62 }
    requires most { length slots.old.items ≤ 256 }
    requires marked { Marked due.old first slots.old.items }
    ensures slots { slots.new
        ≡ buffer (map (settled packet arrived) slots.old.items) slots.old.capacity }
    ensures marked { Marked due.new first slots.new.items }
{
    for i in 0..slots.len() {
        if let Some(slot) = slots.get_mut(i) {
            if slot.carrier == Some(packet) {
                slot.fate = Some(arrived);
                put(due, ((first + i as u64) % 256) as usize, !arrived);
            }
        }
    }
}

/// Settles the items of packets up to one that arrived: those before it that weren't known of are
/// lost.
pub fn settle_to<T: Drop>(
    slots: &mut HeapCircularBuffer<Slot<T>>,
    due: &mut [u64; 4],
    first: u64,
    to: u64,
)
    requires first { first ≤ 2 ^ 62 }
    requires most { length slots.old.items ≤ 256 }
    requires marked { Marked due.old first slots.old.items }
    ensures slots { slots.new ≡ buffer (map (moved_to to) slots.old.items) slots.old.capacity }
    ensures marked { Marked due.new first slots.new.items }
{
    for i in 0..slots.len() {
        if let Some(slot) = slots.get_mut(i) {
            if let Some(arrived) = slot.told_by(to) {
                slot.fate = Some(arrived);
                let place = ((first + i as u64) % 256) as usize;
                put(due, place, !arrived);
            }
        }
    }
}

/// Takes out the items before the first that hasn't arrived, and answers how many these were.
pub fn take_arrived<T: Drop>(slots: &mut HeapCircularBuffer<Slot<T>>) -> u64
    ensures most { result ≤ length slots.old.items }
    ensures slots { slots.new ≡ buffer (drop result slots.old.items) slots.old.capacity }
    ensures gone { (i : ℕ) (s : Slot T) → i < result → slice_get slots.old.items i ≡ Some s
        → slot_arrived s ≡ true }
    ensures next { (s : Slot T) → slice_get slots.new.items 0 ≡ Some s → slot_arrived s ≡ false }
{
    let len = slots.len();
    for count in 0..len {
        match slots.front() {
            Some(slot) if slot.has_arrived() => {}
            _ => return count as u64,
        }
        slots.pop_front();
    }
    len as u64
}
