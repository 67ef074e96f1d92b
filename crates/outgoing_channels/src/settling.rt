// A move of fates, over all channels.
ghost use Rattle.std.specs.Prelude.{◌≡◌, ◌+◌, ◌<◌, ◌≤◌, ℕ, length, slice_set};
ghost use Rattle.std.specs.List.{sum_by};
ghost use Rattle.protocol_model.specs.Limits.{channels_two, span_limit};
ghost use Rattle.outgoing_channels.specs.Slots.{outgoing_of, slot_at, WindowFits, Marks, MovesOut, kept_of};

use crate::index_set::IndexSet;
use crate::made_bunch::MadeBunch;
use crate::slot::OutSlot;
use reliable_window::OutWindow;

/// Tells a move to a channel, and answers how many of its bunches are kept. A window that has none
/// is put by for another channel.
fn settle_slot(
    slots: &mut Vec<OutSlot>,
    spare: &mut Vec<OutWindow<MadeBunch>>,
    channel: usize,
    to: u64,
) -> u32
    requires channel { channel < length slots.old.items }
    requires fits { (high : ℕ)
        × WindowFits high (slot_at slots.old.items channel).next (slot_at slots.old.items
        channel).window × (high < to) }
    ensures len { length slots.new.items ≡ length slots.old.items }
    ensures moves { MovesOut to (outgoing_of (slot_at slots.old.items channel)) (outgoing_of
        (slot_at slots.new.items channel)) }
    ensures fits { WindowFits to (slot_at slots.new.items channel).next (slot_at slots.new.items
        channel).window }
    ensures slots { slots.new.items
        ≡ slice_set slots.old.items channel (slot_at slots.new.items channel) }
    ensures span { result ≡ length (kept_of (slot_at slots.new.items channel)) }
    ensures most { result ≤ span_limit }
{
    let slot = &mut slots[channel];
    slot.moved(to);
    let span = slot.span();
    if span == 0 {
        if let Some(window) = slot.window.take() {
            let _kept = spare.push(window);
        }
    }
    span
}

/// Tells a move to each channel of the set, and takes out of it those that keep nothing after it.
/// Answers how many bunches are kept.
pub(crate) fn settle_all(
    slots: &mut Vec<OutSlot>,
    spare: &mut Vec<OutWindow<MadeBunch>>,
    active: &mut IndexSet,
    to: u64,
) -> u32
    requires marks { Marks active.old slots.old.items }
    requires most { length slots.old.items ≤ channels_two }
    requires fits { (high : ℕ) × ((c : ℕ)
        → WindowFits high (slot_at slots.old.items c).next (slot_at slots.old.items c).window)
        × (high < to) }
    ensures slots { length slots.new.items ≡ length slots.old.items }
    ensures marks { Marks active.new slots.new.items }
    ensures moves { (c : ℕ)
        → MovesOut to (outgoing_of (slot_at slots.old.items c)) (outgoing_of (slot_at
        slots.new.items c)) }
    ensures fits { (c : ℕ)
        → WindowFits to (slot_at slots.new.items c).next (slot_at slots.new.items c).window }
    ensures sum { result ≡ sum_by (λ s. length (kept_of s)) slots.new.items }
{
    let mut sum = 0u32;
    let mut at = 0usize;
    while let Some(channel) = active.next(at) {
        let span = settle_slot(slots, spare, channel, to);
        if span == 0 {
            active.put(channel, false);
        }
        sum += span;
        at = channel + 1;
    }
    sum
}
