// The parts of a payload go into a channel's window.
ghost use Rattle.std.specs.Prelude.{◌≡◌, ◌+◌, ◌<◌, ◌≤◌, ◌^◌, ◌∷◌, ◌++◌, ◌≢◌, [], ℕ, List, Bool, length, slice_get, Some, IfOk, OnOk, OnErr};
ghost use Rattle.protocol_model.specs.Limits.{channels_two, payload_bits, span_limit};
ghost use Rattle.protocol_model.specs.Payload.{part_count};
ghost use Rattle.outgoing_channels.specs.Made.{part_made, part_of, uncarried};
ghost use Rattle.outgoing_channels.specs.Slots.{ArePieces, MakesParts, WindowFits, slot_at, outgoing_of, kept_of};

use crate::growing::{grow, spare_for};
use crate::made_bunch::MadeBunch;
use crate::mark::Mark;
use crate::slot::OutSlot;
use bit_io::{Bits, Memory};
use partial_bunches::cut;
use protocol_model::limits::SEQUENCE_MODULUS;
use reliable_window::OutWindow;
use std::alloc::Global;
use std::collections::VecDeque;

/// Makes the i-th part of a payload of `len` bits.
fn push_part(
    window: &mut OutWindow<MadeBunch>,
    channel: u16,
    mark: Mark,
    len: usize,
    number: u64,
    i: usize,
    bits: Bits,
)
    requires most { len ≤ payload_bits }
    requires i { i < part_count len }
    requires number { number ≡ window.old.first + length window.old.slots }
    requires below { number < 2 ^ 61 }
    requires room { length window.old.slots < span_limit }
    ensures { window.new ≡ record window.old
        { slots = window.old.slots ++ uncarried (part_made mark channel len bits number i) ∷ [] } }
{
    let made = MadeBunch {
        opens: mark.opens() && i == 0,
        closes: mark.closes(),
        sleeps: mark.sleeps(),
        channel,
        exports: mark.exports() && i == 0,
        part: cut(len, i).part,
        seq: (number % SEQUENCE_MODULUS as u64) as u16,
        bits,
    };
    window.push(made);
}

/// Makes the parts of a payload of `len` bits: the first, and those after it.
pub(crate) fn push_parts(
    window: &mut OutWindow<MadeBunch>,
    channel: u16,
    mark: Mark,
    len: usize,
    first: Bits,
    rest: VecDeque<Bits>,
)
    requires most { len ≤ payload_bits }
    requires count { length rest.items + 1 ≡ part_count len }
    requires room { length window.old.slots + part_count len ≤ span_limit }
    requires below { window.old.first + length window.old.slots + part_count len ≤ 2 ^ 61 }
    ensures first { window.new.first ≡ window.old.first }
    ensures told { window.new.told ≡ window.old.told }
    ensures count { length window.new.slots ≡ length window.old.slots + part_count len }
    ensures before { (j : ℕ) → j < length window.old.slots
        → slice_get window.new.slots j ≡ slice_get window.old.slots j }
    ensures parts { (payload : List Bool) → length payload ≡ len
        → ArePieces payload first rest.items
        → (j : ℕ) → j < part_count len → slice_get window.new.slots (length window.old.slots + j)
        ≡ Some (uncarried (part_of mark channel payload (window.old.first + length window.old.slots
        + j) j)) }
{
    let mut rest = rest;
    let number = window.next();
    let count = rest.len() + 1;
    push_part(window, channel, mark, len, number, 0, first);
    for i in 1..count {
        if let Some(bits) = rest.pop_front() {
            push_part(window, channel, mark, len, number + i as u64, i, bits);
        }
    }
}

/// Makes the parts of a payload of `len` bits on a channel, and answers the number of the first.
/// `Memory` leaves the slots as they were.
pub(crate) fn make_on(
    alloc: Global,
    slots: &mut Vec<OutSlot>,
    spare: &mut Vec<OutWindow<MadeBunch>>,
    channel: u16,
    mark: Mark,
    len: usize,
    first: Bits,
    rest: VecDeque<Bits>,
) -> Result<u64, Memory>
    requires channel { channel < channels_two }
    requires slots { length slots.old.items ≤ channels_two }
    requires most { len ≤ payload_bits }
    requires count { length rest.items + 1 ≡ part_count len }
    requires least { 1 ≤ (slot_at slots.old.items channel).next }
    requires fits { (high : ℕ)
        × WindowFits high (slot_at slots.old.items channel).next (slot_at slots.old.items
        channel).window }
    requires room { length (kept_of (slot_at slots.old.items channel)) + part_count len
        ≤ span_limit }
    requires below { (slot_at slots.old.items channel).next + part_count len ≤ 2 ^ 61 }
    ensures number { IfOk result (λ n. n ≡ (slot_at slots.old.items channel).next) }
    ensures slots { OnOk result (length slots.new.items ≤ channels_two) }
    ensures others { OnOk result ((c : ℕ) → c ≢ channel
        → slot_at slots.new.items c ≡ slot_at slots.old.items c) }
    ensures makes { OnOk result ((payload : List Bool) → length payload ≡ len
        → ArePieces payload first rest.items
        → MakesParts mark channel payload (outgoing_of (slot_at slots.old.items channel))
        (outgoing_of (slot_at slots.new.items channel))) }
    ensures fits { OnOk result ((high : ℕ)
        → WindowFits high (slot_at slots.old.items channel).next (slot_at slots.old.items
        channel).window
        → WindowFits high (slot_at slots.new.items channel).next (slot_at slots.new.items
        channel).window) }
    ensures next { OnOk result ((slot_at slots.new.items channel).next
        ≡ (slot_at slots.old.items channel).next + part_count len) }
    ensures err { OnErr result (slots.new.items ≡ slots.old.items) }
{
    let place = channel as usize;
    let window = spare_for(alloc, spare, slots, place)?;
    grow(slots, place + 1)?;
    let slot = &mut slots[place];
    let number = slot.next;
    slot.place(window);
    slot.make(channel, mark, len, first, rest);
    Ok(number)
}
