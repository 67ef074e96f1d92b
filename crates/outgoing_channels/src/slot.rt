// One outgoing channel.
ghost use Rattle.std.specs.Prelude.{◌≡◌, ◌+◌, ◌<◌, ◌≤◌, ◌^◌, ℕ, List, Bool, length, slice_set, true, Some, option_map, is_some, IfSome, IfNone};
ghost use Rattle.protocol_model.specs.Limits.{payload_bits, span_limit};
ghost use Rattle.protocol_model.specs.Payload.{part_count};
ghost use Rattle.packet_codec.specs.Values.{bunch_of};
ghost use Rattle.reliable_window.specs.Out.{FindsDue, item_kept};
ghost use Rattle.outgoing_channels.specs.Made.{bunch_made, window_of};
ghost use Rattle.outgoing_channels.specs.Slots.{outgoing_of, slot_at, kept_in, empty_slot, WindowFits, CanPlace, ArePieces, MakesParts, IsDueAt, CarriesOut, MovesOut};

use crate::made_bunch::MadeBunch;
use crate::making::push_parts;
use crate::mark::Mark;
use bit_io::Bits;
use packet_codec::Bunch;
use reliable_window::OutWindow;
use std::collections::VecDeque;

/// A channel's next number, and its window, which may be away while no bunch is kept.
#[derive(Drop)]
pub(crate) struct OutSlot {
    pub next: u64,
    pub window: Option<OutWindow<MadeBunch>>,
}

impl OutSlot {
    /// A channel that was never used.
    pub fn empty() -> OutSlot
        ensures { result ≡ empty_slot }
    {
        OutSlot {
            next: 1,
            window: None,
        }
    }

    /// How many bunches are kept.
    pub fn span(&self) -> u32
        ensures kept { result ≡ length (kept_in self.now.window) }
        ensures most { result ≤ span_limit }
    {
        match &self.window {
            Some(window) => window.span(),
            None => 0,
        }
    }

    /// The least due number at or above one.
    pub fn due(&self, from: u64) -> Option<u64>
        requires { (high : ℕ) × WindowFits high self.now.next self.now.window }
        ensures { FindsDue (window_of (outgoing_of self.now)) from result }
    {
        match &self.window {
            Some(window) => window.due(from),
            None => None,
        }
    }

    /// The bunch of a number, if it is kept.
    pub fn bunch(&self, n: u64) -> Option<Bunch<'_>>
        requires { (high : ℕ) × WindowFits high self.now.next self.now.window }
        ensures { option_map bunch_of result
            ≡ option_map bunch_made (item_kept (window_of (outgoing_of self.now)) n) }
    {
        match &self.window {
            Some(window) => match window.get(n) {
                Some(made) => Some(made.lend()),
                None => None,
            },
            None => None,
        }
    }

    /// Takes a window, unless it has one.
    pub fn place(&mut self, window: Option<OutWindow<MadeBunch>>)
        requires { CanPlace self.old.next self.old.window window }
        ensures next { self.new.next ≡ self.old.next }
        ensures window { is_some self.new.window ≡ true }
        ensures kept { kept_in self.new.window ≡ kept_in self.old.window }
        ensures fits { (high : ℕ) → WindowFits high self.old.next self.old.window
            → WindowFits high self.new.next self.new.window }
    {
        if self.window.is_none() {
            self.window = window;
        }
    }

    /// Makes the parts of a payload of `len` bits, of which the first part and those after it are
    /// given.
    pub fn make(&mut self, channel: u16, mark: Mark, len: usize, first: Bits, rest: VecDeque<Bits>)
        requires window { is_some self.old.window ≡ true }
        requires fits { (high : ℕ) × WindowFits high self.old.next self.old.window }
        requires most { len ≤ payload_bits }
        requires count { length rest.items + 1 ≡ part_count len }
        requires room { length (kept_in self.old.window) + part_count len ≤ span_limit }
        requires below { self.old.next + part_count len ≤ 2 ^ 61 }
        ensures makes { (payload : List Bool) → length payload ≡ len
            → ArePieces payload first rest.items
            → MakesParts mark channel payload (outgoing_of self.old) (outgoing_of self.new) }
        ensures fits { (high : ℕ) → WindowFits high self.old.next self.old.window
            → WindowFits high self.new.next self.new.window }
        ensures next { self.new.next ≡ self.old.next + part_count len }
    {
        let count = rest.len() as u64 + 1;
        if let Some(window) = &mut self.window {
            push_parts(window, channel, mark, len, first, rest);
            self.next += count;
        }
    }

    /// A packet carries the bunch of a due number.
    pub fn carried(&mut self, n: u64, packet: u64)
        requires fits { (high : ℕ) × WindowFits high self.old.next self.old.window
            × (high < packet) }
        requires due { IsDueAt (window_of (outgoing_of self.old)) n }
        ensures next { self.new.next ≡ self.old.next }
        ensures carries { CarriesOut n packet (outgoing_of self.old) (outgoing_of self.new) }
        ensures fits { (high : ℕ) → WindowFits high self.old.next self.old.window
            → WindowFits high self.new.next self.new.window }
    {
        if let Some(window) = &mut self.window {
            window.carried(n, packet);
        }
    }

    /// A move to a packet is told.
    pub fn moved(&mut self, to: u64)
        requires { (high : ℕ) × WindowFits high self.old.next self.old.window × (high < to) }
        ensures moves { MovesOut to (outgoing_of self.old) (outgoing_of self.new) }
        ensures fits { WindowFits to self.new.next self.new.window }
    {
        if let Some(window) = &mut self.window {
            window.moved(to);
        }
    }
}

/// A channel's slot; `None` only where it was never used.
pub(crate) fn slot_of(slots: &Vec<OutSlot>, channel: usize) -> Option<&OutSlot>
    ensures some { IfSome result (λ s. s.now ≡ slot_at slots.now.items channel) }
    ensures none { IfNone result (slot_at slots.now.items channel ≡ empty_slot) }
{
    if channel < slots.len() {
        Some(&slots[channel])
    } else {
        None
    }
}

/// A packet carries a due bunch of a channel.
pub(crate) fn carried_on(slots: &mut Vec<OutSlot>, channel: usize, n: u64, packet: u64)
    requires within { channel < length slots.old.items }
    requires fits { (high : ℕ)
        × WindowFits high (slot_at slots.old.items channel).next (slot_at slots.old.items
        channel).window × (high < packet) }
    requires due { IsDueAt (window_of (outgoing_of (slot_at slots.old.items channel))) n }
    ensures slots { slots.new.items
        ≡ slice_set slots.old.items channel (slot_at slots.new.items channel) }
    ensures carries { CarriesOut n packet (outgoing_of (slot_at slots.old.items channel))
        (outgoing_of (slot_at slots.new.items channel)) }
    ensures next { (slot_at slots.new.items channel).next ≡ (slot_at slots.old.items channel).next }
    ensures fits { (high : ℕ)
        → WindowFits high (slot_at slots.old.items channel).next (slot_at slots.old.items
        channel).window
        → WindowFits high (slot_at slots.new.items channel).next (slot_at slots.new.items
        channel).window }
{
    let slot = &mut slots[channel];
    slot.carried(n, packet);
}
