// Items made, numbered, and sent again until they have arrived.
ghost use Rattle.std.specs.Prelude.{◌≡◌, ◌+◌, ◌-◌, ◌<◌, ◌≤◌, ◌^◌, ◌∷◌, ◌++◌, [], ℕ, length, map, slice_get, slice_set, true, false, nat_lt, None, Some, Option, option_map, if◌then◌else◌, IfOk};
ghost use Rattle.std.specs.Option.{option_copied};
ghost use Rattle.protocol_model.specs.Limits.{span_limit};
ghost use Rattle.reliable_window.specs.Out.{Deed, Deeds, Stands, next_of, span_of, due_from, item_at, slot_due, settled, carried_by, FindsDue, Settles, moved_to, item_kept};
ghost use Rattle.reliable_window.specs.declared.slot.Slot.{Slot as SlotSpec};

use crate::marks::{distance, put};
use crate::settle::{carry, settle, settle_to, take_arrived};
use crate::slot::Slot;
use bit_io::Memory;
use circular_buffer::HeapCircularBuffer;
use protocol_model::limits::SPAN_LIMIT;
use std::alloc::Global;
use std::marker::Model;

/// The items made on a channel from a number on, of which at most 256 haven't arrived.
///
/// An item goes through these states; `carried` is asked for a due one alone, and an item leaves
/// the window once it and all before it have arrived.
///
///     push -> due --carried--> under way --arrived--> arrived
///              ^                   |
///              +-------lost--------+
///
/// `due` looks at no more than five words of a set of bits. `lost` and `arrived` look at each item
/// that is kept; every other call takes constant time.
#[derive(Drop)]
pub struct OutWindow<T> {
    first: u64,
    slots: HeapCircularBuffer<Slot<T>>,
    due: [u64; 4],
    told: u64,
}

impl<T> Model for OutWindow<T> {
    ghost use Rattle.std.specs.Prelude.{◌≡◌, ◌+◌, ◌≤◌, ◌^◌, length};
    ghost use Rattle.protocol_model.specs.Limits.{span_limit};
    ghost use Rattle.reliable_window.specs.Out.{Window, Marked};

    ghost Value = { Window T };

    ghost view = { λ w. record { first = w.first; slots = w.slots.items; told = w.told } };

    ghost invariant = { λ w. (w.slots.capacity ≡ span_limit) × (length w.slots.items ≤ span_limit)
        × (w.first + length w.slots.items ≤ 2 ^ 61) × (Marked w.due w.first w.slots.items) };
}

impl<T: Drop> OutWindow<T> {
    /// No items, with all the memory that the window ever needs. The first item will have this
    /// number, from 1 to 2^61 - 1; numbers below it count as arrived.
    pub fn new(alloc: Global, first: u64) -> Result<OutWindow<T>, Memory>
        requires least { 1 ≤ first }
        requires most { first < 2 ^ 61 }
        ensures stands { IfOk result (λ w. Stands w first []) }
        ensures empty { IfOk result (λ w. (w.first ≡ first) × (w.slots ≡ []) × (w.told ≡ 0)) }
    {
        let slots = HeapCircularBuffer::with_capacity(alloc, SPAN_LIMIT)?;
        Ok(OutWindow {
            first,
            slots,
            due: [0; 4],
            told: 0,
        })
    }

    /// The number of the next item.
    pub fn next(&self) -> u64
        ensures { result ≡ self.now.first + length self.now.slots }
    {
        self.first + self.slots.len() as u64
    }

    /// The next number less the least that hasn't arrived, from 0 to 256.
    pub fn span(&self) -> u32
        ensures span { (first : ℕ) (deeds : Deeds T) → Stands self.now first deeds
            → result ≡ span_of first deeds }
        ensures kept { result ≡ length self.now.slots }
        ensures most { result ≤ span_limit }
    {
        self.slots.len() as u32
    }

    /// How many items can be made before one more has to arrive: 256 less the span.
    pub fn room(&self) -> u32
        ensures { (first : ℕ) (deeds : Deeds T) → Stands self.now first deeds
            → result ≡ span_limit - span_of first deeds }
    {
        (SPAN_LIMIT - self.slots.len()) as u32
    }

    /// Makes an item, and answers its number. There is room, and the number is below 2^61.
    pub fn push(&mut self, item: T) -> u64
        requires room { length self.old.slots < span_limit }
        requires most { self.old.first + length self.old.slots < 2 ^ 61 }
        ensures number { (first : ℕ) (deeds : Deeds T) → Stands self.old first deeds
            → result ≡ next_of first deeds }
        ensures stands { (first : ℕ) (deeds : Deeds T) → Stands self.old first deeds
            → Stands self.new first (Deed.Pushed item ∷ deeds) }
        ensures place { result ≡ self.old.first + length self.old.slots }
        ensures slots { self.new ≡ record self.old
            { slots = self.old.slots ++ record { item = item; carrier = None; fate = None } ∷ [] } }
    {
        let number = self.first + self.slots.len() as u64;
        self.slots.push_back(Slot {
            item,
            carrier: None,
            fate: None,
        });
        put(&mut self.due, (number % 256) as usize, true);
        number
    }

    /// The least number at or above this one that was never carried, or that a lost packet carried
    /// last. `None` exactly where there is none.
    pub fn due(&self, from: u64) -> Option<u64>
        ensures due { (first : ℕ) (deeds : Deeds T) → Stands self.now first deeds
            → result ≡ due_from first deeds from }
        ensures finds { FindsDue self.now from result }
    {
        let from = from.max(self.first);
        let end = self.first + self.slots.len() as u64;
        if from >= end {
            return None;
        }
        let number = from + distance(&self.due, (from % 256) as usize)?;
        if number < end { Some(number) } else { None }
    }

    /// The item of a number; `None` exactly where it wasn't made, or it and all before it have
    /// arrived.
    pub fn get(&self, n: u64) -> Option<&T>
        ensures item { (first : ℕ) (deeds : Deeds T) → Stands self.now first deeds → first ≤ n
            → option_copied result ≡ item_at first deeds n }
        ensures kept { option_copied result ≡ item_kept self.now n }
    {
        if n < self.first {
            return None;
        }
        let slot = self.slots.get((n - self.first) as usize)?;
        Some(&slot.item)
    }

    /// A packet carries the item of a due number. The packet's number is above each that was told
    /// by `lost` or `arrived`.
    pub fn carried(&mut self, n: u64, packet: u64)
        requires least { self.old.first ≤ n }
        requires due { (s : SlotSpec T) × (slice_get self.old.slots (n - self.old.first) ≡ Some s)
            × (slot_due s ≡ true) }
        requires above { self.old.told < packet }
        ensures stands { (first : ℕ) (deeds : Deeds T) → Stands self.old first deeds
            → Stands self.new first (Deed.Carried n packet ∷ deeds) }
        ensures slots { (s : SlotSpec T) → slice_get self.old.slots (n - self.old.first) ≡ Some s
            → self.new ≡ record self.old
            { slots = slice_set self.old.slots (n - self.old.first) (carried_by packet s) } }
    {
        let index = (n - self.first) as usize;
        carry(&mut self.slots, &mut self.due, self.first, index, packet);
    }

    /// A packet is lost, so the items that it carried last are due again. Its number is above each
    /// that was told by `lost` or `arrived`.
    pub fn lost(&mut self, packet: u64)
        requires above { self.old.told < packet }
        ensures stands { (first : ℕ) (deeds : Deeds T) → Stands self.old first deeds
            → Stands self.new first (Deed.Lost packet ∷ deeds) }
        ensures slots { self.new
            ≡ record self.old { slots = map (settled packet false) self.old.slots; told = packet } }
    {
        settle(&mut self.slots, &mut self.due, self.first, packet, false);
        self.told = packet;
    }

    /// A packet arrived, and the items that it carried last have. Its number is above each that was
    /// told by `lost` or `arrived`.
    pub fn arrived(&mut self, packet: u64)
        requires above { self.old.told < packet }
        ensures stands { (first : ℕ) (deeds : Deeds T) → Stands self.old first deeds
            → Stands self.new first (Deed.Arrived packet ∷ deeds) }
        ensures slots { Settles (settled packet true) packet self.old self.new }
    {
        settle(&mut self.slots, &mut self.due, self.first, packet, true);
        self.first += take_arrived(&mut self.slots);
        self.told = packet;
    }

    /// A packet arrived, and those before it of which nothing was told are lost. Its number is
    /// above each that was told by `moved`, `lost` or `arrived`.
    pub fn moved(&mut self, packet: u64)
        requires above { self.old.told < packet }
        ensures slots { Settles (moved_to packet) packet self.old self.new }
    {
        settle_to(&mut self.slots, &mut self.due, self.first, packet);
        self.first += take_arrived(&mut self.slots);
        self.told = packet;
    }

    /// The greatest packet that was told by `moved`, `lost` or `arrived`, 0 at first.
    pub fn told(&self) -> u64
        ensures { result ≡ self.now.told }
    {
        self.told
    }

    /// Begins anew with no items, as `new` does, in the memory that the window has.
    pub fn restart(&mut self, first: u64)
        requires least { 1 ≤ first }
        requires most { first < 2 ^ 61 }
        ensures stands { Stands self.new first [] }
        ensures empty { (self.new.first ≡ first) × (self.new.slots ≡ []) × (self.new.told ≡ 0) }
    {
        self.first = first;
        self.slots.clear();
        self.due = [0; 4];
        self.told = 0;
    }
}
