// Items received, handed over in order and each once.
ghost use Rattle.std.specs.Prelude.{◌≡◌, ◌+◌, ◌/◌, ◌<◌, ◌≤◌, ◌^◌, ◌∷◌, [], ℕ, pos, ◌<ℤ◌, None, Some, IfOk, IfSome, IfNone, OnOk, OnErr, OnSome, nat_lt};
ghost use Rattle.protocol_model.specs.Bits.{near};
ghost use Rattle.protocol_model.specs.Limits.{sequence_modulus, held_limit};
ghost use Rattle.reliable_window.specs.In.{Received, Stands, HandsOver, IsOffered, IsPlaced, IsAhead, RestsAfter, with_offer, next_of, number_as, item_of};

use crate::held::{hold, is_held};
use crate::offered::Offered;
use crate::place::Place;
use bit_io::{Memory, near};
use protocol_model::limits::{HELD_LIMIT, SEQUENCE_MODULUS};
use std::alloc::Global;
use std::collections::VecDeque;
use std::marker::Model;

/// The items received on a channel that wait for one before them.
///
/// Numbers travel modulo 1,024, so an item waits at most 511 places ahead of the next. A caller
/// offers each item that comes, and then takes those that are `ready` until there is none. Each
/// call takes constant time but for the places that it makes first, once each.
#[derive(Drop)]
pub struct InWindow<T> {
    next: u64,
    held: VecDeque<Option<T>>,
}

impl<T> Model for InWindow<T> {
    ghost use Rattle.std.specs.Prelude.{◌+◌, ◌≤◌, ◌^◌, length};
    ghost use Rattle.reliable_window.specs.In.{Window, held_from};

    ghost Value = { Window T };

    ghost view = { λ w. record { next = w.next; held = held_from w.next w.held.items } };

    ghost invariant = { λ w. (1 ≤ w.next) × (w.next + length w.held.items ≤ 2 ^ 61 + 1024) };
}

impl<T: Drop> InWindow<T> {
    /// Nothing was received; the first item has number 1.
    pub fn new(alloc: Global) -> InWindow<T>
        ensures stands { Stands result [] }
        ensures empty { result ≡ record { next = 1; held = [] } }
    {
        InWindow {
            next: 1,
            held: VecDeque::new(alloc),
        }
    }

    /// The number of the next item to be handed over, from 1 on.
    pub fn next(&self) -> u64
        ensures next { result ≡ self.now.next }
        ensures least { 1 ≤ result }
        ensures most { result ≤ 2 ^ 61 + sequence_modulus }
    {
        self.next
    }

    /// Where an item stands by its number modulo 1,024: its number is the nearest to the next. All
    /// that were ready were handed over.
    pub fn place(&self, seq: u16) -> Place
        requires { seq < sequence_modulus }
        ensures placed { (got : Received T) → Stands self.now got
            → IsPlaced got (number_as got seq) result }
        ensures ahead { IsAhead self.now.next result }
    {
        let Some(ahead) = ahead_of(seq, self.next) else {
            return Place::Repeat;
        };
        if ahead == 0 {
            return Place::Next;
        }
        if is_held(&self.held, ahead) {
            return Place::Repeat;
        }
        Place::Ahead(self.next + ahead as u64)
    }

    /// Goes on to the item after the next, which the caller takes without having it kept here.
    pub fn pass(&mut self)
        requires { self.old.next < 2 ^ 61 }
        ensures next { self.new.next ≡ self.old.next + 1 }
        ensures stands { (got : Received T) (item : T) → Stands self.old got
            → HandsOver self.new ((next_of got, item) ∷ got) }
    {
        self.held.pop_front();
        self.next += 1;
    }

    /// Keeps an item ahead of the next by its number, less than 512 above it. `Memory` changes
    /// nothing.
    pub fn keep(&mut self, number: u64, item: T) -> Result<(), Memory>
        requires low { self.old.next < 2 ^ 61 }
        requires above { self.old.next < number }
        requires within { number < self.old.next + sequence_modulus / 2 }
        ensures stands { OnOk result ((got : Received T) → Stands self.old got
            → Stands self.new ((number, item) ∷ got)) }
        ensures err { OnErr result (self.new ≡ self.old) }
    {
        let ahead = number - self.next;
        hold(&mut self.held, ahead as usize, item)?;
        Ok(())
    }

    /// Offers an item by its number modulo 1,024: its number is the nearest to the next. `held`
    /// items are held on all channels of the connection, at most 512. All that were ready were
    /// handed over.
    ///
    /// `Repeat` comes exactly where the number is below the next or held, `Ready` exactly at the
    /// next, `Overrun` exactly above it where it is new and 512 are held. `Memory` changes nothing.
    pub fn offer(&mut self, seq: u16, item: T, held: usize) -> Result<Offered<T>, Memory>
        requires seq { seq < sequence_modulus }
        requires held { held ≤ held_limit }
        requires stands { (got : Received T) × Stands self.old got × (next_of got < 2 ^ 61) }
        ensures answer { IfOk result (λ o. (got : Received T) → Stands self.old got
            → IsOffered got seq item held o) }
        ensures stands { IfOk result (λ o. (got : Received T) → Stands self.old got
            → HandsOver self.new (with_offer got seq item o)) }
        ensures rests { IfOk result (λ o. (got : Received T) → Stands self.old got
            → RestsAfter self.new got seq item o) }
        ensures err { OnErr result (self.new ≡ self.old) }
    {
        match self.place(seq) {
            Place::Repeat => Ok(Offered::Repeat),
            Place::Next => {
                self.pass();
                Ok(Offered::Ready(item))
            }
            Place::Ahead(number) => {
                if held >= HELD_LIMIT {
                    return Ok(Offered::Overrun);
                }
                self.keep(number, item)?;
                Ok(Offered::Held)
            }
        }
    }

    /// Hands over the item numbered next, and goes on to the one after it. `None` exactly where it
    /// isn't held, and nothing changes.
    pub fn ready(&mut self) -> Option<T>
        ensures item { result ≡ item_of self.old.held self.old.next }
        ensures next { OnSome result (self.new.next ≡ self.old.next + 1) }
        ensures none { result ≡ None → self.new ≡ self.old }
        ensures most { self.new.next ≤ 2 ^ 61 + sequence_modulus }
        ensures stands { (got : Received T) → HandsOver self.old got → result ≡ None
            → Stands self.new got }
        ensures on { OnSome result ((got : Received T) → HandsOver self.old got
            → HandsOver self.new got) }
    {
        if !is_held(&self.held, 0) {
            return None;
        }
        let item = self.held.pop_front()?;
        self.next += 1;
        item
    }
}

/// How far the number nearest to the next is above it, where it isn't below.
fn ahead_of(seq: u16, next: u64) -> Option<usize>
    requires seq { seq < sequence_modulus }
    requires next { next < 2 ^ 62 }
    ensures some { IfSome result (λ d. (near seq (pos next) sequence_modulus ≡ pos (next + d))
        × (d < 512)) }
    ensures none { IfNone result (near seq (pos next) sequence_modulus <ℤ pos next) }
{
    let by = near(seq as u32, next as i64, SEQUENCE_MODULUS) - next as i64;
    if by < 0 { None } else { Some(by as usize) }
}
