// What a player's end hears, and what is asked of it.
ghost use Rattle.std.specs.Prelude.{◌≡◌, ◌≢◌, ◌⊎◌, ◌+◌, ◌<◌, ◌≤◌, ◌^◌, ℕ, map, true, Some, IfOk, OnOk, OnErr, IsErr, option_map};
ghost use Rattle.std.specs.Option.{option_copied};
ghost use Rattle.protocol_model.specs.Side.{AtServer};
ghost use Rattle.protocol_model.specs.Value.{call_at};
ghost use Rattle.protocol_model.specs.World.{Edits, class_at, class_of};
ghost use Rattle.connection_model.specs.Feed.{End, Event, Past};
ghost use Rattle.connection_model.specs.CallAnswers.{answer_of, after_call};
ghost use Rattle.class_layout.specs.Tables.{table_in};
ghost use Rattle.class_members.specs.Members.{call_of};
ghost use Rattle.value_codec.specs.Values.{arg_of};
ghost use Rattle.world_table.specs.Stands.{Stands as StandsWorld};
ghost use Rattle.shadow_changes.specs.Samples.{Samples};
ghost use Rattle.net_driver.specs.Served.{Served, Seat, seat_of, has_joined, with_seat, heard, lost_now, answer_for, top_for};
ghost use Rattle.net_driver.specs.Serves.{Serves, IsSpent};
ghost use Rattle.server_end.specs.Stands.{StandsEnd};
ghost use Rattle.net_driver.specs.Ends.{end_at};
ghost use Rattle.net_driver.specs.Chairs.{dead_for};
ghost use Rattle.server_end.specs.Calls.{IsCalled};
ghost use Rattle.net_driver.specs.Calls.{IsMade};
ghost use Rattle.server_end.specs.declared.server_end.ServerEnd.{ServerEnd as EndSpec};

use super::{Driver, is_past};
use crate::chair::{Place, key_of, place_of, put_dead};
use bit_io::Memory;
use class_layout::{Arg, Call, CallAnswer, Classes};
use net_core::{Guid, Player, Steps};
use server_end::ServerEnd;
use slab::Slab;
use std::alloc::Global;
use std::marker::Brand;
use std::sync::ledger::{Blank, Ledger};
use world_table::World;

impl<'a> Driver<'a> {
    /// The greatest packet number that the end of a player who joined has taken, 0 at first.
    pub fn last_taken(&self, player: Player) -> u64
        requires { (s : Served) × Serves self.now s × (has_joined s player ≡ true) }
        ensures { (s : Served) (seat : Seat) → Serves self.now s → seat_of s player ≡ Some seat
            → result ≡ top_for (table_in self.now.layout) seat }
    {
        top_in(&self.ends, place_of(self.chairs.as_slice(), player))
    }

    /// Makes a call to a player who joined, of an actor that was spawned: a Client or Multicast
    /// call of its class, with arguments that fit. After `Memory` that player's end is dead, and
    /// all else is as it was.
    pub fn call(
        &mut self,
        player: Player,
        actor: Guid,
        call: u16,
        args: &[Arg],
    ) -> Result<CallAnswer, Memory>
        requires stands { IsSpent self.old ⊎ ((s : Served) × Serves self.old s
            × (has_joined s player ≡ true)
            × IsMade (table_in self.old.layout) s.edits actor call args.now) }
        ensures serves { OnOk result ((s : Served) → Serves self.old s
            → Serves self.new
            (with_seat (heard (Event.Call actor call (map arg_of args.now))) player s)) }
        ensures answer { IfOk result (λ answer. (s : Served) (seat : Seat) → Serves self.old s
            → seat_of s player ≡ Some seat
            → answer
            ≡ answer_for (table_in self.old.layout) seat actor call (map arg_of args.now)) }
        ensures memory { OnErr result ((s : Served) → Serves self.old s
            → Serves self.new (with_seat lost_now player s)) }
        ensures after { IsSpent self.old → IsErr result }
        ensures stays { IsSpent self.old → IsSpent self.new }
        ensures layout { self.new.layout ≡ self.old.layout }
        ensures greatest { self.new.greatest ≤ self.old.greatest + 8192 }
    {
        if self.spent {
            return Err(Memory);
        }
        self.classes.keeps_rules();
        let Some(called) = called::<Brand>(&self.world, actor, call, Blank::new(1)) else {
            unreachable!();
        };
        let Some(key) = key_of(self.chairs.as_slice(), player) else {
            return Ok(CallAnswer::Dead);
        };
        if is_past(self.greatest) {
            self.die(player, Some(key), 0);
            return Err(Memory);
        }
        match call_at(&mut self.ends, key, self.alloc, called, actor, call, args) {
            Ok(answer) => {
                self.greatest += 8192;
                Ok(answer)
            }
            Err(_) => {
                self.die(player, Some(key), 0);
                Err(Memory)
            }
        }
    }

    /// A player's end, which is under this key, is dead, and took this greatest number; all else
    /// stays.
    pub(super) fn die(&mut self, player: Player, key: Option<usize>, top: u64)
        ensures ends { (k : ℕ) → (key ≡ Some k → ⊥)
            → end_at self.new.ends k ≡ end_at self.old.ends k }
        ensures chairs { self.new.chairs ≡ map (dead_for player top) self.old.chairs }
        ensures rest { self.new
            ≡ record self.old { ends = self.new.ends; chairs = self.new.chairs } }
    {
        drop_end(&mut self.ends, key);
        put_dead(&mut self.chairs, player, top);
    }
}

/// Drops the end under a key, if there is one.
pub(super) fn drop_end(ends: &mut Slab<ServerEnd>, key: Option<usize>)
    ensures { (k : ℕ) → (key ≡ Some k → ⊥) → end_at ends.new.slots k ≡ end_at ends.old.slots k }
{
    if let Some(key) = key {
        let _end = ends.try_remove(key);
    }
}

/// The greatest number that an end took.
fn top_in(ends: &Slab<ServerEnd>, place: Option<Place>) -> u64
    ensures living { (k : ℕ) (e : EndSpec) → place ≡ Some (Place.Living k)
        → end_at ends.now.slots k ≡ Some e
        → result ≡ e.link.book.top }
    ensures dead { (top : ℕ) → place ≡ Some (Place.Dead top) → result ≡ top }
{
    match place {
        Some(Place::Living(key)) => match ends.get(key) {
            Some(end) => end.link.top(),
            None => 0,
        },
        Some(Place::Dead(top)) => top,
        None => 0,
    }
}

/// Makes a call at the end under a key.
fn call_at(
    ends: &mut Slab<ServerEnd>,
    key: usize,
    alloc: Global,
    called: &Call,
    actor: Guid,
    number: u16,
    args: &[Arg],
) -> Result<CallAnswer, Memory>
    requires { (e : EndSpec) × (end : End) × (past : Past) × (samples : Samples)
        × (end_at ends.old.slots key ≡ Some e)
        × IsCalled e end past samples actor number called.now args.now }
    ensures answer { IfOk result
        (λ answer. (e : EndSpec) (end : End) (past : Past) (samples : Samples)
        → end_at ends.old.slots key ≡ Some e
        → IsCalled e end past samples actor number called.now args.now
        → answer ≡ answer_of AtServer past actor number (map arg_of args.now)) }
    ensures stands { OnOk result ((e : EndSpec) (end : End) (past : Past) (samples : Samples)
        → end_at ends.old.slots key ≡ Some e
        → IsCalled e end past samples actor number called.now args.now
        → (later : EndSpec) × (end_at ends.new.slots key ≡ Some later) × (later.player ≡ e.player)
        × StandsEnd later end (after_call AtServer past actor number (map arg_of args.now)) samples
        × (later.table.made.count ≤ e.table.made.count + 4096)) }
    ensures others { (k : ℕ) → k ≢ key → end_at ends.new.slots k ≡ end_at ends.old.slots k }
{
    match ends.get_mut(key) {
        Some(end) => end.call(alloc, called, actor, number, args),
        None => Err(Memory),
    }
}

/// The call of a number of the class that the world has for an actor; `None` exactly where there is
/// none.
fn called<'a, L: Ledger>(
    world: &World<'a>,
    actor: Guid,
    number: u16,
    blank: Blank,
) -> Option<&'a Call>
    requires name { blank.name ≡ L.name }
    requires parts { blank.parts ≡ L.parts }
    requires some { 0 < L.parts }
    ensures { (edits : Edits) → StandsWorld world.now edits
        → option_map call_of (option_copied result)
        ≡ call_at (class_of (table_in world.now.layout) edits actor) number }
{
    let mut steps = Steps::<L>::new(blank);
    let look = world.look(actor, &mut steps)?;
    call_in(world.classes(), look.class, number)
}

/// The call of a number of a class.
fn call_in<'a>(classes: &'a Classes, class: u16, number: u16) -> Option<&'a Call>
    ensures { option_map call_of (option_copied result)
        ≡ call_at (class_at (table_in classes.now) class) number }
{
    let Some(class) = classes.class(class) else {
        return None;
    };
    if number == 0 {
        return None;
    }
    class.calls.get(usize::from(number) - 1)
}
