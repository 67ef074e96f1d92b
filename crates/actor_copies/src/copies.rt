// The copies of a client, found by actor and by channel.
ghost use Rattle.std.specs.Prelude.{◌≡◌, ◌==◌, [], length, Some, None, is_some, IfOk, OnOk, OnErr};
ghost use Rattle.std.specs.Option.{option_copied};
ghost use Rattle.actor_copies.specs.Keyed.{Put};
ghost use Rattle.actor_copies.specs.Kept.{copy_actor, kept_of, kept_on, IsNumbered, changed, lent_items, Becomes};

use crate::copy::ActorCopy;
use crate::index::{
    change_at, channel_at, clear_holder, holder, key_of, make_place, set_holder, take_out,
};
use bit_io::Memory;
use class_layout::Pair;
use net_core::Guid;
use slab::Slab;
use std::alloc::Global;
use std::collections::BTreeMap;
use std::marker::Model;

/// Copies of actors, seen as a list that ascends by actor.
///
/// A copy stays under one key as long as there is one. A channel's place has the key of the copy
/// that holds it; the actors, whose guids come from the other end, have a search tree of keys, so
/// that no choice of guids makes a look-up walk over more than a few of 8,192.
#[derive(Drop)]
pub struct CopyList {
    pub(crate) alloc: Global,
    copies: Slab<ActorCopy>,
    by_actor: BTreeMap<u32, usize>,
    by_channel: Vec<Option<usize>>,
}

impl Model for CopyList {
    ghost use Rattle.std.specs.Prelude.{List};
    ghost use Rattle.slab.specs.Slab.{get as stored_at};
    ghost use Rattle.actor_copies.specs.declared.copy.ActorCopy.{ActorCopy};
    ghost use Rattle.actor_copies.specs.Index.{IsIndexed, listed};

    ghost Value = { List ActorCopy };

    ghost view = { λ l. listed (stored_at l.copies) l.by_actor.entries };

    ghost invariant = { λ l. IsIndexed l.copies l.by_actor l.by_channel.items };
}

impl CopyList {
    /// No copies; later calls take memory of this allocator.
    pub fn new(alloc: Global) -> CopyList
        ensures { result ≡ [] }
    {
        CopyList {
            alloc,
            copies: Slab::new(alloc),
            by_actor: BTreeMap::new(alloc),
            by_channel: Vec::new(alloc),
        }
    }

    /// How many copies there are.
    pub fn len(&self) -> usize
        ensures { result ≡ length self.now }
    {
        self.by_actor.len()
    }

    /// There are no copies.
    pub fn is_empty(&self) -> bool
        ensures { result ≡ (length self.now == 0) }
    {
        self.len() == 0
    }

    /// The copy of an actor.
    pub fn of_actor(&self, actor: Guid) -> Option<&ActorCopy>
        ensures { option_copied result ≡ kept_of self.now actor }
    {
        let key = key_of(&self.by_actor, actor)?;
        self.copies.get(key)
    }

    /// The actor has a copy.
    pub fn contains(&self, actor: Guid) -> bool
        ensures { result ≡ is_some (kept_of self.now actor) }
    {
        self.of_actor(actor).is_some()
    }

    /// The copy that holds a channel.
    pub fn on_channel(&self, channel: u16) -> Option<&ActorCopy>
        ensures { option_copied result ≡ kept_on self.now channel }
    {
        let key = holder(&self.by_channel, channel)?;
        self.copies.get(key)
    }

    /// The copies in the order of their actors, each lent.
    pub fn in_order(&self) -> Result<Vec<&ActorCopy>, Memory>
        ensures { IfOk result (λ list. lent_items list.items ≡ self.now) }
    {
        let mut list = Vec::new(self.alloc);
        for key in self.by_actor.values() {
            if let Some(copy) = self.copies.get(*key) {
                list.push(copy)?;
            }
        }
        Ok(list)
    }

    /// Puts a copy of an actor that has none on a channel that no copy holds. `Memory` changes
    /// nothing.
    pub(crate) fn put(&mut self, copy: ActorCopy, channel: u16) -> Result<(), Memory>
        requires new { kept_of self.old copy.actor ≡ None }
        requires free { kept_on self.old channel ≡ None }
        requires on { copy.channel ≡ Some channel }
        requires numbered { IsNumbered 1 copy.values }
        ensures ok { OnOk result (Put copy_actor copy.actor (Some copy) self.old self.new) }
        ensures err { OnErr result (self.new ≡ self.old) }
    {
        let actor = copy.actor.0;
        make_place(&mut self.by_channel, channel)?;
        self.copies.reserve(1)?;
        let key = self.copies.vacant_key();
        self.by_actor.insert(actor, key)?;
        self.copies.insert_reserved(copy);
        set_holder(&mut self.by_channel, channel, key);
        Ok(())
    }

    /// Gives the copy of an actor, if there is one, a channel that no copy holds, and these values.
    /// `Memory` changes nothing.
    pub(crate) fn wake(&mut self, actor: Guid, channel: u16, pairs: &[Pair]) -> Result<(), Memory>
        requires free { kept_on self.old channel ≡ None }
        ensures ok { OnOk result (Becomes self.old self.new (kept_of self.old actor)
            (λ x. Some (changed x (Some channel) pairs.now))) }
        ensures err { OnErr result (self.new ≡ self.old) }
    {
        make_place(&mut self.by_channel, channel)?;
        let Some(key) = key_of(&self.by_actor, actor) else {
            return Ok(());
        };
        clear_holder(&mut self.by_channel, channel_at(&self.copies, key));
        set_holder(&mut self.by_channel, channel, key);
        change_at(&mut self.copies, self.alloc, key, Some(channel), pairs);
        Ok(())
    }

    /// Gives the copy that holds a channel, if there is one, these values.
    pub(crate) fn set_on(&mut self, channel: u16, pairs: &[Pair])
        ensures { Becomes self.old self.new (kept_on self.old channel)
            (λ x. Some (changed x (Some channel) pairs.now)) }
    {
        let Some(key) = holder(&self.by_channel, channel) else {
            return;
        };
        change_at(&mut self.copies, self.alloc, key, Some(channel), pairs);
    }

    /// The copy that holds a channel, if there is one, holds none any more.
    pub(crate) fn sleep_on(&mut self, channel: u16)
        ensures { Becomes self.old self.new (kept_on self.old channel)
            (λ x. Some (changed x None [])) }
    {
        let Some(key) = holder(&self.by_channel, channel) else {
            return;
        };
        clear_holder(&mut self.by_channel, Some(channel));
        change_at(&mut self.copies, self.alloc, key, None, &[]);
    }

    /// Removes the copy that holds a channel, if there is one.
    pub(crate) fn remove_on(&mut self, channel: u16)
        ensures { Becomes self.old self.new (kept_on self.old channel) (λ x. None) }
    {
        let Some(key) = holder(&self.by_channel, channel) else {
            return;
        };
        take_out(
            &mut self.copies,
            &mut self.by_actor,
            &mut self.by_channel,
            key,
        );
    }

    /// Removes the copy of an actor, if there is one.
    pub(crate) fn remove_of(&mut self, actor: Guid)
        ensures { Becomes self.old self.new (kept_of self.old actor) (λ x. None) }
    {
        let Some(key) = key_of(&self.by_actor, actor) else {
            return;
        };
        take_out(
            &mut self.copies,
            &mut self.by_actor,
            &mut self.by_channel,
            key,
        );
    }
}
