// The keys of copies by actor and by channel, and changes of stored copies.
ghost use Rattle.std.specs.Prelude.{◌≡◌, ◌≢◌, ◌<◌, ◌==◌, ℕ, length, Some, None, OnOk, if◌then◌else◌, option_map, option_and_then};
ghost use Rattle.std.specs.Ordering.{nat_cmp};
ghost use Rattle.std.specs.BTreeMap.{IsOrdered, get as key_at};
ghost use Rattle.connection_model.specs.Copies.{is_on};
ghost use Rattle.slab.specs.Slab.{get as stored_at};
ghost use Rattle.actor_copies.specs.declared.copy.ActorCopy.{ActorCopy as ActorCopyValue};
ghost use Rattle.actor_copies.specs.Index.{key_on, channel_number};
ghost use Rattle.actor_copies.specs.Kept.{IsNumbered, changed};

use crate::copy::ActorCopy;
use crate::values::set_list;
use bit_io::Memory;
use class_layout::Pair;
use net_core::Guid;
use slab::Slab;
use std::alloc::Global;
use std::collections::BTreeMap;

/// The key of an actor's copy.
pub(crate) fn key_of(by_actor: &BTreeMap<u32, usize>, actor: Guid) -> Option<usize>
    ensures { result ≡ key_at nat_cmp by_actor.now actor }
{
    by_actor.get(&actor.0).copied()
}

/// The key of the copy that holds a channel.
pub(crate) fn holder(keys: &Vec<Option<usize>>, channel: u16) -> Option<usize>
    ensures { result ≡ key_on keys.now.items channel }
{
    let place = channel as usize;
    if place < keys.len() {
        keys[place]
    } else {
        None
    }
}

/// Makes places up to that of a channel, of which no more has a key, as far as there is memory.
pub(crate) fn make_place(keys: &mut Vec<Option<usize>>, channel: u16) -> Result<(), Memory>
    ensures same { (n : ℕ) → key_on keys.new.items n ≡ key_on keys.old.items n }
    ensures place { OnOk result (channel < length keys.new.items) }
{
    for _place in keys.len()..channel as usize + 1 {
        keys.push(None)?;
    }
    Ok(())
}

/// The copy of a key holds a channel, which has a place.
pub(crate) fn set_holder(keys: &mut Vec<Option<usize>>, channel: u16, key: usize)
    requires { channel < length keys.old.items }
    ensures { (n : ℕ) → key_on keys.new.items n
        ≡ (if channel == n then Some key else key_on keys.old.items n) }
{
    keys[channel as usize] = Some(key);
}

/// No copy holds a channel.
pub(crate) fn clear_holder(keys: &mut Vec<Option<usize>>, channel: Option<u16>)
    ensures len { length keys.new.items ≡ length keys.old.items }
    ensures at { (n : ℕ) → key_on keys.new.items n
        ≡ (if is_on n channel then None else key_on keys.old.items n) }
{
    let Some(channel) = channel else {
        return;
    };
    let place = channel as usize;
    if place < keys.len() {
        keys[place] = None;
    }
}

/// The channel of the copy of a key.
pub(crate) fn channel_at(copies: &Slab<ActorCopy>, key: usize) -> Option<u16>
    ensures { result ≡ option_and_then channel_number (stored_at copies.now key) }
{
    match copies.get(key) {
        Some(copy) => copy.channel,
        None => None,
    }
}

/// Gives the copy of a key, if there is one, another channel and these values.
pub(crate) fn change_at(
    copies: &mut Slab<ActorCopy>,
    alloc: Global,
    key: usize,
    channel: Option<u16>,
    pairs: &[Pair],
)
    requires { (c : ActorCopyValue) → stored_at copies.old key ≡ Some c → IsNumbered 1 c.values }
    ensures at { stored_at copies.new key
        ≡ option_map (λ c. changed c channel pairs.now) (stored_at copies.old key) }
    ensures others { (k : ℕ) → k ≢ key → stored_at copies.new k ≡ stored_at copies.old k }
{
    if let Some(copy) = copies.get_mut(key) {
        change(copy, alloc, channel, pairs);
    }
}

/// Takes the copy of a key, if there is one, out of the slab and of both indexes.
pub(crate) fn take_out(
    copies: &mut Slab<ActorCopy>,
    by_actor: &mut BTreeMap<u32, usize>,
    by_channel: &mut Vec<Option<usize>>,
    key: usize,
)
    requires { IsOrdered nat_cmp by_actor.old }
    ensures at { stored_at copies.new key ≡ None }
    ensures others { (k : ℕ) → k ≢ key → stored_at copies.new k ≡ stored_at copies.old k }
    ensures ordered { IsOrdered nat_cmp by_actor.new }
    ensures actors { (x : ActorCopyValue) → stored_at copies.old key ≡ Some x
        → (q : ℕ) → key_at nat_cmp by_actor.new q
        ≡ (if x.actor == q then None else key_at nat_cmp by_actor.old q) }
    ensures channels { (x : ActorCopyValue) → stored_at copies.old key ≡ Some x
        → (n : ℕ) → key_on by_channel.new.items n
        ≡ (if is_on n x.channel then None else key_on by_channel.old.items n) }
{
    let Some(copy) = copies.try_remove(key) else {
        return;
    };
    by_actor.remove(&copy.actor.0);
    clear_holder(by_channel, copy.channel);
}

/// Gives a copy another channel and these values.
fn change(copy: &mut ActorCopy, alloc: Global, channel: Option<u16>, pairs: &[Pair])
    requires { IsNumbered 1 copy.old.values }
    ensures { copy.new ≡ changed copy.old channel pairs.now }
{
    copy.channel = channel;
    set_list(alloc, &mut copy.values, pairs);
}
