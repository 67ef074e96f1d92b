// Which actor holds which channel.
ghost use Rattle.std.specs.Prelude.{◌≡◌, ◌<◌, ◌≤◌, ◌==◌, [], ℕ, None, Some, IfOk, OnOk, OnErr, length, if◌then◌else◌, is_some};
ghost use Rattle.protocol_model.specs.Limits.{channels_two};
ghost use Rattle.reliable_window.specs.Bits.{bit_in};
ghost use Rattle.channel_table.specs.Holders.{channel_bound, actor_bound, IsPaired, other_than, holder_at};

use bit_io::Memory;
use indexmap::IndexMap;
use net_core::Guid;
use outgoing_channels::IndexSet;
use std::alloc::Global;
use std::marker::Model;

/// The actors that hold a channel, seen as pairs of an actor and its channel.
#[derive(Drop)]
pub(crate) struct Holders {
    by_actor: IndexMap<u32, u16>,
    by_channel: Vec<Option<u32>>,
    used: IndexSet,
}

impl Model for Holders {
    ghost use Rattle.channel_table.specs.Holders.{Bound, IsHeld};

    ghost Value = { Bound };

    ghost view = { λ h. h.by_actor.entries };

    ghost invariant = { λ h. IsHeld h.by_actor.entries h.by_channel.items h.used };
}

impl Holders {
    /// No actor holds a channel.
    pub fn new(alloc: Global) -> Result<Holders, Memory>
        ensures { IfOk result (λ h. h ≡ []) }
    {
        let used = IndexSet::new(alloc)?;
        Ok(Holders {
            by_actor: IndexMap::new(alloc),
            by_channel: Vec::new(alloc),
            used,
        })
    }

    /// Binds a channel to an actor, neither of which is bound. `Memory` changes nothing.
    pub fn bind(&mut self, channel: u16, actor: Guid) -> Result<(), Memory>
        requires most { channel < channels_two }
        requires channel_free { actor_bound self.old channel ≡ None }
        requires actor_free { channel_bound self.old actor ≡ None }
        ensures channels { OnOk result ((a : ℕ) → channel_bound self.new a
            ≡ (if a == actor then Some channel else channel_bound self.old a)) }
        ensures actors { OnOk result ((ch : ℕ) → actor_bound self.new ch
            ≡ (if ch == channel then Some actor else actor_bound self.old ch)) }
        ensures pairs { IsPaired self.new }
        ensures err { OnErr result (self.new ≡ self.old) }
    {
        let place = channel as usize;
        grow(&mut self.by_channel, place + 1)?;
        self.by_actor.insert(actor.0, channel)?;
        self.by_channel[place] = Some(actor.0);
        self.used.put(place, true);
        Ok(())
    }

    /// The channel is bound to nothing any more, nor its actor.
    pub fn unbind(&mut self, channel: u16)
        ensures channels { (a : ℕ) → channel_bound self.new a
            ≡ other_than channel (channel_bound self.old a) }
        ensures actors { (ch : ℕ) → actor_bound self.new ch
            ≡ (if ch == channel then None else actor_bound self.old ch) }
        ensures pairs { IsPaired self.new }
    {
        let place = channel as usize;
        if let Some(actor) = holder(&self.by_channel, place) {
            self.by_actor.swap_remove(&actor);
            self.by_channel[place] = None;
            self.used.put(place, false);
        }
    }

    /// The actor that a channel is bound to.
    pub fn actor_at(&self, channel: u16) -> Option<Guid>
        ensures { result ≡ actor_bound self.now channel }
    {
        match holder(&self.by_channel, channel as usize) {
            Some(actor) => Some(Guid(actor)),
            None => None,
        }
    }

    /// The channel that is bound to an actor.
    pub fn channel_of(&self, actor: Guid) -> Option<u16>
        ensures { result ≡ channel_bound self.now actor }
    {
        self.by_actor.get(&actor.0).copied()
    }

    /// The channels that are bound, a bit a channel.
    pub fn used(&self) -> &IndexSet
        ensures bits { (ch : ℕ) → ch < channels_two
            → bit_in result.now ch ≡ (if is_some (actor_bound self.now ch) then 1 else 0) }
        ensures most { (ch : ℕ) → channels_two ≤ ch → actor_bound self.now ch ≡ None }
    {
        &self.used
    }
}

/// The holder of a channel.
fn holder(by_channel: &Vec<Option<u32>>, place: usize) -> Option<u32>
    ensures { result ≡ holder_at by_channel.now.items place }
{
    if place < by_channel.len() {
        by_channel[place]
    } else {
        None
    }
}

/// Makes places up to so many, of which no more holds anything, as far as there is memory.
fn grow(by_channel: &mut Vec<Option<u32>>, len: usize) -> Result<(), Memory>
    ensures same { (ch : ℕ)
        → holder_at by_channel.new.items ch ≡ holder_at by_channel.old.items ch }
    ensures least { OnOk result (len ≤ length by_channel.new.items) }
{
    for _count in by_channel.len()..len {
        by_channel.push(None)?;
    }
    Ok(())
}
