// The change lists of each actor.
ghost use Rattle.std.specs.Prelude.{◌≡◌, ◌⊎◌, ◌^◌, ◌<◌, ◌≤◌, ◌∷◌, [], ℕ, List, Option, None, map, length, true, unwrap_or, slice_index_or, vec_len, IfOk, OnOk, OnErr, IsErr};
ghost use Rattle.protocol_model.specs.Limits.{handle_limit};
ghost use Rattle.change_model.specs.Changes.{Sample, changes_since};
ghost use Rattle.shadow_changes.specs.Lists.{Lists as ListsSpec, KeepsLists, last_tick, no_lists};
ghost use Rattle.shadow_changes.specs.Samples.{Samples, Keeps, IsSpent, samples_of, sample_of, change_value, may_follow, lists_in};

use crate::change::ChangeList;
use crate::lists::Lists;
use class_layout::Value;
use net_core::{Guid, Memory};
use std::alloc::Global;
use std::marker::Model;

/// The change lists of each actor, found by its guid.
///
/// An actor's values are told by `sample`, tick by tick, and `since` answers what changed. After
/// want of memory in `sample` the lists are spent: from then on each call answers `Memory`.
#[derive(Drop)]
pub struct Shadows {
    alloc: Global,
    lists: Vec<Option<Lists>>,
    spent: bool,
}

impl Model for Shadows {
    ghost use Rattle.shadow_changes.specs.Samples.{Shadows};

    ghost Value = { Shadows };

    ghost view = { λ s. record { lists = s.lists.items; spent = s.spent } };
}

impl Shadows {
    /// Nothing was sampled. Memory is taken in this allocator as actors are sampled, a place for
    /// each guid up to the greatest one.
    pub fn new(alloc: Global) -> Shadows
        ensures { Keeps result [] }
    {
        Shadows {
            alloc,
            lists: Vec::new(alloc),
            spent: false,
        }
    }

    /// Notes an actor's values at a tick above its earlier ones: x, y and its class's own, as many
    /// as before and at most 199. A sample that changes nothing of an actor sampled before takes no
    /// memory. After `Memory` the lists are spent.
    pub fn sample(&mut self, actor: Guid, tick: u64, values: &[Value]) -> Result<(), Memory>
        requires most { length values.now < handle_limit }
        requires stands { IsSpent self.old ⊎ ((samples : Samples) × Keeps self.old samples
            × (may_follow (samples_of samples actor) tick (length values.now) ≡ true)) }
        ensures keeps { OnOk result ((samples : Samples) → Keeps self.old samples
            → Keeps self.new ((actor, sample_of tick values.now) ∷ samples)) }
        ensures spent { OnErr result (IsSpent self.new) }
        ensures after { IsSpent self.old → IsErr result }
    {
        if self.spent {
            return Err(Memory);
        }
        match note(self.alloc, &mut self.lists, actor, tick, values) {
            Ok(()) => Ok(()),
            Err(memory) => {
                self.spent = true;
                Err(memory)
            }
        }
    }

    /// The tick of an actor's newest sample, 0 where it was never sampled. Of lists that are spent it
    /// says nothing.
    pub fn newest(&self, actor: Guid) -> u64
        ensures { (samples : Samples) → Keeps self.now samples
            → result ≡ last_tick (samples_of samples actor) }
    {
        match self.lists.get(actor.0 as usize) {
            Some(Some(lists)) => lists.newest(),
            _ => 0,
        }
    }

    /// Each handle that changed above a tick, ascending, with the newest such tick: none of an
    /// actor that was never sampled. Where nothing changed it takes no memory. `Memory` leaves the
    /// lists as they are.
    pub fn since(&self, actor: Guid, tick: u64) -> Result<ChangeList, Memory>
        ensures changes { IfOk result (λ changes. (samples : Samples) → Keeps self.now samples
            → map change_value changes ≡ changes_since (samples_of samples actor) tick) }
        ensures after { IsSpent self.now → IsErr result }
    {
        if self.spent {
            return Err(Memory);
        }
        match self.lists.get(actor.0 as usize) {
            Some(Some(lists)) => lists.since(self.alloc, tick),
            _ => Ok(ChangeList::new(self.alloc)),
        }
    }
}

/// Notes an actor's values in its own lists, and leaves those of all other actors.
fn note(
    alloc: Global,
    lists: &mut Vec<Option<Lists>>,
    actor: Guid,
    tick: u64,
    values: &[Value],
) -> Result<(), Memory>
    requires { length values.now < handle_limit }
    ensures own { OnOk result ((samples : List Sample)
        → KeepsLists (lists_in lists.old.items actor) samples
        → may_follow samples tick (length values.now) ≡ true
        → KeepsLists (lists_in lists.new.items actor) (sample_of tick values.now ∷ samples)) }
    ensures others { OnOk result ((other : ℕ) → (actor ≡ other → ⊥)
        → lists_in lists.new.items other ≡ lists_in lists.old.items other) }
{
    let place = actor.0 as usize;
    reach(lists, place)?;
    note_own(alloc, &mut lists[place], tick, values)
}

/// Makes places up to this one, if they aren't there.
fn reach(lists: &mut Vec<Option<Lists>>, place: usize) -> Result<(), Memory>
    requires { place < 2 ^ 32 }
    ensures there { OnOk result (place < length lists.new.items) }
    ensures same { OnOk result ((other : ℕ)
        → slice_index_or lists.new.items other None ≡ slice_index_or lists.old.items other None) }
{
    if place < lists.len() {
        return Ok(());
    }
    lists.reserve(place + 1 - lists.len())?;
    for _ in lists.len()..place + 1 {
        lists.push(None)?;
    }
    Ok(())
}

/// Notes an actor's values in its lists, which are made at its first sample.
fn note_own(
    alloc: Global,
    own: &mut Option<Lists>,
    tick: u64,
    values: &[Value],
) -> Result<(), Memory>
    requires { length values.now < handle_limit }
    ensures { OnOk result ((samples : List Sample)
        → KeepsLists (unwrap_or own.old no_lists) samples
        → may_follow samples tick (length values.now) ≡ true
        → KeepsLists (unwrap_or own.new no_lists) (sample_of tick values.now ∷ samples)) }
{
    if let Some(lists) = own {
        return lists.sample(alloc, tick, values);
    }
    let mut lists = Lists::new(alloc)?;
    lists.sample(alloc, tick, values)?;
    *own = Some(lists);
    Ok(())
}
