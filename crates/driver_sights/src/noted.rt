// What a tick sampled.
ghost use Rattle.std.specs.Prelude.{◌≡◌, ◌≢◌, ◌+◌, ◌≤◌, ◌==◌, ◌||◌, [], ℕ, Bool, true, length, nat_eq, None, IfOk, OnOk, if◌then◌else◌};
ghost use Rattle.std.specs.Map.{lookup};
ghost use Rattle.std.specs.Option.{option_copied};
ghost use Rattle.protocol_model.specs.Limits.{handle_limit};
ghost use Rattle.protocol_model.specs.World.{Edits, spawn_of, class_of};
ghost use Rattle.class_layout.specs.Tables.{table_in, class_of as class_value};
ghost use Rattle.world_table.specs.Stands.{Stands as StandsWorld};
ghost use Rattle.shadow_changes.specs.Samples.{Samples};
ghost use Rattle.driver_sights.specs.Noted.{Notes, is_noted};

use actor_sights::{ValueList, sampled};
use class_layout::Class;
use net_core::{Guid, Memory, Steps};
use shadow_changes::Shadows;
use std::alloc::Global;
use std::collections::HashMap;
use std::marker::Model;
use std::sync::ledger::Ledger;
use world_table::World;

/// The values that were sampled at a tick, each actor's once.
#[derive(Drop)]
pub struct Noted {
    alloc: Global,
    tick: u64,
    values: HashMap<u32, ValueList>,
}

impl Model for Noted {
    ghost use Rattle.driver_sights.specs.Noted.{NotedKept};

    ghost Value = { NotedKept };

    ghost view = { λ n. record { tick = n.tick; values = n.values.entries } };
}

impl Noted {
    /// Nothing was sampled at the tick yet. Memory is taken in this allocator.
    pub fn new(alloc: Global, tick: u64) -> Noted
        ensures { result ≡ record { tick = tick; values = [] } }
    {
        Noted {
            alloc,
            tick,
            values: HashMap::new(alloc),
        }
    }

    /// Samples an actor of this class that was spawned, unless it was at this tick, and notes its
    /// values in the change lists. A sample takes a step a value.
    pub fn note<L: Ledger>(
        &mut self,
        changes: &mut Shadows,
        world: &World<'_>,
        actor: Guid,
        class: &Class,
        steps: &mut Steps<L>,
    ) -> Result<(), Memory>
        requires most { length class.now.props + 3 ≤ handle_limit }
        requires notes { (edits : Edits) × (samples : Samples) × StandsWorld world.now edits
            × Notes self.old changes.old (table_in world.now.layout) edits samples
            × (spawn_of edits actor ≢ None)
            × (class_of (table_in world.now.layout) edits actor
            ≡ class_value world.now.layout.segments class.now) }
        ensures notes { OnOk result ((edits : Edits) (samples : Samples)
            → StandsWorld world.now edits
            → Notes self.old changes.old (table_in world.now.layout) edits samples
            → spawn_of edits actor ≢ None
            → class_of (table_in world.now.layout) edits actor
            ≡ class_value world.now.layout.segments class.now
            → Notes self.new changes.new (table_in world.now.layout) edits samples) }
        ensures noted { OnOk result ((a : ℕ) → is_noted self.new a
            ≡ (actor == a || is_noted self.old a)) }
        ensures tick { self.new.tick ≡ self.old.tick }
        ensures steps { steps.new ≤ steps.old
            + (if is_noted self.old actor then 0 else length class.now.props + 2) }
    {
        if self.values.contains_key(&actor.0) {
            return Ok(());
        }
        let values = sampled(self.alloc, world, actor, class, steps)?;
        changes.sample(actor, self.tick, values.as_slice())?;
        match self.values.insert(actor.0, values) {
            Ok(_) => Ok(()),
            Err(_) => Err(Memory),
        }
    }

    /// The values of an actor that was sampled; `None` exactly where it wasn't.
    pub fn values(&self, actor: Guid) -> Option<&ValueList>
        ensures { option_copied result ≡ lookup (nat_eq actor) self.now.values }
    {
        self.values.get(&actor.0)
    }
}
