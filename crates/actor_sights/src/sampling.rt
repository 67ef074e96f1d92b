// An actor's values, as a tick samples them.
ghost use Rattle.std.specs.Prelude.{◌≡◌, ◌≢◌, ◌+◌, ◌≤◌, ◌<◌, length, map, None, IfOk, option_map, Some};
ghost use Rattle.protocol_model.specs.Limits.{handle_limit};
ghost use Rattle.protocol_model.specs.World.{Edits, spawn_of, class_of, value_of};
ghost use Rattle.change_model.specs.Changes.{handle_of};
ghost use Rattle.value_codec.specs.Values.{whole_of};
ghost use Rattle.class_layout.specs.Tables.{table_in, class_of as class_value};
ghost use Rattle.world_table.specs.Stands.{Stands};
ghost use Rattle.actor_sights.specs.Sampled.{values_of, AreOf};

use class_layout::Class;
use net_core::{Guid, Handle, Items, Memory, Steps};
use std::alloc::Global;
use std::sync::ledger::Ledger;
use value_codec::Value;
use world_table::World;

/// An actor's values in the order of a sample: x and y, and then its class's own.
pub type ValueList = Items<Value>;

/// The values of an actor of this class that was spawned. It takes a step a value.
pub fn sampled<L: Ledger>(
    alloc: Global,
    world: &World<'_>,
    actor: Guid,
    class: &Class,
    steps: &mut Steps<L>,
) -> Result<ValueList, Memory>
    requires most { length class.now.props + 3 ≤ handle_limit }
    ensures values { IfOk result (λ values. (edits : Edits) → Stands world.now edits
        → spawn_of edits actor ≢ None
        → class_of (table_in world.now.layout) edits actor
        ≡ class_value world.now.layout.segments class.now
        → map whole_of values ≡ values_of (table_in world.now.layout) edits actor) }
    ensures fit { IfOk result (λ values. (edits : Edits) → Stands world.now edits
        → spawn_of edits actor ≢ None
        → class_of (table_in world.now.layout) edits actor
        ≡ class_value world.now.layout.segments class.now
        → AreOf (class_of (table_in world.now.layout) edits actor) values) }
    ensures steps { steps.new ≤ steps.old + length class.now.props + 2 }
{
    let mut values = Vec::with_capacity(alloc, class.props.len() + 2)?;
    for i in 0..class.props.len() + 2 {
        if let Some(value) = world.value(actor, handle_at(i), steps) {
            values.push(value)?;
        }
    }
    Ok(Items::from_vec(values))
}

/// The handle of the i-th value of a sample: the role's is left out.
fn handle_at(i: usize) -> Handle
    requires { i < handle_limit }
    ensures { result ≡ handle_of i }
{
    if i < 2 {
        Handle(i as u16 + 1)
    } else {
        Handle(i as u16 + 2)
    }
}
