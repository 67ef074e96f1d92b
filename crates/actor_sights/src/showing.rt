// Entries of a sight, made of looks and sampled values.
ghost use Rattle.std.specs.Prelude.{◌≡◌, ◌+◌, ◌≤◌, ◌<◌, ◌++◌, ◌∷◌, [], ℕ, length, map, IfOk, OnOk, Some, IsTrue};
ghost use Rattle.protocol_model.specs.Limits.{handle_limit};
ghost use Rattle.protocol_model.specs.Value.{Table, Class as ClassSpec, Prop as PropSpec, numbered_from, prop_at};
ghost use Rattle.protocol_model.specs.World.{Edits, class_at, class_of, owns as owns_in};
ghost use Rattle.protocol_model.specs.Sight.{seen_of, destroyed_of};
ghost use Rattle.value_codec.specs.Values.{whole_of};
ghost use Rattle.class_members.specs.Members.{prop_of};
ghost use Rattle.class_layout.specs.Tables.{Layout, table_in, class_of as class_value};
ghost use Rattle.world_table.specs.Answers.{look_of};
ghost use Rattle.world_table.specs.Stands.{Stands};
ghost use Rattle.payload_writing.specs.Values.{pairs_fit};
ghost use Rattle.sender_records.specs.Handles.{pairs_of};
ghost use Rattle.actor_sights.specs.Sampled.{values_of, AreOf};
ghost use Rattle.sender_steps.specs.Sights.{seen_value};
ghost use Rattle.actor_sights.specs.Visible.{visible_among};

use actor_sender::Seen;
use class_layout::Class;
use net_core::{Guid, Handle, Memory, Player};
use protocol_model::Cond;
use rep_conditions::visible;
use std::alloc::Global;
use value_codec::{Pair, PairList, Value};
use world_table::{Look, World};

/// The entry of a relevant actor that stands so and has these values, as they are sampled.
pub fn seen(
    alloc: Global,
    world: &World<'_>,
    player: Player,
    actor: Guid,
    look: &Look,
    class: &Class,
    values: &[Value],
) -> Result<Seen, Memory>
    requires most { length class.now.props + 3 ≤ handle_limit }
    ensures entry { IfOk result (λ seen. (edits : Edits) → Stands world.now edits
        → look_of (table_in world.now.layout) edits actor ≡ Some look.now
        → class_of (table_in world.now.layout) edits actor
        ≡ class_value world.now.layout.segments class.now
        → map whole_of values.now ≡ values_of (table_in world.now.layout) edits actor
        → seen_value world.now.layout seen
        ≡ seen_of (table_in world.now.layout) edits player actor) }
    ensures class { IfOk result (λ seen. seen.class ≡ look.now.class) }
    ensures fit { IfOk result (λ seen. (k : ClassSpec)
        → k ≡ class_value world.now.layout.segments class.now
        → AreOf k values.now → IsTrue (pairs_fit k seen.values)) }
{
    let mut seen = seen_asleep(alloc, player, actor, look);
    let room = Vec::with_capacity(alloc, class.props.len() + 3)?;
    let mut pairs = PairList::from_vec(room);
    put_built_in(&mut pairs, look, seen.owns)?;
    put_own(&mut pairs, world, actor, class, seen.owns, values)?;
    seen.values = pairs;
    Ok(seen)
}

/// The entry of a relevant actor that stands so, without its values: they are left out where the
/// actor sleeps at this connection and nothing of it was flushed.
pub fn seen_asleep(alloc: Global, player: Player, actor: Guid, look: &Look) -> Seen
    ensures entry { (layout : Layout) (edits : Edits)
        → look_of (table_in layout) edits actor ≡ Some look.now
        → seen_value layout result
        ≡ record (seen_of (table_in layout) edits player actor) { values = [] } }
    ensures class { result.class ≡ look.now.class }
    ensures none { result.values ≡ [] }
{
    Seen {
        actor,
        class: look.class,
        owns: look.owner == Some(player),
        relevant: true,
        destroyed: false,
        dormant: look.dormant,
        flush: look.flush,
        values: PairList::new(alloc),
    }
}

/// The entry of an actor of this class that is destroyed.
pub fn gone(alloc: Global, actor: Guid, class: u16) -> Seen
    ensures entry { (layout : Layout) (edits : Edits)
        → class_of (table_in layout) edits actor ≡ class_at (table_in layout) class
        → seen_value layout result ≡ destroyed_of (table_in layout) edits actor }
    ensures class { result.class ≡ class }
    ensures none { result.values ≡ [] }
{
    Seen {
        actor,
        class,
        owns: false,
        relevant: false,
        destroyed: true,
        dormant: false,
        flush: 0,
        values: PairList::new(alloc),
    }
}

/// Appends x, y and the role.
fn put_built_in(pairs: &mut PairList, look: &Look, owns: bool) -> Result<(), Memory>
    ensures pairs { OnOk result (pairs.new ≡ pairs.old
        ++ record { prop = 1; value = Value.I32 look.now.x }
        ∷ record { prop = 2; value = Value.I32 look.now.y }
        ∷ record { prop = 3; value = Value.Bool owns } ∷ []) }
    ensures fit { OnOk result ((k : ClassSpec) → IsTrue (pairs_fit k pairs.old)
        → IsTrue (pairs_fit k pairs.new)) }
{
    pairs.push(Pair {
        prop: Handle(1),
        value: Value::I32(look.x),
    })?;
    pairs.push(Pair {
        prop: Handle(2),
        value: Value::I32(look.y),
    })?;
    pairs.push(Pair {
        prop: Handle(3),
        value: Value::Bool(owns),
    })?;
    Ok(())
}

/// Appends the properties of the class that the player sees.
fn put_own(
    pairs: &mut PairList,
    world: &World<'_>,
    actor: Guid,
    class: &Class,
    owns: bool,
    values: &[Value],
) -> Result<(), Memory>
    requires most { length class.now.props + 3 ≤ handle_limit }
    ensures pairs { OnOk result ((edits : Edits) (player : ℕ) → Stands world.now edits
        → owns ≡ owns_in edits player actor
        → class_of (table_in world.now.layout) edits actor
        ≡ class_value world.now.layout.segments class.now
        → map whole_of values.now ≡ values_of (table_in world.now.layout) edits actor
        → pairs_of pairs.new ≡ pairs_of pairs.old
        ++ visible_among (table_in world.now.layout) edits player actor
        (numbered_from 4 (map prop_of class.now.props))) }
    ensures fit { OnOk result ((k : ClassSpec)
        → k ≡ class_value world.now.layout.segments class.now → AreOf k values.now
        → IsTrue (pairs_fit k pairs.old) → IsTrue (pairs_fit k pairs.new)) }
{
    for (i, prop) in class.props.as_slice().iter().enumerate() {
        put_property(pairs, world, actor, i, prop.cond, owns, values)?;
    }
    Ok(())
}

/// Appends the i-th of a class's own properties, counted from 0, if the player sees it.
fn put_property(
    pairs: &mut PairList,
    world: &World<'_>,
    actor: Guid,
    i: usize,
    cond: Cond,
    owns: bool,
    values: &[Value],
) -> Result<(), Memory>
    requires { i + 3 < handle_limit }
    ensures pairs { OnOk result ((edits : Edits) (player : ℕ) (p : PropSpec)
        → Stands world.now edits
        → owns ≡ owns_in edits player actor
        → prop_at (class_of (table_in world.now.layout) edits actor) (i + 4) ≡ Some p
        → cond ≡ p.cond
        → map whole_of values.now ≡ values_of (table_in world.now.layout) edits actor
        → pairs_of pairs.new ≡ pairs_of pairs.old
        ++ visible_among (table_in world.now.layout) edits player actor ((i + 4, p) ∷ [])) }
    ensures fit { OnOk result ((k : ClassSpec) (p : PropSpec) → prop_at k (i + 4) ≡ Some p
        → AreOf k values.now
        → IsTrue (pairs_fit k pairs.old) → IsTrue (pairs_fit k pairs.new)) }
{
    let prop = Handle(i as u16 + 4);
    if !visible(cond, owns, world.switched(actor, prop)) {
        return Ok(());
    }
    if let Some(value) = values.get(i + 2) {
        pairs.push(Pair {
            prop,
            value: *value,
        })?;
    }
    Ok(())
}
