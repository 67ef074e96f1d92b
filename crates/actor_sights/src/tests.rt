// What the owner of an actor sees of it, and what another player sees.
ghost use Rattle.std.specs.Prelude.{◌+◌, ◌<◌, ◌≡◌, ◌^◌, length};
ghost use Rattle.protocol_model.specs.World.{Edits};
ghost use Rattle.world_table.specs.Stands.{Stands};

use super::*;
use class_layout::{Classes, Value};
use net_core::{Guid, Handle, Player, Steps};
use payload_reading::class_at;
use std::marker::Brand;
use std::sync::ledger::{Blank, Ledger};
use std::test::Fail;
use value_codec::Pair;
use world_table::{Edit, Look, World};

const ACTOR: Guid = Guid(2);

fn pair(handle: u16, value: Value) -> Pair {
    Pair {
        prop: Handle(handle),
        value,
    }
}

/// The world takes all edits.
fn play<'a>(world: &mut World<'a>, edits: &[Edit]) -> bool
    requires { (past : Edits) × Stands world.old past
        × (length past + length edits.now < 2 ^ 61) }
{
    let mut taken = true;
    for edit in edits {
        if world.apply(*edit).is_err() {
            taken = false;
        }
    }
    taken
}

/// The entry of the first actor in a player's sight, and the steps that its values took.
fn shown<'a, L: Ledger>(
    rt: &HostRuntime,
    world: &World<'a>,
    classes: &Classes,
    player: Player,
    blank: Blank,
) -> Result<Option<Seen>, Memory>
    requires name { blank.name ≡ L.name }
    requires parts { blank.parts ≡ L.parts }
    requires some { 0 < L.parts }
    requires classes { 0 < length classes.now.classes }
{
    let mut steps = Steps::<L>::new(blank);
    let Some(look) = world.look(ACTOR, &mut steps) else {
        return Ok(None);
    };
    let class = class_at(classes, 0);
    let values = sampled(rt.alloc(), world, ACTOR, class, &mut steps)?;
    let entry = seen(
        rt.alloc(),
        world,
        player,
        ACTOR,
        &look,
        class,
        values.as_slice(),
    )?;
    Ok(Some(entry))
}

/// The player sees these values of the first actor, a Pawn.
fn sees<'a>(
    rt: &HostRuntime,
    world: &World<'a>,
    classes: &Classes,
    player: Player,
    owns: bool,
    values: &[Pair],
) -> Result<bool, Memory>
    requires { 0 < length classes.now.classes }
{
    match shown::<Brand>(rt, world, classes, player, Blank::new(1))? {
        Some(entry) => Ok(entry.owns == owns && entry.values.as_slice() == values),
        None => Ok(false),
    }
}

#[test]
fn an_owner_sees_other_values_than_the_rest(rt: HostRuntime) -> Result<(), Fail> {
    let classes = Classes::builtin(rt.alloc())?;
    assert!(rt; classes.count() > 0);
    let mut world = World::new(rt.alloc(), &classes);
    let edits = [
        Edit::Spawn {
            class: 0,
            x: 3,
            y: -4,
        },
        Edit::Own {
            actor: ACTOR,
            player: Some(Player(1)),
        },
        Edit::Set {
            actor: ACTOR,
            prop: Handle(5),
            value: Value::U32(9),
        },
    ];
    assert!(rt; play(&mut world, edits.as_slice()));
    let owned = [
        pair(1, Value::I32(3)),
        pair(2, Value::I32(-4)),
        pair(3, Value::Bool(true)),
        pair(4, Value::U8(100)),
        pair(5, Value::U32(9)),
        pair(6, Value::Enum(0)),
    ];
    let others = [
        pair(1, Value::I32(3)),
        pair(2, Value::I32(-4)),
        pair(3, Value::Bool(false)),
        pair(4, Value::U8(100)),
        pair(6, Value::Enum(0)),
        pair(7, Value::I32(0)),
    ];
    assert!(rt; sees(&rt, &world, &classes, Player(1), true, owned.as_slice())?);
    assert!(rt; sees(&rt, &world, &classes, Player(2), false, others.as_slice())?);
    Ok(())
}
