// Edits of small worlds, and what is answered after them.
ghost use Rattle.std.specs.Prelude.{◌≡◌, ◌+◌, ◌^◌, ◌<◌, length};
ghost use Rattle.protocol_model.specs.World.{Edits};
ghost use Rattle.world_table.specs.Stands.{Stands};

use class_layout::{Classes, Value};
use std::marker::Brand;
use std::sync::ledger::{Blank, Ledger};
use std::test::Fail;
use world_table::{Edit, EditRefusal, Guid, Handle, Look, Player, Steps, World};

/// A class with a custom property, a truth value, and another one.
const DOOR: &str =
    "{\"classes\":[{\"name\":\"Door\",\"path\":\"/Game/Door\",\"parent\":null,\"relevancy\":\"always\",\"cull\":0,\"priority\":1,\"properties\":[{\"name\":\"open\",\"type\":\"bool\",\"cond\":\"custom\",\"init\":0},{\"name\":\"size\",\"type\":\"u8\",\"cond\":\"none\",\"init\":7}],\"calls\":[]}]}";

/// Two classes of the built-in table.
const PAWN: u16 = 0;

const FLAG: u16 = 1;

/// The first two actors.
const FIRST: Guid = Guid(2);

const SECOND: Guid = Guid(4);

/// What an edit is answered.
type Answer = Result<Option<Guid>, EditRefusal>;

const TAKEN: Answer = Ok(None);

const NO_ACTOR: Answer = Err(EditRefusal::NoActor);

const OUT_OF_RANGE: Answer = Err(EditRefusal::OutOfRange);

/// A Pawn at (0, 0) that was just spawned.
const LOOK: Look = Look {
    class: PAWN,
    alive: true,
    x: 0,
    y: 0,
    owner: None,
    dormant: false,
    flush: 0,
};

fn spawn(class: u16, x: i32, y: i32) -> Edit {
    Edit::Spawn { class, x, y }
}

fn destroy(actor: Guid) -> Edit {
    Edit::Destroy { actor }
}

fn set(actor: Guid, handle: u16, value: Value) -> Edit {
    let prop = Handle(handle);
    Edit::Set { actor, prop, value }
}

fn own(actor: Guid, player: Option<Player>) -> Edit {
    Edit::Own { actor, player }
}

fn add(actor: Guid, player: Player, on: bool) -> Edit {
    Edit::Add { actor, player, on }
}

fn switch(actor: Guid, handle: u16, on: bool) -> Edit {
    let prop = Handle(handle);
    Edit::Switch { actor, prop, on }
}

fn team(player: Player, team: u8) -> Edit {
    Edit::Team { player, team }
}

fn give(actor: Guid, team: u8) -> Edit {
    Edit::Give { actor, team }
}

/// Each edit is answered as is wanted, one after another.
fn play<'a>(world: &mut World<'a>, steps: &[(Edit, Answer)]) -> bool
    requires { (edits : Edits) × Stands world.old edits
        × (length edits + length steps.now < 2 ^ 61) }
{
    let mut right = true;
    for (edit, want) in steps {
        if world.apply(*edit) != *want {
            right = false;
        }
    }
    right
}

/// How an actor looks, and its values of handles 0 to 8.
fn seen<'a>(world: &World<'a>, actor: Guid) -> (Option<Look>, [Option<Value>; 9]) {
    seen_by::<Brand>(world, actor, Blank::new(1))
}

/// The same, counted in one ledger.
fn seen_by<'a, L: Ledger>(
    world: &World<'a>,
    actor: Guid,
    blank: Blank,
) -> (Option<Look>, [Option<Value>; 9])
    requires name { blank.name ≡ L.name }
    requires parts { blank.parts ≡ L.parts }
    requires some { 0 < L.parts }
{
    let mut steps = Steps::<L>::new(blank);
    let look = world.look(actor, &mut steps);
    let mut values = [None; 9];
    for h in 0..9 {
        values[h as usize] = world.value(actor, Handle(h), &mut steps);
    }
    (look, values)
}

#[test]
fn a_spawn_has_its_place_and_its_classs_values(rt: HostRuntime) -> Result<(), Fail> {
    let classes = Classes::builtin(rt.alloc())?;
    let mut world = World::new(rt.alloc(), &classes);
    let spawns = [
        (spawn(PAWN, 3, -4), Ok(Some(FIRST))),
        (spawn(FLAG, i32::MIN, 0), Ok(Some(SECOND))),
    ];
    assert!(rt; play(&mut world, spawns.as_slice()));
    let (look, values) = seen(&world, FIRST);
    let mut want = LOOK;
    want.x = 3;
    want.y = -4;
    assert!(rt; look == Some(want));
    let pawn = [
        None,
        Some(Value::I32(3)),
        Some(Value::I32(-4)),
        None,
        Some(Value::U8(100)),
        Some(Value::U32(0)),
        Some(Value::Enum(0)),
        Some(Value::I32(0)),
        None,
    ];
    assert!(rt; values == pawn);
    let (_, flag) = seen(&world, SECOND);
    assert!(rt; flag[1] == Some(Value::I32(i32::MIN)));
    assert!(rt; flag[4] == Some(Value::Guid(0)));
    assert!(rt; flag[6] == None);
    let (nothing, none) = seen(&world, Guid(6));
    assert!(rt; nothing == None);
    assert!(rt; none == [None; 9]);
    Ok(())
}

#[test]
fn edits_are_refused_for_the_first_reason(rt: HostRuntime) -> Result<(), Fail> {
    let classes = Classes::builtin(rt.alloc())?;
    let mut world = World::new(rt.alloc(), &classes);
    let (nobody, far) = (Player(0), Player(1001));
    let health = Value::U8(75);
    let view = Edit::View {
        player: nobody,
        x: 0,
        y: 0,
    };
    let steps = [
        (spawn(3, 0, 0), OUT_OF_RANGE),
        (own(FIRST, Some(far)), NO_ACTOR),
        (spawn(PAWN, 0, 0), Ok(Some(FIRST))),
        (own(FIRST, Some(far)), OUT_OF_RANGE),
        (own(FIRST, Some(nobody)), OUT_OF_RANGE),
        (own(Guid(3), None), NO_ACTOR),
        (set(FIRST, 4, health), TAKEN),
        (set(FIRST, 4, Value::U32(75)), OUT_OF_RANGE),
        (set(FIRST, 3, Value::Bool(true)), OUT_OF_RANGE),
        (set(FIRST, 6, Value::Enum(4)), OUT_OF_RANGE),
        (set(FIRST, 8, health), OUT_OF_RANGE),
        (set(FIRST, 1, Value::I64(1)), OUT_OF_RANGE),
        (switch(FIRST, 4, false), OUT_OF_RANGE),
        (view, OUT_OF_RANGE),
        (team(Player(1), 65), OUT_OF_RANGE),
        (give(FIRST, 65), OUT_OF_RANGE),
        (add(SECOND, nobody, true), NO_ACTOR),
        (add(FIRST, nobody, true), OUT_OF_RANGE),
        (destroy(FIRST), TAKEN),
        (set(FIRST, 4, Value::U8(1)), NO_ACTOR),
        (destroy(FIRST), NO_ACTOR),
        (spawn(PAWN, 0, 0), Ok(Some(SECOND))),
    ];
    assert!(rt; play(&mut world, steps.as_slice()));
    let (look, values) = seen(&world, FIRST);
    let mut want = LOOK;
    want.alive = false;
    assert!(rt; look == Some(want));
    assert!(rt; values[4] == Some(health));
    assert!(rt; values[6] == Some(Value::Enum(0)));
    Ok(())
}

#[test]
fn owners_sleep_and_flushes_are_those_of_the_last_edits(rt: HostRuntime) -> Result<(), Fail> {
    let classes = Classes::builtin(rt.alloc())?;
    let mut world = World::new(rt.alloc(), &classes);
    let one = Player(1);
    let steps = [
        (spawn(PAWN, 0, 0), Ok(Some(FIRST))),
        (spawn(PAWN, 0, 0), Ok(Some(SECOND))),
        (own(FIRST, Some(one)), TAKEN),
        (own(SECOND, Some(one)), TAKEN),
        (own(FIRST, None), TAKEN),
        (Edit::Dormant { actor: FIRST }, TAKEN),
        (Edit::Dormant { actor: SECOND }, TAKEN),
        (Edit::Wake { actor: SECOND }, TAKEN),
        (Edit::Flush { actor: FIRST }, TAKEN),
        (Edit::Flush { actor: FIRST }, TAKEN),
        (set(SECOND, 2, Value::I32(9)), TAKEN),
    ];
    assert!(rt; play(&mut world, steps.as_slice()));
    let mut asleep = LOOK;
    asleep.dormant = true;
    asleep.flush = 2;
    let (first, _) = seen(&world, FIRST);
    assert!(rt; first == Some(asleep));
    let mut moved = LOOK;
    moved.y = 9;
    moved.owner = Some(one);
    let (second, _) = seen(&world, SECOND);
    assert!(rt; second == Some(moved));
    Ok(())
}

#[test]
fn viewers_teams_and_pairs_are_those_of_the_last_edits(rt: HostRuntime) -> Result<(), Fail> {
    let classes = Classes::builtin(rt.alloc())?;
    let mut world = World::new(rt.alloc(), &classes);
    let (one, last) = (Player(1), Player(1000));
    let view = Edit::View {
        player: last,
        x: 5,
        y: -6,
    };
    let steps = [
        (spawn(FLAG, 0, 0), Ok(Some(FIRST))),
        (team(last, 64), TAKEN),
        (view, TAKEN),
        (give(FIRST, 64), TAKEN),
        (add(FIRST, one, true), TAKEN),
        (add(FIRST, last, true), TAKEN),
        (add(FIRST, one, false), TAKEN),
    ];
    assert!(rt; play(&mut world, steps.as_slice()));
    assert_eq!(rt; world.viewer(last), (5, -6));
    assert_eq!(rt; world.viewer(one), (0, 0));
    assert_eq!(rt; world.team(last), 64);
    assert_eq!(rt; world.team(one), 0);
    assert_eq!(rt; world.given(FIRST), 64);
    assert_eq!(rt; world.given(SECOND), 0);
    assert!(rt; world.added(FIRST, last));
    assert!(rt; !world.added(FIRST, one));
    assert_eq!(rt; world.classes().count(), 3);
    Ok(())
}

#[test]
fn a_custom_property_has_a_switch_that_is_on_at_first(rt: HostRuntime) -> Result<(), Fail> {
    let Ok(classes) = Classes::read(rt.alloc(), DOOR.as_bytes()) else {
        return Err(Fail::new("the table is refused"));
    };
    let mut world = World::new(rt.alloc(), &classes);
    let steps = [
        (spawn(0, 0, 0), Ok(Some(FIRST))),
        (spawn(0, 0, 0), Ok(Some(SECOND))),
        (switch(FIRST, 4, false), TAKEN),
        (switch(FIRST, 5, true), OUT_OF_RANGE),
    ];
    assert!(rt; play(&mut world, steps.as_slice()));
    assert!(rt; !world.switched(FIRST, Handle(4)));
    assert!(rt; world.switched(SECOND, Handle(4)));
    assert!(rt; !world.switched(SECOND, Handle(5)));
    assert!(rt; !world.switched(Guid(6), Handle(4)));
    Ok(())
}
