// What players find relevant after edits of small worlds.
ghost use Rattle.std.specs.Prelude.{◌+◌, ◌^◌, ◌<◌, ◌≡◌, length};
ghost use Rattle.protocol_model.specs.World.{Edits};
ghost use Rattle.world_table.specs.Stands.{Stands as WorldStands};

use super::*;
use class_layout::{Classes, Value};
use graph_nodes::Lists;
use net_core::Handle;
use std::marker::Brand;
use std::sync::ledger::{Blank, Ledger};
use std::test::Fail;

/// Classes of the built-in table: relevant within 1,000, to all, and to its owner.
const PAWN: u16 = 0;

const FLAG: u16 = 1;

const PURSE: u16 = 2;

const ONE: Player = Player(1);

const TWO: Player = Player(2);

fn spawn(class: u16, x: i32, y: i32) -> Edit {
    Edit::Spawn { class, x, y }
}

fn view(player: Player, x: i32, y: i32) -> Edit {
    Edit::View { player, x, y }
}

fn own(actor: u32, player: Option<Player>) -> Edit {
    let actor = Guid(actor);
    Edit::Own { actor, player }
}

fn add(actor: u32, player: Player, on: bool) -> Edit {
    let actor = Guid(actor);
    Edit::Add { actor, player, on }
}

fn set(actor: u32, handle: u16, value: Value) -> Edit {
    let actor = Guid(actor);
    let prop = Handle(handle);
    Edit::Set { actor, prop, value }
}

fn switch(actor: u32, handle: u16, on: bool) -> Edit {
    let actor = Guid(actor);
    let prop = Handle(handle);
    Edit::Switch { actor, prop, on }
}

fn destroy(actor: u32) -> Edit {
    Edit::Destroy { actor: Guid(actor) }
}

fn dormant(actor: u32) -> Edit {
    Edit::Dormant { actor: Guid(actor) }
}

fn wake(actor: u32) -> Edit {
    Edit::Wake { actor: Guid(actor) }
}

fn give(actor: u32, team: u8) -> Edit {
    let actor = Guid(actor);
    Edit::Give { actor, team }
}

fn team(player: Player, team: u8) -> Edit {
    Edit::Team { player, team }
}

/// The look that the actor named by an edit has.
fn look_before<'a>(world: &World<'a>, e: &Edit) -> Option<Look> {
    match e {
        Edit::Spawn { .. } | Edit::View { .. } | Edit::Team { .. } => None,
        Edit::Destroy { actor }
        | Edit::Set { actor, .. }
        | Edit::Own { actor, .. }
        | Edit::Add { actor, .. }
        | Edit::Dormant { actor }
        | Edit::Wake { actor }
        | Edit::Flush { actor }
        | Edit::Switch { actor, .. }
        | Edit::Give { actor, .. } => look_by::<Brand>(world, *actor, Blank::new(1)),
    }
}

fn look_by<'a, L: Ledger>(world: &World<'a>, actor: Guid, blank: Blank) -> Option<Look>
    requires name { blank.name ≡ L.name }
    requires parts { blank.parts ≡ L.parts }
    requires some { 0 < L.parts }
{
    let mut steps = Steps::<L>::new(blank);
    world.look(actor, &mut steps)
}

/// Edits of a world, with which its graph goes along; all of them are taken.
fn play<'a>(world: &mut World<'a>, graph: &mut RepGraph, edits: &[Edit]) -> bool
    requires { (past : Edits) × WorldStands world.old past
        × (length past + length edits.now < 2 ^ 61) }
{
    let mut taken = true;
    for edit in edits {
        let before = look_before(world, edit);
        if world.apply(*edit).is_err() {
            taken = false;
        }
        if graph.apply(*edit, before, world).is_err() {
            taken = false;
        }
    }
    taken
}

/// What a player finds relevant.
fn gathered<'a>(world: &World<'a>, graph: &RepGraph, player: Player) -> Result<GuidList, Memory> {
    gathered_by::<Brand>(world, graph, player, Blank::new(1))
}

fn gathered_by<'a, L: Ledger>(
    world: &World<'a>,
    graph: &RepGraph,
    player: Player,
    blank: Blank,
) -> Result<GuidList, Memory>
    requires name { blank.name ≡ L.name }
    requires parts { blank.parts ≡ L.parts }
    requires some { 0 < L.parts }
{
    let mut steps = Steps::<L>::new(blank);
    graph.gather(player, world, &mut steps)
}

/// What is asked after some edits.
#[derive(Clone, Copy)]
enum Asked<'b> {
    /// Players 1 and 2 find these actors relevant.
    Finds(&'b [Guid], &'b [Guid]),
    /// The node of this row gives the viewer these actors.
    Gives(usize, Viewer, &'b [Guid]),
}

fn both_find<'a>(
    world: &World<'a>,
    graph: &RepGraph,
    one: &[Guid],
    two: &[Guid],
) -> Result<bool, Memory> {
    let first = gathered(world, graph, ONE)?;
    let second = gathered(world, graph, TWO)?;
    Ok(first.as_slice() == one && second.as_slice() == two)
}

fn gives(
    rt: &HostRuntime,
    graph: &RepGraph,
    row: usize,
    viewer: Viewer,
    want: &[Guid],
) -> Result<bool, Memory> {
    let Some(node) = graph.node(row) else {
        return Ok(false);
    };
    let mut lists = Lists::new(rt.alloc());
    node.gather(viewer, &mut lists)?;
    let actors = lists.actors()?;
    Ok(actors.as_slice() == want)
}

fn is_so<'a>(
    rt: &HostRuntime,
    world: &World<'a>,
    graph: &RepGraph,
    asked: &Asked<'_>,
) -> Result<bool, Memory> {
    match asked {
        Asked::Finds(one, two) => both_find(world, graph, one, two),
        Asked::Gives(row, viewer, want) => gives(rt, graph, *row, *viewer, want),
    }
}

/// The world takes all edits, and then it is so.
fn plays<'a>(
    rt: &HostRuntime,
    world: &mut World<'a>,
    graph: &mut RepGraph,
    edits: &[Edit],
    asked: &Asked<'_>,
) -> Result<bool, Memory>
    requires { (past : Edits) × WorldStands world.old past
        × (length past + length edits.now < 2 ^ 61) }
{
    let taken = play(world, graph, edits);
    let so = is_so(rt, world, graph, asked)?;
    Ok(taken && so)
}

/// It is so after fewer than 100 edits of an empty world, all of which are taken.
fn holds_in(
    rt: &HostRuntime,
    classes: &Classes,
    edits: &[Edit],
    asked: &Asked<'_>,
) -> Result<bool, Memory> {
    if edits.len() > 99 {
        return Ok(false);
    }
    let mut graph = RepGraph::new(rt.alloc())?;
    let mut world = World::new(rt.alloc(), classes);
    plays(rt, &mut world, &mut graph, edits, asked)
}

/// The same over the built-in table.
fn holds(rt: &HostRuntime, edits: &[Edit], asked: &Asked<'_>) -> Result<bool, Memory> {
    let classes = Classes::builtin(rt.alloc())?;
    holds_in(rt, &classes, edits, asked)
}

/// After these edits players 1 and 2 find these actors relevant.
fn finds(rt: &HostRuntime, edits: &[Edit], one: &[Guid], two: &[Guid]) -> Result<bool, Memory> {
    holds(rt, edits, &Asked::Finds(one, two))
}

/// Player 1 without a team, at a place.
fn at(x: i32, y: i32) -> Viewer {
    let player = ONE;
    Viewer {
        player,
        x,
        y,
        team: 0,
    }
}

/// Five Pawns, of which four are near (0, 0): one of them is a step outside of its distance of
/// 1,000, the others are at its very end.
fn five_pawns() -> [Edit; 5] {
    [
        spawn(PAWN, 600, 800),
        spawn(PAWN, 600, 801),
        spawn(PAWN, -600, -800),
        spawn(PAWN, 1000, 0),
        spawn(PAWN, 10_000, 10_000),
    ]
}

#[test]
fn actors_are_relevant_within_their_distance(rt: HostRuntime) -> Result<(), Fail> {
    let one = [Guid(2), Guid(6), Guid(8)];
    assert!(rt; finds(&rt, five_pawns().as_slice(), one.as_slice(), one.as_slice())?);
    let edits = [spawn(PAWN, 10_000, 10_000), view(TWO, 10_600, 10_800)];
    assert!(rt; finds(&rt, edits.as_slice(), &[], &[Guid(2)])?);
    Ok(())
}

#[test]
fn an_actor_across_the_border_of_a_cell_is_found(rt: HostRuntime) -> Result<(), Fail> {
    // Cells end at 10,000: the actor and the first viewer stand in two of them, a step apart. The
    // second viewer is one step too far away.
    let edits = [
        spawn(PAWN, 10_000, 0),
        view(ONE, 9999, 0),
        view(TWO, 8999, 0),
    ];
    assert!(rt; finds(&rt, edits.as_slice(), &[Guid(2)], &[])?);
    Ok(())
}

#[test]
fn owners_and_added_players_find_actors_out_of_reach(rt: HostRuntime) -> Result<(), Fail> {
    let edits = [
        spawn(PAWN, 90_000, 0),
        spawn(FLAG, 0, 0),
        spawn(PURSE, 0, 0),
        spawn(PAWN, 90_000, 0),
        own(2, Some(ONE)),
        own(6, Some(TWO)),
        add(8, TWO, true),
        add(8, TWO, true),
    ];
    let two = [Guid(4), Guid(6), Guid(8)];
    assert!(rt; finds(&rt, edits.as_slice(), &[Guid(2), Guid(4)], two.as_slice())?);
    Ok(())
}

/// A Pawn and a Purse that are given to team 3, player 1 in that team, player 2 in another, and one
/// edit more. Nobody looks from where the Pawn is.
fn teamed(last: Edit) -> [Edit; 7] {
    [
        spawn(PAWN, 5000, 0),
        spawn(PURSE, 0, 0),
        give(2, 3),
        give(4, 3),
        team(ONE, 3),
        team(TWO, 4),
        last,
    ]
}

/// After these edits player 1 finds the Pawn, or nothing, and player 2 nothing.
fn team_finds(rt: &HostRuntime, last: Edit, found: bool) -> Result<bool, Memory> {
    if found {
        finds(rt, teamed(last).as_slice(), &[Guid(2)], &[])
    } else {
        finds(rt, teamed(last).as_slice(), &[], &[])
    }
}

#[test]
fn a_team_finds_what_it_was_given(rt: HostRuntime) -> Result<(), Fail> {
    for (last, found) in [
        (view(ONE, 0, 0), true),
        (dormant(2), true),
        (team(ONE, 0), false),
        (give(2, 0), false),
        (team(TWO, 0), true),
    ] {
        assert!(rt; team_finds(&rt, last, found)?);
    }
    Ok(())
}

#[test]
fn what_was_given_is_taken_back(rt: HostRuntime) -> Result<(), Fail> {
    let edits = [
        spawn(PAWN, 0, 0),
        spawn(PAWN, 90_000, 0),
        spawn(FLAG, 0, 0),
        own(2, Some(ONE)),
        add(2, TWO, true),
        add(4, TWO, true),
        add(4, TWO, false),
        own(4, Some(ONE)),
        own(4, Some(TWO)),
        destroy(2),
        dormant(6),
        wake(6),
        set(4, 1, Value::I32(80_000)),
    ];
    assert!(rt; finds(&rt, edits.as_slice(), &[Guid(6)], &[Guid(4), Guid(6)])?);
    Ok(())
}

#[test]
fn the_grid_gives_what_touches_a_cell(rt: HostRuntime) -> Result<(), Fail> {
    let all = [Guid(2), Guid(4), Guid(6), Guid(8), Guid(10)];
    let near = Asked::Gives(0, at(0, 0), all.as_slice());
    assert!(rt; holds(&rt, five_pawns().as_slice(), &near)?);
    let last = [Guid(10)];
    let far = Asked::Gives(0, at(10_600, 10_800), last.as_slice());
    assert!(rt; holds(&rt, five_pawns().as_slice(), &far)?);
    Ok(())
}

/// Edits of most kinds, after which each node has something.
fn mixed() -> [Edit; 20] {
    [
        spawn(PAWN, 0, 0),
        spawn(PAWN, 50_000, 0),
        spawn(FLAG, 0, 0),
        spawn(FLAG, 0, 0),
        spawn(PURSE, 0, 0),
        spawn(PAWN, 0, 0),
        own(2, Some(ONE)),
        own(10, Some(ONE)),
        add(4, ONE, true),
        add(10, TWO, true),
        add(12, ONE, true),
        dormant(4),
        dormant(8),
        dormant(10),
        give(2, 7),
        give(8, 7),
        give(10, 7),
        give(12, 7),
        set(2, 2, Value::I32(-20_000)),
        destroy(12),
    ]
}

fn mixed_gives(
    rt: &HostRuntime,
    row: usize,
    viewer: Viewer,
    want: &[Guid],
) -> Result<bool, Memory> {
    holds(rt, mixed().as_slice(), &Asked::Gives(row, viewer, want))
}

#[test]
fn each_node_holds_the_spots_of_its_row(rt: HostRuntime) -> Result<(), Fail> {
    let near = at(0, -20_000);
    // The grid: the first Pawn, where it stands now.
    assert!(rt; mixed_gives(&rt, 0, near, &[Guid(2)])?);
    assert!(rt; mixed_gives(&rt, 0, at(0, 0), &[])?);
    assert!(rt; mixed_gives(&rt, 0, at(50_000, 0), &[])?);
    // Relevant to all and awake.
    assert!(rt; mixed_gives(&rt, 1, near, &[Guid(6)])?);
    Ok(())
}

#[test]
fn pairs_are_held_with_an_owner_and_added_players(rt: HostRuntime) -> Result<(), Fail> {
    let player = TWO;
    let second = Viewer { player, ..at(0, 0) };
    // Nobody has a pair with a destroyed actor, and a Purse is its owner's alone.
    assert!(rt; mixed_gives(&rt, 2, at(0, 0), &[Guid(2), Guid(4), Guid(10)])?);
    assert!(rt; mixed_gives(&rt, 2, second, &[])?);
    Ok(())
}

#[test]
fn sleepers_and_teams_have_nodes_of_their_own(rt: HostRuntime) -> Result<(), Fail> {
    let mate = Viewer {
        team: 7,
        ..at(0, 0)
    };
    // Asleep: by distance, or for all; a Purse isn't there.
    assert!(rt; mixed_gives(&rt, 3, at(50_000, 0), &[Guid(4), Guid(8)])?);
    assert!(rt; mixed_gives(&rt, 3, at(0, 0), &[Guid(8)])?);
    // Given to the team, asleep or awake.
    assert!(rt; mixed_gives(&rt, 4, mate, &[Guid(2), Guid(8)])?);
    assert!(rt; mixed_gives(&rt, 4, at(0, 0), &[])?);
    Ok(())
}

/// A class with a custom property, relevant within 1,000.
const DOOR: &str =
    "{\"classes\":[{\"name\":\"Door\",\"path\":\"/Game/Door\",\"parent\":null,\"relevancy\":\"near\",\"cull\":1000,\"priority\":1,\"properties\":[{\"name\":\"open\",\"type\":\"bool\",\"cond\":\"custom\",\"init\":0}],\"calls\":[]}]}";

/// Two Doors, one of them player 2's, and a switch of one's property.
fn doors(actor: u32, on: bool) -> [Edit; 4] {
    [
        spawn(0, 0, 0),
        spawn(0, 2000, 0),
        own(4, Some(TWO)),
        switch(actor, 4, on),
    ]
}

#[test]
fn a_switch_changes_nothing(rt: HostRuntime) -> Result<(), Fail> {
    let Ok(classes) = Classes::read(rt.alloc(), DOOR.as_bytes()) else {
        return Err(Fail::new("the table is refused"));
    };
    let both = [Guid(2), Guid(4)];
    for (actor, on) in [(2, false), (2, true), (4, false)] {
        let edits = doors(actor, on);
        let found = Asked::Finds(&[Guid(2)], both.as_slice());
        assert!(rt; holds_in(&rt, &classes, edits.as_slice(), &found)?);
        let given = Asked::Gives(0, at(0, 0), both.as_slice());
        assert!(rt; holds_in(&rt, &classes, edits.as_slice(), &given)?);
    }
    Ok(())
}
