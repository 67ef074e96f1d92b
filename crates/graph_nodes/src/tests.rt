// What nodes give to viewers, after spots come, move and go.
ghost use Rattle.std.specs.Prelude.{◌^◌, ◌<◌};

use super::*;
use std::alloc::Global;
use std::test::Fail;

const FIRST: Guid = Guid(2);

const SECOND: Guid = Guid(4);

const THIRD: Guid = Guid(6);

const ONE: Player = Player(1);

/// A spot that is relevant within 1,000, without a player and a team.
fn near(actor: Guid, x: i32, y: i32) -> Spot {
    Spot {
        actor,
        x,
        y,
        reach: Reach::Near(1000),
        player: None,
        team: 0,
    }
}

/// A spot that is relevant to all.
fn always(actor: Guid) -> Spot {
    Spot {
        reach: Reach::Always,
        ..near(actor, 0, 0)
    }
}

/// Player 1, without a team.
fn viewer(x: i32, y: i32) -> Viewer {
    Viewer {
        player: ONE,
        x,
        y,
        team: 0,
    }
}

/// A spot of a player.
fn owned(actor: Guid, player: u16) -> Spot {
    Spot {
        player: Some(Player(player)),
        ..near(actor, 0, 0)
    }
}

/// A spot that is given to a team.
fn in_team(actor: Guid, team: u8) -> Spot {
    Spot {
        team,
        ..near(actor, 0, 0)
    }
}

/// Player 1 in a team.
fn of_team(team: u8) -> Viewer {
    Viewer {
        team,
        ..viewer(0, 0)
    }
}

/// The node gives exactly these actors to a viewer, which are wanted ascending.
fn gives<N: GraphNode>(
    rt: &HostRuntime,
    node: &N,
    viewer: Viewer,
    want: &[Guid],
) -> Result<bool, Memory> {
    let mut lists = Lists::new(rt.alloc());
    node.gather(viewer, &mut lists)?;
    let actors = lists.actors()?;
    Ok(actors.as_slice() == want)
}

/// What is done to a node, and what it gives then.
#[derive(Clone, Copy)]
enum Deed<'b> {
    Place(Spot),
    Move(Spot),
    Remove(Guid, Option<Player>),
    /// It gives exactly these actors to the viewer.
    Gives(Viewer, &'b [Guid]),
}

/// One deed: whether the node gives what it should.
fn plays_one<N: GraphNode>(
    rt: &HostRuntime,
    node: &mut N,
    deed: &Deed<'_>,
) -> Result<bool, Memory> {
    match deed {
        Deed::Place(spot) => node.place(*spot)?,
        Deed::Move(spot) => node.moved(*spot)?,
        Deed::Remove(actor, player) => node.remove(*actor, *player)?,
        Deed::Gives(viewer, want) => return gives(rt, node, *viewer, want),
    }
    Ok(true)
}

/// Deeds one after another: whether the node gives what it should each time.
fn plays<N: GraphNode>(rt: &HostRuntime, node: &mut N, deeds: &[Deed<'_>]) -> Result<bool, Memory> {
    let mut right = true;
    for deed in deeds {
        if !plays_one(rt, node, deed)? {
            right = false;
        }
    }
    Ok(right)
}

#[test]
fn all_viewers_have_the_actors_relevant_to_all(rt: HostRuntime) -> Result<(), Fail> {
    let mut node = AlwaysNode::new(rt.alloc());
    let deeds = [
        Deed::Place(always(SECOND)),
        Deed::Place(always(FIRST)),
        Deed::Move(always(FIRST)),
        Deed::Gives(viewer(9000, 9000), &[FIRST, SECOND]),
        Deed::Remove(SECOND, None),
        Deed::Gives(viewer(0, 0), &[FIRST]),
    ];
    assert!(rt; plays(&rt, &mut node, deeds.as_slice())?);
    Ok(())
}

#[test]
fn a_player_has_its_own_pairs(rt: HostRuntime) -> Result<(), Fail> {
    let mut node = PlayerNode::new(rt.alloc());
    let second = Viewer {
        player: Player(2),
        ..viewer(0, 0)
    };
    let deeds = [
        Deed::Place(owned(FIRST, 1)),
        Deed::Place(owned(FIRST, 2)),
        Deed::Place(owned(SECOND, 2)),
        Deed::Move(owned(FIRST, 1)),
        Deed::Gives(viewer(0, 0), &[FIRST]),
        Deed::Gives(second, &[FIRST, SECOND]),
        Deed::Remove(FIRST, Some(Player(2))),
        Deed::Gives(viewer(0, 0), &[FIRST]),
        Deed::Gives(second, &[SECOND]),
    ];
    assert!(rt; plays(&rt, &mut node, deeds.as_slice())?);
    Ok(())
}

#[test]
fn a_team_has_its_actors_and_no_team_has_none(rt: HostRuntime) -> Result<(), Fail> {
    let mut node = TeamNode::new(rt.alloc());
    let deeds = [
        Deed::Place(in_team(FIRST, 3)),
        Deed::Place(in_team(SECOND, 3)),
        Deed::Move(in_team(SECOND, 4)),
        Deed::Place(in_team(THIRD, 0)),
        Deed::Gives(of_team(3), &[FIRST]),
        Deed::Gives(of_team(4), &[SECOND]),
        Deed::Gives(of_team(0), &[]),
        Deed::Remove(FIRST, None),
        Deed::Gives(of_team(3), &[]),
    ];
    assert!(rt; plays(&rt, &mut node, deeds.as_slice())?);
    Ok(())
}

#[test]
fn the_grid_gives_what_touches_the_viewers_cell(rt: HostRuntime) -> Result<(), Fail> {
    let mut node = GridNode::new(rt.alloc());
    let deeds = [
        // A border stands at 10,000: the first two reach across it, the third doesn't.
        Deed::Place(near(FIRST, 10_000, 0)),
        Deed::Place(near(SECOND, 10_999, 5000)),
        Deed::Place(near(THIRD, 11_000, -1)),
        Deed::Gives(viewer(9999, 0), &[FIRST, SECOND]),
        Deed::Gives(viewer(10_000, 0), &[FIRST, SECOND, THIRD]),
        Deed::Gives(viewer(10_000, -1), &[FIRST, THIRD]),
        // A move within the same cells, then one out of them.
        Deed::Move(near(FIRST, 9500, 10)),
        Deed::Gives(viewer(9999, 0), &[FIRST, SECOND]),
        Deed::Move(near(FIRST, -10_000_000, 0)),
        Deed::Gives(viewer(9999, 0), &[SECOND]),
        Deed::Gives(viewer(-10_000_000, 0), &[FIRST]),
        Deed::Remove(SECOND, None),
        Deed::Gives(viewer(9999, 0), &[]),
    ];
    assert!(rt; plays(&rt, &mut node, deeds.as_slice())?);
    Ok(())
}

#[test]
fn sleeping_actors_are_given_by_their_reach(rt: HostRuntime) -> Result<(), Fail> {
    let mut node = DormantNode::new(rt.alloc());
    let deeds = [
        Deed::Place(near(FIRST, 10_000, 0)),
        Deed::Place(always(SECOND)),
        Deed::Gives(viewer(9999, 0), &[FIRST, SECOND]),
        Deed::Move(near(FIRST, 50_000, 0)),
        Deed::Move(always(SECOND)),
        Deed::Gives(viewer(9999, 0), &[SECOND]),
        Deed::Remove(SECOND, None),
        Deed::Gives(viewer(9999, 0), &[]),
        Deed::Gives(viewer(50_000, 0), &[FIRST]),
    ];
    assert!(rt; plays(&rt, &mut node, deeds.as_slice())?);
    Ok(())
}

/// Puts so many actors that are relevant to all into the node, or takes them out.
fn fill(node: &mut AlwaysNode, count: u32, places: bool) -> Result<(), Memory>
    requires { count < 2 ^ 30 }
{
    for n in 1..count + 1 {
        if places {
            node.place(always(Guid(2 * n)))?;
        } else {
            node.remove(Guid(2 * n), None)?;
        }
    }
    Ok(())
}

#[test]
fn lists_that_were_handed_out_stay(rt: HostRuntime) -> Result<(), Fail> {
    let mut node = AlwaysNode::new(rt.alloc());
    let mut lists = Lists::new(rt.alloc());
    fill(&mut node, 100, true)?;
    node.gather(viewer(0, 0), &mut lists)?;
    fill(&mut node, 100, false)?;
    assert!(rt; lists.actors()?.len() == 100);
    // The same actors from two nodes come once.
    fill(&mut node, 1, true)?;
    node.gather(viewer(0, 0), &mut lists)?;
    assert!(rt; lists.actors()?.len() == 100);
    Ok(())
}

/// A spot is placed, moved and removed, and what was never held is removed in between: the node
/// gives the actor to the first viewer, then to the second, and in the end to none.
fn goes_round(
    rt: &HostRuntime,
    node: &mut AnyNode,
    first: &Spot,
    then: &Spot,
    before: &Viewer,
    after: &Viewer,
) -> Result<bool, Memory> {
    let deeds = [
        Deed::Place(*first),
        Deed::Gives(*before, &[FIRST]),
        Deed::Move(*then),
        Deed::Remove(SECOND, None),
        Deed::Remove(FIRST, Some(Player(3))),
        Deed::Gives(*after, &[FIRST]),
        Deed::Remove(FIRST, first.player),
        Deed::Gives(*after, &[]),
    ];
    plays(rt, node, deeds.as_slice())
}

/// A node of each row, by its number from 0.
fn node_of(alloc: Global, row: usize) -> AnyNode {
    match row {
        0 => AnyNode::Grid(GridNode::new(alloc)),
        1 => AnyNode::Dormant(DormantNode::new(alloc)),
        2 => AnyNode::Always(AlwaysNode::new(alloc)),
        3 => AnyNode::Player(PlayerNode::new(alloc)),
        _ => AnyNode::Team(TeamNode::new(alloc)),
    }
}

#[test]
fn each_node_places_moves_and_removes(rt: HostRuntime) -> Result<(), Fail> {
    let here = viewer(9999, 0);
    let away = viewer(50_000, 0);
    let spot = near(FIRST, 10_000, 0);
    let gone = near(FIRST, 50_000, 0);
    for (row, first, then, before, after) in [
        (0, spot, gone, here, away),
        (1, spot, gone, here, away),
        (2, always(FIRST), always(FIRST), here, away),
        (3, owned(FIRST, 1), owned(FIRST, 1), here, away),
        (
            4,
            in_team(FIRST, 3),
            in_team(FIRST, 4),
            of_team(3),
            of_team(4),
        ),
    ] {
        let mut node = node_of(rt.alloc(), row);
        assert!(rt; goes_round(&rt, &mut node, &first, &then, &before, &after)?);
    }
    Ok(())
}

/// Puts so many actors into one cell of the grid, or takes them out.
fn crowd(node: &mut GridNode, count: u32, places: bool) -> Result<(), Memory>
    requires { count < 2 ^ 30 }
{
    for n in 1..count + 1 {
        if places {
            node.place(near(Guid(2 * n), 5000, 5000))?;
        } else {
            node.remove(Guid(2 * n), None)?;
        }
    }
    Ok(())
}

#[test]
fn a_cell_has_all_actors_of_a_full_world(rt: HostRuntime) -> Result<(), Fail> {
    let mut node = GridNode::new(rt.alloc());
    let mut lists = Lists::new(rt.alloc());
    crowd(&mut node, 8192, true)?;
    node.gather(viewer(0, 0), &mut lists)?;
    assert!(rt; lists.actors()?.len() == 8192);
    crowd(&mut node, 8191, false)?;
    assert!(rt; gives(&rt, &node, viewer(0, 0), &[Guid(16_384)])?);
    Ok(())
}

/// All pairs of an actor go, and those of another stay.
fn all_go(rt: &HostRuntime, node: &mut PlayerNode) -> Result<bool, Memory> {
    let deeds = [
        Deed::Place(owned(FIRST, 1)),
        Deed::Place(owned(FIRST, 1000)),
        Deed::Place(owned(SECOND, 1)),
    ];
    let placed = plays(rt, node, deeds.as_slice())?;
    let held = node.holds(FIRST, Player(1000));
    node.remove_all(FIRST)?;
    let rest = gives(rt, node, viewer(0, 0), &[SECOND])?;
    Ok(placed && held && rest && !node.holds(FIRST, Player(1000)))
}

#[test]
fn all_pairs_of_an_actor_go(rt: HostRuntime) -> Result<(), Fail> {
    let mut node = PlayerNode::new(rt.alloc());
    node.remove_all(FIRST)?;
    assert!(rt; !node.holds(THIRD, ONE));
    assert!(rt; all_go(&rt, &mut node)?);
    Ok(())
}
