// Which of the actors that the nodes list are relevant.
ghost use Rattle.std.specs.Prelude.{◌≡◌, ◌+◌, ◌≤◌, ◌||◌, ◌&&◌, ◌==◌, not, Some, ◌++◌, filter, length, IfOk, OnOk};
ghost use Rattle.graph_model.specs.Nodes.{viewer_at};
ghost use Rattle.protocol_model.specs.Sight.{is_relevant as relevant_spec, reaches as reaches_spec};
ghost use Rattle.protocol_model.specs.Sight.{are_teamed};
ghost use Rattle.protocol_model.specs.World.{Edits, class_at, is_added};
ghost use Rattle.graph_nodes.specs.Held.{viewer_in};
ghost use Rattle.class_layout.specs.Tables.{table_in};
ghost use Rattle.world_table.specs.Answers.{look_of};
ghost use Rattle.world_table.specs.Stands.{Stands as WorldStands};
ghost use Rattle.rep_graph.specs.Standings.{owner_is, is_near_to, then_one};

use crate::pairs::is_owner;
use crate::standing::reach_of;
use graph_nodes::Viewer;
use net_core::{Guid, GuidList, Items, Memory, Player, Steps};
use protocol_model::Reach;
use std::alloc::Global;
use std::sync::ledger::Ledger;
use world_table::{Look, World};

/// How a player views the world.
pub(crate) fn viewer_of(player: Player, world: &World<'_>) -> Viewer
    ensures player { result.player ≡ player }
    ensures view { (edits : Edits) → WorldStands world.now edits
        → viewer_in result ≡ viewer_at edits result.player }
{
    let (x, y) = world.viewer(player);
    Viewer {
        player,
        x,
        y,
        team: world.team(player),
    }
}

/// Those of the actors that are relevant to the viewer's player, with a look at each.
pub(crate) fn relevant_of<L: Ledger>(
    alloc: Global,
    world: &World<'_>,
    viewer: &Viewer,
    listed: &GuidList,
    steps: &mut Steps<L>,
) -> Result<GuidList, Memory>
    ensures relevant { IfOk result (λ actors. (edits : Edits) → WorldStands world.now edits
        → viewer_in viewer.now ≡ viewer_at edits viewer.now.player
        → actors ≡ filter
        (relevant_spec (table_in world.now.layout) edits viewer.now.player) listed.now) }
    ensures steps { steps.new ≤ steps.old + length listed.now }
{
    let mut relevant = Items::new(alloc);
    for actor in listed.as_slice() {
        keep_relevant(&mut relevant, world, viewer, *actor, steps)?;
    }
    Ok(relevant)
}

/// Appends an actor if it is relevant to the viewer's player. It takes one step.
fn keep_relevant<L: Ledger>(
    relevant: &mut GuidList,
    world: &World<'_>,
    viewer: &Viewer,
    actor: Guid,
    steps: &mut Steps<L>,
) -> Result<(), Memory>
    ensures kept { OnOk result ((edits : Edits) → WorldStands world.now edits
        → viewer_in viewer.now ≡ viewer_at edits viewer.now.player
        → relevant.new ≡ relevant.old ++ then_one
        (relevant_spec (table_in world.now.layout) edits viewer.now.player actor) actor) }
    ensures step { steps.new ≡ steps.old + 1 }
{
    if !is_relevant(world, viewer, actor, steps) {
        return Ok(());
    }
    relevant.push(actor)?;
    Ok(())
}

/// The actor is relevant to the viewer's player. It takes one step.
pub(crate) fn is_relevant<L: Ledger>(
    world: &World<'_>,
    viewer: &Viewer,
    actor: Guid,
    steps: &mut Steps<L>,
) -> bool
    ensures relevant { (edits : Edits) → WorldStands world.now edits
        → viewer_in viewer.now ≡ viewer_at edits viewer.now.player
        → result ≡ relevant_spec (table_in world.now.layout) edits viewer.now.player actor }
    ensures step { steps.new ≡ steps.old + 1 }
{
    match world.look(actor, steps) {
        Some(look) => look.alive && reaches(world, viewer, actor, &look),
        None => false,
    }
}

/// A living actor is within reach of the viewer's player.
fn reaches(world: &World<'_>, viewer: &Viewer, actor: Guid, look: &Look) -> bool
    ensures { (edits : Edits) → WorldStands world.now edits
        → viewer_in viewer.now ≡ viewer_at edits viewer.now.player
        → look_of (table_in world.now.layout) edits actor ≡ Some look.now
        → result ≡ reaches_spec (class_at (table_in world.now.layout) look.now.class).reach
        (table_in world.now.layout) edits viewer.now.player actor }
{
    match reach_of(world.classes(), look.class) {
        Reach::Owner => is_owner(look, viewer.player),
        Reach::Always => true,
        Reach::Near(cull) => is_seen(world, viewer, actor, look, cull),
    }
}

/// A living actor that is relevant by distance is within reach of the viewer's player.
fn is_seen(world: &World<'_>, viewer: &Viewer, actor: Guid, look: &Look, cull: u32) -> bool
    ensures { (edits : Edits) → WorldStands world.now edits
        → viewer_in viewer.now ≡ viewer_at edits viewer.now.player
        → result ≡ (owner_is viewer.now.player look.now.owner
        || is_near_to look.now.x look.now.y viewer.now.x viewer.now.y cull
        || are_teamed edits viewer.now.player actor
        || is_added edits actor viewer.now.player) }
{
    if is_owner(look, viewer.player) {
        return true;
    }
    if is_within(look.x, look.y, viewer.x, viewer.y, cull) {
        return true;
    }
    if is_teamed(world.given(actor), viewer.team) {
        return true;
    }
    world.added(actor, viewer.player)
}

/// The two teams are one.
fn is_teamed(given: u8, team: u8) -> bool
    ensures { result ≡ (given == team && not (given == 0)) }
{
    given == team && given != 0
}

/// The places are at most so far apart.
fn is_within(x: i32, y: i32, from_x: i32, from_y: i32, cull: u32) -> bool
    ensures { result ≡ is_near_to x y from_x from_y cull }
{
    let dx = u64::from(x.abs_diff(from_x));
    let dy = u64::from(y.abs_diff(from_y));
    let cull = u64::from(cull);
    (dx * dx).saturating_add(dy * dy) <= cull * cull
}
