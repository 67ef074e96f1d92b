// The pairs of an actor and a player, as an edit changes them.
ghost use Rattle.std.specs.Prelude.{◌≡◌, ◌||◌, ◌&&◌, ◌∷◌, true, not, nat_le, is_some, option_map, IfSome, OnOk};
ghost use Rattle.protocol_model.specs.Value.{is_owner_only};
ghost use Rattle.protocol_model.specs.World.{Edits, is_player, is_added};
ghost use Rattle.graph_model.specs.Nodes.{PlayerNode as row_player, is_held_in};
ghost use Rattle.graph_nodes.specs.Held.{spot_in};
ghost use Rattle.class_layout.specs.Tables.{table_in};
ghost use Rattle.world_table.specs.Answers.{edit_of};
ghost use Rattle.world_table.specs.Stands.{Stands as WorldStands};
ghost use Rattle.rep_graph.specs.Standings.{owner_in, owner_is, held_by_look};
ghost use Rattle.rep_graph.specs.Graph.{Holds};
ghost use Rattle.rep_graph.specs.Turns.{IsFor, HasPairs, PairTest, PairLook, IsPairTurn, with_pair, with_owner};

use crate::shift::{drop_all, is_paired, shift};
use crate::standing::{is_shared, reach_of};
use graph_nodes::{AnyNode, Spot};
use net_core::{Guid, Memory, Player};
use protocol_model::Reach;
use world_table::{Edit, Look, World};

/// The look names this owner.
pub(crate) fn is_owner(look: &Look, player: Player) -> bool
    ensures { result ≡ owner_is player look.now.owner }
{
    match look.owner {
        Some(owner) => owner == player,
        None => false,
    }
}

/// The owner that a look names.
fn owner_of(look: &Option<Look>) -> Option<Player>
    ensures { result ≡ owner_in look.now }
{
    match look {
        Some(look) => look.owner,
        None => None,
    }
}

/// The pair of a living actor that looks so is held.
fn is_held(world: &World<'_>, actor: Guid, player: Player, look: &Look, reach: Reach) -> bool
    ensures { (edits : Edits) → WorldStands world.now edits → is_player player ≡ true
        → result ≡ (owner_is player look.now.owner
        || (not (is_owner_only reach) && nat_le 1 player && is_added edits actor player)) }
{
    if is_owner(look, player) {
        return true;
    }
    if !is_shared(reach) {
        return false;
    }
    world.added(actor, player)
}

/// The spot of a pair, where the world as it is has the pair.
fn pair_spot(world: &World<'_>, actor: Guid, player: Player, look: &Option<Look>) -> Option<Spot>
    ensures held { (edits : Edits) → WorldStands world.now edits → is_player player ≡ true
        → is_some result ≡ held_by_look (table_in world.now.layout) look.now
        (is_added edits actor player) player }
    ensures spot { (edits : Edits) → WorldStands world.now edits → is_player player ≡ true
        → IsFor row_player actor player (option_map spot_in result) }
{
    let Some(look) = look else {
        return None;
    };
    if !look.alive {
        return None;
    }
    let reach = reach_of(world.classes(), look.class);
    if !is_held(world, actor, player, look, reach) {
        return None;
    }
    Some(Spot {
        actor,
        x: look.x,
        y: look.y,
        reach,
        player: Some(player),
        team: world.given(actor),
    })
}

/// Brings the spot of a pair to what the world as it is says of it.
fn renew_pair(
    node: &mut AnyNode,
    world: &World<'_>,
    actor: Guid,
    player: Player,
    look: &Option<Look>,
) -> Result<(), Memory>
    ensures { OnOk result ((held : PairTest) (edits : Edits) → HasPairs node.old held
        → WorldStands world.now edits
        → PairLook (table_in world.now.layout) edits actor look.now
        → is_player player ≡ true
        → HasPairs node.new (with_pair held actor player
        (is_held_in row_player (table_in world.now.layout) edits actor player))) }
{
    let was = is_paired(node, actor, player);
    let spot = pair_spot(world, actor, player, look);
    shift(node, actor, Some(player), was, spot)?;
    Ok(())
}

/// The same as `renew_pair` for the owner that a look names, where it names one.
fn renew_owner(
    node: &mut AnyNode,
    world: &World<'_>,
    actor: Guid,
    owner: Option<Player>,
    look: &Option<Look>,
) -> Result<(), Memory>
    ensures { OnOk result ((held : PairTest) (edits : Edits) → HasPairs node.old held
        → WorldStands world.now edits
        → PairLook (table_in world.now.layout) edits actor look.now
        → IfSome owner (λ player. is_player player ≡ true)
        → HasPairs node.new (with_owner held actor owner
        (is_held_in row_player (table_in world.now.layout) edits))) }
{
    match owner {
        Some(player) => {
            renew_pair(node, world, actor, player, look)?;
            Ok(())
        },
        None => Ok(()),
    }
}

/// Brings an actor's pairs to what the world after the edit says of them.
pub(crate) fn renew_pairs(
    node: &mut AnyNode,
    world: &World<'_>,
    e: &Edit,
    actor: Guid,
    before: &Option<Look>,
    after: &Option<Look>,
) -> Result<(), Memory>
    ensures { OnOk result ((edits : Edits)
        → IsPairTurn world.now e.now actor before.now after.now edits
        → Holds row_player node.old (table_in world.now.layout) edits
        → Holds row_player node.new (table_in world.now.layout) (edit_of e.now ∷ edits)) }
{
    match e {
        Edit::Own { .. } => {
            renew_owner(node, world, actor, owner_of(before), after)?;
            renew_owner(node, world, actor, owner_of(after), after)?;
            Ok(())
        },
        Edit::Add { player, .. } => {
            renew_pair(node, world, actor, *player, after)?;
            Ok(())
        },
        Edit::Destroy { .. } => {
            drop_all(node, actor)?;
            Ok(())
        },
        _ => Ok(()),
    }
}
