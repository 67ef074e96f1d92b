// One spot of a node, put in place of the one before.
ghost use Rattle.std.specs.Prelude.{◌≡◌, is_some, option_map, OnOk};
ghost use Rattle.graph_model.specs.Nodes.{TeamNode as row_team, PlayerNode as row_player};
ghost use Rattle.graph_nodes.specs.Held.{Spots, spot_in, player_in};
ghost use Rattle.graph_nodes.specs.Any.{Stands as NodeStands, row_of as row_of_node};
ghost use Rattle.rep_graph.specs.Turns.{IsFor, PairTest, HasPairs, with_pair_spot, without_actor};

use graph_nodes::{AnyNode, GraphNode, Spot};
use net_core::{Guid, Memory, Player};

/// Puts a pair's spot, or none, in place of the one that it had, if it had one.
pub(crate) fn shift(
    node: &mut AnyNode,
    actor: Guid,
    player: Option<Player>,
    was: bool,
    spot: Option<Spot>,
) -> Result<(), Memory>
    ensures row { row_of_node node.new ≡ row_of_node node.old }
    ensures spots { OnOk result ((spots : Spots) → NodeStands node.old spots
        → is_some (spots actor (player_in player)) ≡ was
        → IsFor (row_of_node node.old) actor (player_in player) (option_map spot_in spot)
        → NodeStands node.new
        (with_pair_spot spots actor (player_in player) (option_map spot_in spot))) }
{
    match spot {
        Some(spot) => {
            if was {
                node.moved(spot)?;
                Ok(())
            } else {
                node.place(spot)?;
                Ok(())
            }
        },
        None => {
            if was {
                node.remove(actor, player)?;
                Ok(())
            } else {
                Ok(())
            }
        },
    }
}

/// The teams' node has a spot of the actor.
pub(crate) fn is_given(node: &AnyNode, actor: Guid) -> bool
    ensures { (spots : Spots) → row_of_node node.now ≡ row_team → NodeStands node.now spots
        → result ≡ is_some (spots actor 0) }
{
    match node {
        AnyNode::Team(node) => node.holds(actor),
        _ => false,
    }
}

/// The players' node has a spot of the pair.
pub(crate) fn is_paired(node: &AnyNode, actor: Guid, player: Player) -> bool
    ensures { (held : PairTest) → HasPairs node.now held → result ≡ held actor player }
{
    match node {
        AnyNode::Player(node) => node.holds(actor, player),
        _ => false,
    }
}

/// Takes all pairs of an actor out of the players' node.
pub(crate) fn drop_all(node: &mut AnyNode, actor: Guid) -> Result<(), Memory>
    ensures { OnOk result ((held : PairTest) → HasPairs node.old held
        → HasPairs node.new (without_actor held actor)) }
{
    match node {
        AnyNode::Player(node) => {
            node.remove_all(actor)?;
            Ok(())
        },
        _ => Ok(()),
    }
}
