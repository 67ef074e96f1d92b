// What nodes are handed: where an actor stands, and who looks.
ghost use Rattle.std.specs.Prelude.{◌≡◌, ◌==◌, not};
ghost use Rattle.graph_nodes.specs.Held.{player_in};

use net_core::{Guid, Player};
use protocol_model::Reach;

/// An actor as a node holds it: where it stands, to whom it is relevant, and the team that it is
/// given to, 0 for none. It has a player in the players' node alone.
#[derive(Clone, Copy, Debug, PartialEq, Eq)]
pub struct Spot {
    pub actor: Guid,
    pub x: i32,
    pub y: i32,
    pub reach: Reach,
    pub player: Option<Player>,
    pub team: u8,
}

/// A player, where it looks from, and its team, 0 for none.
#[derive(Clone, Copy, Debug, PartialEq, Eq)]
pub struct Viewer {
    pub player: Player,
    pub x: i32,
    pub y: i32,
    pub team: u8,
}

/// The pair has a player.
pub(crate) fn has_player(player: Option<Player>) -> bool
    ensures { result ≡ not (player_in player == 0) }
{
    match player {
        Some(player) => player != Player(0),
        None => false,
    }
}
