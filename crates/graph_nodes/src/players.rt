// The node of pairs of an actor and a player.
ghost use Rattle.std.specs.Prelude.{◌≡◌, ◌-◌, ◌==◌, ℕ, false, true, is_err, is_some, nat_eq, IsErr, OnOk, if◌then◌else◌};
ghost use Rattle.graph_nodes.specs.Held.{Spots, no_spots, player_in, without_actor};
ghost use Rattle.actor_lists.specs.Shared.{count_of, list_at};
ghost use Rattle.graph_nodes.specs.Players.{Stands};

use crate::holders::Holders;
use crate::node::GraphNode;
use crate::spot::{Spot, Viewer};
use actor_lists::{Lists, Shelves};
use net_core::{Guid, Memory, Player};
use std::alloc::Global;
use std::marker::Model;

/// Pairs of an actor and a player: its owner, or one for whom it is added. Each player has a list
/// of actors that is shared, and each actor one of its players.
#[derive(Drop)]
pub struct PlayerNode {
    lists: Shelves<Player>,
    holders: Holders<Guid>,
    spent: bool,
}

impl Model for PlayerNode {
    ghost use Rattle.graph_nodes.specs.Players.{Kept};

    ghost Value = { Kept };

    ghost view = { λ n. record { lists = n.lists; holders = n.holders; spent = n.spent } };
}

impl PlayerNode {
    /// A node without spots; later calls grow it in this allocator.
    pub fn new(alloc: Global) -> PlayerNode
        ensures stands { Stands result no_spots }
        ensures spent { result.spent ≡ false }
    {
        PlayerNode {
            lists: Shelves::new(alloc),
            holders: Holders::new(alloc),
            spent: false,
        }
    }

    /// The node has a spot of the pair.
    pub fn holds(&self, actor: Guid, player: Player) -> bool
        ensures { (spots : Spots) → Stands self.now spots
            → result ≡ is_some (spots actor player) }
    {
        self.holders.has(actor, player)
    }

    /// Takes out the spots of an actor, whoever its players are. It is spent after `Memory`, as
    /// after `remove`.
    pub fn remove_all(&mut self, actor: Guid) -> Result<(), Memory>
        ensures stands { OnOk result ((spots : Spots) → Stands self.old spots
            → Stands self.new (without_actor spots actor)) }
        ensures spent { self.new.spent ≡ is_err result }
        ensures dead { self.old.spent ≡ true → IsErr result }
    {
        if self.spent {
            return Err(Memory);
        }
        self.spent = true;
        let players = self.holders.take_all(actor);
        take_from_each(&mut self.lists, actor, players.as_slice())?;
        self.spent = false;
        Ok(())
    }
}

/// Takes an actor out of each player's list.
fn take_from_each(
    lists: &mut Shelves<Player>,
    actor: Guid,
    players: &[Player],
) -> Result<(), Memory>
    ensures { OnOk result ((k a : ℕ) → count_of a (list_at nat_eq lists.new k)
        ≡ count_of a (list_at nat_eq lists.old k)
        - (if actor == a then count_of k players.now else 0)) }
{
    for player in players {
        lists.take(*player, actor)?;
    }
    Ok(())
}

/// The player of a pair, 0 for none.
fn named(player: Option<Player>) -> Player
    ensures { result ≡ player_in player }
{
    match player {
        Some(player) => player,
        None => Player(0),
    }
}

impl GraphNode for PlayerNode {
    ghost use Rattle.graph_model.specs.Nodes.{PlayerNode as row_of};
    ghost use Rattle.std.specs.Prelude.{nat_eq};
    ghost use Rattle.actor_lists.specs.Shared.{list_at};
    ghost use Rattle.graph_nodes.specs.Players.{Stands as stands_for};

    ghost row = { λ n. row_of };

    ghost stands = { stands_for };

    ghost given = { λ n v. list_at nat_eq n.lists v.player };

    ghost is_spent = { λ n. n.spent };

    fn place(&mut self, s: Spot) -> Result<(), Memory> {
        if self.spent {
            return Err(Memory);
        }
        self.spent = true;
        let player = named(s.player);
        self.lists.add(player, s.actor)?;
        self.holders.add(s.actor, player)?;
        self.spent = false;
        Ok(())
    }

    fn moved(&mut self, _s: Spot) -> Result<(), Memory> {
        if self.spent {
            return Err(Memory);
        }
        Ok(())
    }

    fn remove(&mut self, actor: Guid, player: Option<Player>) -> Result<(), Memory> {
        if self.spent {
            return Err(Memory);
        }
        self.spent = true;
        let player = named(player);
        self.lists.take(player, actor)?;
        self.holders.take(actor, player);
        self.spent = false;
        Ok(())
    }

    fn gather(&self, viewer: Viewer, lists: &mut Lists) -> Result<(), Memory> {
        if self.spent {
            return Err(Memory);
        }
        self.lists.share(viewer.player, lists)
    }
}
