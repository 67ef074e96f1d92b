// The node of the actors that are relevant to all.
ghost use Rattle.std.specs.Prelude.{◌≡◌, false};
ghost use Rattle.graph_nodes.specs.Held.{no_spots};
ghost use Rattle.graph_nodes.specs.Always.{Stands};

use crate::node::GraphNode;
use crate::spot::{Spot, Viewer, has_player};
use actor_lists::{Lists, Pieces};
use net_core::{Guid, Memory, Player};
use std::alloc::Global;
use std::marker::Model;

/// Awake actors of reach `Always`: all viewers share its one list.
#[derive(Drop)]
pub struct AlwaysNode {
    alloc: Global,
    actors: Pieces,
    spent: bool,
}

impl Model for AlwaysNode {
    ghost use Rattle.graph_nodes.specs.Always.{Kept};

    ghost Value = { Kept };

    ghost view = { λ n. record { actors = n.actors; spent = n.spent } };
}

impl AlwaysNode {
    /// A node without spots; later calls grow it in this allocator.
    pub fn new(alloc: Global) -> AlwaysNode
        ensures stands { Stands result no_spots }
        ensures spent { result.spent ≡ false }
    {
        AlwaysNode {
            alloc,
            actors: Pieces::new(alloc),
            spent: false,
        }
    }
}

impl GraphNode for AlwaysNode {
    ghost use Rattle.graph_model.specs.Nodes.{AlwaysNode as row_of};
    ghost use Rattle.graph_nodes.specs.Always.{Stands as stands_for};

    ghost row = { λ n. row_of };

    ghost stands = { stands_for };

    ghost given = { λ n v. n.actors };

    ghost is_spent = { λ n. n.spent };

    fn place(&mut self, s: Spot) -> Result<(), Memory> {
        if self.spent {
            return Err(Memory);
        }
        self.spent = true;
        self.actors.add(self.alloc, s.actor)?;
        self.spent = false;
        Ok(())
    }

    fn moved(&mut self, _s: Spot) -> Result<(), Memory> {
        if self.spent {
            return Err(Memory);
        }
        Ok(())
    }

    fn remove(&mut self, actor: Guid, player: Option<Player>) -> Result<(), Memory> {
        if self.spent {
            return Err(Memory);
        }
        if has_player(player) {
            return Ok(());
        }
        self.spent = true;
        self.actors.take(self.alloc, actor)?;
        self.spent = false;
        Ok(())
    }

    fn gather(&self, _viewer: Viewer, lists: &mut Lists) -> Result<(), Memory> {
        if self.spent {
            return Err(Memory);
        }
        lists.share(&self.actors)
    }
}
