// The node of sleeping actors.
ghost use Rattle.std.specs.Prelude.{◌≡◌, ◌++◌, false, OnOk};
ghost use Rattle.graph_model.specs.Nodes.{DormantNode as row_dormant};
ghost use Rattle.graph_nodes.specs.Held.{Spots, CanPlace, CanMove, no_spots, with_spot, without_pair, spot_in, viewer_in};
ghost use Rattle.graph_nodes.specs.Dormant.{Keeps, Stands, given_in};

use crate::always::AlwaysNode;
use crate::grid::GridNode;
use crate::node::GraphNode;
use crate::spot::{Spot, Viewer, has_player};
use actor_lists::Lists;
use net_core::{Guid, Memory, Player};
use protocol_model::Reach;
use std::alloc::Global;
use std::marker::Model;

/// Those of reach `Near`, and those of reach `Always`.
#[derive(Drop)]
struct Halves {
    near: GridNode,
    always: AlwaysNode,
}

impl Model for Halves {
    ghost use Rattle.graph_nodes.specs.Dormant.{Halves as Seen};

    ghost Value = { Seen };

    ghost view = { λ h. record { near = h.near; always = h.always } };
}

impl Halves {
    /// Adds a spot to the half that its reach names.
    fn put(&mut self, s: Spot) -> Result<(), Memory>
        ensures { OnOk result ((spots : Spots) → Keeps self.old spots
            → CanPlace row_dormant spots (spot_in s)
            → Keeps self.new (with_spot spots (spot_in s))) }
    {
        match s.reach {
            Reach::Near(_) => self.near.place(s),
            Reach::Always => self.always.place(s),
            Reach::Owner => Ok(()),
        }
    }

    /// Takes an actor out of the half that has it, if one has.
    fn take(&mut self, actor: Guid) -> Result<(), Memory>
        ensures { OnOk result ((spots : Spots) → Keeps self.old spots
            → Keeps self.new (without_pair spots actor 0)) }
    {
        if self.near.holds(actor) {
            self.near.remove(actor, None)
        } else {
            self.always.remove(actor, None)
        }
    }

    /// Puts a spot in place of the one that its actor has.
    fn change(&mut self, s: Spot) -> Result<(), Memory>
        ensures { OnOk result ((spots : Spots) → Keeps self.old spots
            → CanMove row_dormant spots (spot_in s)
            → Keeps self.new (with_spot spots (spot_in s))) }
    {
        match s.reach {
            Reach::Near(_) if self.near.holds(s.actor) => self.near.moved(s),
            _ => {
                self.take(s.actor)?;
                self.put(s)
            },
        }
    }

    /// Hands out both lists. After `Memory` some may be handed out.
    fn share(&self, viewer: Viewer, lists: &mut Lists) -> Result<(), Memory>
        ensures { OnOk result (lists.new ≡ lists.old ++ given_in self.now (viewer_in viewer)) }
    {
        let again = viewer;
        self.near.gather(viewer, lists)?;
        self.always.gather(again, lists)
    }
}

/// Dormant actors: those of reach `Near` as a grid has them, those of reach `Always` for all.
#[derive(Drop)]
pub struct DormantNode {
    alloc: Global,
    halves: Halves,
    spent: bool,
}

impl Model for DormantNode {
    ghost use Rattle.graph_nodes.specs.Dormant.{Kept};

    ghost Value = { Kept };

    ghost view = { λ n. record { halves = n.halves; spent = n.spent } };
}

impl DormantNode {
    /// A node without spots; later calls grow it in this allocator.
    pub fn new(alloc: Global) -> DormantNode
        ensures stands { Stands result no_spots }
        ensures spent { result.spent ≡ false }
    {
        DormantNode {
            alloc,
            halves: Halves {
                near: GridNode::new(alloc),
                always: AlwaysNode::new(alloc),
            },
            spent: false,
        }
    }
}

impl GraphNode for DormantNode {
    ghost use Rattle.graph_model.specs.Nodes.{DormantNode as row_of};
    ghost use Rattle.graph_nodes.specs.Dormant.{Stands as stands_for, given_by};

    ghost row = { λ n. row_of };

    ghost stands = { stands_for };

    ghost given = { given_by };

    ghost is_spent = { λ n. n.spent };

    fn place(&mut self, s: Spot) -> Result<(), Memory> {
        if self.spent {
            return Err(Memory);
        }
        self.spent = true;
        self.halves.put(s)?;
        self.spent = false;
        Ok(())
    }

    fn moved(&mut self, s: Spot) -> Result<(), Memory> {
        if self.spent {
            return Err(Memory);
        }
        self.spent = true;
        self.halves.change(s)?;
        self.spent = false;
        Ok(())
    }

    fn remove(&mut self, actor: Guid, player: Option<Player>) -> Result<(), Memory> {
        if self.spent {
            return Err(Memory);
        }
        if has_player(player) {
            return Ok(());
        }
        self.spent = true;
        self.halves.take(actor)?;
        self.spent = false;
        Ok(())
    }

    fn gather(&self, viewer: Viewer, lists: &mut Lists) -> Result<(), Memory> {
        if self.spent {
            return Err(Memory);
        }
        let mut both = Lists::new(self.alloc);
        self.halves.share(viewer, &mut both)?;
        lists.append(&both)
    }
}
