// The graph: its five nodes, and what it gathers.
ghost use Rattle.std.specs.Prelude.{◌≡◌, ◌+◌, ◌≤◌, ◌∷◌, [], true, false, is_err, is_some, filter, slice_get, Some, IfOk, IfSome, IsErr, OnOk};
ghost use Rattle.graph_model.specs.Nodes.{Node};
ghost use Rattle.protocol_model.specs.Value.{Table};
ghost use Rattle.protocol_model.specs.Sight.{is_relevant};
ghost use Rattle.protocol_model.specs.World.{Edits, actors_of};
ghost use Rattle.graph_model.specs.Listed.{listed_count};
ghost use Rattle.class_layout.specs.Tables.{table_in};
ghost use Rattle.world_table.specs.Answers.{edit_of};
ghost use Rattle.world_table.specs.Stands.{Stands as WorldStands};
ghost use Rattle.rep_graph.specs.Spots.{rows};
ghost use Rattle.rep_graph.specs.Graph.{Stands, Holds, IsTurn};

use crate::gathering::{is_relevant, relevant_of, viewer_of};
use crate::nodes::Nodes;
use graph_model::relevant_actors_are_listed;
use graph_nodes::AnyNode;
use net_core::{Guid, GuidList, Memory, Player, Steps};
use std::alloc::Global;
use std::marker::Model;
use std::sync::ledger::Ledger;
use world_table::{Edit, Look, World};

/// The nodes of a server's Replication Graph.
///
/// After `Memory` of `apply` it is spent: `apply` and `gather` answer `Memory` from then on.
#[derive(Drop)]
pub struct RepGraph {
    alloc: Global,
    nodes: Nodes,
    spent: bool,
}

impl Model for RepGraph {
    ghost use Rattle.rep_graph.specs.Graph.{Graph};

    ghost Value = { Graph };

    ghost view = { λ g. record { nodes = g.nodes; spent = g.spent } };
}

impl RepGraph {
    /// The graph of an empty world; later calls grow it in this allocator.
    pub fn new(alloc: Global) -> Result<RepGraph, Memory>
        ensures stands { IfOk result (λ g. (table : Table) → Stands g table []) }
        ensures spent { IfOk result (λ g. g.spent ≡ false) }
    {
        Ok(RepGraph {
            alloc,
            nodes: Nodes::new(alloc),
            spent: false,
        })
    }

    /// Goes along with an edit that the world took: `world` is the one after it, and `before` is
    /// the look that the actor named by the edit had before it, `None` where it names none.
    pub fn apply(&mut self, e: Edit, before: Option<Look>, world: &World<'_>) -> Result<(), Memory>
        ensures stands { OnOk result ((edits : Edits)
            → IsTurn self.old.nodes world.now e before edits
            → Stands self.new (table_in world.now.layout) (edit_of e ∷ edits)) }
        ensures spent { self.new.spent ≡ is_err result }
        ensures dead { self.old.spent ≡ true → IsErr result }
    {
        if self.spent {
            return Err(Memory);
        }
        self.spent = true;
        self.nodes.turn(&e, &before, world)?;
        self.spent = false;
        Ok(())
    }

    /// The actor is relevant to a player in this world. It takes one step, and asks no node.
    pub fn is_relevant<L: Ledger>(
        player: Player,
        actor: Guid,
        world: &World<'_>,
        steps: &mut Steps<L>,
    ) -> bool
        ensures relevant { (edits : Edits) → WorldStands world.now edits
            → result ≡ is_relevant (table_in world.now.layout) edits player actor }
        ensures step { steps.new ≡ steps.old + 1 }
    {
        let viewer = viewer_of(player, world);
        is_relevant(world, &viewer, actor, steps)
    }

    /// The actors that are relevant to a player in the world for which the graph stands, ascending.
    /// It looks at no more actors than the nodes list for the player, each once.
    pub fn gather<L: Ledger>(
        &self,
        player: Player,
        world: &World<'_>,
        steps: &mut Steps<L>,
    ) -> Result<GuidList, Memory>
        ensures relevant { IfOk result (λ actors. (edits : Edits)
            → Stands self.now (table_in world.now.layout) edits → WorldStands world.now edits
            → actors
            ≡ filter (is_relevant (table_in world.now.layout) edits player) (actors_of edits)) }
        ensures steps { (edits : Edits) → Stands self.now (table_in world.now.layout) edits
            → WorldStands world.now edits
            → steps.new ≤ steps.old + listed_count (table_in world.now.layout) edits player }
        ensures dead { self.now.spent ≡ true → IsErr result }
    {
        if self.spent {
            return Err(Memory);
        }
        // Called for its fact alone: whoever is relevant is listed, so none is missed.
        relevant_actors_are_listed();
        let viewer = viewer_of(player, world);
        let listed = self.nodes.listed(self.alloc, &viewer)?;
        let relevant = relevant_of(self.alloc, world, &viewer, &listed, steps)?;
        Ok(relevant)
    }

    /// The node of a row of the table of nodes, counted from 0: the grid, the node of those
    /// relevant to all, the players' node, the dormant node, the teams' node. `None` exactly past
    /// the last.
    pub fn node(&self, i: usize) -> Option<&AnyNode>
        ensures holds { (table : Table) (edits : Edits) (row : Node) → Stands self.now table edits
            → slice_get rows i ≡ Some row → IfSome result (λ node. Holds row node.now table edits) }
        ensures past { is_some result ≡ is_some (slice_get rows i) }
    {
        match i {
            0 => Some(&self.nodes.grid),
            1 => Some(&self.nodes.always),
            2 => Some(&self.nodes.players),
            3 => Some(&self.nodes.dormant),
            4 => Some(&self.nodes.teams),
            _ => None,
        }
    }
}
