// The five nodes, and what an edit does to them.
ghost use Rattle.std.specs.Prelude.{◌≡◌, ◌+◌, ◌<◌, ◌^◌, ◌∷◌, ◌++◌, [], ℕ, true, filter, is_some, IfSome, IfOk, OnOk};
ghost use Rattle.protocol_model.specs.Value.{Table};
ghost use Rattle.protocol_model.specs.World.{Edits, actors_of};
ghost use Rattle.graph_model.specs.Nodes.{viewer_at};
ghost use Rattle.graph_model.specs.Listed.{is_listed};
ghost use Rattle.graph_nodes.specs.Any.{Stands as NodeStands, row_of as row_of_node, given_by};
ghost use Rattle.graph_nodes.specs.Gathers.{Gathers};
ghost use Rattle.graph_nodes.specs.Held.{Spots, is_bounded, viewer_in};
ghost use Rattle.class_layout.specs.Tables.{table_in};
ghost use Rattle.world_table.specs.Answers.{edit_of};
ghost use Rattle.rep_graph.specs.Standings.{row_of, spot_by, last_of};
ghost use Rattle.rep_graph.specs.Graph.{HoldFour, Keeps, IsTurn};
ghost use Rattle.rep_graph.specs.Turns.{Differs, with_pair_spot};

use crate::pairs::renew_pairs;
use crate::shift::{is_given, shift};
use crate::standing::{Row, Standing, living, look_at, spot_of_row, subject};
use graph_nodes::{
    AlwaysNode, AnyNode, DormantNode, GraphNode, GridNode, Lists, PlayerNode, TeamNode, Viewer,
};
use net_core::{Guid, GuidList, Memory};
use std::alloc::Global;
use world_table::{Edit, Look, World};

/// A node of each row, and the guid of the actor that was spawned last, 0 for none.
#[derive(Drop)]
pub(crate) struct Nodes {
    pub grid: AnyNode,
    pub always: AnyNode,
    pub players: AnyNode,
    pub dormant: AnyNode,
    pub teams: AnyNode,
    pub last: u32,
}

impl Nodes {
    /// Nodes without spots; later calls grow them in this allocator.
    pub fn new(alloc: Global) -> Nodes
        ensures { (table : Table) → Keeps result table [] }
    {
        Nodes {
            grid: AnyNode::Grid(GridNode::new(alloc)),
            always: AnyNode::Always(AlwaysNode::new(alloc)),
            players: AnyNode::Player(PlayerNode::new(alloc)),
            dormant: AnyNode::Dormant(DormantNode::new(alloc)),
            teams: AnyNode::Team(TeamNode::new(alloc)),
            last: 0,
        }
    }

    /// Goes along with an edit that the world took.
    pub fn turn(&mut self, e: &Edit, before: &Option<Look>, world: &World<'_>) -> Result<(), Memory>
        ensures { OnOk result ((edits : Edits) → IsTurn self.old world.now e.now before.now edits
            → Keeps self.new (table_in world.now.layout) (edit_of e.now ∷ edits)) }
    {
        let next = next_guid(self.last);
        let Some(actor) = subject(e, next) else {
            return Ok(());
        };
        let after = look_at(world, actor);
        let stood = living(world.classes(), before);
        let stands = living(world.classes(), &after);
        self.renew_spots(actor, &stood, &stands, world.given(actor))?;
        renew_pairs(&mut self.players, world, e, actor, before, &after)?;
        self.last = last_after(e, self.last, next);
        Ok(())
    }

    /// The actors that the nodes list for a viewer, ascending.
    pub fn listed(&self, alloc: Global, viewer: &Viewer) -> Result<GuidList, Memory>
        ensures { IfOk result (λ actors. (table : Table) (edits : Edits) (player : ℕ)
            → Keeps self.now table edits → viewer_in viewer.now ≡ viewer_at edits player
            → actors ≡ filter (is_listed table edits player) (actors_of edits)) }
    {
        let mut lists = Lists::new(alloc);
        gather_from(&self.grid, viewer, &mut lists)?;
        gather_from(&self.always, viewer, &mut lists)?;
        gather_from(&self.players, viewer, &mut lists)?;
        gather_from(&self.dormant, viewer, &mut lists)?;
        gather_from(&self.teams, viewer, &mut lists)?;
        let actors = lists.actors()?;
        Ok(actors)
    }

    /// Puts an actor's spots in place of those that it had, in the four nodes whose spots have no
    /// player.
    fn renew_spots(
        &mut self,
        actor: Guid,
        before: &Option<Standing>,
        after: &Option<Standing>,
        team: u8,
    ) -> Result<(), Memory>
        ensures four { OnOk result ((table : Table) (edits later : Edits)
            → Differs table edits later actor before.now after.now team
            → HoldFour self.old table edits → HoldFour self.new table later) }
        ensures players { self.new.players ≡ self.old.players }
        ensures last { self.new.last ≡ self.old.last }
    {
        renew(&mut self.grid, Row::Grid, actor, before, after, team)?;
        renew(&mut self.always, Row::Always, actor, before, after, team)?;
        renew(&mut self.dormant, Row::Dormant, actor, before, after, team)?;
        let was = is_given(&self.teams, actor);
        let spot = spot_of_row(Row::Team, actor, after, team);
        shift(&mut self.teams, actor, None, was, spot)?;
        Ok(())
    }
}

/// Appends what a node gives to a viewer.
fn gather_from(node: &AnyNode, viewer: &Viewer, lists: &mut Lists) -> Result<(), Memory>
    ensures given { OnOk result (lists.new
        ≡ lists.old ++ given_by node.now (viewer_in viewer.now)) }
    ensures gathers { (spots : Spots) → NodeStands node.now spots
        → Gathers (row_of_node node.now) spots (viewer_in viewer.now)
        (given_by node.now (viewer_in viewer.now)) }
{
    node.gather(*viewer, lists)
}

/// The guid after that of the last actor.
fn next_guid(last: u32) -> Guid
    ensures { last + 2 < 2 ^ 32 → result ≡ last + 2 }
{
    Guid(last.saturating_add(2))
}

/// The guid of the actor that was spawned last, after the edit.
fn last_after(e: &Edit, last: u32, next: Guid) -> u32
    ensures { result ≡ last_of last next e.now }
{
    match e {
        Edit::Spawn { .. } => next.0,
        _ => last,
    }
}

/// Puts an actor's spot in place of the one that it had, in a node of this row.
fn renew(
    node: &mut AnyNode,
    row: Row,
    actor: Guid,
    before: &Option<Standing>,
    after: &Option<Standing>,
    team: u8,
) -> Result<(), Memory>
    ensures row { row_of_node node.new ≡ row_of_node node.old }
    ensures spots { OnOk result ((spots : Spots) → NodeStands node.old spots
        → row_of_node node.old ≡ row_of row
        → is_some (spots actor 0) ≡ is_some (spot_by (row_of row) actor before.now team)
        → IfSome after.now (λ s. is_bounded s.reach ≡ true)
        → NodeStands node.new
        (with_pair_spot spots actor 0 (spot_by (row_of row) actor after.now team))) }
{
    let was = spot_of_row(row, actor, before, team).is_some();
    let spot = spot_of_row(row, actor, after, team);
    shift(node, actor, None, was, spot)?;
    Ok(())
}
