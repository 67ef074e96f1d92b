// The node of the actors that are given to teams.
ghost use Rattle.std.specs.Prelude.{◌≡◌, false, Some, None, is_some, OnOk};
ghost use Rattle.graph_nodes.specs.Held.{Spots, no_spots};
ghost use Rattle.graph_nodes.specs.Teams.{Teams, Keeps, Stands, no_teams, with_team, without_actor};

use crate::node::GraphNode;
use crate::spot::{Spot, Viewer, has_player};
use actor_lists::{Lists, Shelves};
use net_core::{Guid, Memory, Player};
use std::alloc::Global;
use std::collections::HashMap;
use std::marker::Model;

/// The team of each actor, and the actors of each team.
#[derive(Drop)]
struct Members {
    teams: HashMap<Guid, u8>,
    lists: Shelves<u8>,
}

impl Model for Members {
    ghost use Rattle.graph_nodes.specs.Teams.{Members as Seen};

    ghost Value = { Seen };

    ghost view = { λ m. record { teams = m.teams.entries; lists = m.lists } };
}

impl Members {
    /// No actors; later calls grow the lists in this allocator.
    fn new(alloc: Global) -> Members
        ensures { Keeps result no_teams }
    {
        Members {
            teams: HashMap::new(alloc),
            lists: Shelves::new(alloc),
        }
    }

    /// The actor has a team.
    fn has(&self, actor: Guid) -> bool
        ensures { (teams : Teams) → Keeps self.now teams → result ≡ is_some (teams actor) }
    {
        self.teams.contains_key(&actor)
    }

    /// Puts an actor that has no team into one.
    fn enter(&mut self, actor: Guid, team: u8) -> Result<(), Memory>
        ensures { OnOk result ((teams : Teams) → Keeps self.old teams → teams actor ≡ None
            → Keeps self.new (with_team teams actor team)) }
    {
        self.lists.add(team, actor)?;
        self.teams.insert(actor, team)?;
        Ok(())
    }

    /// Takes an actor out of its team.
    fn leave(&mut self, actor: Guid) -> Result<(), Memory>
        ensures { OnOk result ((teams : Teams) → Keeps self.old teams
            → Keeps self.new (without_actor teams actor)) }
    {
        if let Some(team) = self.teams.remove(&actor) {
            self.lists.take(team, actor)?;
        }
        Ok(())
    }

    /// Puts an actor into a team, out of the one that it has.
    fn change(&mut self, actor: Guid, team: u8) -> Result<(), Memory>
        ensures { OnOk result ((teams : Teams) → Keeps self.old teams
            → Keeps self.new (with_team teams actor team)) }
    {
        if self.teams.get(&actor).copied() == Some(team) {
            return Ok(());
        }
        self.leave(actor)?;
        self.enter(actor, team)
    }
}

/// Actors of reach `Near` or `Always` that are given to a team, awake or asleep. Each team has a
/// list.
#[derive(Drop)]
pub struct TeamNode {
    members: Members,
    spent: bool,
}

impl Model for TeamNode {
    ghost use Rattle.graph_nodes.specs.Teams.{Kept};

    ghost Value = { Kept };

    ghost view = { λ n. record { members = n.members; spent = n.spent } };
}

impl TeamNode {
    /// A node without spots; later calls grow it in this allocator.
    pub fn new(alloc: Global) -> TeamNode
        ensures stands { Stands result no_spots }
        ensures spent { result.spent ≡ false }
    {
        TeamNode {
            members: Members::new(alloc),
            spent: false,
        }
    }

    /// The node has a spot of the actor.
    pub fn holds(&self, actor: Guid) -> bool
        ensures { (spots : Spots) → Stands self.now spots → result ≡ is_some (spots actor 0) }
    {
        self.members.has(actor)
    }
}

impl GraphNode for TeamNode {
    ghost use Rattle.std.specs.Prelude.{◌==◌, [], nat_eq, if◌then◌else◌};
    ghost use Rattle.graph_model.specs.Nodes.{TeamNode as row_of};
    ghost use Rattle.actor_lists.specs.Shared.{list_at};
    ghost use Rattle.graph_nodes.specs.Teams.{Stands as stands_for};

    ghost row = { λ n. row_of };

    ghost stands = { stands_for };

    ghost given = { λ n v. if v.team == 0 then [] else list_at nat_eq n.members.lists v.team };

    ghost is_spent = { λ n. n.spent };

    fn place(&mut self, s: Spot) -> Result<(), Memory> {
        if self.spent {
            return Err(Memory);
        }
        self.spent = true;
        self.members.enter(s.actor, s.team)?;
        self.spent = false;
        Ok(())
    }

    fn moved(&mut self, s: Spot) -> Result<(), Memory> {
        if self.spent {
            return Err(Memory);
        }
        self.spent = true;
        self.members.change(s.actor, s.team)?;
        self.spent = false;
        Ok(())
    }

    fn remove(&mut self, actor: Guid, player: Option<Player>) -> Result<(), Memory> {
        if self.spent {
            return Err(Memory);
        }
        if has_player(player) {
            return Ok(());
        }
        self.spent = true;
        self.members.leave(actor)?;
        self.spent = false;
        Ok(())
    }

    fn gather(&self, viewer: Viewer, lists: &mut Lists) -> Result<(), Memory> {
        if self.spent {
            return Err(Memory);
        }
        if viewer.team == 0 {
            return Ok(());
        }
        self.members.lists.share(viewer.team, lists)
    }
}
