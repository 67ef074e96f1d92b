// Whether an actor is settled for a player.
ghost use Rattle.std.specs.Prelude.{◌≡◌, ◌⊎◌, ◌<◌, ◌&&◌, true, Some, IfOk, IsErr};
ghost use Rattle.protocol_model.specs.Sight.{is_relevant, seen_of};
ghost use Rattle.protocol_model.specs.World.{Edits};
ghost use Rattle.connection_model.specs.Feed.{Past};
ghost use Rattle.connection_model.specs.Settled.{is_settled_as};
ghost use Rattle.class_layout.specs.Tables.{table_in};
ghost use Rattle.world_table.specs.Stands.{Stands as StandsWorld};
ghost use Rattle.shadow_changes.specs.Samples.{Samples};
ghost use Rattle.sender_steps.specs.Stands.{StandsBoth};
ghost use Rattle.net_driver.specs.Served.{Served, Seat, seat_of, has_joined, settled_for};
ghost use Rattle.net_driver.specs.Serves.{Serves, IsSpent};

use super::Driver;
use crate::chair::key_of;
use actor_sights::{sampled, seen};
use net_core::{Guid, Memory, Player, Steps};
use rep_graph::RepGraph;
use server_end::ServerEnd;
use std::alloc::Global;
use std::marker::Brand;
use std::sync::ledger::{Blank, Ledger};
use world_table::World;

impl<'a> Driver<'a> {
    /// Nothing of the actor is left to send to a player who joined, and all that was sent has
    /// arrived: of a settled actor the client has a copy as the player sees it. Never at an end that
    /// is dead. `Memory` changes nothing; it also comes of a spent driver.
    pub fn settled(&self, player: Player, actor: Guid) -> Result<bool, Memory>
        requires stands { IsSpent self.now ⊎ ((s : Served) × Serves self.now s
            × (has_joined s player ≡ true)) }
        ensures settled { IfOk result (λ settled. (s : Served) (seat : Seat) → Serves self.now s
            → seat_of s player ≡ Some seat
            → settled ≡ settled_for (table_in self.now.layout) s.edits seat actor) }
        ensures after { IsSpent self.now → IsErr result }
    {
        if self.spent {
            return Err(Memory);
        }
        let Some(key) = key_of(self.chairs.as_slice(), player) else {
            return Ok(false);
        };
        match self.ends.get(key) {
            Some(end) => settled_at::<Brand>(self.alloc, &self.world, end, actor, Blank::new(1)),
            None => Err(Memory),
        }
    }
}

/// The actor is relevant to the player of an end, and settled there as the player sees it now.
fn settled_at<L: Ledger>(
    alloc: Global,
    world: &World<'_>,
    end: &ServerEnd,
    actor: Guid,
    blank: Blank,
) -> Result<bool, Memory>
    requires name { blank.name ≡ L.name }
    requires parts { blank.parts ≡ L.parts }
    requires some { 0 < L.parts }
    ensures { IfOk result (λ settled. (edits : Edits) (past : Past) (samples : Samples)
        → StandsWorld world.now edits → StandsBoth end.now.sender end.now.table past samples
        → settled ≡ (is_relevant (table_in world.now.layout) edits end.now.player actor
        && is_settled_as past
        (seen_of (table_in world.now.layout) edits end.now.player actor))) }
{
    let mut steps = Steps::<L>::new(blank);
    if RepGraph::is_relevant(end.player, actor, world, &mut steps) {
        let settled = settled_as_seen(alloc, world, end, actor, &mut steps)?;
        return Ok(settled);
    }
    Ok(false)
}

/// A relevant actor is settled as the player of an end sees it now.
fn settled_as_seen<L: Ledger>(
    alloc: Global,
    world: &World<'_>,
    end: &ServerEnd,
    actor: Guid,
    steps: &mut Steps<L>,
) -> Result<bool, Memory>
    ensures { IfOk result (λ settled. (edits : Edits) (past : Past) (samples : Samples)
        → StandsWorld world.now edits → StandsBoth end.now.sender end.now.table past samples
        → settled ≡ is_settled_as past
        (seen_of (table_in world.now.layout) edits end.now.player actor)) }
{
    let Some(look) = world.look(actor, steps) else {
        return Err(Memory);
    };
    let classes = world.classes();
    classes.keeps_rules();
    let Some(class) = classes.class(look.class) else {
        return Err(Memory);
    };
    let values = sampled(alloc, world, actor, class, steps)?;
    let player = end.player;
    let entry = seen(alloc, world, player, actor, &look, class, values.as_slice())?;
    let settled = end.sender.settled(&entry, &end.table, classes);
    Ok(settled)
}
