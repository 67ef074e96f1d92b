// The copies of a player's client, as they are told.
ghost use Rattle.std.specs.Prelude.{◌≡◌, ◌∷◌, [], ◌++◌, map, OnOk};
ghost use Rattle.replication_model.specs.Story.{Player as PlayerStory, copies_reports};
ghost use Rattle.class_layout.specs.Tables.{Layout, table_in};
ghost use Rattle.actor_copies.specs.Copies.{copy_value_of};
ghost use Rattle.replay_places.specs.Places.{IsClient};
ghost use Rattle.replay_places.specs.Doing.{Adds, copied_report};

use actor_copies::ActorCopy;
use client_world::Client;
use net_core::{Memory, Player};
use script_lines::{Event, EventList};
use std::alloc::Global;

/// Tells the copies of a player's client, ascending by actor.
pub fn tell_copies(
    alloc: Global,
    client: &Client<'_>,
    player: Player,
    events: &mut EventList,
) -> Result<(), Memory>
    ensures { OnOk result ((layout : Layout) (p : PlayerStory)
        → IsClient layout client.now player p
        → Adds (table_in layout) events.old events.new (copies_reports (table_in layout) p)) }
{
    let copies = client.copies();
    events.push(Event::Copies {
        player,
        count: copies.len(),
    })?;
    for copy in copies.in_order()? {
        tell_copy(alloc, player, copy, events)?;
    }
    Ok(())
}

/// Tells a copy.
fn tell_copy(
    alloc: Global,
    player: Player,
    copy: &ActorCopy,
    events: &mut EventList,
) -> Result<(), Memory>
    ensures { OnOk result ((layout : Layout) → Adds (table_in layout) events.old events.new
        (copied_report player (copy_value_of layout copy.now) ∷ [])) }
{
    let values = copy.values.copied(alloc)?;
    events.push(Event::Copied {
        player,
        actor: copy.actor,
        class: copy.class,
        channel: copy.channel,
        values,
    })
}
