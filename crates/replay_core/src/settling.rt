// How many pairs of a player and an actor are settled.
ghost use Rattle.std.specs.Prelude.{◌≡◌, ◌≤◌, ◌<◌, ◌*◌, ℕ, List, sum_by, IfOk};
ghost use Rattle.protocol_model.specs.Limits.{spawn_limit};
ghost use Rattle.protocol_model.specs.World.{Edits, spawn_count};
ghost use Rattle.replication_model.specs.Story.{Player as PlayerStory};
ghost use Rattle.class_layout.specs.Tables.{Layout, table_in};
ghost use Rattle.replay_core.specs.Stands.{Serving, ArePlaces, Ascend};
ghost use Rattle.replay_core.specs.Lines.{IsAt};
ghost use Rattle.replay_core.specs.Settled.{settled_for};

use net_core::{Guid, Memory, Player, Steps};
use net_driver::Driver;
use protocol_model::limits::SPAWN_LIMIT;
use replay_places::Place;
use std::sync::ledger::{Blank, Ledger};

/// How many actors were ever spawned; `Memory` where there are more than a world has.
pub(crate) fn spawned<L: Ledger>(driver: &Driver<'_>, blank: Blank) -> Result<u32, Memory>
    requires name { blank.name ≡ L.name }
    requires parts { blank.parts ≡ L.parts }
    requires some { 0 < L.parts }
    ensures count { IfOk result (λ count. (layout : Layout) (edits : Edits)
        (players : List PlayerStory) → Serving layout driver.now edits players
        → count ≡ spawn_count edits) }
    ensures most { IfOk result (λ count. count ≤ spawn_limit) }
{
    let world = driver.world();
    let mut steps = Steps::<L>::new(blank);
    for count in 0..SPAWN_LIMIT as u32 + 1 {
        if world.look(Guid(2 * (count + 1)), &mut steps).is_none() {
            return Ok(count);
        }
    }
    Err(Memory)
}

/// How many pairs are settled, of each player and each actor that was spawned.
pub(crate) fn settled_pairs(
    driver: &Driver<'_>,
    places: &[Place<'_>],
    spawned: u32,
) -> Result<u32, Memory>
    requires most { spawned ≤ spawn_limit }
    requires there { (layout : Layout) × (edits : Edits) × (players : List PlayerStory)
        × Serving layout driver.now edits players × Ascend 0 players
        × ArePlaces layout places.now players × (spawned ≡ spawn_count edits) }
    ensures { IfOk result (λ count. (layout : Layout) (edits : Edits) (players : List PlayerStory)
        → Serving layout driver.now edits players → Ascend 0 players
        → ArePlaces layout places.now players → spawned ≡ spawn_count edits
        → count ≡ sum_by (settled_for (table_in layout) edits) players) }
{
    let mut count = 0;
    for place in places {
        count += settled_for(driver, place.player, spawned)?;
    }
    Ok(count)
}

/// How many actors are settled for a player.
fn settled_for(driver: &Driver<'_>, player: Player, spawned: u32) -> Result<u32, Memory>
    requires most { spawned ≤ spawn_limit }
    requires there { (layout : Layout) × (edits : Edits) × (players : List PlayerStory) × (i : ℕ)
        × (p : PlayerStory) × Serving layout driver.now edits players × IsAt players i p
        × (player ≡ p.number) }
    ensures count { IfOk result (λ count. (layout : Layout) (edits : Edits)
        (players : List PlayerStory) (i : ℕ) (p : PlayerStory)
        → Serving layout driver.now edits players → IsAt players i p → player ≡ p.number
        → spawned ≡ spawn_count edits → count ≡ settled_for (table_in layout) edits p) }
    ensures most { IfOk result (λ count. count ≤ spawned) }
{
    let mut count = 0;
    for before in 0..spawned {
        let holds = driver.settled(player, Guid(2 * (before + 1)))?;
        count += holds as u32;
    }
    Ok(count)
}
