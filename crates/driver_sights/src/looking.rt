// The sight of one player's end.
ghost use Rattle.std.specs.Prelude.{◌≡◌, ◌+◌, ◌*◌, ◌==◌, ◌&&◌, ◌||◌, ℕ, Bool, true, length, map, filter, IfOk, OnOk};
ghost use Rattle.std.specs.List.{AllByRecursion};
ghost use Rattle.protocol_model.specs.Search.{is_among};
ghost use Rattle.protocol_model.specs.Sight.{is_relevant, seen_of};
ghost use Rattle.protocol_model.specs.World.{Edits, actors_of};
ghost use Rattle.graph_model.specs.Listed.{listed_count};
ghost use Rattle.connection_model.specs.Feed.{Past};
ghost use Rattle.class_layout.specs.Tables.{table_in};
ghost use Rattle.rep_graph.specs.Graph.{Stands as StandsGraph};
ghost use Rattle.shadow_changes.specs.Samples.{Samples};
ghost use Rattle.sender_steps.specs.Sights.{seen_value, sight_value};
ghost use Rattle.driver_laws.specs.Given.{shown_as, given_sight};
ghost use Rattle.driver_sights.specs.Noted.{is_noted};
ghost use Rattle.driver_sights.specs.Graves.{AreGraves, is_left};
ghost use Rattle.driver_sights.specs.Looking.{IsLooking, IsMade, is_awake, AreRelevant, AreSteps, AreAmong};

use crate::graves::{Grave, show_graves};
use crate::noted::Noted;
use actor_sender::{ActorSender, Seen, Sight};
use actor_sights::{seen, seen_asleep};
use graph_model::relevant_actors_are_listed;
use net_core::{Guid, GuidList, Items, Memory, Player, Steps};
use rep_graph::RepGraph;
use shadow_changes::Shadows;
use std::alloc::Global;
use std::sync::ledger::Ledger;
use world_table::World;

/// What the sender of a player's end is handed in a tick.
pub fn sight_of<L: Ledger>(
    alloc: Global,
    world: &World<'_>,
    graph: &RepGraph,
    player: Player,
    sender: &ActorSender,
    graves: &[Grave],
    changes: &mut Shadows,
    noted: &mut Noted,
    steps: &mut Steps<L>,
) -> Result<Sight, Memory>
    requires looking { (edits : Edits) × (past : Past) × (kept : Samples) × (samples : Samples)
        × IsLooking world.now sender.now noted.old changes.old edits past kept samples
        × StandsGraph graph.now (table_in world.now.layout) edits
        × AreGraves world.now.layout edits graves.now }
    ensures given { IfOk result (λ sight. (edits : Edits) (past : Past) (kept samples : Samples)
        → IsLooking world.now sender.now noted.old changes.old edits past kept samples
        → StandsGraph graph.now (table_in world.now.layout) edits
        → AreGraves world.now.layout edits graves.now
        → sight_value world.now.layout sight
        ≡ given_sight (table_in world.now.layout) edits player past (is_left graves.now past)) }
    ensures made { IfOk result (λ sight. (edits : Edits) (past : Past) (kept samples : Samples)
        → IsLooking world.now sender.now noted.old changes.old edits past kept samples
        → StandsGraph graph.now (table_in world.now.layout) edits
        → AreGraves world.now.layout edits graves.now
        → AllByRecursion (IsMade world.now.layout) sight) }
    ensures looking { OnOk result ((edits : Edits) (past : Past) (kept samples : Samples)
        → IsLooking world.now sender.now noted.old changes.old edits past kept samples
        → StandsGraph graph.now (table_in world.now.layout) edits
        → IsLooking world.now sender.now noted.new changes.new edits past kept samples) }
    ensures noted { OnOk result ((edits : Edits) (past : Past) (kept samples : Samples)
        → IsLooking world.now sender.now noted.old changes.old edits past kept samples
        → StandsGraph graph.now (table_in world.now.layout) edits
        → (a : ℕ) → is_noted noted.new a
        ≡ (is_awake (table_in world.now.layout) edits player past a || is_noted noted.old a)) }
    ensures tick { noted.new.tick ≡ noted.old.tick }
    ensures steps_ok { OnOk result ((edits : Edits) (past : Past) (kept samples : Samples)
        → IsLooking world.now sender.now noted.old changes.old edits past kept samples
        → StandsGraph graph.now (table_in world.now.layout) edits
        → AreSteps (table_in world.now.layout) edits steps.old
        (2 * listed_count (table_in world.now.layout) edits player)
        (is_noted noted.old) (is_noted noted.new) steps.new) }
    ensures steps { (edits : Edits) (past : Past) (kept samples : Samples) (most : ℕ → Bool)
        → IsLooking world.now sender.now noted.old changes.old edits past kept samples
        → StandsGraph graph.now (table_in world.now.layout) edits
        → AreAmong (is_noted noted.old) most
        → AreAmong (is_awake (table_in world.now.layout) edits player past) most
        → AreSteps (table_in world.now.layout) edits steps.old
        (2 * listed_count (table_in world.now.layout) edits player)
        (is_noted noted.old) most steps.new }
{
    // Called for its fact alone: no more are relevant than are listed.
    relevant_actors_are_listed();
    let relevant = graph.gather(player, world, steps)?;
    let mut sight = relevant_sight(
        alloc, world, player, sender, &relevant, changes, noted, steps,
    )?;
    show_graves(alloc, &mut sight, sender, graves)?;
    Ok(Items::from_vec(sight))
}

/// The entries of actors that are relevant to the player.
fn relevant_sight<L: Ledger>(
    alloc: Global,
    world: &World<'_>,
    player: Player,
    sender: &ActorSender,
    relevant: &GuidList,
    changes: &mut Shadows,
    noted: &mut Noted,
    steps: &mut Steps<L>,
) -> Result<Vec<Seen>, Memory>
    requires looking { (edits : Edits) × (past : Past) × (kept : Samples) × (samples : Samples)
        × IsLooking world.now sender.now noted.old changes.old edits past kept samples
        × AreRelevant (table_in world.now.layout) edits player relevant.now }
    ensures given { IfOk result (λ sight. (edits : Edits) (past : Past) (kept samples : Samples)
        → IsLooking world.now sender.now noted.old changes.old edits past kept samples
        → AreRelevant (table_in world.now.layout) edits player relevant.now
        → sight_value world.now.layout sight.items
        ≡ map (λ a. shown_as past (seen_of (table_in world.now.layout) edits player a))
        relevant.now) }
    ensures made { IfOk result (λ sight. (edits : Edits) (past : Past) (kept samples : Samples)
        → IsLooking world.now sender.now noted.old changes.old edits past kept samples
        → AreRelevant (table_in world.now.layout) edits player relevant.now
        → AllByRecursion (IsMade world.now.layout) sight.items) }
    ensures looking { OnOk result ((edits : Edits) (past : Past) (kept samples : Samples)
        → IsLooking world.now sender.now noted.old changes.old edits past kept samples
        → AreRelevant (table_in world.now.layout) edits player relevant.now
        → IsLooking world.now sender.now noted.new changes.new edits past kept samples) }
    ensures noted { OnOk result ((edits : Edits) (past : Past) (kept samples : Samples)
        → IsLooking world.now sender.now noted.old changes.old edits past kept samples
        → AreRelevant (table_in world.now.layout) edits player relevant.now
        → (a : ℕ) → is_noted noted.new a
        ≡ (is_among a relevant.now && is_awake (table_in world.now.layout) edits player past a
        || is_noted noted.old a)) }
    ensures tick { noted.new.tick ≡ noted.old.tick }
    ensures steps_ok { OnOk result ((edits : Edits) (past : Past) (kept samples : Samples)
        → IsLooking world.now sender.now noted.old changes.old edits past kept samples
        → AreRelevant (table_in world.now.layout) edits player relevant.now
        → AreSteps (table_in world.now.layout) edits steps.old (length relevant.now)
        (is_noted noted.old) (is_noted noted.new) steps.new) }
    ensures steps { (edits : Edits) (past : Past) (kept samples : Samples) (most : ℕ → Bool)
        → IsLooking world.now sender.now noted.old changes.old edits past kept samples
        → AreRelevant (table_in world.now.layout) edits player relevant.now
        → AreAmong (is_noted noted.old) most
        → AreAmong (is_awake (table_in world.now.layout) edits player past) most
        → AreSteps (table_in world.now.layout) edits steps.old (length relevant.now)
        (is_noted noted.old) most steps.new }
{
    let mut sight = Vec::with_capacity(alloc, relevant.len())?;
    for actor in relevant.as_slice() {
        let entry = see(alloc, world, player, sender, *actor, changes, noted, steps)?;
        sight.push(entry)?;
    }
    Ok(sight)
}

/// The entry of an actor that is relevant to the player. It takes a step, and as many as the actor
/// has values where these weren't sampled yet.
fn see<L: Ledger>(
    alloc: Global,
    world: &World<'_>,
    player: Player,
    sender: &ActorSender,
    actor: Guid,
    changes: &mut Shadows,
    noted: &mut Noted,
    steps: &mut Steps<L>,
) -> Result<Seen, Memory>
    requires looking { (edits : Edits) × (past : Past) × (kept : Samples) × (samples : Samples)
        × IsLooking world.now sender.now noted.old changes.old edits past kept samples
        × (is_relevant (table_in world.now.layout) edits player actor ≡ true) }
    ensures given { IfOk result (λ entry. (edits : Edits) (past : Past) (kept samples : Samples)
        → IsLooking world.now sender.now noted.old changes.old edits past kept samples
        → is_relevant (table_in world.now.layout) edits player actor ≡ true
        → seen_value world.now.layout entry
        ≡ shown_as past (seen_of (table_in world.now.layout) edits player actor)) }
    ensures made { IfOk result (λ entry. (edits : Edits) (past : Past) (kept samples : Samples)
        → IsLooking world.now sender.now noted.old changes.old edits past kept samples
        → is_relevant (table_in world.now.layout) edits player actor ≡ true
        → IsMade world.now.layout entry) }
    ensures looking { OnOk result ((edits : Edits) (past : Past) (kept samples : Samples)
        → IsLooking world.now sender.now noted.old changes.old edits past kept samples
        → is_relevant (table_in world.now.layout) edits player actor ≡ true
        → IsLooking world.now sender.now noted.new changes.new edits past kept samples) }
    ensures noted { OnOk result ((edits : Edits) (past : Past) (kept samples : Samples)
        → IsLooking world.now sender.now noted.old changes.old edits past kept samples
        → is_relevant (table_in world.now.layout) edits player actor ≡ true
        → (a : ℕ) → is_noted noted.new a
        ≡ (actor == a && is_awake (table_in world.now.layout) edits player past a
        || is_noted noted.old a)) }
    ensures tick { noted.new.tick ≡ noted.old.tick }
    ensures steps_ok { OnOk result ((edits : Edits) (past : Past) (kept samples : Samples)
        → IsLooking world.now sender.now noted.old changes.old edits past kept samples
        → is_relevant (table_in world.now.layout) edits player actor ≡ true
        → AreSteps (table_in world.now.layout) edits steps.old 1
        (is_noted noted.old) (is_noted noted.new) steps.new) }
    ensures steps { (edits : Edits) (past : Past) (kept samples : Samples) (most : ℕ → Bool)
        → IsLooking world.now sender.now noted.old changes.old edits past kept samples
        → is_relevant (table_in world.now.layout) edits player actor ≡ true
        → AreAmong (is_noted noted.old) most
        → AreAmong (is_awake (table_in world.now.layout) edits player past) most
        → AreSteps (table_in world.now.layout) edits steps.old 1
        (is_noted noted.old) most steps.new }
{
    let Some(look) = world.look(actor, steps) else {
        return Err(Memory);
    };
    let classes = world.classes();
    // Called for its fact alone: no class has more values than a sample may.
    classes.keeps_rules();
    let Some(class) = classes.class(look.class) else {
        return Err(Memory);
    };
    if sender.quiet(actor, look.dormant, look.flush) {
        return Ok(seen_asleep(alloc, player, actor, &look));
    }
    noted.note(changes, world, actor, class, steps)?;
    let Some(values) = noted.values(actor) else {
        return Err(Memory);
    };
    let entry = seen(alloc, world, player, actor, &look, class, values.as_slice())?;
    Ok(entry)
}
