// Actors that were destroyed.
ghost use Rattle.std.specs.Prelude.{◌≡◌, ◌++◌, ◌∷◌, [], ℕ, false, not, nat_le, OnOk};
ghost use Rattle.std.specs.List.{AllByRecursion, position};
ghost use Rattle.protocol_model.specs.Search.{insert_in_order};
ghost use Rattle.protocol_model.specs.Sight.{destroyed_of};
ghost use Rattle.protocol_model.specs.World.{Edits, class_at, class_of};
ghost use Rattle.connection_model.specs.Feed.{Past};
ghost use Rattle.connection_model.specs.State.{is_closed};
ghost use Rattle.class_layout.specs.Tables.{Layout, table_in};
ghost use Rattle.shadow_changes.specs.Samples.{Samples};
ghost use Rattle.sender_records.specs.Life.{state_value};
ghost use Rattle.sender_steps.specs.Sights.{sight_value};
ghost use Rattle.sender_steps.specs.Stands.{Keeps};
ghost use Rattle.sender_steps.specs.declared.sight.Seen.{Seen as SeenSpec};
ghost use Rattle.driver_laws.specs.Counted.{goes_before};
ghost use Rattle.driver_laws.specs.Given.{given_sight};
ghost use Rattle.driver_sights.specs.Graves.{AreGraves, IsGrave, is_left};
ghost use Rattle.driver_sights.specs.Looking.{IsMade};

use actor_sender::{ActorSender, ActorState, Seen};
use actor_sights::gone;
use net_core::{Guid, Memory};
use std::alloc::Global;

/// An actor that was destroyed, with its class, a place in the table counted from 0.
#[derive(Clone, Copy, Debug, PartialEq, Eq)]
pub struct Grave {
    pub actor: Guid,
    pub class: u16,
}

/// Appends a destroyed actor.
pub fn bury(graves: &mut Vec<Grave>, actor: Guid, class: u16) -> Result<(), Memory>
    ensures { OnOk result (graves.new.items
        ≡ graves.old.items ++ record { actor = actor; class = class } ∷ []) }
{
    graves.push(Grave { actor, class })?;
    Ok(())
}

/// Puts among the entries of a sight, in their places, those of the destroyed actors of which
/// something is left to close.
pub fn show_graves(
    alloc: Global,
    sight: &mut Vec<Seen>,
    sender: &ActorSender,
    graves: &[Grave],
) -> Result<(), Memory>
    ensures given { OnOk result ((layout : Layout) (edits : Edits) (player : ℕ) (past : Past)
        (kept : Samples) → Keeps sender.now past kept → AreGraves layout edits graves.now
        → sight_value layout sight.old.items
        ≡ given_sight (table_in layout) edits player past (λ a. false)
        → sight_value layout sight.new.items
        ≡ given_sight (table_in layout) edits player past (is_left graves.now past)) }
    ensures made { OnOk result ((layout : Layout) (edits : Edits)
        → AreGraves layout edits graves.now → AllByRecursion (IsMade layout) sight.old.items
        → AllByRecursion (IsMade layout) sight.new.items) }
{
    for grave in graves {
        if is_unclosed(sender.state(grave.actor)) {
            put_grave(alloc, sight, grave)?;
        }
    }
    Ok(())
}

/// Something is left to close of an actor whose channel stands so.
fn is_unclosed(state: ActorState) -> bool
    ensures { result ≡ not (is_closed (state_value state)) }
{
    match state {
        ActorState::None => false,
        ActorState::Opening | ActorState::Opened | ActorState::Closing | ActorState::Asleep => true,
    }
}

/// Puts the entry of a destroyed actor in its place.
fn put_grave(alloc: Global, sight: &mut Vec<Seen>, grave: &Grave) -> Result<(), Memory>
    ensures given { OnOk result ((layout : Layout) (edits : Edits)
        → IsGrave layout edits grave.now → sight_value layout sight.new.items
        ≡ insert_in_order goes_before (destroyed_of (table_in layout) edits grave.now.actor)
        (sight_value layout sight.old.items)) }
    ensures made { OnOk result ((layout : Layout) (edits : Edits)
        → IsGrave layout edits grave.now → AllByRecursion (IsMade layout) sight.old.items
        → AllByRecursion (IsMade layout) sight.new.items) }
{
    let i = match first_from(sight.as_slice(), grave.actor) {
        Some(i) => i,
        None => sight.len(),
    };
    match sight.insert(i, gone(alloc, grave.actor, grave.class)) {
        Ok(()) => Ok(()),
        Err(_) => Err(Memory),
    }
}

/// The first entry that isn't of a lower actor.
fn first_from(sight: &[Seen], actor: Guid) -> Option<usize>
    ensures { result ≡ position (λ (s : SeenSpec). nat_le actor s.actor) sight.now }
{
    sight.iter().position(|seen| seen.actor.0 >= actor.0)
}
