// Actors that were destroyed and of which nothing is left.
ghost use Rattle.std.specs.Prelude.{◌≡◌, ℕ, List, filter};
ghost use Rattle.protocol_model.specs.Value.{Table};
ghost use Rattle.protocol_model.specs.World.{Edits};
ghost use Rattle.connection_model.specs.State.{is_closed as is_closed_state};
ghost use Rattle.shadow_changes.specs.Samples.{Samples};
ghost use Rattle.sender_records.specs.Life.{state_value};
ghost use Rattle.driver_sights.specs.declared.graves.Grave.{Grave as GraveSpec};
ghost use Rattle.net_driver.specs.Served.{Served, Seat};
ghost use Rattle.net_driver.specs.Serves.{Serves, IsSeated, AreSeated};
ghost use Rattle.net_driver.specs.Sights.{TellsLeft, is_open_for, is_left_for};

use super::Driver;
use crate::chair::{Chair, living};
use actor_sender::ActorState;
use driver_sights::Grave;
use net_core::Guid;
use server_end::ServerEnd;
use slab::Slab;

impl<'a> Driver<'a> {
    /// Drops the graves of actors of which nothing is left to close at any end.
    pub(crate) fn forget_closed(&mut self)
        ensures serves { (s : Served) → Serves self.old s → Serves self.new s }
        ensures layout { self.new.layout ≡ self.old.layout }
    {
        retain_left(&mut self.graves, self.chairs.as_slice(), &self.ends);
    }
}

/// Keeps the graves of actors of which something is left to close at a living end.
fn retain_left(graves: &mut Vec<Grave>, chairs: &[Chair], ends: &Slab<ServerEnd>)
    ensures { (table : Table) (edits : Edits) (samples : Samples) (greatest : ℕ) (seats : List Seat)
        → AreSeated table edits samples greatest ends.now.slots chairs.now seats
        → graves.new.items
        ≡ filter (λ (g : GraveSpec). is_left_for table seats g.actor) graves.old.items }
{
    graves.retain(
        |grave|
            ensures { TellsLeft ends.entry.now.slots chairs.entry.now grave.now.actor result }
        { is_left(chairs, ends, grave.actor) },
    );
}

/// Something of the actor is left to close at an end that is alive.
fn is_left(chairs: &[Chair], ends: &Slab<ServerEnd>, actor: Guid) -> bool
    ensures { TellsLeft ends.now.slots chairs.now actor result }
{
    for chair in chairs {
        if is_left_at(chair, ends, actor) {
            return true;
        }
    }
    false
}

/// Something of the actor is left to close at the end of a player, which is alive.
fn is_left_at(chair: &Chair, ends: &Slab<ServerEnd>, actor: Guid) -> bool
    ensures { (table : Table) (edits : Edits) (samples : Samples) (greatest : ℕ) (seat : Seat)
        → IsSeated table edits samples greatest ends.now.slots chair.now seat
        → result ≡ is_open_for table actor seat }
{
    let Some(key) = living(chair.place) else {
        return false;
    };
    let Some(end) = ends.get(key) else {
        return false;
    };
    !is_closed(end.sender.state(actor))
}

/// The state is `None`: nothing is left to close.
fn is_closed(state: ActorState) -> bool
    ensures { result ≡ is_closed_state (state_value state) }
{
    matches!(state, ActorState::None)
}
