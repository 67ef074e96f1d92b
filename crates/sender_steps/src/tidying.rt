// What a tick forgets before it makes anything.
ghost use Rattle.std.specs.Prelude.{◌≡◌, not, filter};
ghost use Rattle.connection_model.specs.State.{is_closed};
ghost use Rattle.sender_laws.specs.States.{is_pending};
ghost use Rattle.sender_records.specs.Life.{state_value};
ghost use Rattle.sender_steps.specs.Sender.{record_in};

use net_core::Guid;
use sender_records::{ActorRecord, ActorState};
use std::collections::HashMap;

/// Drops the actors that have no open or close under way any more, and from those that are live the
/// ones whose channel is closed.
pub fn tidy(records: &HashMap<u32, ActorRecord>, pending: &mut Vec<Guid>, live: &mut Vec<Guid>)
    ensures pending { pending.new.items
        ≡ filter (λ a. is_pending (state_value (record_in records.now.entries a).life.state))
        pending.old.items }
    ensures live { live.new.items
        ≡ filter (λ a. not (is_closed (state_value (record_in records.now.entries a).life.state)))
        live.old.items }
{
    pending.retain(|actor| state_in(records, *actor).is_pending());
    live.retain(|actor| state_in(records, *actor) != ActorState::None);
}

/// Where the channel of an actor stands, by these records.
fn state_in(records: &HashMap<u32, ActorRecord>, actor: Guid) -> ActorState
    ensures { state_value result
        ≡ state_value (record_in records.now.entries actor).life.state }
{
    match records.get(&actor.0) {
        Some(record) => record.life.state,
        None => ActorState::None,
    }
}
