// What a move of fates does to the records of the actors whose updates went in its packets.
ghost use Rattle.std.specs.Prelude.{◌≡◌, ◌≢◌, ◌≤◌, ◌⊎◌, ℕ, List, Some, filter, nat_lt, slice_get};
ghost use Rattle.change_model.specs.Changes.{Sample};
ghost use Rattle.connection_model.specs.Feed.{Past};
ghost use Rattle.sender_laws.specs.Acts.{MovesTo};
ghost use Rattle.sender_records.specs.Handles.{KeepsHandles};
ghost use Rattle.sender_steps.specs.Sender.{record_in, packet_in};
ghost use Rattle.sender_steps.specs.declared.sent.UpdateSent.{UpdateSent as UpdateValue};

use crate::sent::UpdateSent;
use net_core::Guid;
use sender_records::ActorRecord;
use std::collections::HashMap;

/// Tells each actor whose update went in a packet up to `to` that this one arrived, and that those
/// above `from` and below it are lost. An actor that isn't told keeps its record.
pub fn tell_updates(
    records: &mut HashMap<u32, ActorRecord>,
    updates: &[UpdateSent],
    from: u64,
    to: u64,
)
    ensures life { (a : ℕ) → (record_in records.new.entries a).life
        ≡ (record_in records.old.entries a).life }
    ensures service { (a : ℕ) → (record_in records.new.entries a).service
        ≡ (record_in records.old.entries a).service }
    ensures told { (past later : Past) (samples : List Sample) (a : ℕ) → MovesTo from to past later
        → KeepsHandles past samples a (record_in records.old.entries a).handles
        → KeepsHandles later samples a (record_in records.new.entries a).handles
        ⊎ ((record_in records.new.entries a ≡ record_in records.old.entries a)
        × ((i : ℕ) (u : UpdateValue) → slice_get updates.now i ≡ Some u → u.packet ≤ to
        → u.actor ≢ a)) }
    ensures packets { (a h : ℕ) → packet_in records.new.entries a h
        ≡ packet_in records.old.entries a h }
{
    for sent in updates {
        if sent.packet <= to {
            tell(records, sent.actor, from, to);
        }
    }
}

/// Tells one actor.
fn tell(records: &mut HashMap<u32, ActorRecord>, actor: Guid, from: u64, to: u64)
    ensures others { (a : ℕ) → actor ≢ a → record_in records.new.entries a
        ≡ record_in records.old.entries a }
    ensures life { (record_in records.new.entries actor).life
        ≡ (record_in records.old.entries actor).life }
    ensures service { (record_in records.new.entries actor).service
        ≡ (record_in records.old.entries actor).service }
    ensures told { (past later : Past) (samples : List Sample) → MovesTo from to past later
        → KeepsHandles past samples actor (record_in records.old.entries actor).handles
        → KeepsHandles later samples actor (record_in records.new.entries actor).handles }
    ensures again { (past later : Past) (samples : List Sample) → MovesTo from to past later
        → KeepsHandles later samples actor (record_in records.old.entries actor).handles
        → KeepsHandles later samples actor (record_in records.new.entries actor).handles }
    ensures packets { (h : ℕ) → packet_in records.new.entries actor h
        ≡ packet_in records.old.entries actor h }
{
    if let Some(record) = records.get_mut(&actor.0) {
        record.handles.moves(from, to);
    }
}

/// Drops the updates in packets up to `to`, which are known to have arrived or to be lost.
pub fn drop_known(updates: &mut Vec<UpdateSent>, to: u64)
    ensures { updates.new.items ≡ filter (λ u. nat_lt to u.packet) updates.old.items }
{
    updates.retain(|sent| sent.packet > to);
}
