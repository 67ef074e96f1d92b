// What the arrival of bunches does to the actors with an open or a close under way.
ghost use Rattle.std.specs.Prelude.{◌≡◌, ◌≢◌, ◌⊎◌, [], ℕ, List, None};
ghost use Rattle.protocol_model.specs.Side.{AtServer};
ghost use Rattle.connection_model.specs.Feed.{Past};
ghost use Rattle.connection_model.specs.State.{is_open};
ghost use Rattle.channel_table.specs.Keeps.{Keeps as KeepsTable};
ghost use Rattle.sender_records.specs.Life.{KeepsLife, state_value};
ghost use Rattle.sender_steps.specs.Sender.{record_in};
ghost use Rattle.sender_steps.specs.Hearing.{Hearing, IsGrown, IsUnbound};

use crate::settled::is_clear;
use channel_table::ChannelTable;
use net_core::Guid;
use sender_records::{ActorRecord, Life};
use std::collections::HashMap;

/// Tells each of these actors what has arrived; one whose close has ended gives its channel up.
pub fn hear_all(records: &mut HashMap<u32, ActorRecord>, pending: &[Guid], table: &mut ChannelTable)
    ensures service { (a : ℕ) → (record_in records.new.entries a).service
        ≡ (record_in records.old.entries a).service }
    ensures handles { (a : ℕ) → (record_in records.new.entries a).handles
        ≡ (record_in records.old.entries a).handles }
    ensures same_open { (a : ℕ) → is_open (state_value (record_in records.new.entries a).life.state)
        ≡ is_open (state_value (record_in records.old.entries a).life.state) }
    ensures waiting { table.new.waiting ≡ table.old.waiting }
    ensures made { table.new.made ≡ table.old.made }
    ensures hears { (past later : Past) → IsGrown past later
        → Hearing past later pending.now records.old.entries table.old
        → Hearing past later [] records.new.entries table.new }
{
    for actor in pending {
        hear(records, *actor, table);
    }
}

/// Tells one actor.
fn hear(records: &mut HashMap<u32, ActorRecord>, actor: Guid, table: &mut ChannelTable)
    ensures others { (a : ℕ) → actor ≢ a → record_in records.new.entries a
        ≡ record_in records.old.entries a }
    ensures service { (record_in records.new.entries actor).service
        ≡ (record_in records.old.entries actor).service }
    ensures handles { (record_in records.new.entries actor).handles
        ≡ (record_in records.old.entries actor).handles }
    ensures same_open { is_open (state_value (record_in records.new.entries actor).life.state)
        ≡ is_open (state_value (record_in records.old.entries actor).life.state) }
    ensures index { ((record_in records.new.entries actor).life.index
        ≡ (record_in records.old.entries actor).life.index)
        ⊎ ((record_in records.new.entries actor).life.index ≡ None) }
    ensures table { IsUnbound (record_in records.old.entries actor).life.index
        (record_in records.new.entries actor).life.index table.old table.new }
    ensures keeps { (past later : Past) → IsGrown past later → KeepsTable table.old AtServer later
        → KeepsLife past actor (record_in records.old.entries actor).life
        → KeepsLife later actor (record_in records.new.entries actor).life }
{
    if let Some(record) = records.get_mut(&actor.0) {
        hear_life(&mut record.life, table);
    }
}

/// Tells the actor of this channel.
fn hear_life(life: &mut Life, table: &mut ChannelTable)
    ensures same_open { is_open (state_value life.new.state)
        ≡ is_open (state_value life.old.state) }
    ensures index { (life.new.index ≡ life.old.index) ⊎ (life.new.index ≡ None) }
    ensures table { IsUnbound life.old.index life.new.index table.old table.new }
    ensures keeps { (past later : Past) (actor : ℕ) → IsGrown past later
        → KeepsTable table.old AtServer later → KeepsLife past actor life.old
        → KeepsLife later actor life.new }
{
    let held = life.index;
    life.hears(is_clear(table, held));
    give_up(table, held, life.index);
}

/// Unbinds the channel that was held before and isn't after.
fn give_up(table: &mut ChannelTable, before: Option<u16>, after: Option<u16>)
    ensures { IsUnbound before after table.old table.new }
{
    match (before, after) {
        (Some(index), None) => table.unbind(index),
        _ => {}
    }
}
