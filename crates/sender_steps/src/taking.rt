// What a tick takes in before it makes anything: what the client knows by now, and the sight.
ghost use Rattle.std.specs.Prelude.{◌≡◌, ◌≢◌, ◌+◌, ◌<◌, ◌∷◌, ◌||◌, ℕ, List, length, true, false, not, slice_index_or, OnOk};
ghost use Rattle.std.specs.List.{list_any};
ghost use Rattle.protocol_model.specs.Search.{is_among};
ghost use Rattle.protocol_model.specs.Side.{Side, AtServer};
ghost use Rattle.protocol_model.specs.Sight.{Seen as SeenSpec};
ghost use Rattle.connection_model.specs.Feed.{Past, Deed, tick_count, is_relevant_in};
ghost use Rattle.connection_model.specs.Bunches.{has_arrived as has_arrived_in};
ghost use Rattle.connection_laws.specs.Run.{Ascends};
ghost use Rattle.channel_table.specs.Keeps.{Keeps as KeepsTable};
ghost use Rattle.class_layout.specs.Tables.{Layout};
ghost use Rattle.sender_records.specs.Service.{KeepsService, shows_owned};
ghost use Rattle.sender_steps.specs.Sender.{record_in};
ghost use Rattle.sender_steps.specs.Stands.{is_known_by, is_open_gone, has_known, makes_known, AreOpensMade, AreServed};
ghost use Rattle.sender_steps.specs.Sights.{sight_value, actors_in};

use crate::sent::OpenSent;
use crate::sight::Seen;
use bit_io::Memory;
use channel_table::ChannelTable;
use net_core::Guid;
use sender_records::ActorRecord;
use std::alloc::Global;
use std::collections::HashMap;

/// Takes for known the segments of each open that has arrived whole, and forgets these opens: none
/// that is left makes a segment known by now.
pub fn learn(opens: &mut Vec<OpenSent>, known: &mut Vec<bool>, table: &ChannelTable)
    ensures made { (past : Past) → KeepsTable table.now AtServer past
        → AreOpensMade past known.old.items opens.old.items
        → AreOpensMade past known.new.items opens.new.items }
    ensures known { (past later : Past) → KeepsTable table.now AtServer past
        → ((ch n : ℕ) → has_arrived_in past ch n ≡ true → has_arrived_in later ch n ≡ true)
        → AreOpensMade past known.old.items opens.old.items → (g : ℕ)
        → is_known_by later known.new.items opens.new.items g
        ≡ is_known_by later known.old.items opens.old.items g }
    ensures rest { (past : Past) → KeepsTable table.now AtServer past
        → AreOpensMade past known.old.items opens.old.items → (g : ℕ)
        → list_any (makes_known past g) opens.new.items ≡ false }
{
    note_arrived(opens.as_slice(), known, table);
    opens.retain(
        |sent|
            ensures { (past : Past) → KeepsTable table.entry.now AtServer past
                → result ≡ not (is_open_gone past sent.now) }
        { !has_arrived(sent, table) },
    );
}

/// All up to the open's last part has arrived on its channel.
fn has_arrived(sent: &OpenSent, table: &ChannelTable) -> bool
    ensures { (side : Side) (past : Past) → KeepsTable table.now side past
        → result ≡ is_open_gone past sent.now }
{
    table.bunch(sent.channel, sent.last).is_none()
}

/// Takes for known the segments of those that have arrived.
fn note_arrived(opens: &[OpenSent], known: &mut Vec<bool>, table: &ChannelTable)
    ensures length { length known.new.items ≡ length known.old.items }
    ensures known { (past : Past) → KeepsTable table.now AtServer past → (g : ℕ)
        → g < length known.old.items
        → slice_index_or known.new.items g false
        ≡ (list_any (has_known past g) opens.now || slice_index_or known.old.items g false) }
{
    for open in opens {
        if has_arrived(open, table) {
            note_known(known, open.guids.as_slice());
        }
    }
}

/// Takes these segments for known.
fn note_known(known: &mut Vec<bool>, guids: &[Guid])
    ensures length { length known.new.items ≡ length known.old.items }
    ensures known { (g : ℕ) → g < length known.old.items
        → slice_index_or known.new.items g false
        ≡ (is_among g guids.now || slice_index_or known.old.items g false) }
{
    for guid in guids {
        let at = guid.0 as usize;
        if at < known.len() {
            known[at] = true;
        }
    }
}

/// A tick begins: each actor of the sight is shown, and gets a record at its first sight.
pub fn show_all(
    alloc: Global,
    records: &mut HashMap<u32, ActorRecord>,
    sight: &[Seen],
    tick: u64,
) -> Result<(), Memory>
    ensures life { OnOk result ((a : ℕ) → (record_in records.new.entries a).life
        ≡ (record_in records.old.entries a).life) }
    ensures handles { OnOk result ((a : ℕ) → (record_in records.new.entries a).handles
        ≡ (record_in records.old.entries a).handles) }
    ensures service { OnOk result ((layout : Layout) (past : Past) → tick ≡ tick_count past + 1
        → Ascends 0 (actors_in sight.now) → AreServed past records.old.entries
        → AreServed (Deed.Ticked tick (sight_value layout sight.now) ∷ past)
        records.new.entries) }
{
    for seen in sight {
        show(alloc, records, seen, tick)?;
    }
    Ok(())
}

/// Shows one actor.
fn show(
    alloc: Global,
    records: &mut HashMap<u32, ActorRecord>,
    seen: &Seen,
    tick: u64,
) -> Result<(), Memory>
    ensures others { OnOk result ((a : ℕ) → seen.now.actor ≢ a
        → record_in records.new.entries a ≡ record_in records.old.entries a) }
    ensures life { OnOk result ((record_in records.new.entries seen.now.actor).life
        ≡ (record_in records.old.entries seen.now.actor).life) }
    ensures handles { OnOk result ((record_in records.new.entries seen.now.actor).handles
        ≡ (record_in records.old.entries seen.now.actor).handles) }
    ensures service { OnOk result ((past : Past) (sight : List SeenSpec)
        → KeepsService past seen.now.actor
        (record_in records.old.entries seen.now.actor).service → tick ≡ tick_count past + 1
        → is_relevant_in sight seen.now.actor ≡ seen.now.relevant
        → shows_owned sight seen.now.actor ≡ seen.now.owns
        → KeepsService (Deed.Ticked tick sight ∷ past) seen.now.actor
        (record_in records.new.entries seen.now.actor).service) }
{
    if let Some(record) = records.get_mut(&seen.actor.0) {
        record.service.shows(tick, seen.relevant, seen.owns);
        return Ok(());
    }
    let mut record = ActorRecord::new(alloc, seen.actor);
    record.service.shows(tick, seen.relevant, seen.owns);
    match records.insert(seen.actor.0, record) {
        Ok(_) => Ok(()),
        Err(_) => Err(Memory),
    }
}
