// The entries of a packet, in order.
ghost use Rattle.std.specs.Prelude.{◌≡◌, ◌∷◌, [], List, map, Option, Some, None, IfOk, OnOk};
ghost use Rattle.protocol_model.specs.World.{Edits};
ghost use Rattle.protocol_model.specs.declared.Cause.{Cause as CauseSpec};
ghost use Rattle.connection_model.specs.Feed.{Past};
ghost use Rattle.link_end.specs.News.{News};
ghost use Rattle.link_end.specs.Answers.{news_value};
ghost use Rattle.hearing_laws.specs.Courses.{Taking, Leads};
ghost use Rattle.shadow_changes.specs.Samples.{Samples};
ghost use Rattle.server_hearing.specs.Payloads.{IsHearing};
ghost use Rattle.server_hearing.specs.Entries.{HandsOver, GoesOn};

use crate::bunches::hear_bunch;
use actor_sender::ActorSender;
use bit_io::Memory;
use channel_table::{Cause, ChannelTable};
use class_layout::HandedList;
use link_end::Entry;
use net_core::Player;
use std::alloc::Global;
use world_table::World;

/// Hears entries in order, up to the first that breaks a rule, which it answers.
pub fn hear_entries(
    alloc: Global,
    world: &World<'_>,
    player: Player,
    table: &mut ChannelTable,
    sender: &mut ActorSender,
    entries: &[Entry<'_>],
    handed: &mut HandedList,
) -> Result<Option<Cause>, Memory>
    requires { (k : Taking) × (edits : Edits) × (past : Past) × (samples : Samples) × (final : Past)
        × (bad : Option CauseSpec) × IsHearing world.now sender.old table.old k edits past samples
        × HandsOver world.now.layout edits player k past handed.old
        × Leads k (map news_value entries.now) bad past final }
    ensures heard { IfOk result (λ broken. (k : Taking) (edits : Edits) (past : Past)
        (samples : Samples) (final : Past) (bad : Option CauseSpec)
        → IsHearing world.now sender.old table.old k edits past samples
        → HandsOver world.now.layout edits player k past handed.old
        → Leads k (map news_value entries.now) bad past final
        → GoesOn world.now sender.new table.new k edits player samples handed.new [] bad final
        broken) }
    ensures count { OnOk result (table.new.made.count ≡ table.old.made.count) }
{
    for entry in entries {
        if let Some(cause) = hear_entry(alloc, world, player, table, sender, entry, handed)? {
            return Ok(Some(cause));
        }
    }
    Ok(None)
}

/// Hears an entry.
fn hear_entry(
    alloc: Global,
    world: &World<'_>,
    player: Player,
    table: &mut ChannelTable,
    sender: &mut ActorSender,
    entry: &Entry<'_>,
    handed: &mut HandedList,
) -> Result<Option<Cause>, Memory>
    requires { (k : Taking) × (edits : Edits) × (past : Past) × (samples : Samples) × (final : Past)
        × (news : List News) × (bad : Option CauseSpec)
        × IsHearing world.now sender.old table.old k edits past samples
        × Leads k (news_value entry.now ∷ news) bad past final }
    ensures heard { IfOk result (λ broken. (k : Taking) (edits : Edits) (past : Past)
        (samples : Samples) (final : Past) (news : List News) (bad : Option CauseSpec)
        → IsHearing world.now sender.old table.old k edits past samples
        → HandsOver world.now.layout edits player k past handed.old
        → Leads k (news_value entry.now ∷ news) bad past final
        → GoesOn world.now sender.new table.new k edits player samples handed.new news bad final
        broken) }
    ensures count { OnOk result (table.new.made.count ≡ table.old.made.count) }
{
    match entry {
        Entry::Moved(moved) => {
            sender.moved(*moved, table);
            Ok(None)
        }
        Entry::Bunch(bunch) => hear_bunch(alloc, world, player, sender, table, bunch, handed),
    }
}
