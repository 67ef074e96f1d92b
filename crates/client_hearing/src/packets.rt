// Packets: moves of fates and bunches, in order.
ghost use Rattle.std.specs.Prelude.{◌≡◌, ◌∷◌, [], List, map, Option};
ghost use Rattle.std.specs.List.{AllByRecursion};
ghost use Rattle.protocol_model.specs.declared.Cause.{Cause};
ghost use Rattle.protocol_model.specs.declared.Version.{Version};
ghost use Rattle.connection_model.specs.Feed.{Past, Delivered};
ghost use Rattle.hearing_laws.specs.Courses.{Taking, Leads};
ghost use Rattle.link_end.specs.News.{News};
ghost use Rattle.link_end.specs.Answers.{news_value};
ghost use Rattle.client_hearing.specs.Moments.{Hears};
ghost use Rattle.client_hearing.specs.Hearing.{IsFitNews, AreEntriesHeard};

use crate::bunches::hear_bunch;
use crate::halt::Halt;
use actor_copies::CopyList;
use channel_table::ChannelTable;
use class_layout::{Classes, Handed};
use link_end::Entry;
use netguid_map::Names;
use std::alloc::Global;

/// Hears entries in order, up to the first that breaks a rule.
pub(crate) fn hear_entries(
    alloc: Global,
    classes: &Classes,
    table: &mut ChannelTable,
    names: &mut Names,
    copies: &mut CopyList,
    entries: &[Entry<'_>],
    calls: &mut Vec<Handed>,
) -> Result<(), Halt>
    requires { (version : Version) × (k : Taking) × (bad : Option Cause) × (past final : Past)
        × (payloads : List Delivered)
        × Hears classes.now version table.old names.old copies.old calls.old.items k payloads past
        × AllByRecursion (IsFitNews version) (map news_value entries.now)
        × Leads k (map news_value entries.now) bad past final }
    ensures heard { (version : Version) (k : Taking) (bad : Option Cause) (past final : Past)
        (payloads : List Delivered)
        → Hears classes.now version table.old names.old copies.old calls.old.items k payloads past
        → AllByRecursion (IsFitNews version) (map news_value entries.now)
        → Leads k (map news_value entries.now) bad past final
        → AreEntriesHeard classes.now version table.new names.new copies.new calls.new.items k []
        bad final result }
    ensures count { table.new.made.count ≡ table.old.made.count }
{
    for entry in entries {
        hear_entry(alloc, classes, table, names, copies, entry, calls)?;
    }
    Ok(())
}

/// Hears an entry.
fn hear_entry(
    alloc: Global,
    classes: &Classes,
    table: &mut ChannelTable,
    names: &mut Names,
    copies: &mut CopyList,
    entry: &Entry<'_>,
    calls: &mut Vec<Handed>,
) -> Result<(), Halt>
    requires { (version : Version) × (k : Taking) × (news : List News) × (bad : Option Cause)
        × (past final : Past) × (payloads : List Delivered)
        × Hears classes.now version table.old names.old copies.old calls.old.items k payloads past
        × IsFitNews version (news_value entry.now)
        × Leads k (news_value entry.now ∷ news) bad past final }
    ensures heard { (version : Version) (k : Taking) (news : List News) (bad : Option Cause)
        (past final : Past) (payloads : List Delivered)
        → Hears classes.now version table.old names.old copies.old calls.old.items k payloads past
        → IsFitNews version (news_value entry.now)
        → Leads k (news_value entry.now ∷ news) bad past final
        → AreEntriesHeard classes.now version table.new names.new copies.new calls.new.items k
        news bad final result }
    ensures count { table.new.made.count ≡ table.old.made.count }
{
    match entry {
        Entry::Moved(m) => {
            table.moved(*m);
            Ok(())
        }
        Entry::Bunch(b) => hear_bunch(alloc, classes, table, names, copies, b, calls),
    }
}
