// Bunches: what they hand on is heard, payload by payload.
ghost use Rattle.std.specs.Prelude.{◌≡◌, ◌∷◌, ℕ, List, Bool};
ghost use Rattle.protocol_model.specs.declared.Version.{Version};
ghost use Rattle.connection_model.specs.Feed.{Delivered as DeliveredSpec};
ghost use Rattle.packet_codec.specs.Values.{bunch_of};
ghost use Rattle.receiving_laws.specs.Receiving.{Raw};
ghost use Rattle.client_hearing.specs.Moments.{Moment, past_at, AreComing, Hears, IsFit};
ghost use Rattle.client_hearing.specs.Hearing.{AreHeard, IsBunchHeard};

use crate::halt::Halt;
use crate::payloads::hear_payload;
use actor_copies::CopyList;
use channel_table::{Bunch, ChannelTable, Message};
use class_layout::{Classes, Handed};
use netguid_map::Names;
use std::alloc::Global;

/// Hears a bunch: the whole payloads that it hands on, and then the rule that it breaks.
pub(crate) fn hear_bunch(
    alloc: Global,
    classes: &Classes,
    table: &mut ChannelTable,
    names: &mut Names,
    copies: &mut CopyList,
    b: &Bunch<'_>,
    calls: &mut Vec<Handed>,
) -> Result<(), Halt>
    requires { (version : Version) × (w : Moment)
        × Hears classes.now version table.old names.old copies.old calls.old.items w.taking
        w.handed (past_at w)
        × IsFit version (bunch_of b.now) }
    ensures heard { (version : Version) (w : Moment)
        → Hears classes.now version table.old names.old copies.old calls.old.items w.taking
        w.handed (past_at w)
        → IsFit version (bunch_of b.now)
        → IsBunchHeard classes.now version table.new names.new copies.new calls.new.items w
        (bunch_of b.now) result }
    ensures count { table.new.made.count ≡ table.old.made.count }
{
    let delivered = table.receive(b)?;
    let whole = delivered.whole.as_slice();
    hear_payloads(alloc, classes, table, names, copies, whole, calls)?;
    if let Some(cause) = delivered.cause {
        return Err(Halt::Broken(cause));
    }
    Ok(())
}

/// Hears payloads of a channel in order, up to the first that breaks a rule.
fn hear_payloads(
    alloc: Global,
    classes: &Classes,
    table: &mut ChannelTable,
    names: &mut Names,
    copies: &mut CopyList,
    whole: &[Message],
    calls: &mut Vec<Handed>,
) -> Result<(), Halt>
    requires { (version : Version) × (w : Moment) × (ch : ℕ) × (held : Bool) × (raws : List Raw)
        × AreComing classes.now version table.old.bound names.old copies.old calls.old.items w ch
        held raws whole.now }
    ensures heard { (version : Version) (w : Moment) (ch : ℕ) (held : Bool) (raws : List Raw)
        → AreComing classes.now version table.old.bound names.old copies.old calls.old.items w ch
        held raws whole.now
        → AreHeard classes.now version table.new.bound names.new copies.new calls.new.items w ch
        raws result }
    ensures rest { table.new ≡ record table.old { bound = table.new.bound } }
{
    for m in whole {
        hear_payload(alloc, classes, table, names, copies, m, calls)?;
    }
    Ok(())
}
