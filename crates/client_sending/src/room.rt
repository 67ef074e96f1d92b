// Room for a call: on its channel, or among the calls that wait.
ghost use Rattle.std.specs.Prelude.{◌≡◌, ◌+◌, ◌<◌, ◌≤◌, ◌^◌, ◌∷◌, ℕ, List, length, nat_lt, IfOk, OnOk, OnErr, if◌then◌else◌};
ghost use Rattle.protocol_model.specs.Limits.{part_bits, payload_bits, waiting_limit};
ghost use Rattle.protocol_model.specs.Packet.{channel_limit};
ghost use Rattle.protocol_model.specs.Payload.{Calls, message_bits, part_count};
ghost use Rattle.protocol_model.specs.Value.{Call as CallSpec, Arg as ArgSpec};
ghost use Rattle.connection_model.specs.Bunches.{room as room_of, after_making};
ghost use Rattle.connection_model.specs.CallAnswers.{waiting_of};
ghost use Rattle.connection_model.specs.Feed.{End, Past, Deed};
ghost use Rattle.link_end.specs.Link.{Link};
ghost use Rattle.client_sending.specs.Stands.{Stands};

use bit_io::{Bits, Memory};
use channel_table::{ChannelTable, Mark};
use class_layout::{CallAnswer, Guid};
use partial_bunches::parts;

/// Makes the parts of a reliable call on its channel, which has a spelling, where that has room for
/// all.
pub(crate) fn push_call(
    table: &mut ChannelTable,
    channel: u16,
    payload: Bits,
) -> Result<CallAnswer, Memory>
    requires most { length payload ≤ payload_bits }
    requires stands { (l : Link) × (end : End) × (past : Past) × Stands l table.old end past
        × (channel < channel_limit end.version) }
    requires few { table.old.made.count < 2 ^ 60 }
    ensures answer { IfOk result (λ answer. (l : Link) (end : End) (past : Past)
        → Stands l table.old end past
        → answer ≡ (if nat_lt (room_of past channel) (part_count (length payload))
        then CallAnswer.WindowFull else CallAnswer.Queued)) }
    ensures stands { OnOk result ((l : Link) (end : End) (past : Past) (actor number : ℕ)
        (call : CallSpec) (args : List ArgSpec)
        → Stands l table.old end past → channel < channel_limit end.version
        → message_bits (Calls actor number call args) ≡ payload
        → Stands l table.new end
        (if nat_lt (room_of past channel) (part_count (length payload)) then past
        else after_making past channel (Calls actor number call args))) }
    ensures count { table.new.made.count ≤ table.old.made.count + 4096 }
    ensures err { OnErr result (table.new ≡ table.old) }
{
    link_end::laws::made_is_unseen();
    if parts(payload.len()) > table.room(channel) as usize {
        return Ok(CallAnswer::WindowFull);
    }
    table.push(channel, Mark::Plain, payload)?;
    Ok(CallAnswer::Queued)
}

/// Lets an unreliable call wait, where fewer than 256 do.
pub(crate) fn queue_call(
    table: &mut ChannelTable,
    actor: Guid,
    number: u16,
    payload: Bits,
) -> Result<CallAnswer, Memory>
    requires most { length payload ≤ part_bits }
    ensures answer { IfOk result (λ answer. (l : Link) (end : End) (past : Past)
        → Stands l table.old end past
        → answer ≡ (if nat_lt (length (waiting_of past)) waiting_limit
        then CallAnswer.Queued else CallAnswer.WindowFull)) }
    ensures stands { OnOk result ((l : Link) (end : End) (past : Past) (call : CallSpec)
        (args : List ArgSpec)
        → Stands l table.old end past → message_bits (Calls actor number call args) ≡ payload
        → Stands l table.new end
        (if nat_lt (length (waiting_of past)) waiting_limit
        then Deed.Waits (Calls actor number call args) ∷ past else past)) }
    ensures count { table.new.made.count ≤ table.old.made.count + 4096 }
    ensures err { OnErr result (table.new ≡ table.old) }
{
    channel_table::laws::alike_is_unseen();
    link_end::laws::waiting_is_unseen();
    if table.queue(actor, number, payload)? {
        Ok(CallAnswer::Queued)
    } else {
        Ok(CallAnswer::WindowFull)
    }
}
