// Messages that a tick makes.
ghost use Rattle.std.specs.Prelude.{◌≡◌, ◌+◌, ◌<◌, ◌≤◌, ◌^◌, IfOk, OnOk, OnErr, length};
ghost use Rattle.protocol_model.specs.Limits.{payload_bits};
ghost use Rattle.protocol_model.specs.Packet.{channel_limit};
ghost use Rattle.protocol_model.specs.Payload.{Message, message_bits, part_count};
ghost use Rattle.protocol_model.specs.Side.{Side};
ghost use Rattle.connection_model.specs.Bunches.{made_count, room as room_of, after_making};
ghost use Rattle.connection_model.specs.Feed.{End, Past};
ghost use Rattle.connection_model.specs.Pack.{Packing};
ghost use Rattle.outgoing_channels.specs.Made.{IsMarked};
ghost use Rattle.link_end.specs.Link.{Link};
ghost use Rattle.bunch_packing.specs.Both.{PacksBoth};

use bit_io::{Bits, Memory};
use channel_table::{ChannelTable, Mark};

/// Makes the bunches of a payload, below the packets of this tick, and answers the number of the
/// first. The channel has a spelling, and the payload at most 70,000 bits and no more parts than
/// there is room. No packet changes by it. `Memory` changes nothing.
pub fn push(
    table: &mut ChannelTable,
    channel: u16,
    mark: Mark,
    payload: Bits,
) -> Result<u64, Memory>
    requires most { length payload ≤ payload_bits }
    requires few { table.old.made.count < 2 ^ 60 }
    requires room { (l : Link) × (end : End) × (side : Side) × (before : Past) × (p : Packing)
        × PacksBoth l table.old end side before p × (channel < channel_limit end.version)
        × (part_count (length payload) ≤ room_of p.past channel) }
    ensures number { IfOk result (λ n. (l : Link) (end : End) (side : Side) (before : Past)
        (p : Packing) → PacksBoth l table.old end side before p
        → n ≡ made_count p.past channel + 1) }
    ensures packs { OnOk result ((l : Link) (end : End) (side : Side) (before : Past)
        (p : Packing) (message : Message) → PacksBoth l table.old end side before p
        → channel < channel_limit end.version
        → message_bits message ≡ payload → IsMarked mark message
        → PacksBoth l table.new end side before
        (record p { past = after_making p.past channel message })) }
    ensures count { OnOk result (table.new.made.count
        ≡ table.old.made.count + part_count (length payload)) }
    ensures bound { OnOk result (table.new.bound ≡ table.old.bound) }
    ensures waiting { OnOk result (table.new.waiting ≡ table.old.waiting) }
    ensures err { OnErr result (table.new ≡ table.old) }
{
    let number = table.push(channel, mark, payload)?;
    Ok(number)
}
