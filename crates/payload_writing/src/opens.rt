// The payload of an open.
ghost use Rattle.std.specs.Prelude.{◌≡◌, ◌<◌, ◌≤◌, IfOk, IsTrue, length, map};
ghost use Rattle.protocol_model.specs.Limits.{handle_limit};
ghost use Rattle.protocol_model.specs.World.{class_at as class_in};
ghost use Rattle.protocol_model.specs.Payload.{Opens, message_bits};
ghost use Rattle.class_layout.specs.Tables.{segment_at, table_in};
ghost use Rattle.payload_reading.specs.Values.{pair_values};
ghost use Rattle.payload_writing.specs.Exports.{MayExport};
ghost use Rattle.payload_writing.specs.Values.{pairs_fit};

use crate::fields::put_guid;
use crate::pairs::{PAIR_BITS, put_pairs};
use crate::segments::{SEGMENT_BITS, class_guid, put_exports};
use bit_io::{BitWriter, Bits, Memory};
use class_layout::{Classes, Pair};
use net_core::Guid;
use payload_reading::class_at;
use std::alloc::Global;

/// The payload of an open of an actor with these values: the segments of these guids, the actor,
/// its class, and the values. The class is a place in the table.
pub fn open_payload(
    alloc: Global,
    classes: &Classes,
    class: u16,
    actor: Guid,
    exports: &[Guid],
    values: &[Pair],
) -> Result<Bits, Memory>
    requires class { class < length classes.now.classes }
    requires exports { MayExport classes.now.segments exports.now }
    requires few { length values.now ≤ handle_limit }
    requires fit { IsTrue (pairs_fit (class_in (table_in classes.now) class) values.now) }
    ensures { IfOk result (λ bits. bits ≡ message_bits (Opens
        (map (segment_at classes.now.segments) exports.now) actor
        (class_in (table_in classes.now) class) (pair_values values.now))) }
{
    let class = class_at(classes, class);
    let room = 160 + SEGMENT_BITS * exports.len() + PAIR_BITS * values.len();
    let mut w = BitWriter::with_room(alloc, room)?;
    put_exports(&mut w, classes, exports);
    put_guid(&mut w, actor);
    put_guid(&mut w, class_guid(class));
    put_pairs(&mut w, class, values);
    w.put_packed(0);
    Ok(w.into_bits())
}
