// The payload of an update.
ghost use Rattle.std.specs.Prelude.{◌≡◌, ◌<◌, ◌≤◌, ◌+◌, ◌*◌, ◌++◌, IfOk, IsTrue, length, take, min};
ghost use Rattle.protocol_model.specs.Bits.{packed_bits};
ghost use Rattle.protocol_model.specs.Limits.{update_bits};
ghost use Rattle.protocol_model.specs.Payload.{message_bits};
ghost use Rattle.protocol_model.specs.Sight.{Seen};
ghost use Rattle.protocol_model.specs.World.{class_at as class_in};
ghost use Rattle.connection_model.specs.Items.{update_message, update_pairs};
ghost use Rattle.class_layout.specs.Tables.{table_in};
ghost use Rattle.bit_io.specs.Lent.{slice_bits};
ghost use Rattle.payload_reading.specs.Values.{pair_values};
ghost use Rattle.payload_writing.specs.Values.{pairs_fit};

use crate::pairs::{PAIR_BITS, put_pair};
use bit_io::{BitSlice, BitWriter, Bits, Memory};
use class_layout::{Classes, Pair};
use payload_reading::class_at;
use protocol_model::limits::UPDATE_BITS;
use std::alloc::Global;

/// How many bits the 0 takes that ends a list of values.
const END_BITS: usize = 8;

/// An update of the first so many of some values.
#[derive(Debug, Drop)]
pub struct UpdatePayload {
    pub bits: Bits,
    pub count: usize,
}

/// The payload of an update with the longest prefix of these values that has room in 6,000 bits.
/// The class of the actor is a place in the table.
pub fn update_payload(
    alloc: Global,
    classes: &Classes,
    class: u16,
    values: &[Pair],
) -> Result<UpdatePayload, Memory>
    requires class { class < length classes.now.classes }
    requires fit { IsTrue (pairs_fit (class_in (table_in classes.now) class) values.now) }
    ensures within { IfOk result (λ made. made.count ≤ length values.now) }
    ensures values { IfOk result (λ made. (seen : Seen)
        → seen.class ≡ class_in (table_in classes.now) class
        → update_pairs seen (pair_values values.now)
        ≡ pair_values (take made.count values.now)) }
    ensures bits { IfOk result (λ made. (seen : Seen)
        → seen.class ≡ class_in (table_in classes.now) class
        → made.bits ≡ message_bits
        (update_message seen (update_pairs seen (pair_values values.now)))) }
{
    let class = class_at(classes, class);
    let mut w = BitWriter::with_room(alloc, room_for(values.len()))?;
    w.put_bit(false);
    for (count, pair) in values.iter().enumerate() {
        let before = w.len();
        put_pair(&mut w, class, pair);
        if w.len() + END_BITS > UPDATE_BITS {
            let bits = ended_at(alloc, w, before)?;
            return Ok(UpdatePayload { bits, count });
        }
    }
    w.put_packed(0);
    Ok(UpdatePayload {
        bits: w.into_bits(),
        count: values.len(),
    })
}

/// Room for so many values and what ends them, or for as many as there may be and one more.
fn room_for(count: usize) -> usize
    ensures { result ≡ min (104 * count + 104) (update_bits + 104) }
{
    (PAIR_BITS * count.min(UPDATE_BITS) + PAIR_BITS).min(UPDATE_BITS + PAIR_BITS)
}

/// The first so many bits of what was written, and the 0 that ends a list of values.
fn ended_at(alloc: Global, w: BitWriter, len: usize) -> Result<Bits, Memory>
    requires within { len ≤ length w.bits }
    requires most { len ≤ update_bits }
    ensures { IfOk result (λ bits. bits ≡ take len w.bits ++ packed_bits 0) }
{
    let written = w.into_bits();
    let mut shorter = BitWriter::with_room(alloc, len + 40)?;
    shorter.put_slice(front(written.lend(), len));
    shorter.put_packed(0);
    Ok(shorter.into_bits())
}

/// The first so many bits of a slice.
fn front(slice: BitSlice<'_>, count: usize) -> BitSlice<'_>
    requires { count ≤ length (slice_bits slice) }
    ensures { slice_bits result ≡ take count (slice_bits slice.entry) }
{
    BitSlice {
        bytes: slice.bytes,
        from: slice.from,
        to: slice.from + count,
    }
}
