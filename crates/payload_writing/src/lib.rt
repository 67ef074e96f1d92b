// Whole payloads, written: what an end of a connection says in its bunches.
//
//     open     | segments .. | actor | class | handle | value | .. | 0 |      open_payload
//     update   | 0 | handle | value | handle | value | .. | 0 |               update_payload
//     call     | 1 | actor | number | argument | argument | .. |              call_payload
//     Gone     | 1 | actor |                                                  gone_payload
//     close    no bits                                                        close_payload
//
// A sender spells an update of the handles that are due, and puts it into a bunch:
//
//     let update = update_payload(alloc, &classes, seen.class, due.as_slice())?;
//     let bunch = loose(channel, update.bits.lend());
//     ..
//     record.carries(tick, packet, &due[..update.count]);
//
// It stands on `bit_io` for numbers in bits, on `value_codec` for values by their kinds, on
// `class_layout` for the classes and their segments, and on `payload_reading` and `netguid_map` for
// what values and guids in memory stand for.
//
// It promises that the bits of each payload are those of its message in `protocol_model`, and that
// an update holds the longest prefix of the values that has room in 6,000 bits. Want of memory is
// the only error. All room of a payload is taken at once, each value is written once, and nothing
// is kept. It knows no channel and no part: cutting a payload into bunches is for the channels.
#![tactic(auto)]

mod calls;
mod closes;
mod fields;
pub mod laws;
mod opens;
mod pairs;
mod segments;
#[cfg(test)]
mod tests;
mod updates;

pub use bit_io::{Bits, Memory};
pub use calls::call_payload;
pub use class_layout::{Arg, Call, Classes, Guid, Pair};
pub use closes::{close_payload, gone_payload};
pub use opens::open_payload;
pub use updates::{UpdatePayload, update_payload};
