// Packets, read from datagrams and spelled into them, in both versions.
//
// A packet is a number, in version two a history of the packets taken, and entries: bunches, and in
// version one acknowledgements. A bunch is a payload, or a part of one, under a header of flags
// after Unreal's `FOutBunch`; the format itself is this project's own.
//
//     number | head (version two) | entry | entry | .. | 1 | 0 bits to the byte's end
//                                   |
//                                   flags, channel, seq, part, kind, size, payload
//
// It stands on `bit_io` for numbers in bits, and on `protocol_model` for what a packet is and which
// rule its bytes break first. It promises that `decode` answers exactly that packet, or exactly that
// rule and its bit, with each payload lent from the datagram; and that `encode`, `put_start` and
// `put_rec` write exactly the spelling. That packets and spellings belong to each other one to one
// stands in `protocol_laws`. It keeps nothing from packet to packet and knows no channel's state, no
// payload's meaning and no input or output.
//
// Reading goes from the whole to the field, each module by the one below it:
//
//     decoding   a datagram: where its content ends, and what a fault in it means
//     read       a content: number, head and entries
//     entries    an entry: a bunch in three stretches of its header
//     fields     a field, with its rule
//     fault      what stops a reading
//
// A caller:
//
//     let packet = decode(alloc, Version::Two, datagram)?;
//     for entry in packet.recs.as_slice() {
//         match entry {
//             Rec::Bunch(bunch) => take(bunch.channel, &bunch.payload),
//             Rec::Ack(number) => acknowledge(*number),
//         }
//     }
//     let again = encode(alloc, Version::Two, &packet)?;
#![tactic(auto)]

mod decoding;
mod entries;
mod fault;
mod fields;
mod packet;
mod read;
mod sizes;
#[cfg(test)]
mod tests;
mod write;

pub use bit_io::{BitSlice, BitWriter, Blob, Head, Memory};
pub use decoding::decode;
pub use packet::{Bunch, DecodeRefusal, Packet, Rec, RecList};
pub use protocol_model::{Cause, Part, PartWhy, Verdict, Version, Why};
pub use sizes::bunch_bits;
pub use write::{encode, put_rec, put_start};
