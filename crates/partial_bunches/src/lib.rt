// Payloads cut into parts, and parts joined to payloads, after Unreal's partial bunches.
//
// A payload of at most 7,000 bits is one whole bunch. A longer one, of at most 70,000 bits, goes as
// a first part, middle parts and a last part, all but the last of 7,000 bits.
//
//     16,413 bits   |  First 7,000  |  Middle 7,000  | Last 2,413 |   cut(16413, 0), (.., 1), (.., 2)
//                            \              |             /
//                              Joiner: More, More, Whole(bits)
//
// The channel that sends cuts, and the one that receives joins:
//
//     for i in 0..parts(payload.len()) {
//         let piece = cut(payload.len(), i);
//         send(piece.part, payload.part(piece.start, piece.end));
//     }
//
//     match joiner.add(&bunch) {
//         Ok(Joined::More) => {}
//         Ok(Joined::Whole(bits)) => read(bits),
//         Err(PartRefusal::BadPart { why }) => close(why),
//         Err(PartRefusal::Memory) => spend(),
//     }
//
// It stands on `packet_codec` for bunches and on `bit_io` for bits. It promises that the pieces of
// a payload in order are the payload, that what is joined is what the whole list of parts says, and
// that a refused part is refused by the first rule that it breaks. It knows no channel and no
// sequence.
#![tactic(auto)]

mod joiner;
pub mod laws;
mod pieces;
mod rules;
#[cfg(test)]
mod tests;

pub use bit_io::Bits;
pub use joiner::{Joined, Joiner, PartRefusal};
pub use pieces::{Piece, cut, parts};
pub use protocol_model::{Part, PartWhy};
