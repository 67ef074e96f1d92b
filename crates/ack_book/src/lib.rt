// What became of the packets that one end sent, and which packets it took.
//
// Each packet has a number, from 1 on, and travels with its lowest 14 bits. A book gives the
// numbers of the packets sent, takes those of the packets received, and learns from
// acknowledgements, one by one in version one and as a history in version two, which sent packets
// arrived and which are lost, after Unreal's packet notification.
//
// It stands on `connection_model` for what a fate is, over the whole list of what the end did, and
// on `circular_buffer` for the numbers owed. It promises that each answer is the one of that list,
// though it keeps rings that forget, and that after every call it holds as much memory as before.
// It knows no bytes, no bunches and no clock.
//
//     sent:   1 2 3 4 5 6 7 8 9
//             + - + + ^ . . . ^      + arrived, - lost, . open
//                     high    last_sent
//
// A caller, an end of a connection:
//
//     let number = book.sent();
//     // .. and when a packet came
//     match book.take_number(packet.number) {
//         Ok(number) => book.take_head(packet.head)?,
//         Err(old) => return Ok(Verdict::Old { number: old.number, last: old.last }),
//     }
//     let fate = book.fate(number);
#![tactic(auto)]

mod answer;
mod book;
mod history;
pub mod laws;
mod ring;
#[cfg(test)]
mod tests;

pub use answer::{Acked, BadAck, Old};
pub use bit_io::{Head, Memory};
pub use book::AckBook;
use protocol_model::limits::PACKET_MODULUS;
pub use protocol_model::{Fate, Version};

/// How many packets, counted back from the last one sent, have a fate that can be asked for.
pub const FATES_KEPT: u64 = PACKET_MODULUS as u64 / 2;
