// Packets of a file of hex lines, in words.
//
//     05c00120 ── show ──▶ packet 5 1
//                          ack 3
//     5g       ── show, refused_text ──▶ unet: line 2: not hex
//
// Each line of the file is a datagram. A caller:
//
//     match show(alloc, Version::One, file.as_slice()) {
//         Ok(text) => write_all(out, text.as_bytes())?,
//         Err(ShowRefusal::BadLine { line, fault }) => {
//             write_all(out, refused_text(alloc, line, fault)?.as_bytes())?
//         }
//         Err(ShowRefusal::Memory) => return Err(Memory),
//     }
//
// It stands on `program_model` for the texts, on `script_spelling` for lines and hex, on
// `packet_codec` for packets and on `event_text` for the words of reasons. It promises that the text
// is exactly that of the packets that the lines spell, or that the refusal is of the first bad line.
// It knows no channel and no payload, and writes nothing anywhere.
#![tactic(auto)]

mod entries;
mod file;
mod packets;
mod refused;
#[cfg(test)]
mod tests;

pub use file::show;
pub use net_core::Memory;
pub use protocol_model::{Version, Why};
pub use refused::{LineFault, ShowRefusal, refused_text};
