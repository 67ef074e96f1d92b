// Events as the lines of a transcript.
//
//     Event::Joined { player: Player(1) }                joined 1
//     Event::Sent { player, packet: 12, bytes }          sent 1 12 8000a2..
//     Event::Copied { player, actor, class, .. }         copy 1 3 Pawn open x=10 y=-3 role=0 hp=75
//
// A caller appends what a line tells to its transcript, event by event:
//
//     let mut transcript = Blob::new(alloc);
//     for event in events.iter() {
//         print(alloc, &mut transcript, &classes, event)?;
//     }
//
// It stands on `script_model` for the text of every report, on `script_lines` for events, on
// `class_layout` for the names of classes, properties and calls, and on `hex` for bytes.
//
// It promises that each event is exactly its report's line. An event may name a class, a handle or
// a call that the table hasn't: its name is empty then. It writes no file.
#![tactic(auto)]

mod event_line;
mod names;
#[cfg(test)]
mod tests;
mod transcript;
mod verdict;
mod words;

pub use class_layout::Classes;
pub use net_core::{Blob, Memory};
pub use script_lines::Event;
pub use transcript::print;
pub use verdict::{verdict_text, why_word};
pub use words::bytes_text;
