// What the program writes of a class table: its summary, and why it is refused.
//
//     Classes ── check_text ──▶ classes 1
//                               class Pawn handles 7 calls 4
//                               digest fda1167c..
//     refusal ── refused_text ──▶ unet: class table refused at class 1 property 3: Range
//
// A caller:
//
//     let text = match Classes::read(alloc, file) {
//         Ok(classes) => check_text(alloc, &classes)?,
//         Err(TableRefusal::BadTable { place, why }) => refused_text(alloc, place, why)?,
//         Err(TableRefusal::Memory) => return Err(Memory),
//     };
//
// It stands on `program_model` for the texts, on `class_layout` for tables and on `event_text` for the
// digest. It promises that each text is exactly that of the definitions. It writes nothing anywhere.
#![tactic(auto)]

mod check;
mod refused;
#[cfg(test)]
mod tests;

pub use check::check_text;
pub use class_layout::{Classes, Place, TableWhy};
pub use net_core::Memory;
pub use refused::refused_text;
