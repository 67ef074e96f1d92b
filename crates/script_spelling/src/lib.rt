// How a line of a script is spelled: a word, and fields of the right shape between single spaces.
//
//     set 12 hp 75          Spelled::Set { actor: 12, name: "hp", value: "75" }
//     call 1 12 hurt 3 -    Spelled::Call { to: player 1, actor: 12, name: "hurt", args: "3 -" }
//
// Names, values and arguments stay as they are spelled, and borrow from the line. A caller takes a
// script apart at its newlines and looks at each line:
//
//     let (line, rest) = first_piece(script, b'\n');
//     let Some(spelled) = spelled_of(line) else {
//         return Err(LineWhy::Shape);
//     };
//
// It stands on `script_model` for the grammar of lines and on `hex` for bytes. It promises that a
// line is spelled exactly as the grammar has it, and nothing where the grammar has none. Numbers may
// have any length; one of more than 2^64 - 1 counts as that, which is out of every range. It takes
// one pass over a line, and no memory but for bytes in hex. It knows no class, no player and no
// actor: what a line may name isn't looked at here.
#![tactic(auto)]

mod fields;
mod hex_text;
mod numbers;
mod shapes;
mod spelled;
#[cfg(test)]
mod tests;
mod word;

pub use fields::{field_count, first_piece};
pub use hex_text::{hex_bytes, octets};
pub use net_core::{Blob, Memory};
pub use numbers::number;
pub use protocol_model::Version;
pub use spelled::{Spelled, spelled_of};
