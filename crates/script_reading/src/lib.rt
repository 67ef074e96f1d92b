// Scripts, read whole against a class table.
//
//     join 1 8000          Line::Join { player: Player(1), budget: 8000, version: One }
//     spawn Pawn 10 -3     Line::Edit(Spawn { class: 0, x: 10, y: -3 })
//     set 1 hp 75          Line::Edit(Set { actor: Guid(2), prop: Handle(4), value: U8(75) })
//     set 1 hp 256         refused at line 4: Value
//
// A caller reads a script before it does anything of it:
//
//     let lines = match read_script(alloc, bytes, &classes, false) {
//         Ok(lines) => lines,
//         Err(ScriptRefusal::BadLine { line, why }) => {
//             return refuse(line, why);
//         }
//         Err(ScriptRefusal::Memory) => return Err(Memory),
//     };
//
// It stands on `script_model` for which bytes are a script and why a line is refused, on
// `script_spelling` for how lines are spelled, on `class_layout` for the names that lines may have, and
// on `script_lines` for lines.
//
// It promises that a script is read exactly where the definitions accept it, with their lines, and
// is refused at their first bad line with the first of its reasons, and that values and arguments
// have the tags of their kinds. It takes one pass over the bytes, and keeps the lines, a word for
// each actor and the players who joined. It does none of the lines.
#![tactic(auto)]

mod arguments;
mod known;
mod names;
mod ranges;
mod reader;
mod refusal;
mod script;
#[cfg(test)]
mod tests;

pub use class_layout::Classes;
pub use protocol_model::LineWhy;
pub use refusal::ScriptRefusal;
pub use script::read_script;
pub use script_lines::{Line, LineList, Memory};
