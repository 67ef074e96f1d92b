// The lines of a script as they were read, and what they tell.
//
//     script -- a reader --> Line -- a replay --> Event -- event_text --> transcript
//
//     down 1 12          Line::Down { player: Player(1), packet: 12 }
//     down 1 12 taken    Event::Down { player: Player(1), packet: 12, answer: Says(Taken { .. }) }
//
// Both are plain values, which hold names by number: a class by its place in the table, a property
// by its handle, a call by its number in its class.
//
//     for line in lines.iter() {
//         for event in replay.step(line)?.iter() {
//             print(alloc, &mut transcript, classes, event)?;
//         }
//     }
//
// `specs/` says which line of `script_model` a line is, which report an event is, and when edits
// and arguments have the tags of their kinds. It stands on `value_codec` for arguments, values and
// calls that were handed over, and on `world_table` for edits. It has no code: `event_text` writes
// events.
#![tactic(auto)]

mod event;
mod line;

pub use event::{Delivery, Event, EventList};
pub use line::{Line, LineList};
pub use net_core::{Blob, Guid, Handle, Items, Memory, Player};
pub use protocol_model::{CallAnswer, CallVerdict, Verdict, Version};
pub use value_codec::{Arg, ArgList, Handed, Pair, PairList, Value};
pub use world_table::Edit;
