// The replay of a script's lines: a server, its players' clients, and every packet that any of them
// sent.
//
//     line -- edit, join, tick, multicast --> server --.
//      |                                               |-- events --> transcript
//      '-- a player's: deliver, call, ask --> place ---'
//                                             client | packets down, up
//
// A program replays the lines of a script one after another, and tells what each does:
//
//     let mut replay = Replay::new(alloc, &classes)?;
//     for line in lines.iter() {
//         for event in replay.step(line)?.iter() {
//             print(alloc, &mut transcript, &classes, event)?;
//         }
//     }
//
// It stands on `net_driver` for the server, on `replay_places` for a player's client and packets, and
// on `script_lines` for lines and events. It promises that each line that may follow those before it
// does and tells exactly what the story of the lines says (`Stands`, `after_line`), whoever else
// plays; after want of memory each line is answered so. A line's work doesn't grow with the lines
// behind it. It tells how many pairs of a player and an actor are settled. It reads no script and
// prints nothing.
#![tactic(auto)]

mod both;
mod joining;
pub mod laws;
mod replay;
pub mod server;
mod settling;
mod telling;

pub use class_layout::Classes;
pub use net_core::{Memory, Player};
pub use replay::Replay;
pub use script_lines::{Event, EventList, Line};
