// The server: its world, and its end of each player's connection, after a server of Unreal with its
// net driver and Replication Graph.
//
//     edits  --edit-->  world -- graph of what is relevant to whom -- change lists
//                         | destroyed actors: graves, until nothing of them is left to close
//     joins  --join-->  an end a player:  sender of actors | link | channels
//     ticks  --tick-->  a look for all players together, and then each end sends
//     calls  --call-->  that player's end alone
//     datagrams --take-> that player's end alone --> a verdict, and the player's calls
//
// A game's server:
//
//     let mut server = Driver::new(alloc, &classes)?;
//     server.join(player, 100_000, Version::Two)?;
//     server.edit(Edit::Spawn { class: 0, x: 3, y: 4 })?;
//     for ticked in server.tick(&mut steps)?.as_slice() {
//         // the packets of ticked.sent go to ticked.player
//     }
//     let outcome = server.take(player, datagram)?;
//     for call in outcome.handed.as_slice() {
//         // run it, where its verdict says so
//     }
//
// It stands on `world_table` and `rep_graph` for the world and what goes along with it, on
// `driver_sights` and `shadow_changes` for sights and change lists, and on `server_end` for what an
// end keeps, sends and hears. It promises that each answer and each packet is that of the definitions
// over what this player's own end did, and that nothing of another connection changes, whatever bytes
// come. Want of memory in a call or a datagram ends that player's end alone; in an edit, a join or a
// tick it spends the driver. It has no clock and no socket.
#![tactic(auto)]

mod chair;
mod driver;
mod refusal;
mod report;

pub use class_layout::{Arg, CallAnswer, Classes};
pub use driver::Driver;
pub use handovers::{Handed, HandedList, Outcome};
pub use net_core::{Guid, Memory, Player};
pub use protocol_model::{Verdict, Version};
pub use refusal::JoinRefusal;
pub use rep_graph::RepGraph;
pub use report::{PlayerTick, TickList};
pub use shadow_changes::Shadows;
pub use world_table::{Edit, EditRefusal, World};
