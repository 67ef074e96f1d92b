// The server's end of one player's connection, after the server's half of Unreal's net connection:
// the sender of actors, the link and the channels, which go together.
//
//     ticks --tick--> sender of actors --> channels --> link --> packets
//     calls --call--> the actor's channel, or a wait for the next tick
//     datagrams --take-> link --> channels --> the player's calls, and a verdict
//
// A server that keeps an end for a player:
//
//     let mut end = ServerEnd::new(alloc, player, 100_000, Version::Two)?;
//     let ticked = end.tick(&sight, &changes, &classes)?;
//     // the packets of ticked.sent go to the player; after ticked.stalled the end is dead
//     let answer = end.call(alloc, called, actor, number, &args)?;
//     let heard = end.take(alloc, &world, datagram)?;
//
// It stands on `actor_sender`, `link_end` and `channel_table` for what is kept and sent, on
// `server_hearing` for what is heard, and on `payload_writing` for the bits of a call. It promises that
// the parts stand for one past, and that each answer is that of the definitions over it. After
// `Memory` an end is of no more use. It knows no other connection, no world of its own and no socket.
#![tactic(auto)]

mod calling;
mod server_end;
mod taking;

pub use server_end::{EndTick, ServerEnd};
