// A client: the copies of the actors that its server shows it, and its end of the connection.
//
//     datagrams --> take --+--> copies: each actor's class, channel and values
//                          +--> the calls handed over, each Run or Stale
//                          '--> Taken, Old, Malformed, Closed, Dead
//
//     call --> Queued, NotOpen, NotOwner, WindowFull, Dead        tick --> packets
//
//     alive --- Closed, a stall --> dead: copies stay, nothing else happens
//       '------ want of memory ---> lost: dead, and no copy is promised
//
// A program that plays:
//
//     let mut client = Client::new(rt.alloc(), &classes, Version::One)?;
//     let outcome = client.take(&datagram)?;
//     for call in outcome.handed.iter() {
//         run(call);
//     }
//     client.call(pawn, 1, &arguments)?;
//     send_all(client.tick()?.sent);
//
// It stands on `client_hearing` for what datagrams do and on `client_sending` for calls and ticks; it
// keeps the parts of which those two speak, and whether the end is alive. It promises that verdicts,
// calls handed over, answers, packets and copies are those of the definitions for all that the client
// heard and was asked, whatever bytes came (`Plays`). It knows no world and no other client, and it
// predicts nothing.
#![tactic(auto)]

mod client;
#[cfg(test)]
mod tests;

pub use actor_copies::{ActorCopy, CopyList};
pub use class_layout::{Arg, CallAnswer, Classes};
pub use client::Client;
pub use client_sending::ClientTick;
pub use handovers::Outcome;
pub use link_end::{Sent, SentList};
pub use net_core::{Guid, Memory};
pub use protocol_model::{Verdict, Version};
