// What a server's end of one connection makes of a datagram: packets that arrived or are lost, calls
// that the player makes, and what it says of it, after the receiving half of Unreal's net connection.
//
//     datagram -- link_end --> moves of fates -- actor_sender --> channels, updates, opens, closes
//                      '-----> bunches -- channel_table --> whole payloads -- calls --> handed over
//                                                                  |
//                      the first rule that is broken <-------------+--> verdict
//
// A server that has a datagram of a player:
//
//     let heard = take(alloc, &world, player, &mut link, &mut table, &mut sender, bytes)?;
//     for call in heard.outcome.handed.as_slice() {
//         // run it, where its verdict says so
//     }
//     if let Some(top) = heard.closed {
//         // the end is dead; `top` is the greatest number that it took
//     }
//
// It stands on `link_end` for packets and their numbers, on `channel_table` for payloads that are
// whole, on `actor_sender` for what was opened, on `payload_reading` for the fields of a call, and on
// `world_table` for its class and its owner. It promises that the calls, the verdict and what is kept
// then are those of the definitions after every past for which the parts stand, whatever the bytes
// are. It keeps nothing itself, runs no call, and knows no other connection.
#![tactic(auto)]

mod bunches;
mod calls;
mod datagrams;
mod entries;
#[cfg(test)]
mod tests;

pub use datagrams::{Heard, take};
pub use handovers::{Handed, HandedList, Outcome};
