// What a server's connection sends of its actors in a tick, step by step, over plain parts:
//
//     calls that wait    offer_calls                  each where its actor is opened
//     before turns       find_turns                   who has something to send, by score
//     a turn             open_actor                   the open of an actor that wants one
//                        update                       what is due of an actor that is opened
//
// A tick goes over the turns until one finds no room:
//
//     let turns = find_turns(alloc, &mut records, &sight, tick, &changes, classes)?;
//     for turn in turns.iter() {
//         let seen = &sight[turn.place];
//         let ready = if turn.opens {
//             open_actor(alloc, &mut records, .., link, table, seen, tick, &changes, classes)?
//         } else {
//             update(alloc, &mut records, &mut updates, seen, tick, link, classes)?
//         };
//         if !ready {
//             break;
//         }
//     }
//
// It stands on `sender_steps` for what is kept, on `bunch_packing` for packets, on `payload_writing`
// for payloads, on `netguid_map` for segments, and on `turn_laws` for the order of turns. It promises
// that exactly the actors have a turn that have something to send, in the order of their scores; that
// calls, an open and an update are packed as the definitions pack them; and that what is kept goes
// along. No call makes a whole tick of the steps.
#![tactic(auto)]

mod calls;
mod opening;
mod opens;
mod turns;
#[cfg(test)]
mod turns_tests;
mod updating;

pub use calls::offer_calls;
pub use class_layout::{Classes, Pair, PairList};
pub use opening::{known_whatever_is_sent, needed_is_exported, packets_are_unseen};
pub use opens::{offers_are_unseen, open_actor, opens_serve_nobody};
pub use sender_steps::{Seen, Sight};
pub use turns::{Turn, find_turns, is_due};
pub use updating::update;
