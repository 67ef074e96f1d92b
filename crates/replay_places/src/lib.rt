// A player of a replay: its client, and the packets that both ends of its connection sent.
//
//     server's packets --keep_sent--> down --deliver, deliver_new--> client --.
//                                                                             | events
//     server <-------------------- up <---------------------- tick, call -----'
//
// A replay of a script has a place a player, and does the lines of that player's client there:
//
//     let mut place = Place::new(alloc, &classes, player, Version::One)?;
//     place.keep_sent(alloc, ticked.sent, ticked.stalled, &mut events)?;
//     place.deliver(1, &mut events)?;
//     place.tick(alloc, &mut events)?;
//
// It stands on `client_world` for the client, on `link_end` for packets that were sent, and on
// `script_lines` for the events. It promises that each call does at the player's part of the story
// what the line does there, and appends the events that the line tells (`Does`). Each packet is
// kept, so that any may be delivered again. It has no server: what the server sends it is handed,
// and what the client sends stands in `up`.
#![tactic(auto)]

mod copies;
mod hearing;
mod place;
mod sending;

pub use client_world::Client;
pub use copies::tell_copies;
pub use hearing::{hear, is_kept};
pub use net_core::{Blob, Guid, Items, Memory, Player};
pub use place::Place;
pub use script_lines::{Delivery, Event, EventList};
