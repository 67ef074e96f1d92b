// What a tick looks at for all players together: the values that it samples, each actor's once, and
// the sight that the sender of each player's end is handed.
//
//     graph --gather(player)--> relevant --look--> quiet there?  yes: its entry without values
//                                                       |  no
//     world --sampled once a tick--> Noted, change lists -+--> its entry with the values seen
//     graves: destroyed actors  ----- left to close there? yes --> an entry among them, by guid
//
// A server in a tick, which samples for all players before it sends anything:
//
//     let mut noted = Noted::new(alloc, tick);
//     for player in players {
//         let sight = sight_of(alloc, &world, &graph, player, &sender, &graves, &mut changes,
//             &mut noted, &mut steps)?;
//     }
//
// It stands on `actor_sights` for entries and sampled values, on `rep_graph` for who is relevant, on
// `world_table` for looks, on `shadow_changes` for change lists, and on `actor_sender` for what a
// sender has asleep or left to close. It promises that a sight says to its sender what the player is
// shown by the definitions: what is left out of it changes no packet. A tick asks the world once for
// each actor that is relevant to a player, and once for each value of those that it samples. Which
// players there are, and what is sent, it doesn't know.
#![tactic(auto)]

mod graves;
mod looking;
mod noted;

pub use actor_sender::{ActorSender, Seen, Sight};
pub use graves::{Grave, bury, show_graves};
pub use looking::sight_of;
pub use noted::Noted;
