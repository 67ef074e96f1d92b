// What the server's end of one connection keeps of the actors that it sends, after the actor
// channels that Unreal keeps for each connection:
//
//     fates move        moved          told to the updates, and to the opens and closes, under way
//     a tick            tick           closes, due bunches, calls, opens and updates, as packets
//     asked             state, was_opened, shows_owned, quiet, settled
//
// A server's end that hears of packets, and sends the packets of a tick:
//
//     for m in moves {
//         sender.moved(m, &mut channels);
//     }
//     if !sender.quiet(actor, dormant, flush) {
//         // its values go into the sight
//     }
//     let sent = sender.tick(&sight, &changes, &mut link, &mut channels, classes)?;
//
// It stands on `sender_steps` and `sender_turns` for its steps, on `sender_records` for what is kept
// of one actor, on `link_end` and `bunch_packing` for packets, on `channel_table` for channels, on
// `shadow_changes` for what has changed, and on `class_layout` for classes and values. It promises
// that what is kept stands for all that the end did (`Keeps`), so that every answer is that of
// the definitions over this whole list; that a channel is given up exactly where its close has
// arrived; and that a tick sends exactly the packets that the definitions send of what the player
// sees. It knows no world, as what a player sees is handed to it, and no other connection.
#![tactic(auto)]

pub mod laws;
mod sender;
#[cfg(test)]
mod tests;

pub use channel_table::ChannelTable;
pub use class_layout::{Classes, Pair, PairList};
pub use link_end::{FateMove, LinkEnd, Sent, SentList};
pub use sender::ActorSender;
pub use sender_records::ActorState;
pub use sender_steps::{Seen, Sight};
pub use shadow_changes::Shadows;
