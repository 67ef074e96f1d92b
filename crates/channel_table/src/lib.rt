// The channels of one end: reliable bunches made and received, who holds which index, and the
// unreliable calls that wait, as Unreal's net connection keeps its channels.
//
//     layer above -- push, due, carried, moved --> outgoing_channels    bunches until they arrive
//                 -- receive -----------------> incoming_channels    bunches up to whole payloads
//                 -- bind, unbind, free_index -> holders             an actor a channel
//                 -- queue, waiting ----------> calls                until the end of the next tick
//
// A client that is told to open an actor:
//
//     let delivered = table.receive(&bunch)?;
//     for payload in delivered.whole.iter() {
//         if payload.opens {
//             table.bind(payload.channel, actor_of(payload))?;
//         }
//     }
//
// It stands on `outgoing_channels` and `incoming_channels` for the two directions, and on
// `link_end` for moves of fates. It promises that room, due bunches and free indexes are those of
// the whole list of what the end did, that what is received comes out as whole payloads in order,
// each once, and that each actor is bound to one channel and each channel to one actor. It reads
// no payload: which actor a payload opens, and whether a call may be made, is for the layer above.
// Want of memory in `receive` spends a table, as `spend` does.
#![tactic(auto)]

mod calls;
mod holders;
pub mod laws;
mod table;
#[cfg(test)]
mod tests;

pub use calls::Waiting;
pub use incoming_channels::{Delivered, Message, MessageList};
pub use link_end::FateMove;
pub use outgoing_channels::Mark;
pub use packet_codec::Bunch;
pub use protocol_model::Cause;
pub use table::ChannelTable;
