// The reliable bunches that one end makes, on all its channels, kept until they have arrived, after
// the outgoing side of Unreal's channels.
//
// A payload goes as one bunch or several, numbered on its channel from 1 on. A packet carries some;
// what a lost packet carried last is due again, by channel and number, and what arrived, with all
// before it, is forgotten. A channel has at most 256 numbers from the least that hasn't arrived on,
// its span, and all channels together 512.
//
//     channel 3   1 2 3 | 4 5 6 7 |         4 carried by packet 9, 5 and 6 by 10, 7 not yet
//                 gone    span 4            moved(10): 9 is lost, 10 arrived
//                                           due: 4, 7
//
// A caller, the channels of a connection, in a tick and when an acknowledgement came:
//
//     if parts(payload.len()) as u32 <= channels.room(index) {
//         channels.push(index, Mark::Opens { exports: true }, payload)?;
//     }
//     let mut place = channels.due(0, 0);
//     while let Some((index, number)) = place {
//         if let Some(bunch) = channels.bunch(index, number) { write(bunch); }
//         channels.carried(index, number, packet);
//         place = channels.due(index, number + 1);
//     }
//     channels.moved(to);                    // packet `to` arrived, those between are lost
//
// It stands on `reliable_window` for one channel's bunches, on `partial_bunches` for where a
// payload is cut, and on `packet_codec` for bunches. It promises that spans, room and due bunches
// are those of the whole list of what the end did, though it keeps 512 bunches, and that want of
// memory changes nothing. `IndexSet`, in which it keeps the channels whose span isn't 0, also finds
// a free index. It knows no actor, reads no payload and writes no packet.
#![tactic(auto)]

mod channels;
mod cutting;
mod growing;
mod index_set;
mod made_bunch;
mod making;
mod mark;
mod settling;
mod slot;
#[cfg(test)]
mod tests;

pub use bit_io::{Bits, Memory};
pub use channels::OutgoingChannels;
pub use index_set::IndexSet;
pub use mark::Mark;
pub use packet_codec::Bunch;
