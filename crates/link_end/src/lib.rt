// One end's packets: numbered, packed within a budget a tick, and taken, as Unreal's net connection
// flushes its send buffer and receives packets.
//
// A tick begins with what the peer is owed: in version one the acknowledgements of the packets
// taken, in version two a head with the history of them, in each packet. Entries follow in the
// order in which they are offered, in the current packet or in a new one, while the packets before
// it have fewer bits than the budget and fewer than 4,096 packets are open.
//
//     begin_tick  |  number, head | acks ..
//     offer, ..   |                         bunch | bunch | .. | end bit
//     offer       |  number, head | bunch | ..                 | end bit
//     end_tick    +--> the packets, or an empty one that answers or asks
//
//     take        <--- a datagram:  Moved{from, to}, .., Bunch, Bunch, ..
//
// It stands on `packet_codec` for the bits of packets, on `ack_book` for numbers and fates, and on
// `packing_laws` for what packets leave as it was. It promises that a tick's packets are those of
// the definitions for the items offered, in fewer bits than the budget and one packet's more, and
// that a packet taken tells exactly its moves of fates and its bunches, up to the first
// acknowledgement of what wasn't sent. A datagram that is malformed or old changes nothing. It
// knows no channel and no actor, keeps no payload once that is packed, and has no clock. An end
// that stalls is for the layer above to close.
//
// Want of memory spends a link, as `spend` does: from then on each call that may answer `Memory`
// does.
//
//     link.begin_tick()?;
//     while let Some(bunch) = due.next() {
//         carried(bunch, link.offer(&Rec::Bunch(bunch))?);    // up to `NoRoom`
//     }
//     send_all(link.end_tick()?);
//
//     for entry in link.take(datagram)?.entries.as_slice() {
//         match entry {
//             Entry::Moved(moved) => settle(moved.from, moved.to),
//             Entry::Bunch(bunch) => hear(bunch),
//         }
//     }
#![tactic(auto)]

mod arrival;
mod begin;
mod hear;
pub mod laws;
mod link;
mod packets;
mod sent;
#[cfg(test)]
mod tests;

pub use ack_book::BadAck;
pub use arrival::{Arrival, Entry, EntryList, FateMove, OfferRefusal, TakeRefusal};
pub use link::LinkEnd;
pub use packet_codec::{Bunch, Rec, Version, Why};
pub use packets::ENTRY_MOST;
pub use sent::{Sent, SentList};
