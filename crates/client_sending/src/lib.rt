// What a client sends: calls to its server, and the packets of a tick.
//
//     call   | no copy on a channel, or no such call | NotOpen
//            | the player doesn't own the actor      | NotOwner
//            | no room for it                        | WindowFull
//            | reliable: made on the copy's channel; else it waits for a tick | Queued
//
//     tick   | acks | bunches that are due | calls that wait | --> packets
//
// As a client of Unreal sends its server calls on the channels of its actors:
//
//     match call(alloc, &classes, &copies, &mut table, pawn, 1, &args)? {
//         CallAnswer::Queued => ..,
//         refused => ..,
//     }
//     let tick = tick(&mut link, &mut table)?;
//     send_all(tick.sent);
//     if tick.stalled {
//         ..
//     }
//
// It stands on `bunch_packing` for link and channels in a tick, on `actor_copies` for what the
// client knows of actors, on `payload_reading` and `payload_writing` for classes and the bits of a
// call. It promises that answers, packets and the stall are those of the definitions, and that link
// and channels stand for what the client did (`Stands`). It takes no datagram, and keeps nothing
// itself: whoever holds the parts lets go of all of them after a want of memory.
#![tactic(auto)]

mod arguments;
mod calls;
pub mod laws;
mod room;
mod ticks;

pub use actor_copies::{ActorCopy, CopyList};
pub use calls::call;
pub use class_layout::{Arg, CallAnswer, Classes, Guid};
pub use link_end::{LinkEnd, SentList};
pub use ticks::{ClientTick, tick};
