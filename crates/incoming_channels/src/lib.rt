// The bunches that one end receives, on all channels, until they are whole payloads.
//
// Reliable bunches are numbered on their channel, after Unreal's reliable buffers. One that comes
// with the next number goes on at once, with those held behind it; one past a gap is held, at most
// 512 on all channels together; one that came before is dropped. What goes on is joined to whole
// payloads, and an unreliable bunch is one by itself.
//
//     bunch -- its channel --> Repeat: nothing
//                              past a gap: held          512 held -> Overrun
//                              next: it and those held behind it -> parts -> whole payloads
//
// A caller, of each bunch of a packet:
//
//     let delivered = channels.receive(&bunch)?;
//     for payload in delivered.whole.iter() {
//         read(payload)?;
//     }
//     if let Some(cause) = delivered.cause {
//         close(cause);
//     }
//
// It stands on `reliable_window` for the numbers of one channel, on `partial_bunches` for parts and
// on `packet_codec` for bunches. It promises that the payloads, and the rule that a bunch breaks
// after them, are those that follow from the whole list of what the end received. It reads no
// payload, knows no actor, and sends nothing.
#![tactic(auto)]

mod channels;
mod flags;
mod held_bunch;
mod message;
mod parts;
mod run;
mod slot;
#[cfg(test)]
mod tests;

pub use bit_io::{Bits, Memory};
pub use channels::IncomingChannels;
pub use message::{Delivered, Message, MessageList};
pub use packet_codec::Bunch;
pub use protocol_model::{Cause, PartWhy};
