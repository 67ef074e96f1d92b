// Payloads of a server, as its client reads them.
//
//     channel 0   | 1 | actor |                                       unopened: Gone
//     close       | |                                                 unopened: Close
//     call        | 1 | actor | number | argument | .. |              unopened: Call
//     update      | 0 | handle | value | .. | 0 |                     unopened: Update
//     open        | segments | actor | class | handle | value | .. |  open
//
// A client that was handed a whole payload reads it by the copies that it keeps:
//
//     let mut reader = bits.reader();
//     if first.opens {
//         let read = open(alloc, &mut reader, classes, &mut names, &copies, channel, exports)?;
//         copies.open(classes, channel, read)?;
//     } else {
//         match unopened(alloc, &mut reader, classes, &copies, first)? { .. }
//     }
//
// It stands on `payload_reading` for the fields, on `netguid_map` for the names that opens export
// and on `actor_copies` for what is known of actors. It promises that what is read, and the first
// broken rule with the bits that were left there and its cause, are those of the definitions after
// every past for which copies and names stand; and that an open learns its exports, up to the
// first that is refused. It reads from the bits where they lie, and changes no copy.
#![tactic(auto)]

mod exports;
pub mod laws;
mod opens;
mod payloads;
#[cfg(test)]
mod tests;

pub use actor_copies::{ActorCopy, CopyList, ReadOpen};
pub use bit_io::BitReader;
pub use netguid_map::Names;
pub use opens::open;
pub use payload_reading::{Classes, Guid, PairList, ReadCall, Stop};
pub use payloads::{First, Payload, ReadPeerCall, unopened};
