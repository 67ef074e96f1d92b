// Links: through what a live end hears and sends datagrams, and two links in memory.
//
//     open_end(port)         one end more, 2 at most: 0 is the first
//     recv(end)              a datagram with who sent it, or Quiet where none came in a while
//     send(end, to, bytes)   a datagram
//
//     MemLink    each end hears a script, then Quiets; calls of given numbers fail
//     PipeLink   two ends of one machine that hear each other
//
// An end that answers each datagram until it is quiet:
//
//     link.open_end(7777)?;
//     while let Heard::Datagram { from, bytes } = link.recv(0)? {
//         link.send(0, from, bytes.as_slice())?;
//     }
//
// It stands on `live_model` for what an end hears, on `net_core` for counts and lists, and on
// `bit_io` for bytes. It promises, of each link that tells its ends, that what `recv` answers is what
// was heard and that what `send` took is what was sent, in order, and that `Failed` comes exactly
// where the count of faults rose. What a datagram means it doesn't know, and it opens no socket.
#![tactic(auto)]

mod counted;
mod datagram;
mod end_log;
mod link;
mod mem_link;
mod pipe_end;
mod pipe_link;
#[cfg(test)]
mod tests;

pub use bit_io::{Blob, Memory};
pub use datagram::Datagram;
pub use link::{Heard, Link, LinkRefusal, Peer};
pub use mem_link::{HeardList, MemLink};
pub use net_core::Items;
pub use pipe_link::PipeLink;
