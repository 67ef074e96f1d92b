// A client of a live run as a state machine, which does nothing outside: it asks to join, hears
// datagrams, ticks, and tells its copies at the end, and appends what it does to a list of acts.
//
//     asking --- a Welcome of its player ---> welcomed: hears packets, ticks, tells its copies
//        '------ a Failure -----------------> refused: the caller ends the run
//
// A turn of a client that heard one datagram:
//
//     let mut caller = Caller::new(alloc, &classes, digest, Version::One, server, 0, player)?;
//     caller.ask(&mut acts)?;
//     caller.hear(from, &datagram, &mut acts)?;
//     if !caller.refused() {
//         caller.tick(&mut acts)?;
//     }
//     perform(&mut link, &mut out, acts)?;
//
// It stands on `handshakes` for the datagrams with which it joins, on `client_world` for the end of
// the connection and the copies, and on `live_telling` for acts. It promises that each call does and
// appends what the definitions of a live client say (`Does`), for every list of bytes from every
// peer. When it is asked, and up to which datagram it hears in a turn, is the caller's business.
#![tactic(auto)]

mod caller;
#[cfg(test)]
mod tests;

pub use bit_io::Memory;
pub use caller::Caller;
pub use class_layout::Classes;
pub use live_acts::{Act, ActList};
pub use live_links::Peer;
pub use net_core::Player;
pub use protocol_model::Version;
