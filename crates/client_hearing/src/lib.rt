// What a client hears: datagrams of its server, up to the copies of actors and the calls handed over.
//
//     bytes -- link --> Moved --------------------------------> channels
//                       Bunch -- channels --> whole payloads
//                                               open    names learnt, a copy on its channel
//                                               update  values of the copy that holds the channel
//                                               close   the copy sleeps, or is gone
//                                               Gone    a sleeping copy is gone
//                                               call    handed over: Run, or Stale
//
// A client that is alive, for each datagram:
//
//     let heard = take(alloc, classes, &mut link, &mut table, &mut names, &mut copies, &bytes)?;
//     for call in heard.outcome.handed.iter() {
//         run(call);
//     }
//
// It stands on `link_end` for packets, on `channel_table` for whole payloads, on `client_payloads` for
// their reading, on `netguid_map` and `actor_copies` for what is kept of them, and on the laws of
// `client_laws` and `hearing_laws`. It promises that the verdict, the calls that are handed over and
// what stands afterwards are those of the definitions for every list of bytes and every past for which
// the parts stood; after a rule that is broken the copies alone stand. It sends nothing, and whether the
// end is alive is for its caller to know.
#![tactic(auto)]

mod bunches;
mod datagrams;
mod halt;
mod opens;
mod packets;
mod payloads;
mod stops;

pub use datagrams::{Heard, take};
