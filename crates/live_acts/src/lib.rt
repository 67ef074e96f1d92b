// What live ends do outside: datagrams sent on a link, and text written to a sink, in order.
//
//     server, client ── acts ──▶ perform ── datagrams ──▶ link
//                                        └─ text ───────▶ sink
//
// An end appends what it does to a list, and the program performs the list:
//
//     let mut acts = ActList::new(alloc);
//     server.tick(&mut acts)?;
//     perform(&mut sink, &mut link, acts)?;
//
// It stands on `live_model` for what acts mean, on `live_links` for links and on `net_core` for sinks.
// It promises that a list that was performed is exactly what was sent on each end and written, that a
// list that was cut short is a front of each, and which outside failed. It hears nothing.
#![tactic(auto)]

mod act;
mod performing;

pub use act::{Act, ActList, same_peer};
pub use bit_io::{Blob, Memory};
pub use live_links::{Link, LinkRefusal, Peer};
pub use net_core::{Items, Sink};
pub use performing::{Stop, perform};
