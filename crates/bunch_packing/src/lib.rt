// Link and channels of one end together, in the middle of a tick: bunches go from the channels into
// the tick's packets, as Unreal's net connection sends the bunches of its channels.
//
//     begin_tick | offer_due        | offer_loose ..  | offer_open ..       | end_tick
//     acks       | bunches that are | calls, updates  | an open, made       | the packets
//                | due again        |                 | with its parts      |
//
// A tick is defined over a past into which its packets come last: closes, opens and calls are made
// below them. Here link and channels stand at each step for the past as if the tick were to end
// now (`PacksBoth`), and each call says which step of the definitions it takes them on by.
//
//     link.begin_tick()?;
//     if offer_due(&mut link, &mut table)? {
//         for call in calls.iter() {
//             if offer_loose(&mut link, call.channel, call.payload)?.is_none() {
//                 break;
//             }
//         }
//     }
//     send_all(link.end_tick()?);
//
// It stands on `link_end` for packets and on `channel_table` for bunches, and on `packing_laws` and
// `channel_laws` for what packets of a tick leave as it was. It promises that each bunch that is
// due is offered once, in order, that an open is made exactly where its channel and a packet have
// room, and that nothing is offered after a bunch that found no room. It reads no payload, and
// knows no actor. Want of memory in an offer spends the link; whoever holds both spends the
// channels with it.
#![tactic(auto)]

pub mod laws;
mod making;
mod offers;
mod opens;
#[cfg(test)]
mod tests;

pub use making::push;
pub use offers::{offer_due, offer_loose, offer_made};
pub use opens::{OpenOffer, offer_open};
