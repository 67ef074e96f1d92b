// What live ends tell, as acts: the lines of events, of verdicts on datagrams and of refusals, and the
// packets of a tick, each sent before its line is written.
//
//     events, verdicts ── lines ──▶ acts
//     a tick's packets ── datagram, line, datagram, line ──▶ acts
//
// An end that ticked tells what it sent:
//
//     let ticked = client.tick()?;
//     tell_tick(alloc, &classes, teller, ticked.sent, ticked.stalled, &mut acts)?;
//
// It stands on `live_acts` for acts, on `event_text` for lines and on `live_model` for what is told.
// It promises the acts of the definitions for each. It does nothing outside.
#![tactic(auto)]

mod lines;
#[cfg(test)]
mod tests;
mod ticking;

pub use lines::{tell, tell_absent, tell_got, tell_refused};
pub use live_acts::{Act, ActList, Memory, Peer};
pub use ticking::{Side, Teller, tell_tick};
