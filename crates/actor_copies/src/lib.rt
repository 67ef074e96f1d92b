// The copies of actors that a client keeps, and what payloads make of them.
//
//     open ------> on a channel --- update: values ---.
//       ^            |     ^                          |
//       |            |     '--------------------------'
//       |            +-- dormant close --> asleep, without a channel --- Gone --> none
//       '------------|------------------------'
//                    '-- plain close --> none
//
// A client reads a payload, and then applies what it was:
//
//     let holder = copies.on_channel(bunch.channel);
//     copies.update(bunch.channel, &values);
//     copies.close(bunch.channel, bunch.sleeps);
//     for copy in copies.in_order()? { .. }
//
// It stands on `class_layout` for values and the classes whose initial ones a copy begins with, on
// `payload_reading` for the classes by which payloads are read, and on the laws of copies in
// `payload_laws`. It promises that copies that stood for a past (`Stands`) stand for it with each
// payload that is applied, so that each has the values that were applied last; that each is found
// by its actor and by its channel; and that want of memory changes none. It reads no bits, and
// knows neither bunches nor names: that a channel is free for an open is the caller's to see.
#![tactic(auto)]

mod apply;
mod copies;
mod copy;
mod index;
pub mod laws;
#[cfg(test)]
mod tests;
mod values;

pub use class_layout::{Classes, Guid, Pair, PairList};
pub use copies::CopyList;
pub use copy::{ActorCopy, ReadOpen};
