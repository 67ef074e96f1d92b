// The calls that a datagram hands over to the program, and what came of the datagram.
//
//     bytes --> the end --+--> handed: calls in order, each with what is to be done with it
//                         '--> verdict: Taken, Old, Malformed, Closed with its cause, or Dead
//
// Both ends answer a datagram so:
//
//     let outcome = client.take(&bytes)?;
//     for call in outcome.handed.iter() {
//         if call.verdict == CallVerdict::Run {
//             run(call.actor, call.class, call.call, &call.args);
//         }
//     }
//
// It stands on `value_codec` for arguments and on `class_layout` for the class by whose place a call
// is named. `specs/` has what a call is in the terms of the definitions (`handover_of`), and which
// calls whole payloads hand over (`handover_in`). It has no code.
#![tactic(auto)]

mod outcome;

pub use class_layout::{ArgList, CallVerdict, Guid, Handed, HandedList};
pub use outcome::Outcome;
pub use protocol_model::Verdict;
