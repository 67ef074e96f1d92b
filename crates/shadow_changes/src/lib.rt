// Change lists: which values of which actors changed since a tick, for all connections at once, as
// Unreal's replication layout keeps a history of changelists for each object.
//
// An actor's values are sampled at ticks. What differs from the sample before is noted in a list,
// and a connection that looked last at tick t is told each handle that was noted above t.
//
//     tick         1         2     3     4       since(2)  4 at tick 3
//     x, y         5, 6      5, 6  5, 6  5, 6    since(1)  4 at tick 3
//     hp           100       90    100   100     since(0)  1 and 2 at tick 1, 4 at tick 3
//     its list     {1, 2, 4} {4}   {4}   none
//
// A server samples each actor once a tick, and each of its connections asks:
//
//     shadows.sample(actor, tick, &values)?;
//     for connection in &mut connections {
//         for change in shadows.since(actor, connection.looked_at)?.iter() {
//             connection.mark(actor, change.prop);
//         }
//     }
//
// It stands on `class_layout` for values, on `net_core` for lists and on `circular_buffer` for the
// lists of an actor. It promises that what is listed is what a search of all samples would find,
// though it keeps at most 64 lists an actor and merges the two oldest. It knows no connection, no
// world and no clock: when an actor is sampled, and which of its values a connection may see, is
// the caller's.
#![tactic(auto)]

mod change;
mod lists;
mod noted;
mod shadows;
#[cfg(test)]
mod tests;

pub use change::{Change, ChangeList};
pub use class_layout::Value;
pub use net_core::{Guid, Handle, Memory};
pub use shadows::Shadows;
