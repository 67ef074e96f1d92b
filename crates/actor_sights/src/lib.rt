// What players see of actors, for those who send it: an actor's values as a tick samples them, once
// for all connections, and the entries of a player's sight that are built of these values.
//
//     world --sampled(actor)--> values --seen(player, actor, look)--> an entry of the sight
//                                  \---> shadow_changes
//
// It stands on `actor_sender` for what a sight is, on `world_table` for looks, values and switches,
// on `class_layout` for classes, and on `rep_conditions` for which properties a connection sees. It
// promises that an entry is what the definitions say that the player sees of the actor, and nothing
// of another connection: its values are those that the player may see, each of its handle's kind.
// Which actors are relevant is not asked here.
//
// A caller, who samples an actor and shows it to two players:
//
//     let values = sampled(alloc, world, actor, class, &mut steps)?;
//     let to_owner = seen(alloc, world, owner, actor, &look, values.as_slice())?;
//     let to_other = seen(alloc, world, other, actor, &look, values.as_slice())?;
#![tactic(auto)]

mod sampling;
mod showing;
#[cfg(test)]
mod tests;

pub use actor_sender::{Seen, Sight};
pub use net_core::Memory;
pub use sampling::{ValueList, sampled};
pub use showing::{gone, seen, seen_asleep};
