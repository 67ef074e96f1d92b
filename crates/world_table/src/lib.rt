// The server's table of actors: what stands of each actor and player after the edits so far.
//
//     actors  [ of guid 2 | of guid 4 | .. ]            class, place, owner, sleep, flushes, team
//                  |           `----------------.
//     cells   [ hp | ammo | team | aim | holder | score | .. ]   a value and a switch each
//
// A game's server applies its edits, and looks at actors and their values:
//
//     let classes = Classes::builtin(alloc)?;
//     let mut world = World::new(alloc, &classes);
//     let spawned = world.apply(Edit::Spawn { class: 0, x: 3, y: 4 })?;
//     let pawn = spawned.ok_or(EditRefusal::NoActor)?;
//     let health = Handle(4);
//     world.apply(Edit::Set { actor: pawn, prop: health, value: Value::U8(75) })?;
//     let look = world.look(pawn, &mut steps); // at (3, 4), of no owner
//     let value = world.value(pawn, health, &mut steps); // Some(Value::U8(75))
//
// It stands on `protocol_model` for the world that a list of accepted edits leaves, where each answer
// is a search in the whole list, and on `class_layout` for the classes that it borrows. It promises
// that every answer is that definition's, though it keeps no list, and that a refused edit changes
// nothing. A look and a value each take one step of the counter that they are passed; the other
// questions take none. It sends nothing and knows no connection: who sees what is decided above.
#![tactic(auto)]

mod actor;
mod added;
mod change;
mod edit;
mod handles;
mod seat;
mod world;

pub use class_layout::{Classes, Value};
pub use edit::{Edit, EditRefusal, Look};
pub use net_core::{Guid, Handle, Memory, Player, Steps};
pub use world::World;
