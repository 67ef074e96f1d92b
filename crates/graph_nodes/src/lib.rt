// The persistent nodes of a replication graph, after Unreal's: lists of actors that many viewers
// share and that are kept from one tick to the next, so that what a viewer may see is found without
// going through the world.
//
// A node holds spots, one for each pair of an actor and a player: where the actor stands and to
// whom it is relevant. Only the players' node has pairs with a player.
//
//                  place, moved, remove                       gather
//     GridNode     actors near to something, by cells         the list of the viewer's cell
//     AlwaysNode   actors relevant to all                     its one list
//     PlayerNode   an actor and its owner, or one added       the list of the viewer's player
//     DormantNode  sleeping actors, near or for all           the list of the cell, and the one for all
//     TeamNode     actors given to a team                     the list of the viewer's team
//     AnyNode      one of these
//
// A caller. Lists are shared, not copied, until their actors are asked for:
//
//     grid.place(spot)?;
//     grid.moved(Spot { x, ..spot })?;
//
//     let mut lists = Lists::new(alloc);
//     grid.gather(viewer, &mut lists)?;
//     always.gather(viewer, &mut lists)?;
//     for actor in lists.actors()?.iter() { .. }
//
// It stands on `actor_lists` for lists that are shared, on `graph_model` for which spots a node's
// rule admits for a viewer, on `protocol_model` for reaches and limits, and on `net_core` for names.
// It promises, for every node alike, that `gather` appends exactly the held actors that the rule
// admits, each once; that taking out what isn't held changes nothing; and that a list which was
// handed out stays as it was. An actor that moves within its cells changes no list. Who is relevant
// in the end is decided above: the grid gives all actors whose square touches the viewer's cell,
// whatever their distance.
#![tactic(auto)]

mod always;
mod any;
mod cells;
mod dormant;
mod grid;
mod holders;
mod node;
mod players;
mod spot;
mod teams;
#[cfg(test)]
mod tests;

pub use actor_lists::Lists;
pub use always::AlwaysNode;
pub use any::AnyNode;
pub use dormant::DormantNode;
pub use grid::GridNode;
pub use net_core::{Guid, GuidList, Memory, Player};
pub use node::GraphNode;
pub use players::PlayerNode;
pub use protocol_model::Reach;
pub use spot::{Spot, Viewer};
pub use teams::TeamNode;
