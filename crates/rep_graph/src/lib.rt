// The Replication Graph of a server, after Unreal's: five nodes that go along with the edits of the
// world, and what a player finds relevant through them.
//
//     edit ──▶ world ──▶ apply ──▶ 0 grid · 1 always · 2 players · 3 dormant · 4 teams
//                                     │ what the viewer's cell, player and team have
//     player ────────────▶ gather ────┴──▶ listed ──look──▶ relevant, ascending
//
// A server keeps one for all its connections. It hands each edit on with the look that the actor
// had before it, and asks once a tick and connection:
//
//     let before = world.look(actor, &mut steps);
//     world.apply(edit)?;
//     graph.apply(edit, before, &world)?;
//     for actor in graph.gather(player, &world, &mut steps)?.as_slice() { .. }
//
// It stands on `graph_model` for which spots a node has and whom it admits, on `graph_nodes` for
// the nodes, and on `world_table` for the world, which it is handed and doesn't keep. It promises
// that after each accepted edit every node holds exactly the spots that its row names for the
// world, and that `gather` answers exactly the relevant actors with at most one look for each actor
// that the nodes list for the player: never a walk through the world. It keeps no values, knows no
// connection, and doesn't say which edits a world takes.
#![tactic(auto)]

mod gathering;
mod graph;
mod laws;
mod nodes;
mod pairs;
mod shift;
mod standing;
#[cfg(test)]
mod tests;

pub use graph::RepGraph;
pub use graph_nodes::{AnyNode, GraphNode, Spot, Viewer};
pub use laws::listed_spots_are_the_worlds;
pub use net_core::{Guid, GuidList, Memory, Player, Steps};
pub use world_table::{Edit, Look, World};
