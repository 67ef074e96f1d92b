// The definitions of the Replication Graph: which spots each of its nodes holds for a world, which
// viewers a node admits, and which actors the nodes list for a player. What a server looks at in a
// tick is said by them, so that it needn't look at the whole world.
//
//     GridNode     near ones, by cells of 10,000      AlwaysNode   those of reach Always
//     DormantNode  sleeping ones, apart from both     PlayerNode   a player's own and added ones
//     TeamNode     those that were given to a team
//
//     10,000 ┌────────┬────────┐   a is listed for v: the square round a, as wide as its cull
//            │      v │ a      │   distance each way, touches the cell of v. Whether v is near
//          0 └────────┴────────┘   enough is asked afterwards.
//            0     10,000   20,000
//
// It has definitions, laws about them and no code. It stands on `protocol_model` alone, so that a
// change of a node proves nothing of a connection again. It promises that the graph misses nobody:
// each actor that is relevant to a player is listed for the player. It does not say in which order
// actors are listed, nor what a node keeps in memory.
//
// A graph that keeps nodes cites it so, with a relation `Stands` of its own:
//
//     pub fn listed(&self, player: u32) -> Vec<u32>
//         ensures {
//             (edits : Edits) → Stands self.now edits
//             → result ≡ filter (is_listed table edits player) (actors_of edits)
//         }
#![tactic(auto)]

ghost use Rattle.std.specs.Prelude.{◌≡◌, ℕ, true, false, pos};
ghost use Rattle.protocol_model.specs.Value.{Table};
ghost use Rattle.protocol_model.specs.World.{Edits, lives};
ghost use Rattle.protocol_model.specs.Sight.{is_relevant};
ghost use Rattle.graph_model.specs.Nodes.{Node, is_held_in, touches};
ghost use Rattle.graph_model.specs.Listed.{is_listed};

/// The graph misses nobody: an actor that is relevant to a player is listed for the player.
#[tactic(auto, using(crate::proofs::Relevant::relevant_is_listed))]
pub fn relevant_actors_are_listed()
    ensures { (table : Table) (edits : Edits) (player actor : ℕ)
        → is_relevant table edits player actor ≡ true
        → is_listed table edits player actor ≡ true }
{}

/// At the border of a cell: an actor at 10,000 with a cull distance of 1,000 touches the cell of a
/// viewer at 9,999, and one at 11,000 doesn't.
pub fn borders_of_cells_are_touched()
    ensures near { touches 1000 (pos 10000) (pos 9999) ≡ true }
    ensures end { touches 1000 (pos 10999) (pos 9999) ≡ true }
    ensures far { touches 1000 (pos 11000) (pos 9999) ≡ false }
{}

/// A destroyed actor is held by no node, and listed for nobody.
pub fn destroyed_actors_are_held_nowhere()
    ensures held { (node : Node) (table : Table) (edits : Edits) (actor player : ℕ)
        → lives edits actor ≡ false
        → is_held_in node table edits actor player ≡ false }
    ensures listed { (table : Table) (edits : Edits) (player actor : ℕ)
        → lives edits actor ≡ false
        → is_listed table edits player actor ≡ false }
{}
