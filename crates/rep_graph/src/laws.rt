// Laws of the definitions, each the contract of a function that does nothing.
ghost use Rattle.std.specs.Prelude.{◌≡◌, ℕ, List};
ghost use Rattle.graph_model.specs.Nodes.{Node, Spot};
ghost use Rattle.protocol_model.specs.Value.{Table};
ghost use Rattle.protocol_model.specs.World.{Edits};
ghost use Rattle.rep_graph.specs.Spots.{HoldsSpots, listed_spots, world_spots};

/// A list that has exactly the spots that a row names for a world is those spots.
pub fn listed_spots_are_the_worlds()
    ensures { (row : Node) (table : Table) (edits : Edits) (spots : List Spot) (a player : ℕ)
        → HoldsSpots row table edits spots
        → listed_spots spots a player ≡ world_spots row table edits a player }
{}
