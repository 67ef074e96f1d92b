// What all nodes promise.
ghost use Rattle.std.specs.Prelude.{◌≡◌, ◌++◌, ℕ, Bool, true, List, is_err, OnOk, OnErr, IsErr};
ghost use Rattle.graph_model.specs.Nodes.{Node, Viewer as ViewerSpec};
ghost use Rattle.graph_nodes.specs.Held.{Spots, CanPlace, CanMove, with_spot, without_pair, spot_in, viewer_in, player_in};
ghost use Rattle.graph_nodes.specs.Gathers.{Gathers};

use crate::spot::{Spot, Viewer};
use actor_lists::Lists;
use net_core::{Guid, Memory, Player};

/// A node of the graph. It holds spots, one for each pair of an actor and a player (none but in the
/// players' node), in no order.
///
/// After `Memory` of `place`, `moved` or `remove` the node is spent: each of its calls answers
/// `Memory`. No call but these three changes it, and a list that was handed out stays as it was.
pub trait GraphNode {
    /// The row of the table of nodes that says what this one holds and admits.
    ghost row: { Self → Node };

    /// The node holds these spots.
    ghost stands: { Self → Spots → Type 0 };

    /// The actors that it gives to a viewer.
    ghost given: { Self → ViewerSpec → List ℕ };

    ghost is_spent: { Self → Bool };

    /// Adds a spot that the node's row names, whose pair isn't held.
    fn place(&mut self, s: Spot) -> Result<(), Memory>
        ensures stands { OnOk result ((spots : Spots) → stands self.old spots
            → CanPlace (row self.old) spots (spot_in s)
            → stands self.new (with_spot spots (spot_in s))) }
        ensures row { row self.new ≡ row self.old }
        ensures spent { is_spent self.new ≡ is_err result }
        ensures dead { is_spent self.old ≡ true → IsErr result };

    /// Puts a spot that the node's row names in place of the one that its pair has.
    fn moved(&mut self, s: Spot) -> Result<(), Memory>
        ensures stands { OnOk result ((spots : Spots) → stands self.old spots
            → CanMove (row self.old) spots (spot_in s)
            → stands self.new (with_spot spots (spot_in s))) }
        ensures row { row self.new ≡ row self.old }
        ensures spent { is_spent self.new ≡ is_err result }
        ensures dead { is_spent self.old ≡ true → IsErr result };

    /// Takes out the spot of a pair. A pair that isn't held changes nothing.
    fn remove(&mut self, actor: Guid, player: Option<Player>) -> Result<(), Memory>
        ensures stands { OnOk result ((spots : Spots) → stands self.old spots
            → stands self.new (without_pair spots actor (player_in player))) }
        ensures row { row self.new ≡ row self.old }
        ensures spent { is_spent self.new ≡ is_err result }
        ensures dead { is_spent self.old ≡ true → IsErr result };

    /// Appends exactly the held actors that the node's rule admits for the viewer, each once. What
    /// the lists held before stays, and after `Memory` they are as they were.
    fn gather(&self, viewer: Viewer, lists: &mut Lists) -> Result<(), Memory>
        ensures ok { OnOk result (lists.new ≡ lists.old ++ given self.now (viewer_in viewer)) }
        ensures gathers { (spots : Spots) → stands self.now spots
            → Gathers (row self.now) spots (viewer_in viewer) (given self.now (viewer_in viewer)) }
        ensures err { OnErr result (lists.new ≡ lists.old) }
        ensures dead { is_spent self.now ≡ true → IsErr result };
}
