// Which actors are added for which players.
ghost use Rattle.std.specs.Prelude.{◌≡◌, ◌==◌, ◌&&◌, ℕ, [], OnOk, OnErr, if◌then◌else◌};
ghost use Rattle.world_table.specs.Kept.{has_pair};

use net_core::{Guid, Memory, Player};
use std::alloc::Global;
use std::collections::HashSet;
use std::marker::Model;

/// The pairs of an actor and a player for which it is added.
#[derive(Drop)]
pub(crate) struct Added {
    pairs: HashSet<(Guid, Player)>,
}

impl Model for Added {
    ghost use Rattle.std.specs.Prelude.{ℕ, List};

    ghost Value = { List (ℕ × ℕ) };

    ghost view = { λ a. a.pairs.keys };
}

impl Added {
    /// No pair; later calls grow the set in this allocator.
    pub fn new(alloc: Global) -> Added
        ensures { result ≡ [] }
    {
        Added {
            pairs: HashSet::new(alloc),
        }
    }

    /// The actor is added for the player.
    pub fn contains(&self, actor: Guid, player: Player) -> bool
        ensures { result ≡ has_pair self.now actor player }
    {
        self.pairs.contains(&(actor, player))
    }

    /// Adds the actor for the player, or takes it away. `Memory` leaves the set as it was.
    pub fn put(&mut self, actor: Guid, player: Player, on: bool) -> Result<(), Memory>
        ensures each { OnOk result ((a p : ℕ) → has_pair self.new a p
            ≡ (if actor == a && player == p then on else has_pair self.old a p)) }
        ensures err { OnErr result (self.new ≡ self.old) }
    {
        if on {
            self.pairs.insert((actor, player))?;
        } else {
            self.pairs.remove(&(actor, player));
        }
        Ok(())
    }
}
