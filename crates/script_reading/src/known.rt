// What the lines before leave for those after them.
ghost use Rattle.std.specs.Prelude.{◌≡◌, ◌<◌, ◌/◌, ◌-◌, ◌∷◌, ◌++◌, [], length, true, option_map, OnOk};
ghost use Rattle.protocol_model.specs.Search.{is_among};
ghost use Rattle.protocol_model.specs.Value.{Table};
ghost use Rattle.protocol_model.specs.World.{class_at};
ghost use Rattle.script_reading.specs.Kept.{nothing, actor_at, destroyed_at};
ghost use Rattle.script_reading.specs.KeptIn.{actor_seen, kept_in, players_of};

use net_core::{Guid, Memory};
use protocol_model::limits::SPAWN_LIMIT;
use std::alloc::Global;

/// An actor that was spawned: the place of its class in the table, and whether it isn't destroyed.
#[derive(Clone, Copy)]
pub(crate) struct Seen {
    pub class: u16,
    pub alive: bool,
}

/// The actors in the order of their spawns, and the players who joined.
#[derive(Drop)]
pub(crate) struct Known {
    actors: Vec<Seen>,
    joined: Vec<u16>,
}

fn is_among(numbers: &[u16], number: u16) -> bool
    ensures { result ≡ is_among number numbers.now }
{
    numbers.iter().any(|n| *n == number)
}

impl Known {
    /// Before the first line.
    pub(crate) fn new(alloc: Global) -> Known
        ensures { (table : Table) → kept_in table result ≡ nothing }
    {
        Known {
            actors: Vec::new(alloc),
            joined: Vec::new(alloc),
        }
    }

    /// The player joined.
    pub(crate) fn has_joined(&self, player: u16) -> bool
        ensures { result ≡ is_among player (players_of self.now) }
    {
        is_among(self.joined.as_slice(), player)
    }

    /// How many players joined.
    pub(crate) fn joined_count(&self) -> usize
        ensures { result ≡ length (players_of self.now) }
    {
        self.joined.len()
    }

    /// How many actors were spawned.
    pub(crate) fn spawn_count(&self) -> usize
        ensures { (table : Table) → result ≡ length (kept_in table self.now).actors }
    {
        self.actors.len()
    }

    /// The actor of this spawn, counted from 1, with its guid.
    pub(crate) fn actor(&self, number: i128) -> Option<(Guid, Seen)>
        ensures { (table : Table) → option_map (λ r. (r.0, actor_seen table r.1)) result
            ≡ actor_at (kept_in table self.now) number }
    {
        if number < 1 || number > SPAWN_LIMIT as i128 {
            return None;
        }
        let number = number as u32;
        let seen = *self.actors.get(number as usize - 1)?;
        Some((Guid(2 * number), seen))
    }

    /// The player joins.
    pub(crate) fn join(&mut self, player: u16) -> Result<(), Memory>
        ensures { OnOk result ((table : Table) → kept_in table self.new
            ≡ record (kept_in table self.old) {
              players = (kept_in table self.old).players ++ player ∷ [];
            }) }
    {
        self.joined.push(player)?;
        Ok(())
    }

    /// An actor of the class is spawned.
    pub(crate) fn spawn(&mut self, class: u16) -> Result<(), Memory>
        ensures { OnOk result ((table : Table) → kept_in table self.new
            ≡ record (kept_in table self.old) {
              actors = (kept_in table self.old).actors
                  ++ record { class = class_at table class; alive = true } ∷ [];
            }) }
    {
        self.actors.push(Seen { class, alive: true })?;
        Ok(())
    }

    /// The actor of this guid is destroyed.
    #[tactic(auto, using(crate::proofs::Keeping::destroyed_past))]
    pub(crate) fn destroy(&mut self, actor: Guid)
        ensures { (table : Table) → kept_in table self.new
            ≡ record (kept_in table self.old) {
              actors = destroyed_at (actor / 2 - 1) (kept_in table self.old).actors;
            } }
    {
        let place = (actor.0 as usize / 2).saturating_sub(1);
        if place < self.actors.len() {
            self.destroy_at(place);
        }
    }

    fn destroy_at(&mut self, place: usize)
        requires { place < length self.old.actors.items }
        ensures { (table : Table) → kept_in table self.new
            ≡ record (kept_in table self.old) {
              actors = destroyed_at place (kept_in table self.old).actors;
            } }
    {
        let class = self.actors[place].class;
        self.actors[place] = Seen {
            class,
            alive: false,
        };
    }
}
