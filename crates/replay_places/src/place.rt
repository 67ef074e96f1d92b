// A player's place.
ghost use Rattle.std.specs.Prelude.{◌≡◌, ℕ, IfOk};
ghost use Rattle.class_layout.specs.Tables.{Layout};
ghost use Rattle.replication_model.specs.Story.{new_player};
ghost use Rattle.replay_places.specs.Places.{IsPlace};

use class_layout::Classes;
use client_world::Client;
use net_core::{Blob, Items, Memory, Player};
use protocol_model::Version;
use std::alloc::Global;

/// A player's client, each packet that the server and the client sent, oldest first, and how many
/// of them there were when new ones were last delivered.
#[derive(Drop)]
pub struct Place<'a> {
    pub player: Player,
    pub client: Client<'a>,
    pub down: Items<Blob>,
    pub up: Items<Blob>,
    pub told_down: usize,
    pub told_up: usize,
}

impl<'a> Place<'a> {
    /// The place of a player who joins.
    pub fn new(
        alloc: Global,
        classes: &'a Classes,
        player: Player,
        version: Version,
    ) -> Result<Place<'a>, Memory>
        ensures player { IfOk result (λ k. k.player ≡ player) }
        ensures stands { IfOk result (λ k. (budget : ℕ)
            → IsPlace classes.now k (new_player player budget version)) }
    {
        let client = Client::new(alloc, classes, version)?;
        Ok(Place {
            player,
            client,
            down: Items::new(alloc),
            up: Items::new(alloc),
            told_down: 0,
            told_up: 0,
        })
    }
}
