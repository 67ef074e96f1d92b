// What a tick answers.
use link_end::SentList;
use net_core::{Items, Player};

/// What a tick sent a player who joined, and whether the player's end stalled in it. Of an end that
/// was dead before nothing is sent.
#[derive(Debug, Drop)]
pub struct PlayerTick {
    pub player: Player,
    pub sent: SentList,
    pub stalled: bool,
}

/// One for each player who joined, ascending.
pub type TickList = Items<PlayerTick>;
